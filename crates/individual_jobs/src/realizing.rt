// From the bytes of a document to the types of its individuals.
ghost use Rattle.std.specs.Prelude.{◌≡◌, false, [], IsTrue, IfOk, IfErr, OnOk, length};
ghost use Rattle.std.specs.List.{list_any};
ghost use Rattle.job_inputs.specs.Limits.{IsOntologyInLimit};
ghost use Rattle.realizer.specs.Entries.{is_spent};
ghost use Rattle.realizer.specs.Stops.{IsStop};
ghost use Rattle.realizer.specs.Listing.{is_listed};
ghost use Rattle.realizer.specs.Realization.{AreTypes, realization_text};
ghost use Rattle.realizer.specs.RealizationLogs.{IsRealizationLog};
ghost use Rattle.realizer.specs.ShownLogs.{ShowsTypes, SettlesClasses};
ghost use Rattle.job_inputs.specs.Answer.{text_bytes};

use job_inputs::{Job, Status, Text, Unread, read_document};
use ofn_reader::Context;
use realizer::{Halt, Oracle, RunLog, Types, realize as types_by};
use shq_terms::{NoMemory, Ontology};
use std::alloc::Global;
use std::mem;

/// The job `realize`: the most specific classes of each individual of a document.
///
/// `budget` is the number of steps that the tests may take together. Where it does not suffice, the text is
/// `undecided`, and the run ends `Undecided`.
#[derive(Clone, Copy)]
pub struct Realize {
    pub budget: u32,
}

impl Job for Realize {
    ghost use Rattle.std.specs.Prelude.{◌≡◌, []};
    ghost use Rattle.job_inputs.specs.Limits.{IsOntologyInLimit};
    ghost use Rattle.job_inputs.specs.Questions.{IsDocumentAlone, IsUnreadDocument};
    ghost use Rattle.individual_jobs.specs.Realizations.{IsRealizing, AnswersRealization};
    ghost use Rattle.individual_jobs.specs.Realizing.{IsRealizedOn};
    ghost use Rattle.individual_jobs.specs.Told.{types_told};

    type Input = (Ontology, Context);

    type Log = RunLog;

    ghost is_input = { λ job bytes i. IsDocumentAlone bytes i.0 i.1 };

    ghost is_unread = { λ job bytes u. IsUnreadDocument bytes u };

    ghost can_answer = { λ job i. IsOntologyInLimit i.0 };

    ghost is_unlogged = { λ log. log ≡ [] };

    ghost answers = { λ job i log s out. IsRealizedOn job.budget i.0 log s out };

    ghost begins = { λ job i log. IsRealizing job.budget log i.0 };

    ghost tells = { λ job bytes out s log. AnswersRealization job.budget bytes out s log };

    ghost told = { λ job bytes out s log h. types_told job.budget bytes out log s h };

    fn read(&self, alloc: Global, bytes: &[u8]) -> Result<(Ontology, Context), Unread> {
        read_document(alloc, bytes)
    }

    fn answer(
        &self,
        alloc: Global,
        input: &(Ontology, Context),
        log: &mut RunLog,
    ) -> Result<(Status, Text), NoMemory> {
        let ontology = &input.0;
        match types_of(alloc, self.budget, ontology, log) {
            Ok(types) => Ok((Status::Done, text_of(alloc, types, ontology)?)),
            Err(Halt::Spent) => Ok((Status::Undecided, Text::Fixed("undecided\n"))),
            Err(Halt::NoMemory) => Err(NoMemory),
        }
    }
}

// The types of the individuals, within a budget of steps.
fn types_of(
    alloc: Global,
    budget: u32,
    ontology: &Ontology,
    log: &mut RunLog,
) -> Result<Types, Halt>
    requires in_limit { IsOntologyInLimit ontology.now }
    requires unlogged { log.old ≡ [] }
    ensures types { IfOk result (AreTypes ontology.now) }
    ensures shown { OnOk result (ShowsTypes ontology.now log.new) }
    ensures classes { OnOk result (SettlesClasses ontology.now log.new) }
    ensures unspent { OnOk result (list_any is_spent log.new ≡ false) }
    ensures listed { IfOk result
        (λ t. IsTrue (is_listed (length ontology.now.classes) (length ontology.now.individuals) t)) }
    ensures halted { IfErr result (IsStop budget log.new) }
    ensures honest { IsRealizationLog ontology.now budget log.new }
{
    let begun = mem::replace(log, RunLog::new(alloc));
    let mut oracle = Oracle::new(alloc, ontology, budget, begun);
    let outcome = types_by(alloc, &mut oracle, ontology);
    *log = oracle.into_log();
    outcome
}

// The text of a realization, with the names of the ontology.
fn text_of(alloc: Global, types: Types, ontology: &Ontology) -> Result<Text, NoMemory>
    requires { IsTrue (is_listed (length ontology.now.classes) (length ontology.now.individuals) types) }
    ensures { IfOk result (λ text. text_bytes text ≡ realization_text ontology.now types) }
{
    let mut out = Vec::new(alloc);
    types.text(&mut out, ontology)?;
    Ok(Text::Bytes(out))
}
