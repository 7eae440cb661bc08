// From the text of a class expression and the bytes of a document to the individuals that are in it.
ghost use Rattle.std.specs.Prelude.{◌≡◌, false, [], IsTrue, IfOk, IfErr, OnOk, length};
ghost use Rattle.std.specs.List.{list_any};
ghost use Rattle.realizer.specs.Entries.{is_spent};
ghost use Rattle.realizer.specs.Stops.{IsStop};
ghost use Rattle.realizer.specs.ClassNames.{are_listed};
ghost use Rattle.realizer.specs.Instances.{AreInstances, instances_text};
ghost use Rattle.realizer.specs.RealizationLogs.{IsInstancesLog};
ghost use Rattle.realizer.specs.ShownLogs.{ShowsInstances};
ghost use Rattle.job_inputs.specs.Answer.{text_bytes};
ghost use Rattle.individual_jobs.specs.Searching.{AreInLimit};

use job_inputs::{Input, Job, Status, Text, Unread, WrittenQuestion, read_question_input};
use realizer::{Halt, NumberList, Oracle, RunLog, instances as found_by, instances_text};
use shq_terms::{Concept, NoMemory, Ontology};
use std::alloc::Global;
use std::mem;

/// The job `instances`: the individuals of a document that are in a class expression.
///
/// `class` is the text of the class expression, and `budget` the number of steps that the tests may take together.
/// Where it does not suffice, the text is `undecided`, and the run ends `Undecided`.
#[derive(Clone, Copy)]
pub struct Instances<'a> {
    pub class: &'a str,
    pub budget: u32,
}

impl<'a> Job for Instances<'a> {
    ghost use Rattle.std.specs.Prelude.{◌≡◌, []};
    ghost use Rattle.job_inputs.specs.Limits.{IsInLimit};
    ghost use Rattle.job_inputs.specs.Inputs.{IsInputOf, IsNoInputOf};
    ghost use Rattle.job_inputs.specs.Questions.{has_element};
    ghost use Rattle.individual_jobs.specs.Realizations.{IsFinding, AnswersInstances};
    ghost use Rattle.individual_jobs.specs.Realizing.{IsFoundOn};
    ghost use Rattle.individual_jobs.specs.Told.{instances_told};

    type Input = Input;

    type Log = RunLog;

    ghost is_input = { λ job bytes i. IsInputOf (has_element job.class.now) bytes i };

    ghost is_unread = { λ job bytes u. IsNoInputOf (has_element job.class.now) bytes u };

    ghost can_answer = { λ job i. IsInLimit i.ontology i.query };

    ghost is_unlogged = { λ log. log ≡ [] };

    ghost answers = { λ job i log s out. IsFoundOn job.budget i.ontology i.query.sub log s out };

    ghost begins = { λ job i log. IsFinding job.budget log i.ontology i.query.sub };

    ghost tells = { λ job bytes out s log. AnswersInstances job.class.now job.budget bytes out s log };

    ghost told = { λ job bytes out s log h. instances_told job.class.now job.budget bytes out log s h };

    fn read(&self, alloc: Global, bytes: &[u8]) -> Result<Input, Unread> {
        read_question_input(alloc, WrittenQuestion::HasElement(self.class), bytes)
    }

    fn answer(
        &self,
        alloc: Global,
        input: &Input,
        log: &mut RunLog,
    ) -> Result<(Status, Text), NoMemory> {
        let ontology = &input.ontology;
        match list_of(alloc, self.budget, ontology, &input.query.sub, log) {
            Ok(found) => Ok((Status::Done, text_of(alloc, found, ontology)?)),
            Err(Halt::Spent) => Ok((Status::Undecided, Text::Fixed("undecided\n"))),
            Err(Halt::NoMemory) => Err(NoMemory),
        }
    }
}

// The list of the instances, within a budget of steps.
fn list_of(
    alloc: Global,
    budget: u32,
    ontology: &Ontology,
    class: &Concept,
    log: &mut RunLog,
) -> Result<NumberList, Halt>
    requires in_limit { AreInLimit ontology.now class.now }
    requires unlogged { log.old ≡ [] }
    ensures found { IfOk result (AreInstances ontology.now class.now) }
    ensures shown { OnOk result (ShowsInstances ontology.now class.now log.new) }
    ensures unspent { OnOk result (list_any is_spent log.new ≡ false) }
    ensures listed { IfOk result (λ found. IsTrue (are_listed (length ontology.now.individuals) found)) }
    ensures halted { IfErr result (IsStop budget log.new) }
    ensures honest { IsInstancesLog ontology.now class.now budget log.new }
{
    let begun = mem::replace(log, RunLog::new(alloc));
    let mut oracle = Oracle::new(alloc, ontology, budget, begun);
    let outcome = found_by(alloc, &mut oracle, ontology, class);
    *log = oracle.into_log();
    outcome
}

// The text of a list of instances, with the names of the ontology.
fn text_of(alloc: Global, found: NumberList, ontology: &Ontology) -> Result<Text, NoMemory>
    requires { IsTrue (are_listed (length ontology.now.individuals) found) }
    ensures { IfOk result (λ text. text_bytes text ≡ instances_text ontology.now found) }
{
    let mut out = Vec::new(alloc);
    instances_text(alloc, &mut out, found.items(), ontology)?;
    Ok(Text::Bytes(out))
}
