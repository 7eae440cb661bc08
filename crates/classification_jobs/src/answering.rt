// From the bytes of a document to the answer.
use crate::deciding::{relation_of, text_of};
use classifier::{RunLog, Stop};
use job_inputs::{Job, Status, Text, Unread, read_document};
use ofn_reader::Context;
use shq_terms::{NoMemory, Ontology};
use std::alloc::Global;

/// The job `classify`: the taxonomy of the document that the bytes are.
///
/// `budget` is the number of steps that the search may make.
#[derive(Clone, Copy)]
pub struct Classify {
    pub budget: u32,
}

impl Job for Classify {
    ghost use Rattle.std.specs.Prelude.{◌≡◌, []};
    ghost use Rattle.job_inputs.specs.Limits.{IsOntologyInLimit};
    ghost use Rattle.job_inputs.specs.Questions.{IsDocumentAlone, IsUnreadDocument};
    ghost use Rattle.classification_jobs.specs.Classifications.{IsClassifying, AnswersClassification};
    ghost use Rattle.classification_jobs.specs.Answering.{IsAnsweredOn};
    ghost use Rattle.classification_jobs.specs.Told.{told_of};

    type Input = (Ontology, Context);

    type Log = RunLog;

    ghost is_input = { λ job bytes i. IsDocumentAlone bytes i.0 i.1 };

    ghost is_unread = { λ job bytes u. IsUnreadDocument bytes u };

    ghost can_answer = { λ job i. IsOntologyInLimit i.0 };

    ghost is_unlogged = { λ log. log ≡ [] };

    ghost answers = { λ job i log s out. IsAnsweredOn job.budget i.0 log s out };

    ghost begins = { λ job i log. IsClassifying job.budget log i.0 };

    ghost tells = { λ job bytes out s log. AnswersClassification job.budget bytes out s log };

    ghost told = { λ job bytes out s log h. told_of job.budget bytes out log s h };

    fn read(&self, alloc: Global, bytes: &[u8]) -> Result<(Ontology, Context), Unread> {
        read_document(alloc, bytes)
    }

    fn answer(
        &self,
        alloc: Global,
        input: &(Ontology, Context),
        log: &mut RunLog,
    ) -> Result<(Status, Text), NoMemory> {
        let ontology = &input.0;
        match relation_of(alloc, self.budget, ontology, log) {
            Ok(relation) => Ok((Status::Done, text_of(alloc, relation, ontology)?)),
            Err(Stop::Spent) => Ok((Status::Undecided, Text::Fixed("undecided\n"))),
            Err(Stop::NoMemory) => Err(NoMemory),
        }
    }
}
