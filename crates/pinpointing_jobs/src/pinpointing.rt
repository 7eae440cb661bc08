// From the question and the bytes of a document to the list of its sets.
use crate::asking::read_input;
use crate::searching::search;
use crate::{Wanted, list_answer};
use job_inputs::{Input, Job, Status, Text, Unread};
use query_asker::RunLog;
use shq_terms::NoMemory;
use std::alloc::Global;

/// The jobs `explain` and `repair`: all justifications or all repairs of a statement on a document. Where the budget
/// does not suffice, the list has what was found, and the run ends `Undecided`.
///
/// `statement` is the text of a `SubClassOf` or a `ClassAssertion`, and `budget` the number of steps and nodes that the
/// search may take.
#[derive(Clone, Copy)]
pub struct Pinpoint<'a> {
    pub wanted: Wanted,
    pub statement: &'a str,
    pub budget: u32,
}

impl<'a> Job for Pinpoint<'a> {
    ghost use Rattle.std.specs.Prelude.{◌≡◌, []};
    ghost use Rattle.job_inputs.specs.Limits.{IsInLimit};
    ghost use Rattle.pinpointing_jobs.specs.Asked.{IsInput, IsNoInput};
    ghost use Rattle.pinpointing_jobs.specs.Begun.{HasSearched};
    ghost use Rattle.pinpointing_jobs.specs.Listings.{IsListAnswer};
    ghost use Rattle.pinpointing_jobs.specs.Answers.{AnswersPinpointing};
    ghost use Rattle.pinpointing_jobs.specs.QuestionTold.{told_of};

    type Input = Input;

    type Log = RunLog;

    ghost is_input = { λ job bytes i. IsInput job.statement.now bytes i };

    ghost is_unread = { λ job bytes u. IsNoInput job.statement.now bytes u };

    ghost can_answer = { λ job i. IsInLimit i.ontology i.query };

    ghost is_unlogged = { λ log. log ≡ [] };

    ghost answers = { λ job i log s out. IsListAnswer job.wanted i.ontology i.query job.budget log s out };

    ghost begins = { λ job i log. HasSearched i.ontology i.query job.budget log };

    ghost tells = { λ job bytes out s log.
        AnswersPinpointing job.wanted job.statement.now job.budget bytes out s log };

    ghost told = { λ job bytes out s log h. told_of job.wanted job.statement.now job.budget bytes out log s h };

    fn read(&self, alloc: Global, bytes: &[u8]) -> Result<Input, Unread> {
        read_input(alloc, self.statement, bytes)
    }

    fn answer(
        &self,
        alloc: Global,
        input: &Input,
        log: &mut RunLog,
    ) -> Result<(Status, Text), NoMemory> {
        let found = search(alloc, &input.ontology, &input.query, self.budget, log)?;
        let outcome = list_answer(alloc, self.wanted, &input.ontology, &found);
        drop(found);
        outcome
    }
}
