// From the question and the bytes of a document to the answer.
use crate::deciding::{decide, status_of, text_of};
use job_inputs::{Input, Job, Status, Text, Unread, WrittenQuestion, read_question_input};
use shq_oracle::RunLog;
use shq_terms::NoMemory;
use std::alloc::Global;

/// The jobs `sat` and `entails`: the answer to a question on a document.
///
/// `budget` is the number of steps that the search may make.
#[derive(Clone, Copy)]
pub struct Decide<'a> {
    pub question: WrittenQuestion<'a>,
    pub budget: u32,
}

impl<'a> Job for Decide<'a> {
    ghost use Rattle.std.specs.Prelude.{◌≡◌, []};
    ghost use Rattle.job_inputs.specs.Inputs.{IsInputOf, IsNoInputOf};
    ghost use Rattle.job_inputs.specs.Questions.{question_text};
    ghost use Rattle.decision_jobs.specs.Decisions.{AnswersQuestion};
    ghost use Rattle.decision_jobs.specs.Answering.{CanBeAsked, IsDecidedBy, IsBegun};
    ghost use Rattle.decision_jobs.specs.Told.{told_of};

    type Input = Input;

    type Log = RunLog;

    ghost is_input = { λ job bytes i. IsInputOf (question_text job.question) bytes i };

    ghost is_unread = { λ job bytes u. IsNoInputOf (question_text job.question) bytes u };

    ghost can_answer = { λ job i. CanBeAsked i };

    ghost is_unlogged = { λ log. log ≡ [] };

    ghost answers = { λ job i log s out.
        IsDecidedBy (question_text job.question) job.budget i.ontology i.query log s out };

    ghost begins = { λ job i log. IsBegun i.ontology i.query job.budget log };

    ghost tells = { λ job bytes out s log. AnswersQuestion (question_text job.question) job.budget bytes out s log };

    ghost told = { λ job bytes out s log h. told_of (question_text job.question) job.budget bytes out log s h };

    fn read(&self, alloc: Global, bytes: &[u8]) -> Result<Input, Unread> {
        read_question_input(alloc, self.question, bytes)
    }

    #[tactic(auto, using(crate::proofs::Logged::still_begun, crate::proofs::Accepted::accepted))]
    fn answer(
        &self,
        alloc: Global,
        input: &Input,
        log: &mut RunLog,
    ) -> Result<(Status, Text), NoMemory> {
        let decision = decide(alloc, &input.ontology, &input.query, self.budget, log)?;
        let text = text_of(alloc, self.question, &input.ontology, &decision);
        let status = status_of(&decision);
        drop(decision);
        Ok((status, text?))
    }
}
