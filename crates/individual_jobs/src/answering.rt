// From the question and the bytes of a document to the reasons.
ghost use Rattle.std.specs.Prelude.{◌≡◌, true, IfOk, OnErr};
ghost use Rattle.job_inputs.specs.Answer.{text_bytes};
ghost use Rattle.individual_jobs.specs.Searching.{AreWritable, IsAnswerBy};

use crate::searching::{Explained, explain_all};
use crate::writing::reasons_text;
use job_inputs::{Input, Job, Status, Text, Unread, WrittenQuestion, read_question_input};
use realizer::RunLog;
use shq_terms::{NoMemory, Ontology};
use std::alloc::Global;

/// The job `why`: for each instance of a class expression, in list order, all justifications of its being one.
///
/// `class` is the text of the class expression, and `budget` the number of steps and nodes that the searches may take
/// together. Where it does not suffice, the text is `undecided`, and the run ends `Undecided`.
#[derive(Clone, Copy)]
pub struct Why<'a> {
    pub class: &'a str,
    pub budget: u32,
}

impl<'a> Job for Why<'a> {
    ghost use Rattle.std.specs.Prelude.{◌≡◌, []};
    ghost use Rattle.job_inputs.specs.Limits.{IsInLimit};
    ghost use Rattle.job_inputs.specs.Inputs.{IsInputOf, IsNoInputOf};
    ghost use Rattle.job_inputs.specs.Questions.{has_element};
    ghost use Rattle.individual_jobs.specs.Answers.{HasBlocks, AnswersWhy};
    ghost use Rattle.individual_jobs.specs.Searching.{IsExplainedOn};
    ghost use Rattle.individual_jobs.specs.Told.{reasons_told};

    type Input = Input;

    type Log = RunLog;

    ghost is_input = { λ job bytes i. IsInputOf (has_element job.class.now) bytes i };

    ghost is_unread = { λ job bytes u. IsNoInputOf (has_element job.class.now) bytes u };

    ghost can_answer = { λ job i. IsInLimit i.ontology i.query };

    ghost is_unlogged = { λ log. log ≡ [] };

    ghost answers = { λ job i log s out. IsExplainedOn job.budget i.ontology i.query.sub log s out };

    ghost begins = { λ job i log. HasBlocks i.ontology i.query.sub job.budget log };

    ghost tells = { λ job bytes out s log. AnswersWhy job.class.now job.budget bytes out s log };

    ghost told = { λ job bytes out s log h. reasons_told job.class.now job.budget bytes out log s h };

    fn read(&self, alloc: Global, bytes: &[u8]) -> Result<Input, Unread> {
        read_question_input(alloc, WrittenQuestion::HasElement(self.class), bytes)
    }

    fn answer(
        &self,
        alloc: Global,
        input: &Input,
        log: &mut RunLog,
    ) -> Result<(Status, Text), NoMemory> {
        let ontology = &input.ontology;
        let explained = explain_all(alloc, ontology, &input.query.sub, self.budget, log)?;
        let outcome = answer_of(alloc, ontology, &explained);
        drop(explained);
        outcome
    }
}

// What is answered.
fn answer_of(
    alloc: Global,
    ontology: &Ontology,
    explained: &Explained,
) -> Result<(Status, Text), NoMemory>
    requires { explained.now.finished ≡ true → AreWritable ontology.now explained.now.reasons.items }
    ensures answer { IfOk result
        (λ a. IsAnswerBy ontology.now explained.now.reasons.items explained.now.finished a.0 (text_bytes a.1)) }
    ensures refused { OnErr result (explained.now.finished ≡ true) }
{
    if !explained.finished {
        return Ok((Status::Undecided, Text::Fixed("undecided\n")));
    }
    let text = reasons_text(alloc, ontology, &explained.reasons)?;
    Ok((Status::Done, Text::Bytes(text)))
}
