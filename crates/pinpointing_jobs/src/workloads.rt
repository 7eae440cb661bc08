// The numbers of the sets of a generated document.
ghost use Rattle.std.specs.Prelude.{◌≡◌, ◌≤◌, false, []};
ghost use Rattle.job_inputs.specs.Answer.{text_bytes, is_fault};
ghost use Rattle.pinpointing_jobs.specs.Answers.{AnswersWorkload};

use crate::asking::read_input;
use crate::count_answer;
use crate::searching::search;
use job_inputs::{Input, Job, Status, Text, Unread, answer_to};
use query_asker::RunLog;
use shq_terms::NoMemory;
use std::alloc::Global;
use workload::{QUERY, generate};

/// The numbers of axioms, justifications and repairs of the workload of a number: how the run ends, and the text. The
/// log gets what was asked.
///
/// `budget` is the number of steps and nodes that the search may take. Where it does not suffice, the run ends
/// `Undecided`.
pub fn run_workload(alloc: Global, number: u32, budget: u32, log: &mut RunLog) -> (Status, Text)
    requires least { 1 ≤ number }
    requires most { number ≤ 4000 }
    requires unlogged { log.old ≡ [] }
    ensures answer { AnswersWorkload number budget (text_bytes result.1) result.0 log.new }
    ensures no_fault { is_fault result.0 ≡ false }
{
    match generate(alloc, number) {
        Ok(text) => answer_to(alloc, &Measure { number, budget }, &text, log),
        Err(NoMemory) => (Status::NoMemory, Text::Fixed("no memory\n")),
    }
}

// The numbers of the sets of the query of a workload, of which the bytes are the text.
#[derive(Clone, Copy)]
struct Measure {
    number: u32,
    budget: u32,
}

impl Job for Measure {
    ghost use Rattle.std.specs.Prelude.{◌≡◌, ◌≤◌, []};
    ghost use Rattle.workload.specs.WorkloadText.{workload_text};
    ghost use Rattle.job_inputs.specs.Limits.{IsInLimit};
    ghost use Rattle.pinpointing_jobs.specs.Asked.{IsInput};
    ghost use Rattle.pinpointing_jobs.specs.Begun.{HasMeasured};
    ghost use Rattle.pinpointing_jobs.specs.Counts.{IsCounted};
    ghost use Rattle.pinpointing_jobs.specs.Answers.{workload_query, IsWant, AnswersWorkload};
    ghost use Rattle.pinpointing_jobs.specs.WorkloadTold.{workload_told};

    type Input = Input;

    type Log = RunLog;

    ghost is_input = { λ job bytes i. IsInput workload_query bytes i };

    ghost is_unread = { λ job bytes u. IsWant job.number bytes u };

    ghost can_answer = { λ job i. IsInLimit i.ontology i.query };

    ghost is_unlogged = { λ log. log ≡ [] };

    ghost answers = { λ job i log s out. IsCounted job.number i.ontology i.query job.budget log s out };

    ghost begins = { λ job i log. HasMeasured i.ontology i.query job.budget log };

    ghost tells = { λ job bytes out s log. bytes ≡ workload_text job.number → job.number ≤ 4000
        → AnswersWorkload job.number job.budget out s log };

    ghost told = { λ job bytes out s log h. workload_told job.number job.budget bytes out log s h };

    fn read(&self, alloc: Global, bytes: &[u8]) -> Result<Input, Unread> {
        read_input(alloc, QUERY, bytes)
    }

    fn answer(
        &self,
        alloc: Global,
        input: &Input,
        log: &mut RunLog,
    ) -> Result<(Status, Text), NoMemory> {
        let found = search(alloc, &input.ontology, &input.query, self.budget, log)?;
        let outcome = count_answer(alloc, self.number, &input.ontology, &found);
        drop(found);
        outcome
    }
}
