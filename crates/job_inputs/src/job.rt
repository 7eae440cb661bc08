// Jobs on documents.
ghost use Rattle.std.specs.Prelude.{◌≡◌, ◌≤◌, false, length};
ghost use Rattle.job_inputs.specs.Answer.{text_bytes, is_fault};

use crate::message::unread_reply;
use crate::status::Status;
use crate::text::Text;
use crate::unread::Unread;
use shq_terms::NoMemory;
use std::alloc::Global;

/// A job that reads a document: what it reads of the bytes, and how it answers that.
///
/// Each job defines which bytes hold which input, and which answer belongs to an input. Its law `told` shows that what
/// it promises about the bytes (`tells`) follows from that.
pub trait Job {
    ghost use Rattle.std.specs.Prelude.{◌≡◌, ℕ, ◌≤◌, false, List, IfOk, IfErr, OnErr, length};
    ghost use Rattle.job_inputs.specs.Answer.{text_bytes, is_fault};
    ghost use Rattle.job_inputs.specs.Answered.{HasAnswered};
    ghost use Rattle.job_inputs.specs.declared.status.Status.{Status};
    ghost use Rattle.job_inputs.specs.declared.unread.Unread.{Unread};

    /// What it reads.
    type Input: Drop;

    /// Where it logs what it asks.
    type Log;

    /// The bytes hold this input.
    ghost is_input: { Self → List ℕ → Self.Input → Type 0 };

    /// Why the bytes hold no input, unless memory was refused.
    ghost is_unread: { Self → List ℕ → Unread → Type 0 };

    /// The job can answer the input.
    ghost can_answer: { Self → Self.Input → Type 0 };

    /// The log is empty.
    ghost is_unlogged: { Self.Log → Type 0 };

    /// The status and the text answer the input, and the log has what was asked to find that answer.
    ghost answers: { Self → Self.Input → Self.Log → Status → List ℕ → Type 0 };

    /// The log has what was asked about the input until memory was refused.
    ghost begins: { Self → Self.Input → Self.Log → Type 0 };

    /// What the job promises about the bytes: the text, the status that the run ends with, and the log.
    ghost tells: { Self → List ℕ → List ℕ → Status → Self.Log → Type 0 };

    /// Reads the input.
    ///
    /// # Errors
    ///
    /// What is refused, and `NoMemory`.
    fn read(&self, alloc: Global, bytes: &[u8]) -> Result<Self::Input, Unread>
        requires { length bytes.now ≤ 4294967293 }
        ensures input { IfOk result (is_input self.now bytes.now) }
        ensures within { IfOk result (can_answer self.now) }
        ensures unread { IfErr result (is_unread self.now bytes.now) };

    /// Answers the input: how the run ends, and the text. The log gets what was asked, also where memory is refused.
    ///
    /// # Errors
    ///
    /// Out of memory.
    fn answer(
        &self,
        alloc: Global,
        input: &Self::Input,
        log: &mut Self::Log,
    ) -> Result<(Status, Text), NoMemory>
        requires within { can_answer self.now input.now }
        requires unlogged { is_unlogged log.old }
        ensures answer { IfOk result (λ a. answers self.now input.now log.new a.0 (text_bytes a.1)) }
        ensures no_fault { IfOk result (λ a. is_fault a.0 ≡ false) }
        ensures begun { OnErr result (begins self.now input.now log.new) };

    /// The job keeps its promise where it answers, where the bytes hold no input, and where memory is refused.
    ghost told: { (job : Self) (bytes out : List ℕ) (s : Status) (log : Self.Log)
        → HasAnswered (is_input job bytes) (is_unread job bytes) is_unlogged (answers job) (begins job) log out s
        → tells job bytes out s log };
}

/// The answer of a job to the bytes of a document: the status and the text. The log gets what was asked.
pub fn answer_to<J: Job>(alloc: Global, job: &J, bytes: &[u8], log: &mut J::Log) -> (Status, Text)
    requires small { length bytes.now ≤ 4294967293 }
    requires unlogged { J.is_unlogged log.old }
    ensures answer { J.tells job.now bytes.now (text_bytes result.1) result.0 log.new }
    ensures no_fault { is_fault result.0 ≡ false }
{
    let input = match job.read(alloc, bytes) {
        Ok(input) => input,
        Err(unread) => return unread_reply(alloc, unread),
    };
    let outcome = job.answer(alloc, &input, log);
    drop(input);
    match outcome {
        Ok(answer) => answer,
        Err(NoMemory) => (Status::NoMemory, Text::Fixed("no memory\n")),
    }
}
