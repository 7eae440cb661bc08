// The document and the statement of a run.
ghost use Rattle.std.specs.Prelude.{◌≤◌, IfOk, IfErr, length};
ghost use Rattle.job_inputs.specs.Limits.{IsInLimit};
ghost use Rattle.pinpointing_jobs.specs.Asked.{IsInput, IsNoInput};

use job_inputs::{Input, Unread, WrittenQuestion, read_question_input};
use std::alloc::Global;

/// Reads a document with nothing else after it, and a statement on it.
///
/// # Errors
///
/// What is refused, the document before the query, and `NoMemory`.
pub fn read_input(alloc: Global, statement: &str, bytes: &[u8]) -> Result<Input, Unread>
    requires { length bytes.now ≤ 4294967293 }
    ensures input { IfOk result (IsInput statement.now bytes.now) }
    ensures within { IfOk result (λ i. IsInLimit i.ontology i.query) }
    ensures unread { IfErr result (IsNoInput statement.now bytes.now) }
{
    read_question_input(alloc, WrittenQuestion::Follows(statement), bytes)
}
