// The verification of a certificate, from its text to the answer.
ghost use Rattle.std.specs.Prelude.{◌≡◌, ◌≤◌, false, IfOk, IfErr, length};
ghost use Rattle.job_inputs.specs.Answer.{is_fault, text_bytes};
ghost use Rattle.job_inputs.specs.Asked.{judged};
ghost use Rattle.decision_jobs.specs.Checking.{IsReply, IsUnread};
ghost use Rattle.decision_jobs.specs.Checked.{Checked};

use crate::checking::read_input;
use crate::judging::judge;
use job_inputs::{Message, Status, Text, Unread, Verdict};
use std::alloc::Global;

/// Verifies the certificate that follows the document.
pub fn verify(alloc: Global, query: &str, input: &[u8]) -> (Status, Text)
    requires { length input.now ≤ 4294967293 }
    ensures checked { Checked query.now input.now (text_bytes result.1) result.0 }
    ensures no_fault { is_fault result.0 ≡ false }
{
    Message::of_check(verdict_on(alloc, query, input)).reply(alloc)
}

// The verdict on the certificate, if there is one.
fn verdict_on(alloc: Global, query: &str, input: &[u8]) -> Result<Verdict, Unread>
    requires { length input.now ≤ 4294967293 }
    ensures verdict { IfOk result (λ v. IsReply query.now input.now (judged v)) }
    ensures unread { IfErr result (IsUnread query.now input.now) }
{
    let read = read_input(alloc, query, input)?;
    let verdict = judge(alloc, &read);
    drop(read);
    Ok(verdict?)
}
