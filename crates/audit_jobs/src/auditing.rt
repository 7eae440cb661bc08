// The check of an audit, from its text to the answer.
ghost use Rattle.std.specs.Prelude.{◌≡◌, ◌≤◌, false, IfOk, IfErr, Err, length};
ghost use Rattle.job_inputs.specs.Answer.{is_fault, text_bytes};
ghost use Rattle.audit_jobs.specs.Audited.{Audited, IsAuditEnd, IsJudgedOn, CanBeJudged, IsJudged};

use crate::reading::{AuditInput, read_input};
use crate::reply::reply;
use audit_check::{AuditVerdict, verify};
use job_inputs::{Status, Text, Unread};
use shq_terms::NoMemory;
use std::alloc::Global;

/// Checks the audit of a query that follows a document.
#[tactic(auto, using(crate::proofs::Replied::end_audited))]
pub fn verify_audit(alloc: Global, query: &str, input: &[u8]) -> (Status, Text)
    requires { length input.now ≤ 4294967293 }
    ensures audited { Audited query.now input.now (text_bytes result.1) result.0 }
    ensures no_fault { is_fault result.0 ≡ false }
{
    reply(alloc, verdict_on(alloc, query, input))
}

// The verdict on the audit, if there is one.
#[tactic(auto, using(crate::proofs::Reasons::verdict_said))]
fn verdict_on(alloc: Global, query: &str, input: &[u8]) -> Result<AuditVerdict, Unread>
    requires { length input.now ≤ 4294967293 }
    ensures verdict { IfOk result (IsJudgedOn query.now input.now) }
    ensures unread { IfErr result (λ u. IsAuditEnd query.now input.now (Err u)) }
{
    let read = read_input(alloc, query, input)?;
    let verdict = judge(alloc, &read);
    drop(read);
    Ok(verdict?)
}

fn judge(alloc: Global, input: &AuditInput) -> Result<AuditVerdict, NoMemory>
    requires { CanBeJudged input.now }
    ensures { IfOk result (IsJudged input.now.ontology input.now.asked input.now.audit) }
{
    verify(alloc, &input.ontology, &input.asked, &input.audit)
}
