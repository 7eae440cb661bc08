// What is answered to an audit.
ghost use Rattle.std.specs.Prelude.{◌≡◌, false, IfOk};
ghost use Rattle.job_inputs.specs.Answer.{Gives, is_fault, text_bytes};
ghost use Rattle.audit_jobs.specs.Audited.{verdict_answer, end_answer};

use audit_check::AuditVerdict;
use job_inputs::{Status, Text, Unread, unread_reply};
use shq_terms::NoMemory;
use std::alloc::Global;

/// The answer to what a check ends with.
pub(crate) fn reply(alloc: Global, end: Result<AuditVerdict, Unread>) -> (Status, Text)
    ensures gives { Gives (end_answer end) (text_bytes result.1) result.0 }
    ensures no_fault { is_fault result.0 ≡ false }
{
    match end {
        Ok(verdict) => verdict_reply(alloc, verdict),
        Err(unread) => unread_reply(alloc, unread),
    }
}

#[tactic(auto, using(crate::proofs::Replied::verdict_gives, crate::proofs::Replied::verdict_no_fault))]
fn verdict_reply(alloc: Global, verdict: AuditVerdict) -> (Status, Text)
    ensures gives { Gives (verdict_answer verdict) (text_bytes result.1) result.0 }
    ensures no_fault { is_fault result.0 ≡ false }
{
    match verdict_text(alloc, verdict) {
        Ok(text) => (verdict_status(verdict), text),
        Err(NoMemory) => (Status::NoMemory, Text::Fixed("no memory\n")),
    }
}

fn verdict_status(verdict: AuditVerdict) -> Status
    ensures { result ≡ (verdict_answer verdict).0 }
{
    match verdict {
        AuditVerdict::Accepted => Status::Done,
        AuditVerdict::Justification(_) | AuditVerdict::Repair(_) | AuditVerdict::Transversal => {
            Status::Rejected
        }
    }
}

fn verdict_text(alloc: Global, verdict: AuditVerdict) -> Result<Text, NoMemory>
    ensures { IfOk result (λ text. text_bytes text ≡ (verdict_answer verdict).1) }
{
    Ok(match verdict {
        AuditVerdict::Accepted => Text::Fixed("accepted audit\n"),
        AuditVerdict::Justification(number) => {
            Text::Made(format!(in alloc; "rejected justification {number}\n")?)
        }
        AuditVerdict::Repair(number) => {
            Text::Made(format!(in alloc; "rejected repair {number}\n")?)
        }
        AuditVerdict::Transversal => Text::Fixed("rejected transversal\n"),
    })
}
