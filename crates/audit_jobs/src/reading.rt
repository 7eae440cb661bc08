// What is audited: a document, a query on it and an audit.
ghost use Rattle.std.specs.Prelude.{◌≡◌, ◌≤◌, IfOk, IfErr, Ok, Err, length};
ghost use Rattle.std.specs.List.{prefix_len};
ghost use Rattle.std.specs.Result.{result_map_both};
ghost use Rattle.certificate_lines.specs.Lines.{is_blank, bytes_of};
ghost use Rattle.decision_jobs.specs.Certificates.{certificate_lines};
ghost use Rattle.audit_check.specs.AuditText.{audit_in};
ghost use Rattle.audit_check.specs.Fitting.{Fits};
ghost use Rattle.audit_jobs.specs.Audited.{audit_after, IsUnreadBy, IsAuditClaim, IsUnclaimed, IsAuditInput};
ghost use Rattle.audit_jobs.specs.Audited.{IsAuditEnd, CanBeJudged, input_with};

use audit_check::{Audit, read_text};
use certificate_lines::{is_blank, lines};
use job_inputs::{Unread, document, query_on};
use ofn_reader::Context;
use shq_terms::{Ontology, Query};
use std::alloc::Global;

/// What is audited: the axioms, the query and the audit.
#[derive(Drop)]
pub(crate) struct AuditInput {
    pub ontology: Ontology,
    pub asked: Query,
    pub audit: Audit,
}

/// Reads the document, the query on it and the audit that follows it.
pub(crate) fn read_input(alloc: Global, query: &str, bytes: &[u8]) -> Result<AuditInput, Unread>
    requires { length bytes.now ≤ 4294967293 }
    ensures input { IfOk result (IsAuditInput query.now bytes.now) }
    ensures within { IfOk result CanBeJudged }
    ensures unread { IfErr result (λ u. IsAuditEnd query.now bytes.now (Err u)) }
{
    let (mut ontology, context, end) = document(alloc, bytes)?;
    let claim = read_claim(alloc, query, bytes.split_at(end).1, &mut ontology, &context);
    input_of(ontology, claim)
}

// The query and the audit.
#[derive(Drop)]
pub(crate) struct AuditClaim {
    pub asked: Query,
    pub audit: Audit,
}

fn input_of(ontology: Ontology, claim: Result<AuditClaim, Unread>) -> Result<AuditInput, Unread>
    ensures { result ≡ result_map_both (input_with ontology) (λ u. u) claim }
{
    match claim {
        Ok(AuditClaim { asked, audit }) => Ok(AuditInput {
            ontology,
            asked,
            audit,
        }),
        Err(unread) => {
            drop(ontology);
            Err(unread)
        }
    }
}

// Reads the query, and the audit that the rest of the input is.
fn read_claim(
    alloc: Global,
    query: &str,
    rest: &[u8],
    ontology: &mut Ontology,
    context: &Context,
) -> Result<AuditClaim, Unread>
    requires { length rest.now ≤ 4294967293 }
    ensures claim { IfOk result (IsAuditClaim ontology.old context.now query.now rest.now ontology.new) }
    ensures fits { IfOk result (λ c. Fits ontology.new 4294967294 c.audit) }
    ensures unclaimed { IfErr result (IsUnclaimed ontology.old context.now query.now rest.now) }
{
    let asked = query_on(alloc, query, ontology, context)?;
    let audit = read_audit(alloc, rest, ontology);
    claim_of(asked, audit)
}

fn claim_of(asked: Query, audit: Result<Audit, Unread>) -> Result<AuditClaim, Unread>
    ensures { result ≡ result_map_both (λ a. record { asked = asked; audit = a }) (λ u. u) audit }
{
    match audit {
        Ok(audit) => Ok(AuditClaim { asked, audit }),
        Err(unread) => {
            drop(asked);
            Err(unread)
        }
    }
}

// The audit that the text is, but for blank lines in front.
#[tactic(auto, using(decision_jobs::proofs::Blanks::behind_blanks))]
fn read_audit(alloc: Global, text: &[u8], ontology: &Ontology) -> Result<Audit, Unread>
    requires { length text.now ≤ 4294967293 }
    ensures found { IfOk result (λ a. audit_after ontology.now text.now ≡ Ok a) }
    ensures fits { IfOk result (Fits ontology.now 4294967294) }
    ensures unread { IfErr result (IsUnreadBy ontology.now (certificate_lines text.now)) }
{
    let lines = lines(alloc, text)?;
    read_lines(alloc, lines.split_at(blank_count(&lines)).1, ontology)
}

fn blank_count(lines: &[&[u8]]) -> usize
    ensures value { result ≡ prefix_len (λ l. is_blank l.now) lines.now }
    ensures within { result ≤ length lines.now }
{
    lines.iter().take_while(|line| is_blank(line)).count()
}

#[tactic(auto, using(crate::proofs::Reasons::line_said, crate::proofs::Reasons::fits_more))]
fn read_lines(alloc: Global, lines: &[&[u8]], ontology: &Ontology) -> Result<Audit, Unread>
    requires { length lines.now ≤ 4294967294 }
    ensures found { IfOk result (λ a. audit_in ontology.now (bytes_of lines.now) ≡ Ok a) }
    ensures fits { IfOk result (Fits ontology.now 4294967294) }
    ensures unread { IfErr result (IsUnreadBy ontology.now (bytes_of lines.now)) }
{
    match read_text(alloc, lines, ontology) {
        Ok(audit) => Ok(audit),
        Err(fault) => Err(Unread::from(fault)),
    }
}
