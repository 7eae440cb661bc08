// What is printed is accepted.
ghost use Rattle.audit_jobs.specs.Laws.{EvidenceIsAccepted, PrintedEvidenceIsAccepted};

/// What is printed with `Done` is the text of an audit, if it has at most 4,294,967,293 lines: it is read as one, and
/// a check of what was read accepts it.
pub fn evidence_is_accepted()
    ensures { EvidenceIsAccepted }
{}

/// What is printed with `Done` is accepted where it stands behind its document. The input of the check is the document
/// up to its last bracket, whitespace that ends with a line feed, and the text that was printed, in at most
/// 4,294,967,293 bytes. Whatever `verify_audit` answers to it over the same statement is `accepted audit`, with `Done`,
/// unless memory was refused.
pub fn printed_evidence_is_accepted()
    ensures { PrintedEvidenceIsAccepted }
{}
