// Audits that are read and judged, below the job.
ghost use Rattle.std.specs.Prelude.{◌≡◌, ◌≤◌, length};
ghost use Rattle.ontology_limits.specs.Limits.{IsInLimit};

use crate::reading::read;
use audit_check::{AuditVerdict, NoMemory, verify};
use audit_file::{AuditFault, read_text};
use shq_terms::{Ontology, Query};
use std::alloc::Global;
use std::test::Fail;

const DOCUMENT: &[u8] = b"Prefix(:=<e:>)Ontology(SubClassOf(:A :B)SubClassOf(:B :C))";

// An audit of `SubClassOf(:A :C)`.
const AUDIT: &[&[u8]] = &[
    b"audit",
    b"justifications 1",
    b"set 1 2",
    b"refutation",
    b"axioms 1 2",
    b"concept 1 name <e:C>",
    b"start",
    b"row 0 1 1 1",
    b"row 0 2 1 1",
    b"clash 0 1",
    b"end",
    b"repairs 2",
    b"set 1",
    b"model 1",
    b"class <e:A> 0",
    b"end",
    b"set 2",
    b"model 1",
    b"class <e:A> 0",
    b"class <e:B> 0",
    b"end",
    b"end audit",
];

// What is said of the audit with another line in the place of one, from 0.
const CHANGES: &[(usize, &[u8], Result<AuditVerdict, AuditFault>)] = &[
    (0, b"audit", Ok(AuditVerdict::Accepted)),
    (2, b"set 2", Ok(AuditVerdict::Justification(1))),
    (9, b"clash 0 1 1", Err(AuditFault::Malformed(10))),
    (14, b"class <e:B> 0", Ok(AuditVerdict::Repair(1))),
    (16, b"set 1 2", Ok(AuditVerdict::Transversal)),
    (16, b"set 1", Err(AuditFault::Malformed(17))),
    (21, b"end", Err(AuditFault::Malformed(22))),
];

// The verdict on the audit that the lines are.
#[tactic(auto, using(refutation_check::proofs::Checkable::in_limit_checkable))]
fn verdict_on(
    alloc: Global,
    ontology: &Ontology,
    query: &Query,
    lines: &[&[u8]],
) -> Result<AuditVerdict, AuditFault>
    requires small { length lines.now ≤ 1000 }
    requires limits { IsInLimit ontology.now query.now }
{
    let audit = read_text(alloc, lines, ontology)?;
    let verdict = verify(alloc, ontology, query, &audit);
    drop(audit);
    Ok(verdict?)
}

// The lines with another one in the place of one.
fn changed(
    alloc: Global,
    place: usize,
    line: &'static [u8],
) -> Result<Vec<&'static [u8]>, NoMemory> {
    let mut lines = Vec::new(alloc);
    for old in AUDIT {
        lines.push(*old)?;
    }
    if let Some(old) = lines.get_mut(place) {
        *old = line;
    }
    Ok(lines)
}

fn verdict_with(
    alloc: Global,
    ontology: &Ontology,
    query: &Query,
    place: usize,
    line: &'static [u8],
) -> Result<AuditVerdict, AuditFault>
    requires { IsInLimit ontology.now query.now }
{
    let lines = changed(alloc, place, line)?;
    if lines.len() > 1000 {
        return Err(AuditFault::NoMemory);
    }
    verdict_on(alloc, ontology, query, &lines)
}

fn are_judged(alloc: Global, ontology: &Ontology, query: &Query) -> bool
    requires { IsInLimit ontology.now query.now }
{
    let mut are_so = true;
    for (place, line, wanted) in CHANGES {
        are_so &= verdict_with(alloc, ontology, query, *place, line) == *wanted;
    }
    are_so
}

#[test]
fn audits_are_judged(rt: HostRuntime) -> Result<(), Fail> {
    let (ontology, query) = read(rt.alloc(), DOCUMENT, "SubClassOf(:A :C)")?;
    assert!(rt; are_judged(rt.alloc(), &ontology, &query));
    Ok(())
}
