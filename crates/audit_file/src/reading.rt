// The text of an audit is read.
ghost use Rattle.std.specs.Prelude.{◌≡◌, ◌≤◌, length, Ok, IfOk, IfErr, OnOk};
ghost use Rattle.std.specs.Result.{result_map_both};
ghost use Rattle.certificate_lines.specs.Lines.{bytes_of};
ghost use Rattle.audit_file.specs.AuditText.{refutation_read, model_read, justification_read, repair_read};
ghost use Rattle.audit_file.specs.AuditText.{justifications_read, repairs_read, end_read, audit_read, audit_in};
ghost use Rattle.audit_file.specs.AuditText.{IsFaultBy};
ghost use Rattle.audit_file.specs.Fitting.{AreOfAxioms, Fits};
ghost use Rattle.audit_file.specs.Malformed.{IsFirstFault};

use crate::reader::{Reader, fault_in_block};
use crate::{Audit, AuditFault};
use finite_model::Interp;
use refutation_tree::Refutation;
use shq_terms::Ontology;
use std::alloc::Global;

/// The audit whose text these lines are: `audit`, `justifications M`, for each of them a line `set K ..` and a
/// refutation from its line `refutation` to its line `end`, `repairs P`, for each of them a line `set K ..` and a
/// model from its line `model N` to its line `end`, the line `end audit`, and blank lines. The numbers on a line `set`
/// are those of axioms and ascend, and the sets of each list are in the order of sets, each once.
///
/// # Errors
///
/// `Malformed` exactly where the lines are no such text, with the number of the first malformed line, where the first
/// of all has the number 1, and `NoMemory`. With that line no such text begins, whatever follows it, but with those
/// before it one does: so a line is malformed that announces more sets than can follow in the order of sets, and a
/// `set` line after which too few can. Where a needed line is missing, the number is that of lines and one more. A
/// number above 4,294,967,295 is told as 4,294,967,295.
pub fn read_text(alloc: Global, lines: &[&[u8]], ontology: &Ontology) -> Result<Audit, AuditFault>
    ensures audit { IfOk result (λ a. audit_in ontology.now (bytes_of lines.now) ≡ Ok a) }
    ensures fits { IfOk result (Fits ontology.now (length lines.now)) }
    ensures fault { IfErr result (IsFaultBy (audit_in ontology.now (bytes_of lines.now))) }
    ensures first { IfErr result (IsFirstFault ontology.now (bytes_of lines.now)) }
{
    let _count = ontology.axiom_count();
    let mut audit = Audit::new(alloc);
    let mut reader = Reader::new(lines);
    let end = read_audit(alloc, &mut reader, ontology, &mut audit);
    audit_of(audit, end)
}

fn audit_of(audit: Audit, end: Result<(), AuditFault>) -> Result<Audit, AuditFault>
    ensures { result ≡ result_map_both (λ u. audit) (λ e. e) end }
{
    match end {
        Ok(()) => Ok(audit),
        Err(fault) => {
            drop(audit);
            Err(fault)
        }
    }
}

// Reads all lines.
#[tactic(auto, using(crate::proofs::Times::fault_before, crate::proofs::Times::fault_after))]
fn read_audit(
    alloc: Global,
    reader: &mut Reader<'_>,
    ontology: &Ontology,
    audit: &mut Audit,
) -> Result<(), AuditFault>
    requires { AreOfAxioms ontology.now audit.old }
    ensures read { OnOk result (audit_read ontology.now audit.old reader.old ≡ Ok audit.new) }
    ensures fault { IfErr result (IsFaultBy (audit_read ontology.now audit.old reader.old)) }
{
    reader.fixed(b"audit")?;
    read_justifications(alloc, reader, ontology, audit)?;
    read_repairs(alloc, reader, ontology, audit)?;
    read_end(reader)
}

#[tactic(auto, using(crate::proofs::Times::fault_before, crate::proofs::Times::fault_after))]
fn read_end(reader: &mut Reader<'_>) -> Result<(), AuditFault>
    ensures read { OnOk result (end_read reader.old ≡ Ok tt) }
    ensures fault { IfErr result (IsFaultBy (end_read reader.old)) }
{
    reader.fixed(b"end audit")?;
    reader.blank_rest()
}

#[tactic(auto, using(crate::proofs::Times::counted_lines))]
fn read_justifications(
    alloc: Global,
    reader: &mut Reader<'_>,
    ontology: &Ontology,
    audit: &mut Audit,
) -> Result<(), AuditFault>
    requires { AreOfAxioms ontology.now audit.old }
    ensures read { OnOk result (justifications_read ontology.now audit.old reader.old ≡ Ok (audit.new, reader.new)) }
    ensures of_axioms { OnOk result (AreOfAxioms ontology.now audit.new) }
    ensures fault { IfErr result (IsFaultBy (justifications_read ontology.now audit.old reader.old)) }
{
    let axioms = ontology.axiom_count();
    let count = reader.count(alloc, b"justifications", axioms, audit.last_justified())?;
    for place in 0..count {
        read_justification(alloc, reader, ontology, audit, count - (place + 1))?;
    }
    Ok(())
}

#[tactic(auto, using(crate::proofs::Times::fault_before, crate::proofs::Times::fault_after))]
fn read_justification(
    alloc: Global,
    reader: &mut Reader<'_>,
    ontology: &Ontology,
    audit: &mut Audit,
    more: u32,
) -> Result<(), AuditFault>
    requires { AreOfAxioms ontology.now audit.old }
    ensures read { OnOk result (justification_read ontology.now more audit.old reader.old
        ≡ Ok (audit.new, reader.new)) }
    ensures of_axioms { OnOk result (AreOfAxioms ontology.now audit.new) }
    ensures fault { IfErr result (IsFaultBy (justification_read ontology.now more audit.old reader.old)) }
{
    let set = reader.set(alloc, ontology.axiom_count(), audit.last_justified(), more)?;
    let refutation = read_refutation(alloc, reader, ontology)?;
    audit.put_justification(set, refutation)?;
    Ok(())
}

#[tactic(auto, using(crate::proofs::Times::block_ok, crate::proofs::Times::block_fault))]
fn read_refutation(
    alloc: Global,
    reader: &mut Reader<'_>,
    ontology: &Ontology,
) -> Result<Refutation, AuditFault>
    requires { 2 ≤ reader.old.number }
    ensures read { IfOk result (λ k. refutation_read ontology.now reader.old ≡ Ok (k, reader.new)) }
    ensures fault { IfErr result (IsFaultBy (refutation_read ontology.now reader.old)) }
{
    let first = reader.number();
    match refutation_tree::read_text(alloc, reader.block(), ontology) {
        Ok(refutation) => Ok(refutation),
        Err(fault) => Err(fault_in_block(first, fault)),
    }
}

#[tactic(auto, using(crate::proofs::Times::counted_lines))]
fn read_repairs(
    alloc: Global,
    reader: &mut Reader<'_>,
    ontology: &Ontology,
    audit: &mut Audit,
) -> Result<(), AuditFault>
    requires { AreOfAxioms ontology.now audit.old }
    ensures read { OnOk result (repairs_read ontology.now audit.old reader.old ≡ Ok (audit.new, reader.new)) }
    ensures of_axioms { OnOk result (AreOfAxioms ontology.now audit.new) }
    ensures fault { IfErr result (IsFaultBy (repairs_read ontology.now audit.old reader.old)) }
{
    let axioms = ontology.axiom_count();
    let count = reader.count(alloc, b"repairs", axioms, audit.last_repaired())?;
    for place in 0..count {
        read_repair(alloc, reader, ontology, audit, count - (place + 1))?;
    }
    Ok(())
}

#[tactic(auto, using(crate::proofs::Times::fault_before, crate::proofs::Times::fault_after))]
fn read_repair(
    alloc: Global,
    reader: &mut Reader<'_>,
    ontology: &Ontology,
    audit: &mut Audit,
    more: u32,
) -> Result<(), AuditFault>
    requires { AreOfAxioms ontology.now audit.old }
    ensures read { OnOk result (repair_read ontology.now more audit.old reader.old ≡ Ok (audit.new, reader.new)) }
    ensures of_axioms { OnOk result (AreOfAxioms ontology.now audit.new) }
    ensures fault { IfErr result (IsFaultBy (repair_read ontology.now more audit.old reader.old)) }
{
    let set = reader.set(alloc, ontology.axiom_count(), audit.last_repaired(), more)?;
    let model = read_model(alloc, reader, ontology)?;
    audit.put_repair(set, model)?;
    Ok(())
}

#[tactic(auto, using(crate::proofs::Times::block_ok, crate::proofs::Times::block_fault))]
fn read_model(
    alloc: Global,
    reader: &mut Reader<'_>,
    ontology: &Ontology,
) -> Result<Interp, AuditFault>
    requires { 2 ≤ reader.old.number }
    ensures read { IfOk result (λ k. model_read ontology.now reader.old ≡ Ok (k, reader.new)) }
    ensures fault { IfErr result (IsFaultBy (model_read ontology.now reader.old)) }
{
    let first = reader.number();
    match finite_model::read_text(alloc, reader.block(), ontology) {
        Ok(model) => Ok(model),
        Err(fault) => Err(fault_in_block(first, fault)),
    }
}
