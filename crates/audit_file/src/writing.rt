// The text of an audit, as it is written.
ghost use Rattle.std.specs.Prelude.{◌≡◌, ◌++◌, ◌∷◌, [], codes, decimal, length, map, IsTrue, IfOk, OnOk, OnErr};
ghost use Rattle.std.specs.List.{All, list_all, flat_map};
ghost use Rattle.axiom_sets.specs.Sets.{IsWithin, member_list};
ghost use Rattle.certificate_lines.specs.Written.{spaced};
ghost use Rattle.finite_model.specs.ReadBack.{IsKept};
ghost use Rattle.finite_model.specs.Written.{uses_listed_names};
ghost use Rattle.refutation_tree.specs.Written.{names_are_listed};
ghost use Rattle.audit_file.specs.Written.{set_text, count_text, justification_text, repair_text, justifications_text};
ghost use Rattle.audit_file.specs.Written.{repairs_text, audit_text, audit_is_listed, IsKeptAudit};

use crate::{Audit, Justification, Repair};
use axiom_sets::AxiomSet;
use shq_terms::{NoMemory, Ontology};
use std::alloc::Global;

impl Audit {
    /// Appends the text of the audit, or nothing: `audit`, `justifications M`, for each justification its line
    /// `set K ..` and the text of its refutation, `repairs P`, for each repair its line `set K ..` and the text of its
    /// model, and `end audit`, each with a line feed after it. The names in it are listed. The memory is `alloc`'s.
    ///
    /// What was written is read as this audit again, where [`what_is_written_is_read`](crate::what_is_written_is_read)
    /// says so.
    ///
    /// # Errors
    ///
    /// `NoMemory`.
    pub fn text(
        &self,
        alloc: Global,
        out: &mut Vec<u8>,
        ontology: &Ontology,
    ) -> Result<(), NoMemory>
        requires { IsTrue (audit_is_listed ontology.now self.now) }
        ensures text { OnOk result (out.new.items ≡ out.old.items ++ audit_text ontology.now self.now) }
        ensures unchanged { OnErr result (out.new.items ≡ out.old.items) }
        ensures kept { OnOk result (IsKeptAudit ontology.now self.now) }
    {
        let text = self.whole_text(alloc, ontology)?;
        out.extend_from_slice(&text)?;
        Ok(())
    }

    #[tactic(auto, using(crate::proofs::Pushed::kept_audit))]
    fn whole_text(&self, alloc: Global, ontology: &Ontology) -> Result<Vec<u8>, NoMemory>
        requires { IsTrue (audit_is_listed ontology.now self.now) }
        ensures text { IfOk result (λ text. text.items ≡ audit_text ontology.now self.now) }
        ensures kept { IfOk result (λ text. IsKeptAudit ontology.now self.now) }
    {
        let mut text = Vec::from_slice(alloc, b"audit")?;
        text.push(b'\n')?;
        push_justifications(alloc, &mut text, self.justifications(), ontology)?;
        push_repairs(alloc, &mut text, self.repairs(), ontology)?;
        text.extend_from_slice(b"end audit")?;
        text.push(b'\n')?;
        Ok(text)
    }
}

fn push_justifications(
    alloc: Global,
    text: &mut Vec<u8>,
    justifications: &[Justification],
    ontology: &Ontology,
) -> Result<(), NoMemory>
    requires { IsTrue (list_all (λ j. names_are_listed ontology.now j.refutation) justifications.now) }
    ensures text { OnOk result
        (text.new.items ≡ text.old.items ++ justifications_text ontology.now justifications.now) }
    ensures within { OnOk result (All (λ j. IsWithin j.set.limit j.set.members) justifications.now) }
{
    push_count(alloc, text, b"justifications", justifications.len())?;
    push_each_justification(alloc, text, justifications, ontology)
}

fn push_each_justification(
    alloc: Global,
    text: &mut Vec<u8>,
    justifications: &[Justification],
    ontology: &Ontology,
) -> Result<(), NoMemory>
    requires { IsTrue (list_all (λ j. names_are_listed ontology.now j.refutation) justifications.now) }
    ensures text { OnOk result
        (text.new.items ≡ text.old.items ++ flat_map (justification_text ontology.now) justifications.now) }
    ensures within { OnOk result (All (λ j. IsWithin j.set.limit j.set.members) justifications.now) }
{
    for justification in justifications {
        push_justification(alloc, text, justification, ontology)?;
    }
    Ok(())
}

fn push_justification(
    alloc: Global,
    text: &mut Vec<u8>,
    justification: &Justification,
    ontology: &Ontology,
) -> Result<(), NoMemory>
    requires { IsTrue (names_are_listed ontology.now justification.now.refutation) }
    ensures text { OnOk result (text.new.items ≡ text.old.items ++ justification_text ontology.now justification.now) }
    ensures within { IsWithin justification.now.set.limit justification.now.set.members }
{
    let Justification { set, refutation } = justification;
    push_set(alloc, text, set)?;
    refutation.text(alloc, text, ontology)
}

fn push_repairs(
    alloc: Global,
    text: &mut Vec<u8>,
    repairs: &[Repair],
    ontology: &Ontology,
) -> Result<(), NoMemory>
    requires { IsTrue (list_all (λ r. uses_listed_names ontology.now r.model) repairs.now) }
    ensures text { OnOk result (text.new.items ≡ text.old.items ++ repairs_text ontology.now repairs.now) }
    ensures within { OnOk result (All (λ r. IsWithin r.set.limit r.set.members) repairs.now) }
    ensures kept { OnOk result (All (λ r. IsKept ontology.now r.model) repairs.now) }
{
    push_count(alloc, text, b"repairs", repairs.len())?;
    push_each_repair(alloc, text, repairs, ontology)
}

fn push_each_repair(
    alloc: Global,
    text: &mut Vec<u8>,
    repairs: &[Repair],
    ontology: &Ontology,
) -> Result<(), NoMemory>
    requires { IsTrue (list_all (λ r. uses_listed_names ontology.now r.model) repairs.now) }
    ensures text { OnOk result (text.new.items ≡ text.old.items ++ flat_map (repair_text ontology.now) repairs.now) }
    ensures within { OnOk result (All (λ r. IsWithin r.set.limit r.set.members) repairs.now) }
    ensures kept { OnOk result (All (λ r. IsKept ontology.now r.model) repairs.now) }
{
    for repair in repairs {
        push_repair(alloc, text, repair, ontology)?;
    }
    Ok(())
}

fn push_repair(
    alloc: Global,
    text: &mut Vec<u8>,
    repair: &Repair,
    ontology: &Ontology,
) -> Result<(), NoMemory>
    requires { IsTrue (uses_listed_names ontology.now repair.now.model) }
    ensures text { OnOk result (text.new.items ≡ text.old.items ++ repair_text ontology.now repair.now) }
    ensures within { IsWithin repair.now.set.limit repair.now.set.members }
    ensures kept { OnOk result (IsKept ontology.now repair.now.model) }
{
    let Repair { set, model } = repair;
    push_set(alloc, text, set)?;
    model.text(alloc, text, ontology)?;
    Ok(())
}

// Appends a line of a keyword and a number.
fn push_count(
    alloc: Global,
    text: &mut Vec<u8>,
    keyword: &[u8],
    count: usize,
) -> Result<(), NoMemory>
    ensures { OnOk result (text.new.items ≡ text.old.items ++ count_text keyword.now count) }
{
    text.extend_from_slice(keyword)?;
    let digits = format!(in alloc; "{count}")?;
    push_word(text, digits.as_bytes())?;
    text.push(b'\n')?;
    Ok(())
}

// Appends a line `set K ..`.
fn push_set(alloc: Global, text: &mut Vec<u8>, set: &AxiomSet) -> Result<(), NoMemory>
    ensures text { OnOk result (text.new.items ≡ text.old.items ++ set_text set.now) }
    ensures within { IsWithin set.now.limit set.now.members }
{
    let _limit = set.limit();
    text.extend_from_slice(b"set")?;
    push_numbers(alloc, text, set)?;
    text.push(b'\n')?;
    Ok(())
}

fn push_numbers(alloc: Global, text: &mut Vec<u8>, set: &AxiomSet) -> Result<(), NoMemory>
    ensures { OnOk result (text.new.items ≡ text.old.items ++ spaced (map decimal (member_list set.now))) }
{
    for number in set.numbers() {
        push_number(alloc, text, number)?;
    }
    Ok(())
}

fn push_number(alloc: Global, text: &mut Vec<u8>, number: u32) -> Result<(), NoMemory>
    ensures { OnOk result (text.new.items ≡ text.old.items ++ 32 ∷ decimal number) }
{
    let digits = format!(in alloc; "{number}")?;
    push_word(text, digits.as_bytes())
}

// Appends a word after a blank.
fn push_word(text: &mut Vec<u8>, word: &[u8]) -> Result<(), NoMemory>
    ensures { OnOk result (text.new.items ≡ text.old.items ++ 32 ∷ word.now) }
{
    text.push(b' ')?;
    text.extend_from_slice(word)?;
    Ok(())
}
