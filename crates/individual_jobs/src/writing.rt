// The text of the instances and their justifications.
ghost use Rattle.std.specs.Prelude.{◌≡◌, ◌++◌, IfOk, OnOk, length};
ghost use Rattle.std.specs.FinSet as set;
ghost use Rattle.pinpointing_jobs.specs.SetLists.{is_listed, set_lines};
ghost use Rattle.individual_jobs.specs.Reasons.{all_sets, instance_line, reason_lines, reasons_text};
ghost use Rattle.individual_jobs.specs.Searching.{IsWritable, AreWritable};

use crate::reasons::Reasons;
use axiom_sets::AxiomSet;
use pinpointing_jobs::{text_of_axioms, text_of_sets, unite_with};
use shq_terms::{NoMemory, Ontology};
use std::alloc::Global;

/// The text of instances and their justifications: of each instance a line with its name and the number of its
/// justifications, and one for each of them with the numbers of its axioms; and behind them a line for each axiom that
/// is in one of them, with its number, its line in the document and its canonical text.
///
/// # Errors
///
/// Out of memory.
pub(crate) fn reasons_text(
    alloc: Global,
    ontology: &Ontology,
    reasons: &[Reasons],
) -> Result<Vec<u8>, NoMemory>
    requires { AreWritable ontology.now reasons.now }
    ensures { IfOk result (λ text. text.items ≡ reasons_text ontology.now reasons.now) }
{
    let mut text = Vec::new(alloc);
    put_each(alloc, &mut text, ontology, reasons)?;
    let listed = listed_axioms(alloc, ontology, reasons)?;
    text.extend_from_slice(&text_of_axioms(alloc, ontology, &listed)?)?;
    Ok(text)
}

// Puts the lines of each instance last.
fn put_each(
    alloc: Global,
    text: &mut Vec<u8>,
    ontology: &Ontology,
    reasons: &[Reasons],
) -> Result<(), NoMemory>
    requires { AreWritable ontology.now reasons.now }
    ensures { OnOk result (text.new.items ≡ text.old.items ++ reason_lines ontology.now reasons.now) }
{
    for one in reasons {
        put_reasons(alloc, text, ontology, one)?;
    }
    Ok(())
}

// Puts the lines of an instance last.
fn put_reasons(
    alloc: Global,
    text: &mut Vec<u8>,
    ontology: &Ontology,
    reasons: &Reasons,
) -> Result<(), NoMemory>
    requires { IsWritable ontology.now reasons.now }
    ensures { OnOk result
        (text.new.items ≡ text.old.items
        ++ (instance_line ontology.now reasons.now ++ set_lines reasons.now.justifications)) }
{
    put_heading(alloc, text, ontology, reasons)?;
    text.extend_from_slice(&text_of_sets(alloc, reasons.justifications())?)?;
    Ok(())
}

fn put_heading(
    alloc: Global,
    text: &mut Vec<u8>,
    ontology: &Ontology,
    reasons: &Reasons,
) -> Result<(), NoMemory>
    requires { IsWritable ontology.now reasons.now }
    ensures { OnOk result (text.new.items ≡ text.old.items ++ instance_line ontology.now reasons.now) }
{
    let name = ontology.individual_name(reasons.individual());
    let count = reasons.justifications().len();
    let line = format!(in alloc; "instance <{name}> justifications {count}\n")?;
    text.extend_from_slice(line.as_bytes())?;
    Ok(())
}

// The axioms that are in some justification of some instance.
fn listed_axioms(
    alloc: Global,
    ontology: &Ontology,
    reasons: &[Reasons],
) -> Result<AxiomSet, NoMemory>
    requires { AreWritable ontology.now reasons.now }
    ensures limit { IfOk result (λ s. s.limit ≡ length ontology.now.axioms) }
    ensures members { IfOk result (λ s. set.contains s.members ≡ is_listed (all_sets reasons.now)) }
{
    let mut listed = AxiomSet::empty(alloc, ontology.axiom_count())?;
    for one in reasons {
        unite_with(&mut listed, one.justifications());
    }
    Ok(listed)
}
