//! Lists of sets of axioms as text: what a job prints of justifications and of repairs.
//!
//! The first line has a heading and the number of sets. Then there is one line for each set, with the numbers of its
//! axioms, and one for each axiom that is in one of the sets: its number, the line of the document on which it stands,
//! and its canonical text. So the list can be read without the document beside it, and each axiom is found there again.
ghost use Rattle.std.specs.Prelude.{◌≡◌, ◌++◌, IfOk, OnOk, OnErr, length};
ghost use Rattle.std.specs.List.{All};
ghost use Rattle.std.specs.FinSet as sets_of;
ghost use Rattle.pinpointing_jobs.specs.SetLists.{set_lines, axiom_lines, heading_line, sets_text};

use crate::NoMemory;
use crate::axiom_lines::{put_axioms, put_members};
use crate::set_lines::put_sets;
use axiom_sets::AxiomSet;
use job_inputs::put;
use shq_terms::Ontology;
use std::alloc::Global;

/// Appends the text of a list of sets of the ontology's axioms, or nothing. Its lines are the heading with the number
/// of sets; the numbers of each set, ascending, with one blank between, where the empty set is the word `empty`; and
/// `axiom K line L TEXT` for each axiom that is in one of the sets, by its number, ascending, with its line in the
/// document and its canonical text. Each line ends with a line feed.
///
/// # Errors
///
/// `NoMemory`. Nothing is appended then.
pub fn sets_text(
    alloc: Global,
    out: &mut Vec<u8>,
    ontology: &Ontology,
    heading: &str,
    sets: &[AxiomSet],
) -> Result<(), NoMemory>
    requires { All (λ s. s.limit ≡ length ontology.now.axioms) sets.now }
    ensures text { OnOk result (out.new.items ≡ out.old.items ++ sets_text ontology.now heading.now sets.now) }
    ensures unchanged { OnErr result (out.new.items ≡ out.old.items) }
{
    let text = whole_text(alloc, ontology, heading, sets)?;
    out.extend_from_slice(&text)?;
    Ok(())
}

/// The lines of sets of axioms, as they stand in such a text.
///
/// # Errors
///
/// `NoMemory`.
pub fn text_of_sets(alloc: Global, sets: &[AxiomSet]) -> Result<Vec<u8>, NoMemory>
    ensures { IfOk result (λ text. text.items ≡ set_lines sets.now) }
{
    let mut lines = Vec::new(alloc);
    put_sets(alloc, &mut lines, sets)?;
    Ok(lines)
}

/// The lines of the axioms of a set, as they stand in such a text.
///
/// # Errors
///
/// `NoMemory`.
pub fn text_of_axioms(
    alloc: Global,
    ontology: &Ontology,
    set: &AxiomSet,
) -> Result<Vec<u8>, NoMemory>
    requires { set.now.limit ≡ length ontology.now.axioms }
    ensures { IfOk result
        (λ text. text.items ≡ axiom_lines ontology.now (sets_of.contains set.now.members) 1 ontology.now.axioms) }
{
    let mut lines = Vec::new(alloc);
    put_members(alloc, &mut lines, ontology, set)?;
    Ok(lines)
}

fn whole_text(
    alloc: Global,
    ontology: &Ontology,
    heading: &str,
    sets: &[AxiomSet],
) -> Result<Vec<u8>, NoMemory>
    requires { All (λ s. s.limit ≡ length ontology.now.axioms) sets.now }
    ensures { IfOk result (λ text. text.items ≡ sets_text ontology.now heading.now sets.now) }
{
    let mut text = Vec::new(alloc);
    put_heading(alloc, &mut text, heading.as_bytes(), sets.len())?;
    put_sets(alloc, &mut text, sets)?;
    put_axioms(alloc, &mut text, ontology, sets)?;
    Ok(text)
}

/// Puts a line with a heading and a number last.
pub(crate) fn put_heading(
    alloc: Global,
    out: &mut Vec<u8>,
    heading: &[u8],
    count: usize,
) -> Result<(), NoMemory>
    ensures { OnOk result (out.new.items ≡ out.old.items ++ heading_line heading.now count) }
{
    let digits = format!(in alloc; "{count}")?;
    put(out, heading)?;
    put(out, b" ")?;
    put(out, digits.as_bytes())?;
    put(out, b"\n")
}
