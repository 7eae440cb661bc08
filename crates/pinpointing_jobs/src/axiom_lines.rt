// The lines of the axioms that some listed set has.
ghost use Rattle.std.specs.Prelude.{◌≡◌, ℕ, ◌+◌, ◌≤◌, ◌||◌, ◌++◌, [], IsTrue, IfOk, OnOk, length, if◌then◌else◌};
ghost use Rattle.std.specs.List.{All};
ghost use Rattle.std.specs.FinSet as sets_of;
ghost use Rattle.shq_terms.specs.Uses.{axiom_uses_listed};
ghost use Rattle.pinpointing_jobs.specs.SetLists.{is_listed, axiom_line, axiom_lines};

use crate::NoMemory;
use axiom_sets::AxiomSet;
use job_inputs::{put, put_number};
use ofn_writer::axiom_text;
use shq_terms::{Numbered, Ontology};
use std::alloc::Global;

/// Puts a line for each axiom last that one of the sets has.
pub(crate) fn put_axioms(
    alloc: Global,
    out: &mut Vec<u8>,
    ontology: &Ontology,
    sets: &[AxiomSet],
) -> Result<(), NoMemory>
    requires { All (λ s. s.limit ≡ length ontology.now.axioms) sets.now }
    ensures { OnOk result
        (out.new.items ≡ out.old.items ++ axiom_lines ontology.now (is_listed sets.now) 1 ontology.now.axioms) }
{
    let listed = union_of(alloc, ontology.axiom_count(), sets)?;
    put_members(alloc, out, ontology, &listed)
}

// The numbers that some of the sets have.
fn union_of(alloc: Global, limit: u32, sets: &[AxiomSet]) -> Result<AxiomSet, NoMemory>
    requires { All (λ s. s.limit ≡ limit) sets.now }
    ensures limit { IfOk result (λ s. s.limit ≡ limit) }
    ensures members { IfOk result (λ s. sets_of.contains s.members ≡ is_listed sets.now) }
{
    let mut union = AxiomSet::empty(alloc, limit)?;
    unite_with(&mut union, sets);
    Ok(union)
}

/// Puts the numbers of each of the sets in.
pub fn unite_with(union: &mut AxiomSet, sets: &[AxiomSet])
    requires { All (λ s. s.limit ≡ union.old.limit) sets.now }
    ensures limit { union.new.limit ≡ union.old.limit }
    ensures members { (k : ℕ) → sets_of.contains union.new.members k
        ≡ (sets_of.contains union.old.members k || is_listed sets.now k) }
{
    for set in sets {
        union.put_all(set);
    }
}

/// Puts a line for each axiom of the set last.
pub(crate) fn put_members(
    alloc: Global,
    out: &mut Vec<u8>,
    ontology: &Ontology,
    set: &AxiomSet,
) -> Result<(), NoMemory>
    requires { set.now.limit ≡ length ontology.now.axioms }
    ensures { OnOk result
        (out.new.items ≡ out.old.items
        ++ axiom_lines ontology.now (sets_of.contains set.now.members) 1 ontology.now.axioms) }
{
    let mut number = 0;
    for numbered in ontology.axioms() {
        number += 1;
        put_if_member(alloc, out, ontology, set, number, numbered)?;
    }
    Ok(())
}

// Puts the line of an axiom last, if the set has its number.
fn put_if_member(
    alloc: Global,
    out: &mut Vec<u8>,
    ontology: &Ontology,
    set: &AxiomSet,
    number: u32,
    numbered: &Numbered,
) -> Result<(), NoMemory>
    requires low { 1 ≤ number }
    requires high { number ≤ set.now.limit }
    requires listed { IsTrue
        (axiom_uses_listed (length ontology.now.classes) (length ontology.now.roles) (length ontology.now.individuals)
        numbered.now.axiom) }
    ensures { OnOk result (out.new.items ≡ out.old.items
        ++ (if sets_of.contains set.now.members number then axiom_line ontology.now number numbered.now else [])) }
{
    if !set.has(number) {
        return Ok(());
    }
    put_axiom(alloc, out, ontology, number, numbered)
}

fn put_axiom(
    alloc: Global,
    out: &mut Vec<u8>,
    ontology: &Ontology,
    number: u32,
    numbered: &Numbered,
) -> Result<(), NoMemory>
    requires { IsTrue
        (axiom_uses_listed (length ontology.now.classes) (length ontology.now.roles) (length ontology.now.individuals)
        numbered.now.axiom) }
    ensures { OnOk result (out.new.items ≡ out.old.items ++ axiom_line ontology.now number numbered.now) }
{
    put(out, b"axiom ")?;
    put_number(alloc, out, number)?;
    put(out, b" line ")?;
    put_number(alloc, out, numbered.line)?;
    put(out, b" ")?;
    axiom_text(out, &numbered.axiom, ontology)?;
    put(out, b"\n")
}
