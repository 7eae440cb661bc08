// Pieces of answers, which are put last: bytes, numbers in decimal, and sets of axioms. A set is written as the numbers
// of its axioms, ascending, with one blank between, and as the word `empty` where it has none.
ghost use Rattle.std.specs.Prelude.{◌≡◌, ◌++◌, ◌∷◌, [], List, OnErr, OnOk, decimal, map};
ghost use Rattle.text_laws.specs.Canonical.{spaced};
ghost use Rattle.job_inputs.specs.SetText.{numbers_text, set_text};

use axiom_sets::{AxiomSet, Numbers};
use shq_terms::NoMemory;
use std::alloc::Global;

/// Puts the numbers of a set last.
///
/// # Errors
///
/// Out of memory.
pub fn put_set(alloc: Global, out: &mut Vec<u8>, set: &AxiomSet) -> Result<(), NoMemory>
    ensures { OnOk result (out.new.items ≡ out.old.items ++ set_text set.now) }
{
    put_numbers(alloc, out, set.numbers())
}

fn put_numbers(alloc: Global, out: &mut Vec<u8>, mut numbers: Numbers<'_>) -> Result<(), NoMemory>
    ensures { OnOk result (out.new.items ≡ out.old.items ++ numbers_text numbers.entry) }
{
    match numbers.next() {
        None => put(out, b"empty"),
        Some(first) => {
            put_number(alloc, out, first)?;
            put_spaced(alloc, out, numbers)
        }
    }
}

// Puts numbers last, each after one blank.
fn put_spaced(alloc: Global, out: &mut Vec<u8>, numbers: Numbers<'_>) -> Result<(), NoMemory>
    ensures { OnOk result (out.new.items ≡ out.old.items ++ spaced (map decimal numbers.entry)) }
{
    for number in numbers {
        put(out, b" ")?;
        put_number(alloc, out, number)?;
    }
    Ok(())
}

/// Puts bytes last.
///
/// # Errors
///
/// Out of memory. Nothing was put then.
pub fn put(out: &mut Vec<u8>, bytes: &[u8]) -> Result<(), NoMemory>
    ensures put { OnOk result (out.new.items ≡ out.old.items ++ bytes.now) }
    ensures unwritten { OnErr result (out.new.items ≡ out.old.items) }
{
    out.extend_from_slice(bytes)?;
    Ok(())
}

/// Puts a number in decimal last.
///
/// # Errors
///
/// Out of memory. Nothing was put then.
pub fn put_number(alloc: Global, out: &mut Vec<u8>, number: u32) -> Result<(), NoMemory>
    ensures put { OnOk result (out.new.items ≡ out.old.items ++ decimal number) }
    ensures unwritten { OnErr result (out.new.items ≡ out.old.items) }
{
    let digits = format!(in alloc; "{number}")?;
    put(out, digits.as_bytes())
}
