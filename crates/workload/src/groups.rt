// The lines of a group of axioms.
ghost use Rattle.std.specs.Prelude.{◌≡◌, ◌++◌, OnOk, decimal};
ghost use Rattle.workload.specs.WorkloadText.{line, with_two, with_three, some_text, two_text, all_text, either_text};
ghost use Rattle.workload.specs.WorkloadText.{group_text};

use shq_terms::NoMemory;
use std::alloc::Global;

/// Puts bytes last.
fn put(text: &mut Vec<u8>, bytes: &[u8]) -> Result<(), NoMemory>
    ensures { OnOk result (text.new.items ≡ text.old.items ++ bytes.now) }
{
    text.extend_from_slice(bytes)?;
    Ok(())
}

/// Puts bytes and a line feed last.
pub(crate) fn put_line(text: &mut Vec<u8>, bytes: &[u8]) -> Result<(), NoMemory>
    ensures { OnOk result (text.new.items ≡ text.old.items ++ line bytes.now) }
{
    text.extend_from_slice(bytes)?;
    text.push(b'\n')?;
    Ok(())
}

/// Puts bytes and a number in decimal last.
fn put_numbered(
    alloc: Global,
    text: &mut Vec<u8>,
    bytes: &[u8],
    number: u32,
) -> Result<(), NoMemory>
    ensures { OnOk result (text.new.items ≡ text.old.items ++ (bytes.now ++ decimal number)) }
{
    let digits = format!(in alloc; "{number}")?;
    put(text, bytes)?;
    put(text, digits.as_bytes())
}

/// Puts a line last in which the number stands after two pieces.
fn put_with_two(
    alloc: Global,
    text: &mut Vec<u8>,
    number: u32,
    first: &[u8],
    second: &[u8],
    last: &[u8],
) -> Result<(), NoMemory>
    ensures { OnOk result (text.new.items ≡ text.old.items ++ line (with_two number first.now second.now last.now)) }
{
    put_numbered(alloc, text, first, number)?;
    put_numbered(alloc, text, second, number)?;
    put_line(text, last)
}

/// Puts the axiom on a successor last.
fn put_some(alloc: Global, text: &mut Vec<u8>, k: u32) -> Result<(), NoMemory>
    ensures { OnOk result (text.new.items ≡ text.old.items ++ line (some_text k)) }
{
    put_with_two(
        alloc,
        text,
        k,
        b"SubClassOf(:A",
        b" ObjectSomeValuesFrom(:r :B",
        b"))",
    )
}

/// Puts the axiom on two successors last.
fn put_two(alloc: Global, text: &mut Vec<u8>, k: u32) -> Result<(), NoMemory>
    ensures { OnOk result (text.new.items ≡ text.old.items ++ line (two_text k)) }
{
    put_with_two(
        alloc,
        text,
        k,
        b"SubClassOf(:A",
        b" ObjectMinCardinality(2 :s :B",
        b"))",
    )
}

/// Puts the axiom on all successors last.
fn put_all(alloc: Global, text: &mut Vec<u8>, k: u32) -> Result<(), NoMemory>
    ensures { OnOk result (text.new.items ≡ text.old.items ++ line (all_text k)) }
{
    put_with_two(
        alloc,
        text,
        k,
        b"SubClassOf(:B",
        b" ObjectAllValuesFrom(:r :C",
        b"))",
    )
}

/// Puts a line last in which the number stands after three pieces.
fn put_with_three(
    alloc: Global,
    text: &mut Vec<u8>,
    number: u32,
    first: &[u8],
    second: &[u8],
    third: &[u8],
    last: &[u8],
) -> Result<(), NoMemory>
    ensures { OnOk result
        (text.new.items ≡ text.old.items ++ line (with_three number first.now second.now third.now last.now)) }
{
    put_numbered(alloc, text, first, number)?;
    put_numbered(alloc, text, second, number)?;
    put_numbered(alloc, text, third, number)?;
    put_line(text, last)
}

/// Puts the axiom on a union last.
fn put_either(alloc: Global, text: &mut Vec<u8>, k: u32) -> Result<(), NoMemory>
    ensures { OnOk result (text.new.items ≡ text.old.items ++ line (either_text k)) }
{
    put_with_three(
        alloc,
        text,
        k,
        b"SubClassOf(:C",
        b" ObjectUnionOf(:A",
        b" :D",
        b"))",
    )
}

/// Puts the lines of a group last.
pub(crate) fn put_group(alloc: Global, text: &mut Vec<u8>, k: u32) -> Result<(), NoMemory>
    ensures { OnOk result (text.new.items ≡ text.old.items ++ group_text k) }
{
    put_some(alloc, text, k)?;
    put_two(alloc, text, k)?;
    put_all(alloc, text, k)?;
    put_either(alloc, text, k)
}
