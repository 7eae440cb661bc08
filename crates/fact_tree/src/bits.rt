// A bit for each concept of a long label, by its number. A short label has no words of bits.
ghost use Rattle.std.specs.Prelude.{◌≡◌, ◌++◌, ◌+◌, ◌*◌, ◌/◌, ◌^◌, ◌<◌, ◌≤◌, [], ◌∷◌, length, take, OnOk, OnErr, ◌-◌};
ghost use Rattle.std.specs.FinSet as set;
ghost use Rattle.lane_sieve.specs.Sets.{number_set};
ghost use Rattle.fact_tree.specs.Short.{HaveBits, AreIndexed, EachIsNew};

use calculus_specs::NoMemory;
use lane_sieve::{put_number, take_number};
use std::alloc::Allocator;

// So few concepts are looked through, and have no bits.
const FEW: usize = 16;

/// Puts a concept last, with its bit where they are many.
///
/// # Errors
///
/// Out of memory; the concepts stay then.
pub(crate) fn put_last<A: Allocator + Copy>(
    concepts: &mut Vec<u32, A>,
    bits: &mut Vec<u64, A>,
    concept: u32,
) -> Result<(), NoMemory>
    requires { AreIndexed concepts.old.items bits.old.items }
    ensures put { OnOk result (concepts.new.items ≡ concepts.old.items ++ concept ∷ []) }
    ensures unchanged { OnErr result (concepts.new.items ≡ concepts.old.items) }
    ensures indexed { AreIndexed concepts.new.items bits.new.items }
{
    note(bits, concepts.as_slice(), concept);
    if concepts.push(concept).is_err() {
        bits.clear();
        return Err(NoMemory);
    }
    Ok(())
}

// Gives a concept that comes behind these its bit, and each of them where there were few. Where memory is refused none
// has one.
fn note<A: Allocator + Copy>(bits: &mut Vec<u64, A>, concepts: &[u32], concept: u32)
    requires { AreIndexed concepts.now bits.old.items }
    ensures { AreIndexed (concepts.now ++ concept ∷ []) bits.new.items }
{
    if try_note(bits, concepts, concept).is_err() {
        bits.clear();
    }
}

#[tactic(auto, using(crate::proofs::Indexed::more_indexed, crate::proofs::Indexed::not_indexed))]
fn try_note<A: Allocator + Copy>(
    bits: &mut Vec<u64, A>,
    concepts: &[u32],
    concept: u32,
) -> Result<(), NoMemory>
    requires { AreIndexed concepts.now bits.old.items }
    ensures { OnOk result (AreIndexed (concepts.now ++ concept ∷ []) bits.new.items) }
{
    if bits.is_empty() && concepts.len() < FEW {
        return Ok(());
    }
    put_all(bits, concepts)?;
    put_bit(bits, concept)?;
    Ok(())
}

// Gives each of the concepts its bit, unless they have them.
fn put_all<A: Allocator + Copy>(bits: &mut Vec<u64, A>, concepts: &[u32]) -> Result<(), NoMemory>
    requires { AreIndexed concepts.now bits.old.items }
    ensures { OnOk result (HaveBits concepts.now bits.new.items) }
{
    if bits.is_empty() {
        return put_bits(bits, concepts);
    }
    Ok(())
}

// Gives each of the concepts its bit.
fn put_bits<A: Allocator + Copy>(bits: &mut Vec<u64, A>, concepts: &[u32]) -> Result<(), NoMemory>
    requires { bits.old.items ≡ [] }
    ensures { OnOk result (HaveBits concepts.now bits.new.items) }
{
    for concept in concepts {
        put_bit(bits, *concept)?;
    }
    Ok(())
}

// Sets the bit of a concept.
fn put_bit<A: Allocator + Copy>(bits: &mut Vec<u64, A>, concept: u32) -> Result<(), NoMemory>
    ensures { OnOk result (number_set bits.new.items ≡ set.insert (number_set bits.old.items) concept) }
{
    let place = concept as usize / 64;
    if place >= bits.len() {
        grow(bits, place)?;
    }
    put_number(bits.as_mut_slice(), concept);
    Ok(())
}

// Makes room for the word at a place, and for as many again.
fn grow<A: Allocator + Copy>(bits: &mut Vec<u64, A>, place: usize) -> Result<(), NoMemory>
    requires past { length bits.old.items ≤ place }
    requires small { place < 2 ^ 26 }
    ensures room { OnOk result (place < length bits.new.items) }
    ensures same { OnOk result (number_set bits.new.items ≡ number_set bits.old.items) }
{
    bits.resize(2 * place + 1, 0)?;
    Ok(())
}

/// Takes the bits of all concepts but the first so many.
pub(crate) fn forget_after<A: Allocator + Copy>(
    bits: &mut Vec<u64, A>,
    concepts: &[u32],
    len: usize,
)
    requires indexed { AreIndexed concepts.now bits.old.items }
    requires new { EachIsNew concepts.now }
    ensures { AreIndexed (take len concepts.now) bits.new.items }
{
    if len < concepts.len() {
        forget_from(bits, concepts, concepts.len() - len);
    }
}

// Takes the bits of the last so many concepts.
fn forget_from<A: Allocator + Copy>(bits: &mut Vec<u64, A>, concepts: &[u32], count: usize)
    requires within { count ≤ length concepts.now }
    requires indexed { AreIndexed concepts.now bits.old.items }
    requires new { EachIsNew concepts.now }
    ensures { AreIndexed (take (length concepts.now - count) concepts.now) bits.new.items }
{
    for taken in 0..count {
        forget_last(bits, concepts, concepts.len() - 1 - taken);
    }
}

// Takes the bit of the concept at an index, the last one that has its bit.
fn forget_last<A: Allocator + Copy>(bits: &mut Vec<u64, A>, concepts: &[u32], index: usize)
    requires within { index < length concepts.now }
    requires indexed { AreIndexed (take (index + 1) concepts.now) bits.old.items }
    requires new { EachIsNew concepts.now }
    ensures { AreIndexed (take index concepts.now) bits.new.items }
{
    let concept = concepts[index];
    if (concept as usize / 64) < bits.len() {
        take_bit(bits, concept);
    }
}

// Takes the bit of a concept.
fn take_bit<A: Allocator + Copy>(bits: &mut Vec<u64, A>, concept: u32)
    requires { concept / 64 < length bits.old.items }
    ensures taken { number_set bits.new.items ≡ set.remove (number_set bits.old.items) concept }
    ensures same { length bits.new.items ≡ length bits.old.items }
{
    take_number(bits.as_mut_slice(), concept);
}
