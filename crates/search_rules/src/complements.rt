// The numbers of complements.
ghost use Rattle.std.specs.Prelude.{◌≡◌, ℕ, ◌<◌, None, length, IfOk, slice_index_or};
ghost use Rattle.search_rules.specs.Tables.{FindsComplement};

use crate::NoMemory;
use ontology_limits::Concepts;
use std::alloc::Global;

// By number, the number of its complement, where the table has one.
pub(crate) fn complement_numbers(
    alloc: Global,
    concepts: &mut Concepts,
) -> Result<Vec<Option<u32>>, NoMemory>
    ensures found { IfOk result
        (λ found. (c : ℕ) → c < length concepts.old
        → FindsComplement concepts.old c (slice_index_or found.items c None)) }
    ensures same { concepts.new ≡ concepts.old }
{
    let mut found = Vec::new(alloc);
    for number in 0..concepts.len() {
        found.push(complement_of(concepts, number)?)?;
    }
    Ok(found)
}

// The number of a number's complement, where the table has one.
fn complement_of(concepts: &mut Concepts, number: u32) -> Result<Option<u32>, NoMemory>
    requires { number < length concepts.old }
    ensures found { IfOk result (FindsComplement concepts.old number) }
    ensures same { concepts.new ≡ concepts.old }
{
    let count = concepts.len();
    let complement = concepts.negated(number)?;
    let _count = concepts.len();
    concepts.truncate(count);
    if complement < count {
        Ok(Some(complement))
    } else {
        Ok(None)
    }
}
