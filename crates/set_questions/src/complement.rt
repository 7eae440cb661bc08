// What a set lacks.

ghost use Rattle.std.specs.Prelude.{◌≡◌, IfOk};
ghost use Rattle.pinpointing_specs.specs.Sets.{IsWithin};
ghost use Rattle.pinpointing_specs.specs.Smallest.{rest};

use lane_sieve::NoMemory;
use pinpointing_specs::AxiomSet;
use std::alloc::Global;

/// The numbers from 1 to the limit that are not in the set.
pub fn rest_of(alloc: Global, set: &AxiomSet) -> Result<AxiomSet, NoMemory>
    ensures limit { IfOk result (λ s. s.limit ≡ set.now.limit) }
    ensures members { IfOk result (λ s. s.members ≡ rest set.now) }
    ensures within { IsWithin set.now.limit set.now.members }
{
    let mut rest = AxiomSet::full(alloc, set.limit())?;
    rest.take_all(set);
    Ok(rest)
}
