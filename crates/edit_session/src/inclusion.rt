// Sets of axioms of different limits.
ghost use Rattle.std.specs.Prelude.{◌≡◌, ◌↔◌, ◌≤◌, IfOk, IsTrue};
ghost use Rattle.lane_sieve.specs.Sets.{IsPart};
ghost use Rattle.edit_session.specs.Inclusion.{HasAbove};

use axiom_sets::AxiomSet;
use shq_terms::NoMemory;
use std::alloc::Global;

/// Whether each number of the one set is in the other, whatever their limits are.
pub(crate) fn is_part(part: &AxiomSet, whole: &AxiomSet) -> bool
    ensures { IsTrue result ↔ IsPart part.now.members whole.now.members }
{
    if has_above(part, whole.limit()) {
        return false;
    }
    for below in 0..part.limit().min(whole.limit()) {
        if part.has(below + 1) && !whole.has(below + 1) {
            return false;
        }
    }
    true
}

// Whether the set has a number above a limit. The greatest is looked at first, since axioms that were added last are
// mostly live.
fn has_above(set: &AxiomSet, limit: u32) -> bool
    ensures { IsTrue result ↔ HasAbove set.now.members limit }
{
    let mut top = set.limit();
    while top > limit {
        if set.has(top) {
            return true;
        }
        top -= 1;
    }
    false
}

/// The same numbers, with a limit that is no less.
///
/// # Errors
///
/// Out of memory.
pub(crate) fn grown(alloc: Global, set: &AxiomSet, limit: u32) -> Result<AxiomSet, NoMemory>
    requires { set.now.limit ≤ limit }
    ensures limit { IfOk result (λ s. s.limit ≡ limit) }
    ensures members { IfOk result (λ s. s.members ≡ set.now.members) }
{
    let mut grown = AxiomSet::empty(alloc, limit)?;
    for below in 0..set.limit() {
        if set.has(below + 1) {
            grown.put(below + 1);
        }
    }
    Ok(grown)
}
