// Equality and hash of sets.

ghost use Rattle.std.specs.Prelude.{◌≡◌, ◌↔◌, IsTrue};
ghost use Rattle.std.specs.Cmp.{decided, partial_equiv_from_equiv};
ghost use Rattle.std.proofs.Common.{ap};
ghost use Rattle.axiom_sets.specs.Compared.{limited_eq, limited_writes, limited_decides};

use crate::axiom_set::AxiomSet;
use std::hash::{Hash, Hasher};

impl PartialEq for AxiomSet {
    ghost eq = { limited_eq };

    ghost laws = { partial_equiv_from_equiv (decided limited_eq limited_decides) };

    /// Whether the limits and the members of both are the same.
    fn eq(&self, other: &AxiomSet) -> bool
        ensures value { result ≡ limited_eq self.now other.now }
        ensures same { IsTrue result ↔ (self.now ≡ other.now) }
    {
        if self.limit() != other.limit() {
            return false;
        }
        self.contains_all(other) && other.contains_all(self)
    }
}

impl Eq for AxiomSet {
    ghost laws = { decided limited_eq limited_decides };
}

impl Hash for AxiomSet {
    ghost hash_input = { limited_writes };

    ghost respects_eq = { λ s t same. ap limited_writes ((limited_decides s t).0 same) };

    /// Feeds the limit, and then the members in ascending order.
    fn hash<H: Hasher>(&self, state: &mut H) {
        state.write_u32(self.limit());
        for number in self.numbers() {
            state.write_u32(number);
        }
    }
}
