// The error of an addition.

use crate::NoMemory;
use std::alloc::AllocError;
use thiserror::Error;

/// Why an addition to an ontology was refused. The ontology is then as before.
#[derive(Clone, Copy, Debug, PartialEq, Eq, Error)]
pub enum AddFault {
    /// The list holds its limit: of axioms, or of names, where the name is new.
    #[error("the list holds its limit")]
    Full,
    /// Out of memory.
    #[error("out of memory")]
    NoMemory,
}

impl From<AllocError> for AddFault {
    ghost use Rattle.std.specs.Prelude.{◌≡◌};
    ghost use Rattle.shq_terms.specs.declared.add_fault.AddFault.TheVariants as fault;

    ghost from_gives = { λ _ e. e ≡ fault.NoMemory };

    fn from(_: AllocError) -> Self {
        AddFault::NoMemory
    }
}

impl From<NoMemory> for AddFault {
    ghost use Rattle.std.specs.Prelude.{◌≡◌};
    ghost use Rattle.shq_terms.specs.declared.add_fault.AddFault.TheVariants as fault;

    ghost from_gives = { λ _ e. e ≡ fault.NoMemory };

    fn from(_: NoMemory) -> Self {
        AddFault::NoMemory
    }
}
