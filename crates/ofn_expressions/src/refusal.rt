// Why a text is refused.

use crate::Construct;
use ofn_tree::TextFault;
use shq_terms::NoMemory;
use std::alloc::{AllocError, AllocFailed};
use thiserror::Error;

/// What there is too much of.
#[derive(Clone, Copy, Debug, PartialEq, Eq)]
pub enum Which {
    /// More than 16,777,216 bytes of a query.
    Text,
    /// More than 20,000 numbered axioms.
    Axioms,
    /// More than 20,000 class names.
    Classes,
    /// More than 1,000 role names.
    Roles,
    /// More than 20,000 names of individuals.
    Individuals,
    /// More than 262,144 nodes of class expressions.
    Nodes,
    /// A cardinality above 100.
    Number,
    /// More than 500,000 parts of axioms, of which each fact of an assertion is one.
    Parts,
}

/// Why a document or a query is refused, with the line.
#[derive(Clone, Copy, Debug, PartialEq, Eq, Error)]
pub enum Refusal {
    #[error("{0}")]
    Text(TextFault),
    /// An item is not what has to stand there.
    #[error("line {0}: not what has to stand here")]
    BadShape(u32),
    /// A name whose prefix is not declared.
    #[error("line {0}: a prefix that is not declared")]
    UnknownPrefix(u32),
    /// A prefix name that is declared again with another IRI.
    #[error("line {0}: a prefix with two IRIs")]
    PrefixClash(u32),
    /// A construct that is left out.
    #[error("line {0}: a construct outside of the profile")]
    Outside(u32, Construct),
    /// A number restriction, or a functional role, over a role that is not simple.
    #[error("line {0}: a role that is not simple is counted")]
    NotSimple(u32),
    #[error("line {1}: a limit is passed")]
    Limit(Which, u32),
    #[error("memory was refused")]
    NoMemory,
}

impl From<NoMemory> for Refusal {
    ghost use Rattle.std.specs.Prelude.{◌≡◌};
    ghost use Rattle.ofn_expressions.specs.declared.refusal.Refusal.TheVariants as refusal;

    ghost from_gives = { λ _ e. e ≡ refusal.NoMemory };

    fn from(_: NoMemory) -> Self {
        Refusal::NoMemory
    }
}

impl<T: Drop> From<AllocFailed<T>> for Refusal {
    ghost use Rattle.std.specs.Prelude.{◌≡◌};
    ghost use Rattle.ofn_expressions.specs.declared.refusal.Refusal.TheVariants as refusal;

    ghost from_gives = { λ _ e. e ≡ refusal.NoMemory };

    fn from(_: AllocFailed<T>) -> Self {
        Refusal::NoMemory
    }
}

impl From<AllocError> for Refusal {
    ghost use Rattle.std.specs.Prelude.{◌≡◌};
    ghost use Rattle.ofn_expressions.specs.declared.refusal.Refusal.TheVariants as refusal;

    ghost from_gives = { λ _ e. e ≡ refusal.NoMemory };

    fn from(_: AllocError) -> Self {
        Refusal::NoMemory
    }
}
