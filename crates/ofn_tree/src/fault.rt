// What is wrong with a text, below its words.

use std::alloc::AllocFailed;
use thiserror::Error;

/// The first fault of a text or of its brackets, with its line.
#[derive(Clone, Copy, Debug, PartialEq, Eq, Error)]
pub enum TextFault {
    #[error("line {0}: a byte that is not part of UTF-8")]
    BadUtf8(u32),
    #[error("line {0}: a character that belongs to no token")]
    BadToken(u32),
    #[error("line {0}: a bracket without its partner")]
    Unbalanced(u32),
    #[error("line {0}: more than 64 open brackets")]
    TooDeep(u32),
    #[error("memory was refused")]
    NoMemory,
}

impl<T: Drop> From<AllocFailed<T>> for TextFault {
    ghost use Rattle.std.specs.Prelude.{◌≡◌};
    ghost use Rattle.ofn_tree.specs.declared.fault.TextFault.TheVariants as fault;

    ghost from_gives = { λ _ e. e ≡ fault.NoMemory };

    fn from(_: AllocFailed<T>) -> Self {
        TextFault::NoMemory
    }
}
