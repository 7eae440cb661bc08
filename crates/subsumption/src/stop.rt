// Why the questions stopped before their end.

use shq_terms::NoMemory;

/// Why the questions stopped before each pair of classes was settled.
#[derive(Clone, Copy, Debug, PartialEq, Eq)]
pub enum Stop {
    /// The budget was spent in the middle of a test.
    Spent,
    /// Out of memory.
    NoMemory,
}

impl From<NoMemory> for Stop {
    ghost use Rattle.std.specs.Prelude.{◌≡◌};
    ghost use Rattle.subsumption.specs.declared.stop.Stop.TheVariants as stop;

    ghost from_gives = { λ _ e. e ≡ stop.NoMemory };

    fn from(_: NoMemory) -> Self {
        Stop::NoMemory
    }
}
