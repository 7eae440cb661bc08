// Worlds.

ghost use Rattle.std.specs.Prelude.{ℕ};
ghost use Rattle.all_worlds.specs.Worlds.{World as WorldOver};
ghost use Rattle.all_worlds.specs.Examples.{chain};

/// A domain, and which of its members are in the classes, the roles and the individuals.
pub trait World {
    ghost Domain: { Type 0 };

    ghost world: { WorldOver Domain };
}

/// A world without end: over the natural numbers, of which each role leads from each to the next.
pub struct EndlessChain;

impl World for EndlessChain {
    ghost Domain = { ℕ };

    ghost world = { chain };
}
