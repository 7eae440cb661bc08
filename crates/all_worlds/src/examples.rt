// Worlds in which the meaning of axioms and class expressions was worked out by hand.
ghost use Rattle.all_worlds.specs.Examples.{ExamplesHold};

/// Each field is an example of its own: an axiom that a world meets or breaks, or a member that is in a class
/// expression or outside.
pub fn examples_hold()
    ensures { ExamplesHold }
{}
