// What is read, in every world.
ghost use Rattle.answers_everywhere.specs.Laws.{QuestionsAreOfWorld, NamesAreOfWorld, InstancesAreOfWorld};

use crate::World;

/// A question on a document, whether a statement follows or a class expression has an element: what all or some of the
/// axioms entail is what follows from them in every world.
pub fn questions_are_of_every_world<W: World>()
    ensures { QuestionsAreOfWorld W.world }
{}

/// The same of how two listed classes relate, and of whether a listed individual is in a listed class.
pub fn names_are_of_every_world<W: World>()
    ensures { NamesAreOfWorld W.world }
{}

/// The same of whether a listed individual is in a class expression.
pub fn instances_are_of_every_world<W: World>()
    ensures { InstancesAreOfWorld W.world }
{}
