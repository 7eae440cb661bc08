//! Laws of the trails that legal steps reach.
ghost use Rattle.tableau_specs.specs.StepLaws.{NodesStandBefore, NoneIsApartFromItself, JoinsAreOfSiblings};
ghost use Rattle.tableau_specs.specs.StepLaws.{SuccessorsAreChildren, ParentsAreLess, ClearHasNoneUnder};
ghost use Rattle.tableau_specs.specs.StepLaws.{NumbersAreListed, KeptKindsStay, TablesMayGrow, SaturatedHasNoClash};
ghost use Rattle.tableau_specs.specs.StepLaws.{SaturatedIsTheEnd};

/// Each item of a reached trail speaks of nodes that stand before it.
pub fn nodes_stand_before_they_are_spoken_of()
    ensures { NodesStandBefore }
{}

/// In a reached trail no node is apart from itself where nothing is given, and where something is, unless there is a
/// plain clash.
pub fn no_node_is_apart_from_itself()
    ensures { NoneIsApartFromItself }
{}

/// Each join of a reached trail is of two successors of one node that are not apart, or is given.
pub fn joins_are_of_siblings()
    ensures { JoinsAreOfSiblings }
{}

/// In a reached trail each edge is by a given one between first nodes, or leads to a child, read through joins: below
/// the first nodes the nodes are trees.
pub fn successors_are_children()
    ensures { SuccessorsAreChildren }
{}

/// In a reached trail the parent of a node is less than the node.
pub fn parents_are_less()
    ensures { ParentsAreLess }
{}

/// In a reached trail a successor of a clear node is clear or blocked by a node, and never under a block.
pub fn no_successor_of_a_clear_node_is_under_a_block()
    ensures { ClearHasNoneUnder }
{}

/// Each concept number of a reached trail is in the table.
pub fn numbers_are_listed()
    ensures { NumbersAreListed }
{}

/// What the rules keep of concepts and of the roles of edges holds of each concept and edge of a reached trail.
pub fn kept_kinds_stay()
    ensures { KeptKindsStay }
{}

/// A trail that is reached over a table is reached over each longer one.
pub fn tables_may_grow()
    ensures { TablesMayGrow }
{}

/// A reached trail that is saturated has no clash of any kind.
pub fn a_saturated_trail_has_no_clash()
    ensures { SaturatedHasNoClash }
{}

/// From a reached trail that is saturated no step is legal, and one without a plain clash is saturated where none is.
pub fn a_saturated_trail_is_an_end()
    ensures { SaturatedIsTheEnd }
{}
