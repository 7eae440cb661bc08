//! Where a step of a search can make a plain clash: laws by which a search looks near what has changed alone.
ghost use Rattle.tableau_specs.specs.ClashLaws.{ConceptClashesThere, NewNodesClashThere, ApartClashesThere};
ghost use Rattle.tableau_specs.specs.ClashLaws.{JoinClashesThere, JoinedAreApartAsBefore, EdgeClashesThere};
ghost use Rattle.tableau_specs.specs.ClashLaws.{ReachedSpeakOfNodes, NoClashBeforeMarks};

/// Where there is no plain clash, a concept more makes one exactly where it clashes at its node.
pub fn a_concept_clashes_at_its_node()
    ensures { ConceptClashesThere }
{}

/// Where there is no plain clash, new nodes make one exactly where their concept is bottom, or where there are too many
/// then.
pub fn new_nodes_clash_below_their_parent()
    ensures { NewNodesClashThere }
{}

/// Where there is no plain clash, two nodes that are apart make one exactly where both are counted, or are one.
pub fn nodes_apart_clash_where_both_are_counted()
    ensures { ApartClashesThere }
{}

/// Where there is no plain clash, two nodes that are one make one exactly at this node, or above it.
pub fn joined_nodes_clash_there_or_above()
    ensures { JoinClashesThere }
{}

/// Where there is no plain clash, two nodes that become one are apart from themselves exactly where they were apart.
pub fn joined_nodes_are_apart_as_before()
    ensures { JoinedAreApartAsBefore }
{}

/// Where there is no plain clash, an edge between nodes makes one exactly at its beginning.
pub fn edges_clash_where_they_begin()
    ensures { EdgeClashesThere }
{}

/// The facts of a reached trail speak of its nodes alone.
pub fn reached_facts_speak_of_nodes()
    ensures { ReachedSpeakOfNodes }
{}

/// In a reached trail no plain clash stands before a mark.
pub fn no_plain_clash_stands_before_a_mark()
    ensures { NoClashBeforeMarks }
{}
