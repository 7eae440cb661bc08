//! What refutations and searches know of their nodes: facts, and what a list of them says.
//!
//! A list of facts is what the literature calls a completion tree or graph: nodes with concepts, edges of roles, and
//! pairs of nodes that are different (Horrocks, Sattler and Tobies, "Practical Reasoning for Expressive Description
//! Logics", 1999). There two nodes are merged by moving what is said of one to the other. Here a fact joins them,
//! nothing is moved, and everything is read through representatives: the least node of those that are joined. So facts
//! are only ever added, and taking the last ones away again leaves exactly what was said before.
ghost use Rattle.calculus_specs.specs.FactLaws.{RepsAreLeast, LabelIsHeld, ApartIsSymmetric, ReadingKeepsState};
ghost use Rattle.calculus_specs.specs.FactLaws.{NumbersReadAsTrees};

/// A fact on nodes, over concepts of a kind: numbers of a table in a search.
#[derive(Clone, Copy, Debug, PartialEq, Eq)]
pub enum Fact<C> {
    /// A node and a concept that it has.
    Has(u32, C),
    /// A role, and the nodes where an edge of it begins and ends.
    Edge(u32, u32, u32),
    /// Two nodes that are different.
    Apart(u32, u32),
    /// Two nodes that are one.
    Same(u32, u32),
}

/// A representative is the least node that is joined to its node, whatever the facts.
pub fn representatives_are_least<C>()
    ensures { RepsAreLeast C }
{}

/// The label of a node lists exactly what the node has.
pub fn labels_list_what_nodes_have()
    ensures { LabelIsHeld }
{}

/// Where one node is apart from another, that one is apart from it.
pub fn apart_is_symmetric<C>()
    ensures { ApartIsSymmetric C }
{}

/// Facts keep what they say of nodes, edges and joins when their concepts are read as others.
pub fn reading_keeps_what_facts_say<C, D>()
    ensures { ReadingKeepsState C D }
{}

/// A node has the tree of a number exactly where it has the number.
pub fn numbers_read_as_trees()
    ensures { NumbersReadAsTrees }
{}
