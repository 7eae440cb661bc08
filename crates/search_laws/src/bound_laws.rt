//! Bounds of the concepts, nodes, steps and marks of a legal search, with any number of individuals.
//!
//! The bounds are on the table of legal steps itself, and so hold for every strategy. They are the termination argument
//! of tableau calculi (Horrocks, Sattler and Tobies, "Practical Reasoning for Expressive Description Logics", 1999):
//!
//! - A search gives its nodes concepts of the **closure** alone: what the query, the rows of the axioms and the
//!   assertions of individuals contain, with the complements that are chosen and the universal restrictions that
//!   transitive roles hand on. Let c be its size.
//! - Each first node, one for each individual and one more, is the root of a **tree** of the nodes that are made below
//!   it, also where some of them are joined to first nodes later. New nodes are made below clear nodes. What a node has
//!   when nodes are made below it, no node above it had when nodes were made below that one: that one would have it all
//!   still, or the first node would that it was joined to, and would block the lower one. So the nodes of **a path**
//!   had different sets of concepts, and are at most 2 ^ c + 1.
//! - What a node has asked for stays met, also where its new nodes are joined to others, since 'at least' is read
//!   through joins. So a node makes new nodes once at most for each of its concepts, at most g at a time: c * g
//!   **children**, and (c * g + 1) ^ (2 ^ c + 2) **nodes** in each tree.
//! - **The steps that a trail keeps** are counted by what they raise: concepts of nodes, nodes, joined nodes, pairs of
//!   nodes that are apart, and given facts that are so.
//! - **All steps.** The alternatives that the kept steps took are the digits of a number to the base b + 1, where b is
//!   the greatest number of alternatives. Each step raises the number, a step back too.
//!
//! The bounds on what a trail keeps are close for the nodes that it has. The one on all steps is beyond any budget, and
//! says that no strategy runs for ever.
ghost use Rattle.search_laws.specs.ComputedClosure.{ClosureIsComputed, ClosureOfAxiomsIsComputed};
ghost use Rattle.search_laws.specs.BoundLaws.{ConceptsAreInClosure, PathsAreShort, FewChildren, FewNodes};
ghost use Rattle.search_laws.specs.BoundLaws.{TrailsKeepSteps, FewOfEachKind, FewStepsAtFirst, FewMarks, FewSteps};
ghost use Rattle.search_laws.specs.BoundLaws.{LegalRunsAreBounded};

/// Where the transitive roles are listed, and the concepts that axioms give to nodes, the closure is computed.
pub fn the_closure_is_computed()
    ensures { ClosureIsComputed }
{}

/// So are the closure of numbered axioms and a query, and the list of the facts that these axioms give.
pub fn the_closure_of_axioms_is_computed()
    ensures { ClosureOfAxiomsIsComputed }
{}

/// Each concept of a reached trail is in the closure.
pub fn concepts_are_in_the_closure()
    ensures { ConceptsAreInClosure }
{}

/// In a reached trail the path from a first node to a node is short.
pub fn paths_are_short()
    ensures { PathsAreShort }
{}

/// In a reached trail few nodes have one parent.
pub fn few_children()
    ensures { FewChildren }
{}

/// A reached trail has few nodes for each first node.
pub fn few_nodes()
    ensures { FewNodes }
{}

/// Each reached trail keeps steps: those that were not taken back.
pub fn trails_keep_steps()
    ensures { TrailsKeepSteps }
{}

/// Of the steps that a reached trail keeps, few give a node a concept, few put a given fact, few make nodes, few join
/// two nodes, and few set two apart.
pub fn few_of_each_kind()
    ensures { FewOfEachKind }
{}

/// Where no mark of a reached trail has gone on to a later alternative, its steps are few for its nodes and the facts
/// that are given.
pub fn few_steps_without_going_back()
    ensures { FewStepsAtFirst }
{}

/// The marks of a reached trail are few for its nodes.
pub fn few_marks()
    ensures { FewMarks }
{}

/// A search takes few steps, whatever its strategy.
pub fn few_steps()
    ensures { FewSteps }
{}

/// The bounds of a search over axioms: on all its steps, first where no individual is listed and then with any number
/// of them, on its nodes, on its steps before it first goes back, and on its marks.
pub fn legal_runs_are_bounded()
    ensures { LegalRunsAreBounded }
{}
