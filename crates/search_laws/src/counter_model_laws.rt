//! Counter-models: a saturated tableau is a finite interpretation that meets the axioms and refutes the query.
//!
//! A search whether one class is part of another ends without a refutation where its trail is saturated: there is no
//! clash, and nothing is left to add, to make or to choose. Then the axioms do not entail the query, and the trail says
//! why: it describes an interpretation, which anybody can check. This is the completeness of the tableau calculus, and
//! it shows the finite model property of SHQ.
//!
//! - **An element is a representative that is not under a block.** A blocked node is an element of its own, which has
//!   the label and the successors of its blocker. So the blocked tree is not unravelled into an infinite one, as for
//!   logics with inverse roles (Horrocks, Sattler and Tobies, "Practical Reasoning for Expressive Description Logics",
//!   1999): it is bent back into a finite structure, with at most as many elements as representatives. Different
//!   successors of a node stay different elements, so that what 'at least' and 'at most' count is the same in the tree
//!   and in the interpretation. Were all nodes that one node blocks sent to one element, 'at least 2' would lose a
//!   successor.
//! - **A class** has the elements whose blocker, or itself where it is clear, has the name. **A role** has the edges of
//!   the roles below it, and the chains of such edges for each transitive role below it. **An individual** is the
//!   element that its node is one with: the first nodes are never blocked, so that each is one with an element that is
//!   like itself. What axioms assert of individuals is so in the trail, and so true of these elements.
//! - **Truth** of what a label has goes by induction on how deep roles nest, and then on the numbers of the table. A
//!   concept and the normal form of its complement nest equally deep, which 'at most' needs: it counts a successor
//!   exactly where it chose that the successor is in the filler.
//! - 'At most' counts edges alone, since no transitive role is below the role: the limits of an ontology say that each
//!   counted role is simple.
ghost use Rattle.search_laws.specs.CounterModelLaws.{ElementsAreFew, FirstNodesAreElements, ElementsDiffer};
ghost use Rattle.search_laws.specs.CounterModelLaws.{SuccessorsAreElements, LabelsArePart, LabelsAreTrue, PartsAreMet};
ghost use Rattle.search_laws.specs.CounterModelLaws.{RolesAreMet, AssertionsAreMet, ComputedIsBuilt, ChainsStayWithin};
ghost use Rattle.search_laws.specs.CounterModelLaws.{LabelsCountSimple, NodeInQuestionRefutes, SaturatedIsCounterModel};
ghost use Rattle.search_laws.specs.CounterModelLaws.{SaturatedDoesNotEntail};

/// There is an element, and there are at most as many elements as representatives.
pub fn elements_are_few()
    ensures { ElementsAreFew }
{}

/// Each first node is one with an element, which is like itself.
pub fn first_nodes_are_elements()
    ensures { FirstNodesAreElements }
{}

/// Different elements are different nodes, so that different successors of a node are different elements.
pub fn elements_differ()
    ensures { ElementsDiffer }
{}

/// Each successor of the node that an element is like is an element.
pub fn successors_are_elements()
    ensures { SuccessorsAreElements }
{}

/// What the node of an element has, the node that it is like has too.
pub fn labels_are_part()
    ensures { LabelsArePart }
{}

/// Each element is in all concepts that the node which it is like has.
pub fn labels_are_true()
    ensures { LabelsAreTrue }
{}

/// Each part of the axioms is met, by the row that is chosen for it.
pub fn parts_are_met()
    ensures { PartsAreMet }
{}

/// Each role has the pairs of those below it, and a transitive one passes them on.
pub fn roles_are_met()
    ensures { RolesAreMet }
{}

/// What axioms assert of individuals is met, by the facts that they give.
pub fn assertions_are_met()
    ensures { AssertionsAreMet }
{}

/// What is computed of a reached trail is its interpretation.
pub fn computed_interpretations_are_built()
    ensures { ComputedIsBuilt }
{}

/// A set that edges do not leave has the ends of all chains that begin in it.
pub fn chains_stay_within()
    ensures { ChainsStayWithin }
{}

/// Within the limits of an ontology, each 'at most' of a label counts a simple role.
pub fn labels_count_simple()
    ensures { LabelsCountSimple }
{}

/// The element that the node in question is one with is in the one class of the query and not in the other, and it is
/// the individual that the query is on, if it is on one.
pub fn node_in_question_refutes()
    ensures { NodeInQuestionRefutes }
{}

/// The interpretation of a saturated trail is a counter-model: it uses listed names alone, meets the axioms of the
/// search, and has a counter-example to the query.
pub fn saturated_is_counter_model()
    ensures { SaturatedIsCounterModel }
{}

/// Where a search saturates, its axioms do not entail its query.
pub fn saturated_does_not_entail()
    ensures { SaturatedDoesNotEntail }
{}
