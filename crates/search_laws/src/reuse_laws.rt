//! What the run of one search shows of other queries.
//!
//! A classification asks of one class X whether it is part of each of many others. Where a search for something in X
//! ends saturated, its trail is a model of X, and mostly shows at once that X is not part of a class W: the node that
//! is in X is not in W. What a budget counts are legal steps of the search that was asked for, though, so it has to be
//! shown that the search whether X is in W could have made the same steps. That search begins with a node that is in X
//! and in the complement of W.
//!
//! - **The same steps are legal** where neither W nor its complement was ever given to the node in question, and no
//!   union that it was ever given has the complement as a part. A complement of a name makes no step possible, since no
//!   rule reads one. It forbids a step only where it clashes with its name, where it is a part of a union at its node,
//!   or where it is itself to be put; and the node in question is neither a successor nor joined to another node. That
//!   holds where it is the node of no individual, so that no given fact speaks of it: a query on any element asks of such
//!   a node.
//! - **Nodes are made below the same ones.** A first node is never blocked, and another one only by a node that has all
//!   its concepts. So the node in question blocks no other one, with the complement or without, where each that has the
//!   complement has a concept of its own, too, which the node in question never has. Only a step that makes nodes asks
//!   which nodes are blocked. So this is asked of the trails from which the run goes on by such a step, and of the last
//!   one: in between, a node may have the complement and get a concept of its own later.
//! - **The end is saturated** by the same reasons.
//! - **Of individuals too.** One run over all axioms, for the question whether anything is in top and not in bottom,
//!   shows of many individuals that they are not in W. Edges may lead to the node of an individual, and facts may join
//!   it to another. So the run may not do the latter, and it may not give any node a concept that asks of successors
//!   whether they are in the complement of W, or counts those that are in W.
//!
//! Such reuse of a satisfiability test is the pseudo-model technique of classification (Haarslev, Möller and Turhan,
//! "Exploiting Pseudo Models for TBox and ABox Reasoning in Expressive Description Logics", 2001), here with a proof
//! that it saves no step that a log owes.
ghost use Rattle.search_laws.specs.ReuseLaws.{AnyIsUnnamed, OneRunAnswersMore, OneRunAnswersOfIndividuals};
ghost use Rattle.search_laws.specs.ReuseLaws.{StepsPutLast};

/// No axiom speaks of the node in question of a query on any element.
pub fn any_is_unnamed()
    ensures { AnyIsUnnamed }
{}

/// A run for one class that ends saturated answers whether the class is in another, where it leaves the other out.
pub fn one_run_answers_more()
    ensures { OneRunAnswersMore }
{}

/// A run over all axioms that ends saturated answers whether an individual is in a class, where it has nothing to do
/// with that.
pub fn one_run_answers_of_individuals()
    ensures { OneRunAnswersOfIndividuals }
{}

/// What a legal step puts stands at the end of the new trail.
pub fn steps_put_last()
    ensures { StepsPutLast }
{}
