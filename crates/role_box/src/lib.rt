//! The role box: which roles are below others by the role axioms of a set, which are transitive, and which are simple.
//!
//! Inclusions and equivalences lead from a role to those above it, and a role is below another where a chain of such
//! steps leads there. A role is simple where no transitive role is below it; number restrictions over other roles would
//! make reasoning undecidable (Horrocks, Sattler and Tobies, Practical Reasoning for Expressive Description Logics,
//! 1999), so OWL 2 rules them out (Structural Specification, section 11).
//!
//! A box keeps for each role the set of the roles above it, closed by Warshall's algorithm (*A Theorem on Boolean
//! Matrices*, Journal of the ACM 9, 1962) over words of 64 bits, so that each test is a look at one bit. It is made of
//! the axioms with given numbers, so that a refutation can be checked by the role axioms that it names alone.
#![tactic(auto)]

mod closure;
mod counted_roles;
mod role_axiom;
mod role_box;
mod simple_roles;

ghost use Rattle.role_box.specs.Laws.{TestIsBelow, TestIsSimple};

pub use role_axiom::RoleAxiom;
pub use role_box::{Between, RoleBox};
pub use shq_terms::{Axiom, Concept, NoMemory, NumberList, Numbered, Ontology};
pub use simple_roles::{class_is_simple, first_not_simple, query_is_simple};

/// The test by paths over bounded inner roles is that of chains.
pub fn path_test_is_below()
    ensures { TestIsBelow }
{}

/// The test of simple roles by paths is that of chains.
pub fn simple_test_is_simple()
    ensures { TestIsSimple }
{}
