//! Class expressions, axioms and the ontology that lists them: the logic SHQ, which is ALC with transitive roles, role
//! hierarchies and qualified number restrictions, in the terms of OWL 2 (Structural Specification, section 8 for class
//! expressions, section 9 for axioms), with assertions about individuals.
//!
//! Names are interned: classes, roles and individuals are numbers, in the order in which their names came first, and
//! only the [`Ontology`] knows the names. It keeps that its axioms use listed names alone, and that no name is listed
//! twice, so that whoever reads an axiom may look each number up. Axioms are numbered by occurrence, since an
//! explanation tells which lines to remove. Contracts see a class expression as a plain tree, a list as a list and a
//! name as its bytes.
#![tactic(auto)]

mod add_fault;
mod axioms;
mod concept;
mod equality;
mod lists;
mod name_list;
mod ontology;

pub use add_fault::AddFault;
pub use axioms::{Axiom, Numbered, On, Query};
pub use concept::{Concept, Node};
pub use lists::{ConceptList, NumberList};
pub use ontology::{MAX_AXIOMS, MAX_CLASSES, MAX_INDIVIDUALS, MAX_ROLES, Ontology};
pub use shq_base::NoMemory;
