// Axioms and queries.

use crate::{Concept, ConceptList, NumberList};

/// A class axiom, an object property axiom or an assertion (OWL 2 Structural Specification, sections 9.1, 9.2 and 9.6)
/// of a kind that SHQ has. Classes, roles and individuals are numbers.
#[derive(Drop)]
pub enum Axiom {
    SubClassOf(Concept, Concept),
    EquivalentClasses(ConceptList),
    DisjointClasses(ConceptList),
    DisjointUnion(Concept, ConceptList),
    SubRole(u32, u32),
    EquivalentRoles(NumberList),
    Domain(u32, Concept),
    Range(u32, Concept),
    Functional(u32),
    Transitive(u32),
    /// The individual is in the class expression.
    Member(Concept, u32),
    /// The role leads from the first individual to the second.
    Pair(u32, u32, u32),
    /// The individuals are all the same.
    SameAll(NumberList),
    /// The individuals at two different places are different.
    Different(NumberList),
}

/// An axiom with the line on which it stands, counted from 1. Its number is its place in the ontology.
#[derive(Drop)]
pub struct Numbered {
    pub axiom: Axiom,
    pub line: u32,
}

/// Of which elements a query speaks: of each, or of that which an individual is.
#[derive(Copy, Clone, Drop)]
pub enum On {
    Any,
    Individual(u32),
}

/// The question whether each element of `sub` that it speaks of is an element of `sup`, in each model of the axioms.
#[derive(Drop)]
pub struct Query {
    pub sub: Concept,
    pub sup: Concept,
    pub on: On,
}
