// The inclusions of classes that axioms state.
ghost use Rattle.std.specs.Prelude.{◌≡◌, length, IfOk};
ghost use Rattle.subsumption.specs.Told.{AreOf};

use shq_terms::{Axiom, Concept, NoMemory, Node, Ontology};
use std::alloc::Global;

/// That an axiom states the inclusion of one class in another.
#[derive(Clone, Copy)]
pub(crate) struct Inclusion {
    pub(crate) sub: u32,
    pub(crate) sup: u32,
}

/// The inclusions of listed classes in listed classes that axioms state, in the order of the axioms.
#[derive(Drop)]
pub(crate) struct Told {
    classes: u32,
    inclusions: Vec<Inclusion>,
    ghost within: { AreOf classes inclusions.items },
}

impl Told {
    /// The inclusions that the axioms of the ontology state.
    ///
    /// # Errors
    ///
    /// Out of memory.
    pub(crate) fn by(alloc: Global, ontology: &Ontology) -> Result<Told, NoMemory>
        ensures { IfOk result (λ told. told.classes ≡ length ontology.now.classes) }
    {
        let mut told = Told {
            classes: ontology.class_count(),
            inclusions: Vec::new(alloc),
        };
        for numbered in ontology.axioms() {
            told.add_axiom(&numbered.axiom)?;
        }
        Ok(told)
    }

    /// The inclusions.
    pub(crate) fn inclusions(&self) -> &[Inclusion]
        ensures inclusions { result.now ≡ self.now.inclusions.items }
        ensures within { AreOf self.now.classes self.now.inclusions.items }
    {
        &self.inclusions
    }

    // Adds the inclusions that an axiom states.
    fn add_axiom(&mut self, axiom: &Axiom) -> Result<(), NoMemory>
        ensures { self.new.classes ≡ self.old.classes }
    {
        match axiom {
            Axiom::SubClassOf(sub, sup) => self.add_inclusion(sub, sup),
            Axiom::EquivalentClasses(concepts) => self.add_equals(concepts.items()),
            Axiom::DisjointUnion(whole, parts) => self.add_parts(whole, parts.items()),
            Axiom::DisjointClasses(_)
            | Axiom::SubRole(_, _)
            | Axiom::EquivalentRoles(_)
            | Axiom::Domain(_, _)
            | Axiom::Range(_, _)
            | Axiom::Functional(_)
            | Axiom::Transitive(_)
            | Axiom::Member(_, _)
            | Axiom::Pair(_, _, _)
            | Axiom::SameAll(_)
            | Axiom::Different(_) => Ok(()),
        }
    }

    // Adds that each of the class expressions is included in the first, and the first in each.
    fn add_equals(&mut self, concepts: &[Concept]) -> Result<(), NoMemory>
        ensures { self.new.classes ≡ self.old.classes }
    {
        for concept in concepts {
            self.add_inclusion(&concepts[0], concept)?;
            self.add_inclusion(concept, &concepts[0])?;
        }
        Ok(())
    }

    // Adds that each of the parts is included in the whole.
    fn add_parts(&mut self, whole: &Concept, parts: &[Concept]) -> Result<(), NoMemory>
        ensures { self.new.classes ≡ self.old.classes }
    {
        for part in parts {
            self.add_inclusion(part, whole)?;
        }
        Ok(())
    }

    // Adds that a class is included in another, or in each class of an intersection.
    fn add_inclusion(&mut self, sub: &Concept, sup: &Concept) -> Result<(), NoMemory>
        ensures { self.new.classes ≡ self.old.classes }
    {
        let Node::Name(sub) = sub.node else {
            return Ok(());
        };
        match &sup.node {
            Node::Name(sup) => self.add(sub, *sup),
            Node::And(parts) => self.add_each(sub, parts),
            Node::Top
            | Node::Bottom
            | Node::Not(_)
            | Node::Or(_)
            | Node::SomeOf(_, _)
            | Node::AllOf(_, _)
            | Node::Min(_, _, _)
            | Node::Max(_, _, _)
            | Node::Exact(_, _, _) => Ok(()),
        }
    }

    // Adds that a class is included in each class among the class expressions.
    fn add_each(&mut self, sub: u32, sups: &[Concept]) -> Result<(), NoMemory>
        ensures { self.new.classes ≡ self.old.classes }
    {
        for sup in sups {
            if let Node::Name(sup) = sup.node {
                self.add(sub, sup)?;
            }
        }
        Ok(())
    }

    // Adds that a class is included in another, if both are listed.
    fn add(&mut self, sub: u32, sup: u32) -> Result<(), NoMemory>
        ensures { self.new.classes ≡ self.old.classes }
    {
        if sub < self.classes && sup < self.classes {
            self.inclusions.push(Inclusion { sub, sup })?;
        }
        Ok(())
    }
}
