// What one search shows of further classes.
ghost use Rattle.std.specs.Prelude.{◌≡◌, ◌+◌, ◌<◌, true, length, IfOk};
ghost use Rattle.std.specs.FinSet as set;
ghost use Rattle.run_log.specs.HonestLog.{IsAxiomSet, IsHonestEntry};
ghost use Rattle.shq_oracle.specs.ApartLists.{query_of, entry_of, AreApart};

use crate::NoMemory;
use axiom_sets::AxiomSet;
use shq_terms::{Concept, Node, On, Ontology, Query};
use std::alloc::Global;
use std::marker::Model;

/// What a search whether anything is in a class expression has shown of classes of the ontology: by the axioms of a set
/// the class expression is included in none of them, and the steps that the search made decide this of each.
#[derive(Drop)]
pub struct Apart<'a> {
    ontology: &'a Ontology,
    set: AxiomSet,
    sub: Concept,
    steps: u64,
    classes: AxiomSet,
}

impl<'a> Model for Apart<'a> {
    ghost use Rattle.std.specs.Coded.{codes};
    ghost use Rattle.shq_terms.specs.Code.{concept_code};
    ghost use Rattle.axiom_sets.specs.Sets.{limited_code};
    ghost use Rattle.shq_oracle.specs.ApartLists.{ApartLists, IsKeptApart};

    ghost Value = { ApartLists };

    ghost coded = { Prim.hlevel (codes, concept_code, limited_code) };

    ghost view = { λ a. record {
      ontology = a.ontology.now;
      set = a.set;
      sub = a.sub;
      steps = a.steps;
      classes = a.classes;
    } };

    ghost invariant = { λ a. IsKeptApart
        (record { ontology = a.ontology.now; set = a.set; sub = a.sub; steps = a.steps; classes = a.classes }) };
}

impl<'a> Apart<'a> {
    /// What a search of so many steps has shown of `classes`, in which the number of each class is greater by one.
    ///
    /// # Errors
    ///
    /// Out of memory.
    pub(crate) fn new(
        alloc: Global,
        ontology: &'a Ontology,
        set: &AxiomSet,
        sub: &Concept,
        steps: u64,
        classes: AxiomSet,
    ) -> Result<Apart<'a>, NoMemory>
        requires of_axioms { IsAxiomSet ontology.now set.now }
        requires apart { AreApart ontology.now set.now sub.now steps classes }
        ensures { IfOk result (λ a. a
            ≡ record {
              ontology = ontology.entry.now;
              set = set.now;
              sub = sub.now;
              steps = steps;
              classes = classes;
            }) }
    {
        let axioms = set.try_clone()?;
        let expression = sub.try_clone(alloc)?;
        Ok(Apart {
            ontology,
            set: axioms,
            sub: expression,
            steps,
            classes,
        })
    }

    /// Whether it shows of a class that the class expression is not included in it.
    pub fn shows(&self, class: u32) -> bool
        requires { class < length self.now.ontology.classes }
        ensures told { result ≡ set.contains self.now.classes.members (class + 1) }
        ensures honest { result ≡ true → IsHonestEntry self.now.ontology (entry_of self.now class) }
    {
        let _limit = self.classes.limit();
        self.classes.has(class + 1)
    }

    /// How many steps the search made, those of a beginning from which it went on included.
    pub fn steps(&self) -> u64
        ensures { result ≡ self.now.steps }
    {
        self.steps
    }

    /// The set of axioms that the search used.
    pub fn set(&self) -> &AxiomSet
        ensures { result.now ≡ self.now.set }
    {
        &self.set
    }

    /// The query whether the class expression is included in a class.
    ///
    /// # Errors
    ///
    /// Out of memory.
    pub fn query(&self, alloc: Global, class: u32) -> Result<Query, NoMemory>
        ensures { IfOk result (λ q. q ≡ query_of self.now class) }
    {
        let sub = self.sub.try_clone(alloc)?;
        let node = Node::Name(class);
        Ok(Query {
            sub,
            sup: Concept { node },
            on: On::Any,
        })
    }
}
