// The numbered axioms of a document, with the names of its classes, roles and individuals.
ghost use Rattle.std.specs.Prelude.{◌≡◌, ◌<◌, ◌≤◌, ◌+◌, ◌-◌, ◌↔◌, [], IsTrue, OnOk, OnErr, IfOk, Err, length};
ghost use Rattle.std.specs.Prelude.{slice_get, Some, position};
ghost use Rattle.std.specs.Str.{bytes_eq};
ghost use Rattle.shq_terms.specs.Names.{number_of, with_name, HasNoRoomFor};
ghost use Rattle.shq_terms.specs.Uses.{axiom_uses_listed, all_use_listed};
ghost use Rattle.shq_terms.specs.Distinct.{AreDistinct};

use crate::lists::push_item;
use crate::name_list::NameList;
use crate::{AddFault, Axiom, Numbered};
use std::alloc::Global;
use std::marker::Model;

/// The most numbered axioms that an ontology holds.
pub const MAX_AXIOMS: u32 = 20_000;

/// The most class names that an ontology lists.
pub const MAX_CLASSES: u32 = 20_000;

/// The most role names that an ontology lists.
pub const MAX_ROLES: u32 = 1_000;

/// The most names of individuals that an ontology lists.
pub const MAX_INDIVIDUALS: u32 = 20_000;

/// Numbered axioms, and the names of classes, roles and individuals that they use.
///
/// Axioms are numbered from 1 in the order in which they were added, and each occurrence of an axiom has a number of
/// its own. Classes, roles and individuals are numbered from 0, each in the order in which the names were added.
#[derive(Drop)]
pub struct Ontology {
    axioms: Vec<Numbered>,
    classes: NameList,
    roles: NameList,
    individuals: NameList,
}

impl Model for Ontology {
    ghost use Rattle.std.specs.Prelude.{List, ℕ, length, ◌≤◌, ◌≡◌, true};
    ghost use Rattle.std.specs.Coded.{codes};
    ghost use Rattle.shq_base.specs.Code.{concept_code};
    ghost use Rattle.shq_terms.specs.Listed.{Listed};
    ghost use Rattle.shq_terms.specs.Uses.{all_use_listed};
    ghost use Rattle.shq_terms.specs.Distinct.{AreDistinct};

    ghost Value = { Listed };

    ghost coded = { Prim.hlevel (codes, concept_code) };

    ghost view = { λ o. record {
      axioms = o.axioms.items;
      classes = o.classes;
      roles = o.roles;
      individuals = o.individuals;
    } };

    ghost invariant = { λ o. (length o.axioms.items ≤ 20000) × (length o.classes ≤ 20000) × (length o.roles ≤ 1000)
        × (length o.individuals ≤ 20000)
        × (all_use_listed (length o.classes) (length o.roles) (length o.individuals) o.axioms.items ≡ true)
        × AreDistinct o.classes × AreDistinct o.roles × AreDistinct o.individuals };
}

impl Ontology {
    ghost use Rattle.shq_terms.specs.Listed.{Listed, with_axiom, with_names_cut};

    /// No axioms and no names.
    pub fn new(alloc: Global) -> Ontology
        ensures { result ≡ record { axioms = []; classes = []; roles = []; individuals = [] } }
    {
        Ontology {
            axioms: Vec::new(alloc),
            classes: NameList::new(alloc),
            roles: NameList::new(alloc),
            individuals: NameList::new(alloc),
        }
    }

    /// How many axioms there are.
    pub fn axiom_count(&self) -> u32
        ensures count { result ≡ length self.now.axioms }
        ensures within { result ≤ MAX_AXIOMS }
    {
        self.axioms.len() as u32
    }

    /// How many class names are listed.
    pub fn class_count(&self) -> u32
        ensures count { result ≡ length self.now.classes }
        ensures within { result ≤ MAX_CLASSES }
        ensures distinct { AreDistinct self.now.classes }
    {
        self.classes.len()
    }

    /// How many role names are listed.
    pub fn role_count(&self) -> u32
        ensures count { result ≡ length self.now.roles }
        ensures within { result ≤ MAX_ROLES }
        ensures distinct { AreDistinct self.now.roles }
    {
        self.roles.len()
    }

    /// How many names of individuals are listed.
    pub fn individual_count(&self) -> u32
        ensures count { result ≡ length self.now.individuals }
        ensures within { result ≤ MAX_INDIVIDUALS }
        ensures distinct { AreDistinct self.now.individuals }
    {
        self.individuals.len()
    }

    /// All axioms, in the order of their numbers.
    pub fn axioms(&self) -> &[Numbered]
        ensures all { result.now ≡ self.now.axioms }
        ensures within { length self.now.axioms ≤ MAX_AXIOMS }
        ensures listed { IsTrue
            (all_use_listed (length self.now.classes) (length self.now.roles) (length self.now.individuals)
            self.now.axioms) }
    {
        &self.axioms
    }

    /// The axiom of a number from 1 to the count of axioms.
    pub fn axiom(&self, number: u32) -> &Numbered
        requires low { 1 ≤ number }
        requires high { number ≤ length self.now.axioms }
        ensures { Some result.now ≡ slice_get self.now.axioms (number - 1) }
    {
        &self.axioms[number as usize - 1]
    }

    /// The full IRI of a class.
    pub fn class_name(&self, class: u32) -> &str
        requires { class < length self.now.classes }
        ensures { Some result.now ≡ slice_get self.now.classes class }
    {
        self.classes.name(class)
    }

    /// The full IRI of a role.
    pub fn role_name(&self, role: u32) -> &str
        requires { role < length self.now.roles }
        ensures { Some result.now ≡ slice_get self.now.roles role }
    {
        self.roles.name(role)
    }

    /// The full IRI of an individual.
    pub fn individual_name(&self, individual: u32) -> &str
        requires { individual < length self.now.individuals }
        ensures { Some result.now ≡ slice_get self.now.individuals individual }
    {
        self.individuals.name(individual)
    }

    /// The number of a class. `None` exactly where the name is not listed.
    pub fn class_number(&self, iri: &str) -> Option<u32>
        ensures { result ≡ position (bytes_eq iri.now) self.now.classes }
    {
        self.classes.number(iri)
    }

    /// The number of a role. `None` exactly where the name is not listed.
    pub fn role_number(&self, iri: &str) -> Option<u32>
        ensures { result ≡ position (bytes_eq iri.now) self.now.roles }
    {
        self.roles.number(iri)
    }

    /// The number of an individual. `None` exactly where the name is not listed.
    pub fn individual_number(&self, iri: &str) -> Option<u32>
        ensures { result ≡ position (bytes_eq iri.now) self.now.individuals }
    {
        self.individuals.number(iri)
    }

    /// The number of the class whose IRI has these bytes, which may be no text. `None` exactly where none is listed.
    pub fn class_of_bytes(&self, iri: &[u8]) -> Option<u32>
        ensures { result ≡ position (bytes_eq iri.now) self.now.classes }
    {
        self.classes.number_of_bytes(iri)
    }

    /// The number of the role whose IRI has these bytes, which may be no text. `None` exactly where none is listed.
    pub fn role_of_bytes(&self, iri: &[u8]) -> Option<u32>
        ensures { result ≡ position (bytes_eq iri.now) self.now.roles }
    {
        self.roles.number_of_bytes(iri)
    }

    /// The number of the individual whose IRI has these bytes, which may be no text. `None` exactly where none is
    /// listed.
    pub fn individual_of_bytes(&self, iri: &[u8]) -> Option<u32>
        ensures { result ≡ position (bytes_eq iri.now) self.now.individuals }
    {
        self.individuals.number_of_bytes(iri)
    }

    /// The number of a class. A listed name keeps its number, and a new name goes last.
    ///
    /// # Errors
    ///
    /// `Full` exactly where the name is new and `MAX_CLASSES` names are listed; `NoMemory`.
    pub fn add_class(&mut self, iri: &str) -> Result<u32, AddFault>
        ensures number { IfOk result (λ k. k ≡ number_of self.old.classes iri.now) }
        ensures added { OnOk result (self.new ≡ record self.old { classes = with_name self.old.classes iri.now }) }
        ensures within { length self.new.classes ≤ MAX_CLASSES }
        ensures unchanged { OnErr result (self.new ≡ self.old) }
        ensures full { (result ≡ Err AddFault.Full) ↔ HasNoRoomFor MAX_CLASSES self.old.classes iri.now }
    {
        self.classes.add(iri, MAX_CLASSES)
    }

    /// The number of a role. A listed name keeps its number, and a new name goes last.
    ///
    /// # Errors
    ///
    /// `Full` exactly where the name is new and `MAX_ROLES` names are listed; `NoMemory`.
    pub fn add_role(&mut self, iri: &str) -> Result<u32, AddFault>
        ensures number { IfOk result (λ k. k ≡ number_of self.old.roles iri.now) }
        ensures added { OnOk result (self.new ≡ record self.old { roles = with_name self.old.roles iri.now }) }
        ensures within { length self.new.roles ≤ MAX_ROLES }
        ensures unchanged { OnErr result (self.new ≡ self.old) }
        ensures full { (result ≡ Err AddFault.Full) ↔ HasNoRoomFor MAX_ROLES self.old.roles iri.now }
    {
        self.roles.add(iri, MAX_ROLES)
    }

    /// The number of an individual. A listed name keeps its number, and a new name goes last.
    ///
    /// # Errors
    ///
    /// `Full` exactly where the name is new and `MAX_INDIVIDUALS` names are listed; `NoMemory`.
    pub fn add_individual(&mut self, iri: &str) -> Result<u32, AddFault>
        ensures number { IfOk result (λ k. k ≡ number_of self.old.individuals iri.now) }
        ensures added { OnOk result
            (self.new ≡ record self.old { individuals = with_name self.old.individuals iri.now }) }
        ensures within { length self.new.individuals ≤ MAX_INDIVIDUALS }
        ensures unchanged { OnErr result (self.new ≡ self.old) }
        ensures full { (result ≡ Err AddFault.Full) ↔ HasNoRoomFor MAX_INDIVIDUALS self.old.individuals iri.now }
    {
        self.individuals.add(iri, MAX_INDIVIDUALS)
    }

    /// Puts an axiom last and answers its number. The axiom uses listed names alone.
    ///
    /// # Errors
    ///
    /// `Full` exactly where there are `MAX_AXIOMS` axioms; `NoMemory`. The axiom is dropped then.
    #[tactic(auto, using(crate::proofs::Uses::all_use_push))]
    pub fn add_axiom(&mut self, axiom: Axiom, line: u32) -> Result<u32, AddFault>
        requires { IsTrue
            (axiom_uses_listed (length self.old.classes) (length self.old.roles) (length self.old.individuals)
            «axiom») }
        ensures number { IfOk result (λ n. n ≡ length self.old.axioms + 1) }
        ensures added { OnOk result (self.new ≡ with_axiom self.old «axiom» line) }
        ensures unchanged { OnErr result (self.new ≡ self.old) }
        ensures full { (result ≡ Err AddFault.Full) ↔ (length self.old.axioms ≡ MAX_AXIOMS) }
    {
        let numbered = Numbered { axiom, line };
        if self.axioms.len() >= MAX_AXIOMS as usize {
            drop(numbered);
            return Err(AddFault::Full);
        }
        push_item(&mut self.axioms, numbered)?;
        Ok(self.axioms.len() as u32)
    }

    /// Keeps the first `classes` class names, the first `roles` role names and the first `individuals` names of
    /// individuals. No axiom uses a name that is cut.
    #[tactic(auto, using(crate::proofs::Distinct::taken_distinct))]
    pub fn cut_names(&mut self, classes: u32, roles: u32, individuals: u32)
        requires classes { classes ≤ length self.old.classes }
        requires roles { roles ≤ length self.old.roles }
        requires individuals { individuals ≤ length self.old.individuals }
        requires unused { IsTrue (all_use_listed classes roles individuals self.old.axioms) }
        ensures { self.new ≡ with_names_cut self.old classes roles individuals }
    {
        self.classes.truncate(classes);
        self.roles.truncate(roles);
        self.individuals.truncate(individuals);
    }
}
