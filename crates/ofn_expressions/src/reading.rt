// What a reader has counted and listed so far.
ghost use Rattle.std.specs.Prelude.{◌≡◌, ◌≢◌, ◌↔◌, Err, ◌≤◌, ◌<◌, ◌+◌, ◌∷◌, [], length, IfOk, IfErr, OnOk, OnErr, Some};
ghost use Rattle.std.specs.Prelude.{position};
ghost use Rattle.std.specs.Str.{bytes_eq};
ghost use Rattle.ofn_expressions.specs.Counts.{Grows, ClassesAreFull, RolesAreFull, IndividualsAreFull, first_state};
ghost use Rattle.ofn_expressions.specs.Counts.{ontology_of, with_axiom_counted, with_axiom_read, with_parts_counted};
ghost use Rattle.ofn_expressions.specs.Classes.{IsListedAxiom};
ghost use Rattle.ofn_expressions.specs.Walk.{Tested, add_refusal, numbered, parts, nodes, class, role, individual};

use crate::{Refusal, Which};
use shq_terms::{AddFault, Axiom, MAX_AXIOMS, Ontology};
use std::marker::Model;

/// The ontology so far, with the axioms that were begun, their parts, and the nodes of class expressions that were met.
#[derive(Drop)]
pub struct Reading {
    ontology: Ontology,
    axioms: u32,
    parts: u32,
    nodes: u32,
}

impl Model for Reading {
    ghost use Rattle.std.specs.Prelude.{◌≤◌, ◌≡◌, length};
    ghost use Rattle.ofn_expressions.specs.Counts.{State};
    ghost use Rattle.std.specs.Coded.{codes};
    ghost use Rattle.shq_terms.specs.Code.{concept_code};

    ghost Value = { State };

    ghost coded = { Prim.hlevel (codes, concept_code) };

    ghost view = { λ r. record {
      counts = record {
        axioms = r.axioms;
        parts = r.parts;
        nodes = r.nodes;
        classes = r.ontology.classes;
        roles = r.ontology.roles;
        individuals = r.ontology.individuals;
      };
      read = r.ontology.axioms;
    } };

    ghost invariant = { λ r. (r.axioms ≤ 20000) × (r.parts ≤ 500000) × (r.nodes ≤ 262144) };
}

/// The most nodes of class expressions.
pub const MAX_NODES: u32 = 262_144;

const MAX_PARTS: u32 = 500_000;

// The refusal where a list of names is full, or memory was refused.
fn add_refusal(which: Which, line: u32, fault: AddFault) -> Refusal
    ensures { result ≡ add_refusal which line fault }
{
    match fault {
        AddFault::Full => Refusal::Limit(which, line),
        AddFault::NoMemory => Refusal::NoMemory,
    }
}

impl Reading {
    ghost use Rattle.ofn_expressions.specs.Counts.{State};

    /// Goes on from an ontology for which so many axioms and nodes were counted.
    pub fn new(ontology: Ontology, axioms: u32, nodes: u32) -> Reading
        requires axioms { axioms ≤ MAX_AXIOMS }
        requires nodes { nodes ≤ MAX_NODES }
        ensures { result ≡ first_state ontology axioms nodes }
    {
        Reading {
            ontology,
            axioms,
            parts: 0,
            nodes,
        }
    }

    /// Counts one more numbered axiom.
    ///
    /// # Errors
    ///
    /// The limit `Axioms`. Nothing is counted then.
    pub fn count_axiom(&mut self, line: u32) -> Result<(), Refusal>
        ensures tests { Tested result self.old (numbered line ∷ []) self.new }
        ensures counted { OnOk result (self.new ≡ with_axiom_counted self.old) }
        ensures within { OnOk result (self.old.counts.axioms < MAX_AXIOMS) }
        ensures takes_no_memory { IfErr result (λ e. e ≢ Refusal.NoMemory) }
        ensures unchanged { OnErr result (self.new ≡ self.old) }
    {
        if self.axioms >= MAX_AXIOMS {
            return Err(Refusal::Limit(Which::Axioms, line));
        }
        self.axioms += 1;
        Ok(())
    }

    /// Counts so many more parts of axioms.
    ///
    /// # Errors
    ///
    /// The limit `Parts`. Nothing is counted then.
    pub fn count_parts(&mut self, line: u32, count: u64) -> Result<(), Refusal>
        ensures tests { Tested result self.old (parts line count ∷ []) self.new }
        ensures counted { OnOk result (self.new ≡ with_parts_counted self.old count) }
        ensures takes_no_memory { IfErr result (λ e. e ≢ Refusal.NoMemory) }
        ensures unchanged { OnErr result (self.new ≡ self.old) }
    {
        if count > u64::from(MAX_PARTS - self.parts) {
            return Err(Refusal::Limit(Which::Parts, line));
        }
        self.parts += count as u32;
        Ok(())
    }

    /// Counts so many more nodes of a class expression. At the limit nothing is counted.
    #[tactic(auto, using(crate::proofs::Growing::grows_same))]
    pub(crate) fn count_nodes(&mut self, line: u32, count: u32) -> Result<(), Refusal>
        ensures tests { Tested result self.old (nodes line count ∷ []) self.new }
        ensures grown { Grows self.old self.new }
        ensures takes_no_memory { IfErr result (λ e. e ≢ Refusal.NoMemory) }
    {
        if count > MAX_NODES - self.nodes {
            return Err(Refusal::Limit(Which::Nodes, line));
        }
        self.nodes += count;
        Ok(())
    }

    /// The number of a class, which is listed here. At the limit of names nothing is listed.
    #[tactic(auto, using(crate::proofs::Cited::naming))]
    pub(crate) fn add_class(&mut self, line: u32, name: &str) -> Result<u32, Refusal>
        ensures tests { Tested result self.old (class line name.now ∷ []) self.new }
        ensures grown { Grows self.old self.new }
        ensures number { IfOk result (λ k. position (bytes_eq name.now) self.new.counts.classes ≡ Some k) }
        ensures full { (result ≡ Err (Refusal.Limit Which.Classes line)) ↔ ClassesAreFull self.old.counts name.now }
    {
        match self.ontology.add_class(name) {
            Ok(number) => Ok(number),
            Err(fault) => Err(add_refusal(Which::Classes, line, fault)),
        }
    }

    /// The number of a role, which is listed here. At the limit of names nothing is listed.
    #[tactic(auto, using(crate::proofs::Cited::naming))]
    pub(crate) fn add_role(&mut self, line: u32, name: &str) -> Result<u32, Refusal>
        ensures tests { Tested result self.old (role line name.now ∷ []) self.new }
        ensures grown { Grows self.old self.new }
        ensures number { IfOk result (λ k. position (bytes_eq name.now) self.new.counts.roles ≡ Some k) }
        ensures full { (result ≡ Err (Refusal.Limit Which.Roles line)) ↔ RolesAreFull self.old.counts name.now }
    {
        match self.ontology.add_role(name) {
            Ok(number) => Ok(number),
            Err(fault) => Err(add_refusal(Which::Roles, line, fault)),
        }
    }

    /// The number of an individual, which is listed here. At the limit of names nothing is listed.
    #[tactic(auto, using(crate::proofs::Cited::naming))]
    pub(crate) fn add_individual(&mut self, line: u32, name: &str) -> Result<u32, Refusal>
        ensures tests { Tested result self.old (individual line name.now ∷ []) self.new }
        ensures grown { Grows self.old self.new }
        ensures number { IfOk result (λ k. position (bytes_eq name.now) self.new.counts.individuals ≡ Some k) }
        ensures full { (result ≡ Err (Refusal.Limit Which.Individuals line))
            ↔ IndividualsAreFull self.old.counts name.now }
    {
        match self.ontology.add_individual(name) {
            Ok(number) => Ok(number),
            Err(fault) => Err(add_refusal(Which::Individuals, line, fault)),
        }
    }

    /// Puts an axiom last whose names are listed, where fewer than `MAX_AXIOMS` are there.
    ///
    /// # Errors
    ///
    /// `NoMemory`. All is then as before.
    pub fn add_axiom(&mut self, axiom: Axiom, line: u32) -> Result<(), Refusal>
        requires room { length self.old.read < MAX_AXIOMS }
        requires listed { IsListedAxiom self.old.counts «axiom» }
        ensures added { OnOk result (self.new ≡ with_axiom_read self.old «axiom» line) }
        ensures memory { IfErr result (λ e. e ≡ Refusal.NoMemory) }
        ensures unchanged { OnErr result (self.new ≡ self.old) }
    {
        match self.ontology.add_axiom(axiom, line) {
            Ok(_) => Ok(()),
            Err(AddFault::Full) => unreachable!(),
            Err(AddFault::NoMemory) => Err(Refusal::NoMemory),
        }
    }

    /// The ontology, and the count of nodes.
    pub fn into_parts(self) -> (Ontology, u32)
        ensures ontology { result.0 ≡ ontology_of self }
        ensures nodes { result.1 ≡ self.counts.nodes }
        ensures within { result.1 ≤ MAX_NODES }
    {
        (self.ontology, self.nodes)
    }
}
