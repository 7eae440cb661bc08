// Facts of axioms, in order.
ghost use Rattle.std.specs.Prelude.{◌≡◌, ◌+◌, ◌<◌, ◌≤◌, ◌^◌, [], ◌∷◌, ◌++◌, map, length, OnOk};
ghost use Rattle.calculus_specs.specs.declared.facts.Fact.TheVariants.{Has, Edge, Apart, Same};
ghost use Rattle.refutation_truth.specs.Facts.{same_facts, apart_facts};
ghost use Rattle.assertion_box.specs.Stated.{own_facts, numbered_facts, stated_at, ends_of};
ghost use Rattle.assertion_box.specs.Entries.{kept_fact, axiom_of, fact_of};

use crate::NoMemory;
use crate::given::Given;
use refutation_truth::{Axiom, Concept};
use std::alloc::Global;
use std::marker::Model;

// What a fact says.
#[derive(Drop)]
pub(crate) enum Says {
    Member(Concept, u32),
    Pair(u32, u32, u32),
    Same(u32, u32),
    Differ(u32, u32),
}

// A fact with the number of its axiom, and its place among that one's facts.
#[derive(Drop)]
pub(crate) struct Entry {
    axiom: u32,
    place: u32,
    says: Says,
}

// Facts in order, fewer than 2^32.
#[derive(Drop)]
pub(crate) struct StatedList {
    alloc: Global,
    entries: Vec<Entry>,
}

impl Model for StatedList {
    ghost use Rattle.std.specs.Prelude.{List, map, length, ◌<◌, ◌^◌};
    ghost use Rattle.std.specs.Coded.{codes};
    ghost use Rattle.refutation_truth.specs.Code.{concept_code};
    ghost use Rattle.assertion_box.specs.Stated.{Stated};
    ghost use Rattle.assertion_box.specs.Entries.{kept_stated};

    ghost Value = { List Stated };

    ghost coded = { Prim.hlevel (codes, concept_code) };

    ghost view = { λ l. map kept_stated l.entries.items };

    ghost invariant = { λ l. length l.entries.items < 2 ^ 32 };
}

impl StatedList {
    pub(crate) fn new(alloc: Global) -> StatedList
        ensures { result ≡ [] }
    {
        StatedList {
            alloc,
            entries: Vec::new(alloc),
        }
    }

    pub(crate) fn len(&self) -> u32
        ensures count { result ≡ length self.now }
    {
        self.entries.len() as u32
    }

    // The fact at a place.
    pub(crate) fn get(&self, place: u32) -> Given<'_>
        requires { place < length self.now }
        ensures number { axiom_of result ≡ (stated_at self.now place).axiom_number }
        ensures says { fact_of result ≡ (stated_at self.now place).fact }
    {
        let entry = &self.entries[place as usize];
        match &entry.says {
            Says::Member(class, individual) => Given::Member(entry.axiom, class, *individual),
            Says::Pair(role, from, to) => Given::Pair(entry.axiom, *role, *from, *to),
            Says::Same(first, second) => Given::Same(entry.axiom, *first, *second),
            Says::Differ(first, second) => Given::Differ(entry.axiom, *first, *second),
        }
    }

    // The place of a fact among those of its axiom, from 1.
    pub(crate) fn place_in_axiom(&self, place: u32) -> u32
        requires { place < length self.now }
        ensures { result ≡ (stated_at self.now place).place }
    {
        self.entries[place as usize].place
    }

    // The first and the last individual that a fact names.
    pub(crate) fn ends(&self, place: u32) -> (u32, u32)
        requires { place < length self.now }
        ensures first { result.0 ≡ (ends_of (stated_at self.now place).fact).0 }
        ensures last { result.1 ≡ (ends_of (stated_at self.now place).fact).1 }
    {
        match &self.entries[place as usize].says {
            Says::Member(_, individual) => (*individual, *individual),
            Says::Pair(_, from, to) => (*from, *to),
            Says::Same(first, second) => (*first, *second),
            Says::Differ(first, second) => (*first, *second),
        }
    }

    // Puts the facts of an axiom last.
    //
    // Errors: the allocator refuses room, or there would be 2^32 facts.
    pub(crate) fn push_axiom(&mut self, number: u32, axiom: &Axiom) -> Result<(), NoMemory>
        ensures { OnOk result (self.new ≡ self.old ++ numbered_facts number 1 (own_facts «axiom».now)) }
    {
        match axiom {
            Axiom::Member(class, individual) => self.push_member(number, class, *individual),
            Axiom::Pair(role, from, to) => self.push(number, 1, Says::Pair(*role, *from, *to)),
            Axiom::SameAll(individuals) => self.push_same(number, individuals.items()),
            Axiom::Different(individuals) => self.push_different(number, individuals.items()),
            Axiom::SubClassOf(_, _)
            | Axiom::EquivalentClasses(_)
            | Axiom::DisjointClasses(_)
            | Axiom::DisjointUnion(_, _)
            | Axiom::SubRole(_, _)
            | Axiom::EquivalentRoles(_)
            | Axiom::Domain(_, _)
            | Axiom::Range(_, _)
            | Axiom::Functional(_)
            | Axiom::Transitive(_) => Ok(()),
        }
    }

    fn push_member(&mut self, number: u32, class: &Concept, individual: u32) -> Result<(), NoMemory>
        ensures { OnOk result (self.new ≡ self.old ++ numbered_facts number 1 (Has individual class.now ∷ [])) }
    {
        let class = class.try_clone(self.alloc)?;
        self.push(number, 1, Says::Member(class, individual))
    }

    // Each individual is the same as the next one.
    fn push_same(&mut self, number: u32, individuals: &[u32]) -> Result<(), NoMemory>
        ensures { OnOk result (self.new ≡ self.old ++ numbered_facts number 1 (same_facts individuals.now)) }
    {
        for next in 1..individuals.len() {
            let says = Says::Same(individuals[next - 1], individuals[next]);
            self.push(number, next, says)?;
        }
        Ok(())
    }

    // Each individual is apart from each that stands after it.
    fn push_different(&mut self, number: u32, individuals: &[u32]) -> Result<(), NoMemory>
        ensures { OnOk result (self.new ≡ self.old ++ numbered_facts number 1 (apart_facts individuals.now)) }
    {
        let mut place = 1;
        for first in 0..individuals.len() {
            let later = &individuals[first + 1..];
            self.push_apart(number, place, individuals[first], later)?;
            let _count = self.len();
            place += later.len();
        }
        Ok(())
    }

    // The individual is apart from each of the others. Their places count on.
    fn push_apart(
        &mut self,
        number: u32,
        place: usize,
        individual: u32,
        others: &[u32],
    ) -> Result<(), NoMemory>
        requires { place ≤ length self.old + 1 }
        ensures { OnOk result (self.new ≡ self.old ++ numbered_facts number place (map (Apart individual) others.now)) }
    {
        for other in 0..others.len() {
            let _count = self.len();
            self.push(
                number,
                place + other,
                Says::Differ(individual, others[other]),
            )?;
        }
        Ok(())
    }

    fn push(&mut self, number: u32, place: usize, says: Says) -> Result<(), NoMemory>
        requires { place ≤ length self.old + 1 }
        ensures { OnOk result (self.new ≡ self.old ++ numbered_facts number place (kept_fact says ∷ [])) }
    {
        if self.entries.len() >= u32::MAX as usize {
            drop(says);
            return Err(NoMemory);
        }
        self.entries.push(Entry {
            axiom: number,
            place: place as u32,
            says,
        })?;
        Ok(())
    }
}
