// The module as far as it has grown.
ghost use Rattle.std.specs.Prelude.{◌≡◌, ℕ, ◌+◌, ◌<◌, ◌≤◌, IsTrue, IfOk, OnOk, length, [], ◌∷◌};
ghost use Rattle.std.specs.List.{All};
ghost use Rattle.axiom_sets.specs.Sets.{IsWithin};

use crate::locality::is_local;
use crate::marks::Marks;
use crate::names::{axiom_names, query_names};
use crate::users::Users;
use axiom_sets::AxiomSet;
use pinpointing_specs::Name;
use shq_terms::{Axiom, MAX_AXIOMS, NoMemory, Numbered, Query};
use std::alloc::Global;

/// The axioms that are known to be in the module, the names that came in with them and with the query, and those of the
/// names whose axioms are still to be looked at.
#[derive(Drop)]
pub(crate) struct Growth {
    members: AxiomSet,
    marks: Marks,
    pending: Vec<Name>,
}

impl Growth {
    ghost use Rattle.module_extract.specs.Users.{all_listed, IsIndex};
    ghost use Rattle.module_extract.specs.Growth.{HasTaken, HasJoined, GrowsFrom, HasLooked, StaysGrowing, AllSettled};

    /// No axioms, and the names of the query, among so many classes and roles.
    pub(crate) fn new(
        alloc: Global,
        classes: u32,
        roles: u32,
        axioms: &[Numbered],
        query: &Query,
    ) -> Result<Growth, NoMemory>
        requires listed { IsTrue (all_listed classes roles axioms.now) }
        requires small { length axioms.now ≤ MAX_AXIOMS }
        ensures growing { IfOk result (GrowsFrom axioms.now query.now) }
        ensures limit { IfOk result (λ g. g.members.limit ≡ length axioms.now) }
    {
        let mut growth = Growth {
            members: AxiomSet::empty(alloc, axioms.len() as u32)?,
            marks: Marks::new(alloc, classes, roles)?,
            pending: Vec::new(alloc),
        };
        let names = query_names(alloc, query)?;
        growth.take_all(&names)?;
        Ok(growth)
    }

    /// Lets the names come in.
    fn take_all(&mut self, names: &[Name]) -> Result<(), NoMemory>
        ensures taken { OnOk result
            (HasTaken self.old.marks self.new.marks self.old.pending.items self.new.pending.items names.now) }
        ensures members { OnOk result (self.new.members ≡ self.old.members) }
    {
        for name in names {
            self.take(*name)?;
        }
        Ok(())
    }

    /// Lets the name come in.
    fn take(&mut self, name: Name) -> Result<(), NoMemory>
        ensures taken { OnOk result
            (HasTaken self.old.marks self.new.marks self.old.pending.items self.new.pending.items (name ∷ [])) }
        ensures members { OnOk result (self.new.members ≡ self.old.members) }
    {
        if self.marks.mark(name) {
            self.pending.push(name)?;
        }
        Ok(())
    }

    /// Puts the axiom at the place into the module, and lets its names come in.
    fn join(&mut self, alloc: Global, place: u32, axiom: &Axiom) -> Result<(), NoMemory>
        requires within { place < self.old.members.limit }
        requires small { place < MAX_AXIOMS }
        ensures { OnOk result (HasJoined self.old self.new place «axiom».now) }
    {
        let names = axiom_names(alloc, axiom)?;
        self.members.put(place + 1);
        self.take_all(&names)
    }

    /// Looks at the axiom at the place.
    fn look_at(&mut self, alloc: Global, axioms: &[Numbered], place: u32) -> Result<(), NoMemory>
        requires limit { self.old.members.limit ≡ length axioms.now }
        requires small { length axioms.now ≤ MAX_AXIOMS }
        requires within { place < length axioms.now }
        ensures { OnOk result (HasLooked axioms.now self.old self.new (place ∷ [])) }
    {
        let axiom = &axioms[place as usize].axiom;
        if !self.members.has(place + 1) && !is_local(&self.marks, axiom) {
            self.join(alloc, place, axiom)?;
        }
        Ok(())
    }

    /// Looks at each axiom once.
    pub(crate) fn look_at_each(
        &mut self,
        alloc: Global,
        axioms: &[Numbered],
    ) -> Result<(), NoMemory>
        requires limit { self.old.members.limit ≡ length axioms.now }
        requires small { length axioms.now ≤ MAX_AXIOMS }
        ensures growing { OnOk result (StaysGrowing axioms.now self.old self.new) }
        ensures limit { OnOk result (self.new.members.limit ≡ self.old.members.limit) }
        ensures settled { OnOk result (AllSettled axioms.now self.new) }
    {
        for place in 0..axioms.len() {
            self.look_at(alloc, axioms, place as u32)?;
        }
        Ok(())
    }

    /// Looks at the axioms at the places.
    fn look_at_all(
        &mut self,
        alloc: Global,
        axioms: &[Numbered],
        places: &[u32],
    ) -> Result<(), NoMemory>
        requires limit { self.old.members.limit ≡ length axioms.now }
        requires small { length axioms.now ≤ MAX_AXIOMS }
        requires within { All (λ p. p < length axioms.now) places.now }
        ensures { OnOk result (HasLooked axioms.now self.old self.new places.now) }
    {
        for place in places {
            self.look_at(alloc, axioms, *place)?;
        }
        Ok(())
    }

    /// Looks at the axioms that use the names that wait, until none waits.
    pub(crate) fn close(
        &mut self,
        alloc: Global,
        axioms: &[Numbered],
        users: &Users,
    ) -> Result<(), NoMemory>
        requires limit { self.old.members.limit ≡ length axioms.now }
        requires small { length axioms.now ≤ MAX_AXIOMS }
        requires index { IsIndex axioms.now (length axioms.now) users.now }
        requires settled { AllSettled axioms.now self.old }
        ensures growing { OnOk result (StaysGrowing axioms.now self.old self.new) }
        ensures limit { OnOk result (self.new.members.limit ≡ self.old.members.limit) }
        ensures settled { OnOk result (AllSettled axioms.now self.new) }
        ensures none_wait { OnOk result (self.new.pending.items ≡ []) }
    {
        while let Some(name) = self.pending.pop() {
            self.look_at_all(alloc, axioms, users.places(name))?;
        }
        Ok(())
    }

    /// The axioms that are in the module.
    pub(crate) fn into_members(self) -> AxiomSet
        ensures members { result ≡ self.members }
        ensures within { IsWithin result.limit result.members }
    {
        let Growth { members, .. } = self;
        prove!(members.limit() as u64 <= u32::MAX as u64);
        members
    }
}
