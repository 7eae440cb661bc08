// What is remembered of a log.
ghost use Rattle.std.specs.Prelude.{◌≡◌, ◌+◌, ◌<◌, ◌↔◌, List, OnOk, OnErr, IfOk, IsTrue, length};
ghost use Rattle.std.specs.List.{All, Contains};
ghost use Rattle.axiom_sets.specs.Sets.{Limited};
ghost use Rattle.set_questions.specs.Kept.{kind_of, kept_sets};
ghost use Rattle.set_questions.specs.InOrder.{HaveOneLimit};
ghost use Rattle.shq_oracle.specs.Entry.{Entry as PlainEntry};
ghost use Rattle.query_asker.specs.Memory.{yes_by, no_by, yes_of, no_of, yes_sets, no_sets, IsMemo, KeepsWithAll};
ghost use Rattle.query_asker.specs.Memory.{IsInSome, Recalls};

use crate::NoMemory;
use axiom_sets::AxiomSet;
use set_questions::{Antichain, Reply, place_of_part};
use shq_oracle::{Entry, KeptSet, TestEnd};
use std::alloc::Global;

/// What the entries of a log found, as far as they were seen: the smallest sets of axioms from which the query
/// follows, and the greatest from which it does not.
#[derive(Drop)]
pub struct Memo {
    seen: usize,
    yes: Antichain,
    no: Antichain,
}

impl Memo {
    /// Nothing was seen.
    pub fn new(alloc: Global) -> Memo
        ensures { (log : List PlainEntry) → IsMemo result log }
    {
        Memo {
            seen: 0,
            yes: Antichain::minimal(alloc),
            no: Antichain::maximal(alloc),
        }
    }

    /// What the log says of the set. All its entries are seen first.
    ///
    /// # Errors
    /// Out of memory; nothing that was seen is lost.
    pub fn recall(&mut self, log: &[Entry], set: &AxiomSet) -> Result<Option<Reply>, NoMemory>
        requires yes_limits { All (λ s. s.limit ≡ set.now.limit) (yes_sets log.now) }
        requires no_limits { All (λ s. s.limit ≡ set.now.limit) (no_sets log.now) }
        requires memo { IsMemo self.old log.now }
        ensures memo { IsMemo self.new log.now }
        ensures recalled { IfOk result (Recalls log.now set.now) }
    {
        for _place in self.seen..log.len() {
            self.see_next(log)?;
        }
        self.find(log, set)
    }

    // Sees the first entry that was not seen.
    fn see_next(&mut self, log: &[Entry]) -> Result<(), NoMemory>
        requires more { self.old.seen < length log.now }
        requires yes_limits { HaveOneLimit (yes_sets log.now) }
        requires no_limits { HaveOneLimit (no_sets log.now) }
        requires memo { IsMemo self.old log.now }
        ensures memo { IsMemo self.new log.now }
        ensures seen { OnOk result (self.new.seen ≡ self.old.seen + 1) }
    {
        put_found(&mut self.yes, &mut self.no, &log[self.seen])?;
        self.seen += 1;
        Ok(())
    }

    // What the entries that were seen say of the set.
    fn find(&self, log: &[Entry], set: &AxiomSet) -> Result<Option<Reply>, NoMemory>
        requires yes_limits { All (λ s. s.limit ≡ set.now.limit) (yes_sets log.now) }
        requires no_limits { All (λ s. s.limit ≡ set.now.limit) (no_sets log.now) }
        requires memo { IsMemo self.now log.now }
        requires all { self.now.seen ≡ length log.now }
        ensures { IfOk result (Recalls log.now set.now) }
    {
        if let Some(place) = place_of_part(self.yes.sets(), set) {
            return Ok(Some(Reply::Yes(self.yes.sets()[place].try_clone()?)));
        }
        if is_part_of_some(set, self.no.sets()) {
            return Ok(Some(Reply::No));
        }
        Ok(None)
    }
}

// Puts what an entry found.
fn put_found(yes: &mut Antichain, no: &mut Antichain, entry: &Entry) -> Result<(), NoMemory>
    requires yes_limits { (u : Limited) → Contains (yes_of entry.now) u
        → All (λ s. s.limit ≡ u.limit) (kept_sets yes.old) }
    requires no_limits { (u : Limited) → Contains (no_of entry.now) u
        → All (λ s. s.limit ≡ u.limit) (kept_sets no.old) }
    ensures yes_kind { kind_of yes.new ≡ kind_of yes.old }
    ensures no_kind { kind_of no.new ≡ kind_of no.old }
    ensures yes { OnOk result
        (KeepsWithAll (kind_of yes.old) (yes_of entry.now) (kept_sets yes.old) (kept_sets yes.new)) }
    ensures no { OnOk result (KeepsWithAll (kind_of no.old) (no_of entry.now) (kept_sets no.old) (kept_sets no.new)) }
    ensures yes_still { OnErr result (kept_sets yes.new ≡ kept_sets yes.old) }
    ensures no_still { OnErr result (kept_sets no.new ≡ kept_sets no.old) }
{
    match entry {
        Entry::Test(asked, _, _, ended) => put_end(yes, no, asked, ended),
        Entry::Node(_) => Ok(()),
    }
}

// Puts what a test of a set found that ended so.
fn put_end(
    yes: &mut Antichain,
    no: &mut Antichain,
    asked: &KeptSet,
    ended: &TestEnd,
) -> Result<(), NoMemory>
    requires yes_limits { (u : Limited) → Contains (yes_by ended.now) u
        → All (λ s. s.limit ≡ u.limit) (kept_sets yes.old) }
    requires no_limits { (u : Limited) → Contains (no_by asked.now ended.now) u
        → All (λ s. s.limit ≡ u.limit) (kept_sets no.old) }
    ensures yes_kind { kind_of yes.new ≡ kind_of yes.old }
    ensures no_kind { kind_of no.new ≡ kind_of no.old }
    ensures yes { OnOk result
        (KeepsWithAll (kind_of yes.old) (yes_by ended.now) (kept_sets yes.old) (kept_sets yes.new)) }
    ensures no { OnOk result
        (KeepsWithAll (kind_of no.old) (no_by asked.now ended.now) (kept_sets no.old) (kept_sets no.new)) }
    ensures yes_still { OnErr result (kept_sets yes.new ≡ kept_sets yes.old) }
    ensures no_still { OnErr result (kept_sets no.new ≡ kept_sets no.old) }
{
    match ended {
        TestEnd::Yes(found) => yes.put(found.copied()?),
        TestEnd::No => no.put(asked.copied()?),
        TestEnd::Spent(_) => Ok(()),
    }
}

// Whether the set is part of one of the sets.
fn is_part_of_some(set: &AxiomSet, sets: &[AxiomSet]) -> bool
    requires { All (λ s. s.limit ≡ set.now.limit) sets.now }
    ensures { IsTrue result ↔ IsInSome set.now sets.now }
{
    for place in 0..sets.len() {
        if sets[place].contains_all(set) {
            return true;
        }
    }
    false
}
