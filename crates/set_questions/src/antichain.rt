//! Antichains: of all sets that were put, those that contain no other one, or those that are contained in no other one.
// The least or the greatest of the sets that were put.

ghost use Rattle.std.specs.Prelude.{◌≡◌, ◌≤◌, ◌↔◌, List, [], ◌∷◌, ◌++◌, OnOk, OnErr, IsTrue, vec_len};
ghost use Rattle.std.specs.Vec.{vec_capacity};
ghost use Rattle.std.specs.List.{All};
ghost use Rattle.pinpointing_specs.specs.Sets.{Limited};
ghost use Rattle.set_questions.specs.Kept.{kind_of, kept_sets, Outranks, HasAbove, IsDropped, KeepsWith};

use lane_sieve::NoMemory;
use pinpointing_specs::AxiomSet;
use std::alloc::Global;

/// Which sets an antichain keeps.
#[derive(Clone, Copy, Debug, PartialEq, Eq)]
pub enum Kind {
    /// Those that contain no other one.
    Minimal,
    /// Those that are contained in no other one.
    Maximal,
}

/// The minimal or the maximal of all sets that were put, each once.
#[derive(Drop)]
pub struct Antichain {
    kind: Kind,
    sets: Vec<AxiomSet>,
}

impl Antichain {
    /// No set, of which the minimal ones are kept.
    pub fn minimal(alloc: Global) -> Self
        ensures kind { kind_of result ≡ Kind.Minimal }
        ensures empty { kept_sets result ≡ [] }
    {
        Antichain {
            kind: Kind::Minimal,
            sets: Vec::new(alloc),
        }
    }

    /// No set, of which the maximal ones are kept.
    pub fn maximal(alloc: Global) -> Self
        ensures kind { kind_of result ≡ Kind.Maximal }
        ensures empty { kept_sets result ≡ [] }
    {
        Antichain {
            kind: Kind::Maximal,
            sets: Vec::new(alloc),
        }
    }

    /// Puts one set more: whatever sets were put before, what is kept are the minimal or the maximal ones of these and
    /// the new one.
    ///
    /// # Errors
    /// Out of memory; the same sets are kept as before.
    pub fn put(&mut self, set: AxiomSet) -> Result<(), NoMemory>
        requires { All (λ s. s.limit ≡ set.limit) (kept_sets self.old) }
        ensures kind { kind_of self.new ≡ kind_of self.old }
        ensures ok { OnOk result (KeepsWith (kind_of self.old) set (kept_sets self.old) (kept_sets self.new)) }
        ensures limits { All (λ s. s.limit ≡ set.limit) (kept_sets self.new) }
        ensures err { OnErr result (kept_sets self.new ≡ kept_sets self.old) }
    {
        put_kept(self.kind, &mut self.sets, set)
    }

    /// The sets that are kept.
    pub fn sets(&self) -> &[AxiomSet]
        ensures { result.now ≡ kept_sets self.now }
    {
        &self.sets
    }
}

/// Puts a set among those that are kept, unless one of them outranks it, in place of those that it outranks.
fn put_kept(kind: Kind, sets: &mut Vec<AxiomSet>, set: AxiomSet) -> Result<(), NoMemory>
    requires { All (λ s. s.limit ≡ set.limit) sets.old.items }
    ensures ok { OnOk result (KeepsWith kind set sets.old.items sets.new.items) }
    ensures limits { All (λ s. s.limit ≡ set.limit) sets.new.items }
    ensures err { OnErr result (sets.new.items ≡ sets.old.items) }
{
    if is_outranked(kind, sets, &set) {
        return Ok(());
    }
    sets.reserve(1)?;
    drop_outranked(kind, sets, &set);
    sets.push(set)?;
    Ok(())
}

/// Whether one of the sets outranks the set.
fn is_outranked(kind: Kind, sets: &[AxiomSet], set: &AxiomSet) -> bool
    requires { All (λ s. s.limit ≡ set.now.limit) sets.now }
    ensures { IsTrue result ↔ HasAbove kind sets.now set.now }
{
    for place in 0..sets.len() {
        if outranks(kind, &sets[place], set) {
            return true;
        }
    }
    false
}

/// Drops the sets that the set outranks.
fn drop_outranked(kind: Kind, sets: &mut Vec<AxiomSet>, set: &AxiomSet)
    requires { All (λ s. s.limit ≡ set.now.limit) sets.old.items }
    ensures dropped { IsDropped kind set.now sets.old.items sets.new.items }
    ensures len { vec_len sets.new ≤ vec_len sets.old }
    ensures capacity { vec_capacity sets.new ≡ vec_capacity sets.old }
{
    let mut place = sets.len();
    while place > 0 {
        place -= 1;
        if outranks(kind, set, &sets[place]) {
            drop(sets.remove(place));
        }
    }
}

/// Whether the other set is not to be kept beside the one.
fn outranks(kind: Kind, one: &AxiomSet, other: &AxiomSet) -> bool
    requires { one.now.limit ≡ other.now.limit }
    ensures { IsTrue result ↔ Outranks kind one.now.members other.now.members }
{
    match kind {
        Kind::Minimal => other.contains_all(one),
        Kind::Maximal => one.contains_all(other),
    }
}
