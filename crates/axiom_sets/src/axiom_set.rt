// A set of axiom numbers: number k is bit k % 64 of word k / 64.

ghost use Rattle.std.specs.Prelude.{◌≡◌, ℕ, ◌+◌, ◌&&◌, ◌/◌, ◌<◌, ◌≤◌, ◌==◌, ◌↔◌, IsTrue, IfOk, length, nat_le};
ghost use Rattle.std.specs.FinSet as set;
ghost use Rattle.lane_sieve.specs.Sets.{number_set, IsPart, DoMeet};
ghost use Rattle.axiom_sets.specs.Sets.{IsFull, IsWithin, member_list, list_cmp};

use lane_sieve::{
    NoMemory, Numbers, compare_numbers, count_numbers, do_meet, has_number, is_part, put_number,
    repeat_word, subtract, take_number, unite,
};
use std::alloc::Global;
use std::cmp::Ordering;
use std::marker::Model;

/// A set of numbers from 1 to a limit. Contracts see the limit and the set of the members.
#[derive(Drop)]
pub struct AxiomSet {
    limit: u32,
    words: Vec<u64>,
}

impl Model for AxiomSet {
    ghost use Rattle.axiom_sets.specs.Sets.{Limited, limited_code, IsKept};
    ghost use Rattle.lane_sieve.specs.Sets.{number_set};

    ghost Value = { Limited };

    ghost coded = { limited_code };

    ghost view = { λ s. record { limit = s.limit; members = number_set s.words.items } };

    ghost invariant = { λ s. IsKept s.limit s.words.items };
}

impl AxiomSet {
    /// The set with no number, up to `limit`.
    pub fn empty(alloc: Global, limit: u32) -> Result<Self, NoMemory>
        ensures limit { IfOk result (λ s. s.limit ≡ limit) }
        ensures members { IfOk result (λ s. s.members ≡ set.empty) }
    {
        let words = repeat_word(alloc, 0, limit as usize / 64 + 1)?;
        Ok(AxiomSet { limit, words })
    }

    /// The set of all numbers from 1 to `limit`.
    pub fn full(alloc: Global, limit: u32) -> Result<Self, NoMemory>
        ensures limit { IfOk result (λ s. s.limit ≡ limit) }
        ensures members { IfOk result (λ s. IsFull limit s.members) }
    {
        let last = limit as usize / 64;
        let mut words = repeat_word(alloc, u64::MAX, last + 1)?;
        words[last] = u64::MAX >> (63 - limit % 64);
        take_number(&mut words, 0);
        Ok(AxiomSet { limit, words })
    }

    /// The same set once more.
    pub fn try_clone(&self) -> Result<Self, NoMemory>
        ensures { IfOk result (λ s. s ≡ self.now) }
    {
        let words = self.words.clone()?;
        Ok(AxiomSet {
            limit: self.limit,
            words,
        })
    }

    /// Puts a number in.
    pub fn put(&mut self, number: u32)
        requires low { 1 ≤ number }
        requires high { number ≤ self.old.limit }
        ensures limit { self.new.limit ≡ self.old.limit }
        ensures members { self.new.members ≡ set.insert self.old.members number }
    {
        put_number(&mut self.words, number);
    }

    /// Takes a number out.
    pub fn take(&mut self, number: u32)
        requires low { 1 ≤ number }
        requires high { number ≤ self.old.limit }
        ensures limit { self.new.limit ≡ self.old.limit }
        ensures members { self.new.members ≡ set.remove self.old.members number }
    {
        take_number(&mut self.words, number);
    }

    /// Puts each member of the other set in.
    pub fn put_all(&mut self, other: &AxiomSet)
        requires { other.now.limit ≡ self.old.limit }
        ensures limit { self.new.limit ≡ self.old.limit }
        ensures members { self.new.members ≡ set.union self.old.members other.now.members }
    {
        unite(&mut self.words, &other.words);
    }

    /// Takes each member of the other set out.
    pub fn take_all(&mut self, other: &AxiomSet)
        requires { other.now.limit ≡ self.old.limit }
        ensures limit { self.new.limit ≡ self.old.limit }
        ensures members { self.new.members ≡ set.difference self.old.members other.now.members }
    {
        subtract(&mut self.words, &other.words);
    }

    /// Whether the number is a member.
    pub fn has(&self, number: u32) -> bool
        requires low { 1 ≤ number }
        requires high { number ≤ self.now.limit }
        ensures { result ≡ set.contains self.now.members number }
    {
        has_number(&self.words, number)
    }

    /// The greatest number that may be a member.
    pub fn limit(&self) -> u32
        ensures limit { result ≡ self.now.limit }
        ensures within { IsWithin self.now.limit self.now.members }
    {
        self.limit
    }

    /// Whether each member of `other` is a member.
    pub fn contains_all(&self, other: &AxiomSet) -> bool
        requires { self.now.limit ≡ other.now.limit }
        ensures { IsTrue result ↔ IsPart other.now.members self.now.members }
    {
        is_part(&other.words, &self.words)
    }

    /// Whether some number is a member of both.
    pub fn meets(&self, other: &AxiomSet) -> bool
        requires { self.now.limit ≡ other.now.limit }
        ensures { IsTrue result ↔ DoMeet self.now.members other.now.members }
    {
        do_meet(&self.words, &other.words)
    }

    /// How the ascending lists of the two sets compare: lexicographically, a proper prefix first.
    pub fn cmp_list(&self, other: &AxiomSet) -> Ordering
        requires { self.now.limit ≡ other.now.limit }
        ensures { result ≡ list_cmp self.now other.now }
    {
        compare_numbers(&self.words, &other.words)
    }

    /// How many members the set has.
    pub fn len(&self) -> u32
        ensures { result ≡ length (member_list self.now) }
    {
        count_numbers(&self.words) as u32
    }

    /// Whether the set has no member.
    pub fn is_empty(&self) -> bool
        ensures { result ≡ (length (member_list self.now) == 0) }
    {
        self.len() == 0
    }

    /// The members, ascending.
    pub fn numbers(&self) -> Numbers<'_>
        ensures members { result ≡ member_list self.now }
        ensures within { IsWithin self.now.limit self.now.members }
    {
        Numbers::new(&self.words)
    }
}
