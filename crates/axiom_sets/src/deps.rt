//! Dependency sets: which branching points a derived fact rests on.
//!
//! A tableau that labels each fact with the branching points behind it can go back past those that a clash does not
//! depend on: dependency-directed backtracking (Richard Stallman and Gerald Sussman, Artificial Intelligence 9, 1977),
//! known as backjumping in description logic reasoners. A branching point is a mark, a number, and [`Deps`] is a set of
//! marks as an ascending list that several facts may share: a set costs what its members cost, whatever their size, and
//! the empty set takes no memory. Contracts see a finite set of numbers: union, removal and the latest mark are proved
//! of its members.
// A set of marks: their ascending list, shared by the sets that are equal.

ghost use Rattle.std.specs.Prelude.{◌≡◌, ℕ, ◌==◌, ◌↔◌, not, true, IsNone, IfSome, IfOk, filter};
ghost use Rattle.std.specs.List.{list_all};
ghost use Rattle.std.specs.List.Sorted.{IsStrictlyIncreasing};
ghost use Rattle.std.specs.FinSet as set;
ghost use Rattle.axiom_sets.specs.Marks.{marks_set, is_mark, IsGreatest, AreUnited};

use lane_sieve::NoMemory;
use std::alloc::Global;
use std::marker::Model;
use std::rc::Rc;

/// A set of marks, which contracts see as a set of numbers.
#[derive(Drop)]
pub struct Deps {
    marks: Option<Rc<Vec<u32>>>,
}

impl Model for Deps {
    ghost use Rattle.std.specs.Coded.{coded_ℕ};
    ghost use Rattle.std.specs.FinSet as set;
    ghost use Rattle.std.specs.List.Sorted.{IsStrictlyIncreasing};
    ghost use Rattle.lane_sieve.specs.Sets.{NumberSet};
    ghost use Rattle.axiom_sets.specs.Marks.{marks_or_none, marks_set};

    ghost Value = { NumberSet };

    ghost coded = { set.code coded_ℕ };

    ghost view = { λ d. marks_set (marks_or_none (λ r. r.value.items) d.marks) };

    ghost invariant = { λ d. IsStrictlyIncreasing (marks_or_none (λ r. r.value.items) d.marks) };
}

impl Deps {
    /// The set with no mark. It takes no memory.
    pub fn none() -> Self
        ensures { result ≡ set.empty }
    {
        Deps { marks: None }
    }

    /// The set of one mark.
    ///
    /// # Errors
    /// Out of memory.
    pub fn one(alloc: Global, mark: u32) -> Result<Self, NoMemory>
        ensures { IfOk result (λ d. d ≡ set.insert set.empty mark) }
    {
        let mut marks = Vec::new(alloc);
        marks.push(mark)?;
        Ok(Deps {
            marks: Some(Rc::new(alloc, marks)?),
        })
    }

    /// The marks of both sets. Where one of the sets has them all, it is that set, shared.
    ///
    /// # Errors
    /// Out of memory.
    pub fn union(&self, alloc: Global, other: &Deps) -> Result<Self, NoMemory>
        ensures { IfOk result (λ d. d ≡ set.union self.now other.now) }
    {
        if is_part(other.marks(), self.marks()) {
            return self.try_clone();
        }
        if is_part(self.marks(), other.marks()) {
            return other.try_clone();
        }
        let marks = united(alloc, self.marks(), other.marks())?;
        Ok(Deps {
            marks: Some(Rc::new(alloc, marks)?),
        })
    }

    /// The marks but the given one. Where that is no member, it is the same set, shared.
    ///
    /// # Errors
    /// Out of memory.
    pub fn without(&self, alloc: Global, mark: u32) -> Result<Self, NoMemory>
        ensures { IfOk result (λ d. d ≡ set.remove self.now mark) }
    {
        if self.has(mark) {
            self.with_others(alloc, mark)
        } else {
            self.try_clone()
        }
    }

    // A list of its own of the marks but the given one.
    fn with_others(&self, alloc: Global, mark: u32) -> Result<Self, NoMemory>
        ensures { IfOk result (λ d. d ≡ set.remove self.now mark) }
    {
        let marks = others(alloc, self.marks(), mark)?;
        Ok(Deps {
            marks: Some(Rc::new(alloc, marks)?),
        })
    }

    /// The same set once more, which shares its marks.
    ///
    /// # Errors
    /// As many sets share them as can be counted.
    pub fn try_clone(&self) -> Result<Self, NoMemory>
        ensures { IfOk result (λ d. d ≡ self.now) }
    {
        match &self.marks {
            Some(marks) => Ok(Deps {
                marks: Some(marks.clone()?),
            }),
            None => Ok(Deps { marks: None }),
        }
    }

    /// Whether the mark is in the set.
    pub fn has(&self, mark: u32) -> bool
        ensures { result ≡ set.contains self.now mark }
    {
        has_mark(self.marks(), mark)
    }

    /// The greatest mark.
    pub fn latest(&self) -> Option<u32>
        ensures none { IsNone result ↔ (self.now ≡ set.empty) }
        ensures greatest { IfSome result (IsGreatest self.now) }
    {
        let marks = self.marks();
        if marks.is_empty() {
            return None;
        }
        Some(marks[marks.len() - 1])
    }

    /// Its marks, ascending.
    fn marks(&self) -> &[u32]
        ensures members { marks_set result.now ≡ self.now }
        ensures ascending { IsStrictlyIncreasing result.now }
    {
        match &self.marks {
            Some(marks) => marks.as_slice(),
            None => &[],
        }
    }
}

/// Whether the mark is in the list.
fn has_mark(marks: &[u32], mark: u32) -> bool
    requires { IsStrictlyIncreasing marks.now }
    ensures { result ≡ is_mark marks.now mark }
{
    match marks.binary_search(&mark) {
        Ok(_) => true,
        Err(_) => false,
    }
}

/// Whether each mark of the first list is in the second.
fn is_part(marks: &[u32], others: &[u32]) -> bool
    requires { IsStrictlyIncreasing others.now }
    ensures { result ≡ list_all (is_mark others.now) marks.now }
{
    marks.iter().all(|mark| has_mark(others, *mark))
}

/// The marks of both lists.
fn united(alloc: Global, marks: &[u32], others: &[u32]) -> Result<Vec<u32>, NoMemory>
    ensures members { IfOk result (λ v. AreUnited marks.now others.now v.items) }
    ensures ascending { IfOk result (λ v. IsStrictlyIncreasing v.items) }
{
    let mut all = Vec::with_capacity(alloc, marks.len() + others.len())?;
    all.extend_from_slice(marks)?;
    all.extend_from_slice(others)?;
    all.sort_unstable();
    all.dedup();
    Ok(all)
}

/// The marks but the given one.
fn others(alloc: Global, marks: &[u32], mark: u32) -> Result<Vec<u32>, NoMemory>
    ensures { IfOk result (λ v. v.items ≡ filter (λ m. not (m == mark)) marks.now) }
{
    let rest = marks.iter().copied().filter(|m| *m != mark).collect(alloc)?;
    Ok(rest)
}
