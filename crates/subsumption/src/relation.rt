//! Which class is included in which, as one row of bits for each class.
//!
//! Classification (the subsumption hierarchy of all classes of an ontology, OWL 2 Direct Semantics, section 2.5) begins
//! with what holds of every ontology, and adds what questions find. A [`Relation`] keeps for each class the set of
//! those above it and the set of those below it. What is added is closed at once: it stays reflexive and transitive, as
//! "Making Use of Traversal in Classification" needs it (Franz Baader, Bernhard Hollunder, Bernhard Nebel, Hans-Jürgen
//! Profitlich and Enrico Franconi, "An Empirical Analysis of Optimization Techniques for Terminological Representation
//! Systems", 1994).
//!
//! A [`BitMatrix`] is any set of pairs of numbers, kept in the same way.
// A relation on classes that stays closed.
ghost use Rattle.std.specs.Prelude.{◌≡◌, ℕ, ◌+◌, ◌<◌, ◌≤◌, IfOk, OnOk, OnErr};
ghost use Rattle.std.specs.FinSet as set;
ghost use Rattle.axiom_sets.specs.Sets.{IsWithin};
ghost use Rattle.subsumption.specs.Matrices.{has, IsMatrix};
ghost use Rattle.subsumption.specs.Rows.{holds, is_bounded, IsAtFirst, Relates};

use crate::matrix::BitMatrix;
use axiom_sets::AxiomSet;
use shq_terms::{MAX_CLASSES, NoMemory};
use std::alloc::Global;
use std::marker::Model;

/// Which class is related to which. Classes are numbers: first those that are listed, then `owl:Thing`, and then
/// `owl:Nothing`. Contracts see how many are listed, and which numbers are related.
#[derive(Drop)]
pub struct Relation {
    count: u32,
    above: BitMatrix,
    below: BitMatrix,
}

impl Model for Relation {
    ghost use Rattle.subsumption.specs.Rows.{Rows, rows_code, AreConverse};

    ghost Value = { Rows };

    ghost coded = { rows_code };

    ghost view = { λ r. record { count = r.count; above = r.above } };

    ghost invariant = { λ r. AreConverse r.count r.above r.below };
}

impl Relation {
    /// The relation of so many listed classes before any question: each class is related to itself and to `owl:Thing`,
    /// and `owl:Nothing` is related to each.
    ///
    /// # Errors
    ///
    /// Out of memory.
    pub fn new(alloc: Global, classes: u32) -> Result<Relation, NoMemory>
        requires { classes ≤ MAX_CLASSES }
        ensures { IfOk result (IsAtFirst classes) }
    {
        let above = bounded(alloc, classes + 2, classes, classes + 1)?;
        let below = bounded(alloc, classes + 2, classes + 1, classes)?;
        Ok(Relation {
            count: classes,
            above,
            below,
        })
    }

    /// How many classes are listed. This is the number of `owl:Thing`.
    pub fn class_count(&self) -> u32
        ensures count { result ≡ self.now.count }
        ensures small { self.now.count ≤ MAX_CLASSES }
    {
        self.count
    }

    /// Whether `x` is related to `y`.
    pub fn relates(&self, x: u32, y: u32) -> bool
        requires first { x < self.now.count + 2 }
        requires second { y < self.now.count + 2 }
        ensures { result ≡ holds self.now x y }
    {
        self.above.has(x, y)
    }

    /// The set of what `x` is related to, each number greater by one.
    pub fn above(&self, x: u32) -> &AxiomSet
        requires { x < self.now.count + 2 }
        ensures limit { result.now.limit ≡ self.now.count + 2 }
        ensures members { (y : ℕ) → y < self.now.count + 2
            → set.contains result.now.members (y + 1) ≡ holds self.now x y }
        ensures within { IsWithin result.now.limit result.now.members }
    {
        let row = self.above.row(x);
        let _limit = row.limit();
        row
    }

    /// The set of what is related to `x`, each number greater by one.
    pub fn below(&self, x: u32) -> &AxiomSet
        requires { x < self.now.count + 2 }
        ensures limit { result.now.limit ≡ self.now.count + 2 }
        ensures members { (y : ℕ) → y < self.now.count + 2
            → set.contains result.now.members (y + 1) ≡ holds self.now y x }
        ensures within { IsWithin result.now.limit result.now.members }
    {
        let row = self.below.row(x);
        let _limit = row.limit();
        row
    }

    /// Relates `x` to `y`, and what is related to `x` to what `y` is related to. So where the relation is reflexive and
    /// transitive, it stays so. The work is a row of bits for each class that is below `x` or above `y`.
    ///
    /// # Errors
    ///
    /// Out of memory. The relation is as before then.
    pub fn relate(&mut self, x: u32, y: u32) -> Result<(), NoMemory>
        requires first { x < self.old.count + 2 }
        requires second { y < self.old.count + 2 }
        ensures ok { OnOk result (Relates x y self.old self.new) }
        ensures err { OnErr result (self.new ≡ self.old) }
    {
        let lower = self.below.row(x).try_clone()?;
        let upper = self.above.row(y).try_clone()?;
        self.above.unite(&lower, &upper);
        self.below.unite(&upper, &lower);
        Ok(())
    }
}

// The relation of each number to itself and to the greatest, and of the least to each.
fn bounded(alloc: Global, size: u32, greatest: u32, least: u32) -> Result<BitMatrix, NoMemory>
    requires greatest { greatest < size }
    requires least { least < size }
    ensures { IfOk result (IsMatrix size (is_bounded greatest least)) }
{
    let mut matrix = BitMatrix::empty(alloc, size)?;
    for x in 0..size {
        matrix.put(x, x);
        matrix.put(x, greatest);
        matrix.put(least, x);
    }
    Ok(matrix)
}
