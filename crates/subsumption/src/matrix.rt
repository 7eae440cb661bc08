// Pairs of numbers, as one row of bits for each first one.
ghost use Rattle.std.specs.Prelude.{◌≡◌, ◌+◌, ◌<◌, ◌&&◌, ◌==◌, false, length, IfOk};
ghost use Rattle.std.specs.FinSet as set;
ghost use Rattle.axiom_sets.specs.Sets.{IsWithin};
ghost use Rattle.subsumption.specs.Matrices.{has, row_in, both_have, has_column, Gains, IsSquare, IsMatrix, Adds};

use axiom_sets::AxiomSet;
use shq_terms::NoMemory;
use std::alloc::Global;
use std::marker::Model;

/// A set of pairs of numbers below a size. Contracts see the size and, for each number, a row: a set that has `y + 1`
/// where the number is paired with `y`.
#[derive(Drop)]
pub struct BitMatrix {
    size: u32,
    rows: Vec<AxiomSet>,

    // The numbers with which some number is paired, each greater by one. For a number that is not here no row is looked
    // at.
    columns: AxiomSet,
}

impl Model for BitMatrix {
    ghost use Rattle.subsumption.specs.Matrices.{Matrix, matrix_code, IsCovered};

    ghost Value = { Matrix };

    ghost coded = { matrix_code };

    ghost view = { λ m. record { size = m.size; rows = m.rows.items } };

    ghost invariant = { λ m. IsCovered m.size m.rows.items m.columns };
}

impl BitMatrix {
    /// No pairs, of numbers below `size`.
    ///
    /// # Errors
    ///
    /// Out of memory.
    pub fn empty(alloc: Global, size: u32) -> Result<BitMatrix, NoMemory>
        ensures { IfOk result (IsMatrix size (λ x y. false)) }
    {
        let mut rows = Vec::new(alloc);
        for _ in 0..size {
            rows.push(AxiomSet::empty(alloc, size)?)?;
        }
        let columns = AxiomSet::empty(alloc, size)?;
        Ok(BitMatrix {
            size,
            rows,
            columns,
        })
    }

    /// The size, below which the numbers are.
    pub fn size(&self) -> u32
        ensures { result ≡ self.now.size }
    {
        self.size
    }

    /// Whether `x` is paired with `y`.
    pub fn has(&self, x: u32, y: u32) -> bool
        requires first { x < self.now.size }
        requires second { y < self.now.size }
        ensures { result ≡ has self.now x y }
    {
        self.rows[x as usize].has(y + 1)
    }

    /// The set of what `x` is paired with, each number greater by one.
    pub fn row(&self, x: u32) -> &AxiomSet
        requires { x < self.now.size }
        ensures row { result.now ≡ row_in self.now.rows x }
        ensures limit { result.now.limit ≡ self.now.size }
    {
        &self.rows[x as usize]
    }

    /// Pairs `x` with `y`.
    pub fn put(&mut self, x: u32, y: u32)
        requires first { x < self.old.size }
        requires second { y < self.old.size }
        ensures { Adds (λ a b. a == x && b == y) self.old self.new }
    {
        self.columns.put(y + 1);
        self.rows[x as usize].put(y + 1);
    }

    /// Pairs each number of one set with each of another, where the numbers in both sets are greater by one. The work
    /// is a row of bits for each number of the first set.
    pub fn unite(&mut self, chosen: &AxiomSet, added: &AxiomSet)
        requires chosen { chosen.now.limit ≡ self.old.size }
        requires added { added.now.limit ≡ self.old.size }
        ensures { Adds (λ x y. set.contains chosen.now.members (x + 1) && set.contains added.now.members (y + 1))
            self.old self.new }
    {
        self.columns.put_all(added);
        unite_rows(&mut self.rows, chosen, added);
    }

    /// Pairs each number that is paired with `column` with each of a set, where the numbers in the set are greater by
    /// one. Where there is none, no row is looked at.
    pub fn unite_where(&mut self, column: u32, added: &AxiomSet)
        requires column { column < self.old.size }
        requires added { added.now.limit ≡ self.old.size }
        ensures { Adds (λ x y. has self.old x column && set.contains added.now.members (y + 1)) self.old self.new }
    {
        if self.columns.has(column + 1) {
            self.columns.put_all(added);
            unite_rows_where(&mut self.rows, column, added);
        }
    }
}

// Puts each number of a set into the rows whose numbers another set has.
fn unite_rows(rows: &mut [AxiomSet], chosen: &AxiomSet, added: &AxiomSet)
    requires square { IsSquare chosen.now.limit rows.old }
    requires added { added.now.limit ≡ chosen.now.limit }
    ensures square { IsSquare chosen.now.limit rows.new }
    ensures rows { Gains chosen.now.limit (both_have chosen.now added.now) rows.old rows.new }
{
    for number in chosen.numbers() {
        rows[number as usize - 1].put_all(added);
    }
}

// Puts each number of a set into the rows that have a number.
fn unite_rows_where(rows: &mut [AxiomSet], column: u32, added: &AxiomSet)
    requires square { IsSquare added.now.limit rows.old }
    requires column { column < added.now.limit }
    ensures square { IsSquare added.now.limit rows.new }
    ensures rows { Gains added.now.limit (has_column rows.old column added.now) rows.old rows.new }
{
    for place in 0..added.limit() {
        if rows[place as usize].has(column + 1) {
            rows[place as usize].put_all(added);
        }
    }
}
