// A table of concepts with the rows that were made of its numbers.
ghost use Rattle.std.specs.Prelude.{◌≡◌, ◌<◌, IsTrue, IfOk, OnOk, OnErr, Some, length};
ghost use Rattle.refutation_truth.specs.Normal.{normal_form, negated_form};
ghost use Rattle.refutation_truth.specs.Shape.{IsTable, has_parts_below, is_normal};
ghost use Rattle.refutation_truth.specs.Tree.{tree_of};
ghost use Rattle.refutation_truth.specs.Counts.{has_counts_within};
ghost use Rattle.refutation_truth.specs.Shapes.{form_of, concept_of};
ghost use Rattle.refutation_truth.specs.Numbers.{Extends, IsNumber};
ghost use Rattle.axiom_sets.specs.Sets.{IsWithin, member_list};
ghost use Rattle.row_cache.specs.Rows.{AreInLimit};
ghost use Rattle.row_cache.specs.Cache.{empty_cache, IsNamedAxiom, IsRowOf, IsRangeOf, HasSameAxioms, KeepsEntries};
ghost use Rattle.row_cache.specs.Cache.{cached_row, cached_range, IsCached, IsRangeCached, IsMadeOnce, IsRangeMadeOnce};

use crate::NoMemory;
use crate::cache_entry::{CacheEntry, find_range, find_row, store_range, store_row};
use crate::cached_row::{CachedRange, CachedRow, inclusion_row, is_named, range_row};
use axiom_sets::AxiomSet;
use indexmap::IndexMap;
use refutation_truth::{Concept, Concepts, Numbered, Ontology, Shape};
use std::alloc::Global;
use std::marker::Model;

/// A table of concepts, with rows of the axioms that are named. A row is made once for its part, and anew only where it
/// is asked for at other positions than last time.
#[derive(Drop)]
pub struct RowCache<'a> {
    alloc: Global,
    ontology: &'a Ontology,
    named: &'a AxiomSet,
    concepts: Concepts,
    rows: IndexMap<(u32, u32), CacheEntry>,
    ranges: IndexMap<u32, CachedRange>,
}

impl<'a> Model for RowCache<'a> {
    ghost use Rattle.std.specs.Coded.{codes};
    ghost use Rattle.refutation_truth.specs.Code.{concept_code};
    ghost use Rattle.axiom_sets.specs.Sets.{member_list};
    ghost use Rattle.row_cache.specs.Cache.{CacheState, IsRowCache};

    ghost Value = { CacheState };

    ghost coded = { Prim.hlevel (codes, concept_code) };

    ghost view = { λ r. record {
      axioms = r.ontology.now.axioms;
      named = member_list r.named.now;
      table = r.concepts;
      rows = r.rows.entries;
      ranges = r.ranges.entries;
    } };

    ghost invariant = { λ r. IsRowCache r.ontology.now.axioms r.named.now r.concepts r.rows.entries r.ranges.entries };
}

impl<'a> RowCache<'a> {
    ghost use Rattle.row_cache.specs.Cache.{CacheState};

    /// The table, with no rows yet. The set names axioms of the ontology.
    pub fn new(
        alloc: Global,
        ontology: &'a Ontology,
        named: &'a AxiomSet,
        concepts: Concepts,
    ) -> RowCache<'a>
        requires numbers { IsWithin (length ontology.now.axioms) named.now.members }
        requires within { AreInLimit ontology.now.axioms }
        ensures { result ≡ empty_cache ontology.entry.now.axioms (member_list named.entry.now) concepts }
    {
        RowCache {
            alloc,
            ontology,
            named,
            concepts,
            rows: IndexMap::new(alloc),
            ranges: IndexMap::new(alloc),
        }
    }

    /// The table alone.
    pub fn concepts(&self) -> &Concepts
        ensures { result.now ≡ self.now.table }
    {
        &self.concepts
    }

    /// The named axiom of a number, from 1; its cardinalities are at most 100. `None` where no axiom of that number is
    /// named.
    pub fn named_axiom(&self, number: u32) -> Option<&'a Numbered>
        ensures { IsNamedAxiom self.now.axioms self.now.named number result }
    {
        if is_named(self.named, number) {
            Some(self.ontology.axiom(number))
        } else {
            None
        }
    }

    /// The number of the normal form of a class expression whose cardinalities are at most 100.
    ///
    /// # Errors
    ///
    /// Out of memory. The table is as it was.
    pub fn intern(&mut self, concept: &Concept) -> Result<u32, NoMemory>
        requires { IsTrue (has_counts_within 100 concept.now) }
        ensures number { IfOk result (λ n. IsNumber self.new.table n (normal_form concept.now)) }
        ensures kept { Extends self.old.table self.new.table }
        ensures axioms { HasSameAxioms self.old self.new }
        ensures rows { KeepsEntries self.old self.new }
        ensures unchanged { OnErr result (self.new.table ≡ self.old.table) }
    {
        self.concepts.intern(concept)
    }

    /// The number of a shape that is normal and has its parts in the table. It stands for the shape's tree.
    ///
    /// # Errors
    ///
    /// Out of memory, or out of numbers: a table has fewer than 2^32 of them.
    pub fn put(&mut self, shape: Shape<'_>) -> Result<u32, NoMemory>
        requires parts { IsTrue (has_parts_below (length self.old.table) (form_of shape)) }
        requires normal { IsTrue (is_normal self.old.table (form_of shape)) }
        ensures number { IfOk result (λ n. IsNumber self.new.table n (concept_of self.old.table shape.entry)) }
        ensures kept { Extends self.old.table self.new.table }
        ensures axioms { HasSameAxioms self.old self.new }
        ensures rows { KeepsEntries self.old self.new }
        ensures table { IsTable self.new.table }
    {
        self.concepts.put(shape)
    }

    /// The number of the complement of a number.
    ///
    /// # Errors
    ///
    /// Out of memory. The table keeps its numbers, and may have gained some.
    pub fn negated(&mut self, number: u32) -> Result<u32, NoMemory>
        requires { number < length self.old.table }
        ensures number { IfOk result (λ n. IsNumber self.new.table n (negated_form (tree_of self.old.table number))) }
        ensures kept { Extends self.old.table self.new.table }
        ensures axioms { HasSameAxioms self.old self.new }
        ensures rows { KeepsEntries self.old self.new }
    {
        self.concepts.negated(number)
    }

    /// The row of a part of a named axiom for the name conjuncts at these positions, from 1. `None` where the axiom is
    /// not named or has no such part, where the part is a range, and where the positions do not ascend or one of them
    /// is not that of a name.
    ///
    /// # Errors
    ///
    /// Out of memory. The table keeps its numbers, and may have gained some.
    pub fn inclusion_row(
        &mut self,
        axiom: u32,
        part: u32,
        positions: &[u32],
    ) -> Result<Option<CachedRow>, NoMemory>
        ensures row { IfOk result (IsRowOf self.new «axiom» part positions.now) }
        ensures cached { IfOk result (IsMadeOnce self.old self.new «axiom» part positions.now) }
        ensures kept { Extends self.old.table self.new.table }
        ensures axioms { HasSameAxioms self.old self.new }
        ensures table { IsTable self.new.table }
    {
        let _count = self.concepts.len();
        match find_row(&self.rows, axiom, part, positions) {
            Some(row) => Ok(Some(row.try_clone(self.alloc)?)),
            None => self.new_row(axiom, part, positions),
        }
    }

    // The row, made and stored.
    fn new_row(
        &mut self,
        axiom: u32,
        part: u32,
        positions: &[u32],
    ) -> Result<Option<CachedRow>, NoMemory>
        ensures row { IfOk result (IsRowOf self.new «axiom» part positions.now) }
        ensures cached { IfOk result (IsCached self.new «axiom» part positions.now) }
        ensures kept { Extends self.old.table self.new.table }
        ensures axioms { HasSameAxioms self.old self.new }
        ensures table { IsTable self.new.table }
    {
        match self.made_row(axiom, part, positions)? {
            Some(row) => {
                self.store_row(axiom, part, positions, &row)?;
                Ok(Some(row))
            }
            None => Ok(None),
        }
    }

    fn made_row(
        &mut self,
        axiom: u32,
        part: u32,
        positions: &[u32],
    ) -> Result<Option<CachedRow>, NoMemory>
        ensures row { IfOk result (IsRowOf self.new «axiom» part positions.now) }
        ensures kept { Extends self.old.table self.new.table }
        ensures axioms { HasSameAxioms self.old self.new }
        ensures table { IsTable self.new.table }
    {
        inclusion_row(
            self.alloc,
            &mut self.concepts,
            self.ontology,
            self.named,
            axiom,
            part,
            positions,
        )
    }

    fn store_row(
        &mut self,
        axiom: u32,
        part: u32,
        positions: &[u32],
        row: &CachedRow,
    ) -> Result<(), NoMemory>
        requires { IsRowOf self.old «axiom» part positions.now (Some row.now) }
        ensures cached { OnOk result (cached_row self.new «axiom» part positions.now ≡ Some row.now) }
        ensures table { self.new.table ≡ self.old.table }
        ensures axioms { HasSameAxioms self.old self.new }
    {
        store_row(self.alloc, &mut self.rows, axiom, part, positions, row)
    }

    /// The row of a range axiom that is named. `None` where the axiom is not named or of another kind.
    ///
    /// # Errors
    ///
    /// Out of memory. The table keeps its numbers, and may have gained some.
    pub fn range_row(&mut self, axiom: u32) -> Result<Option<CachedRange>, NoMemory>
        ensures row { IfOk result (IsRangeOf self.new «axiom») }
        ensures cached { IfOk result (IsRangeMadeOnce self.old self.new «axiom») }
        ensures kept { Extends self.old.table self.new.table }
        ensures axioms { HasSameAxioms self.old self.new }
        ensures table { IsTable self.new.table }
    {
        let _count = self.concepts.len();
        match find_range(&self.ranges, axiom) {
            Some(row) => Ok(Some(row)),
            None => self.new_range(axiom),
        }
    }

    // The row of the range axiom, made and stored.
    fn new_range(&mut self, axiom: u32) -> Result<Option<CachedRange>, NoMemory>
        ensures row { IfOk result (IsRangeOf self.new «axiom») }
        ensures cached { IfOk result (IsRangeCached self.new «axiom») }
        ensures kept { Extends self.old.table self.new.table }
        ensures axioms { HasSameAxioms self.old self.new }
        ensures table { IsTable self.new.table }
    {
        match self.made_range(axiom)? {
            Some(row) => {
                self.store_range(axiom, row)?;
                Ok(Some(row))
            }
            None => Ok(None),
        }
    }

    fn made_range(&mut self, axiom: u32) -> Result<Option<CachedRange>, NoMemory>
        ensures row { IfOk result (IsRangeOf self.new «axiom») }
        ensures kept { Extends self.old.table self.new.table }
        ensures axioms { HasSameAxioms self.old self.new }
        ensures table { IsTable self.new.table }
    {
        range_row(&mut self.concepts, self.ontology, self.named, axiom)
    }

    fn store_range(&mut self, axiom: u32, row: CachedRange) -> Result<(), NoMemory>
        requires { IsRangeOf self.old «axiom» (Some row) }
        ensures cached { OnOk result (cached_range self.new «axiom» ≡ Some row) }
        ensures table { self.new.table ≡ self.old.table }
        ensures axioms { HasSameAxioms self.old self.new }
    {
        store_range(&mut self.ranges, axiom, row)
    }
}
