// Unions that a search has met, by the concepts that close a part of them.

use crate::NoMemory;
use crate::met::MetConcepts;
use std::alloc::Global;
use step_finders::{Rules, Shape};

// The end of a chain of watches, which is no place.
const END: u32 = u32::MAX;

/// Where a concept closes a part of a union.
#[derive(Clone, Copy, Debug, PartialEq, Eq)]
pub(crate) enum Closes {
    /// At a node that has both.
    Here,
    /// At a node that has the union, and from which an edge leads to one that has the concept.
    Above,
}

/// That a concept closes a part of a union.
#[derive(Clone, Copy, Debug, PartialEq, Eq)]
pub(crate) struct Watch {
    /// The number of the union.
    pub(crate) union: u32,
    /// Where the concept closes the part.
    pub(crate) closes: Closes,
    /// The place of the watch of this concept that was put before this one, or the end.
    pub(crate) next: u32,
}

/// Where a row stands that gives a union.
#[derive(Clone, Copy, Debug, PartialEq, Eq)]
pub(crate) struct RowPlace {
    /// The concept that it waits for, among others.
    pub(crate) concept: u32,
    /// Its place among the rows that wait for this concept.
    pub(crate) place: usize,
}

/// For each concept, the unions that it closes a part of, of those that a search has met.
#[derive(Drop)]
pub(crate) struct UnionIndex {
    // By the number of a concept, the place of its latest watch, or the end.
    latest: Vec<u32>,
    met: MetConcepts,
    // By the number of a union, a row that gives it, where one was met.
    rows: Vec<Option<RowPlace>>,
    // Whether unions that a row would give count too.
    looks_at_rows: bool,
    watches: Vec<Watch>,
}

impl UnionIndex {
    /// No union was met.
    pub(crate) fn new(heap: Global) -> UnionIndex {
        UnionIndex {
            latest: Vec::new(heap),
            met: MetConcepts::none(heap),
            rows: Vec::new(heap),
            looks_at_rows: false,
            watches: Vec::new(heap),
        }
    }

    /// How many watches there are.
    pub(crate) fn len(&self) -> usize {
        self.watches.len()
    }

    /// The place of the latest watch of a concept, or the end, at which there is no watch.
    pub(crate) fn latest(&self, concept: u32) -> u32 {
        match self.latest.get(concept as usize) {
            Some(place) => *place,
            None => END,
        }
    }

    /// The watch at a place, if there is one.
    pub(crate) fn watch(&self, place: u32) -> Option<Watch> {
        match self.watches.get(place as usize) {
            Some(watch) => Some(*watch),
            None => None,
        }
    }

    /// Meets a union of these parts.
    ///
    /// # Errors
    ///
    /// Out of memory.
    pub(crate) fn meet<R: Rules>(
        &mut self,
        rules: &R,
        union: u32,
        parts: &[u32],
    ) -> Result<(), NoMemory> {
        if self.met.has(union) {
            return Ok(());
        }
        for part in parts {
            self.put_part(rules, union, *part)?;
        }
        self.met.put(union)
    }

    /// Whether unions that a row would give count too.
    pub(crate) fn looks_at_rows(&self) -> bool {
        self.looks_at_rows
    }

    /// Says whether unions that a row would give count from now on.
    pub(crate) fn look_at_rows(&mut self, looks_at_rows: bool) {
        self.looks_at_rows = looks_at_rows;
    }

    /// Meets a row that gives a union.
    ///
    /// # Errors
    ///
    /// Out of memory.
    pub(crate) fn meet_row(&mut self, union: u32, row: RowPlace) -> Result<(), NoMemory> {
        let place = union as usize;
        for _ in self.rows.len()..place + 1 {
            self.rows.push(None)?;
        }
        if place < self.rows.len() {
            self.rows[place] = Some(row);
        }
        Ok(())
    }

    /// A row that gives the union, where one was met.
    pub(crate) fn row(&self, union: u32) -> Option<RowPlace> {
        match self.rows.get(union as usize) {
            Some(row) => *row,
            None => None,
        }
    }

    // Puts what closes a part.
    fn put_part<R: Rules>(&mut self, rules: &R, union: u32, part: u32) -> Result<(), NoMemory> {
        match rules.shape(part) {
            Shape::Name(_) | Shape::NotName(_) | Shape::And(_) | Shape::Or(_) => {
                self.put(rules.complement(part), union, Closes::Here)
            }
            Shape::AllOf(_, filler) => self.put_filler(rules, union, filler),
            Shape::Top
            | Shape::Bottom
            | Shape::SomeOf(_, _)
            | Shape::Min(_, _, _)
            | Shape::Max(_, _, _) => Ok(()),
        }
    }

    // Puts what closes a part that says of all successors that they have the filler.
    fn put_filler<R: Rules>(&mut self, rules: &R, union: u32, filler: u32) -> Result<(), NoMemory> {
        match rules.shape(filler) {
            Shape::Bottom | Shape::Name(_) | Shape::NotName(_) => {
                self.put(rules.complement(filler), union, Closes::Above)
            }
            Shape::Top
            | Shape::And(_)
            | Shape::Or(_)
            | Shape::SomeOf(_, _)
            | Shape::AllOf(_, _)
            | Shape::Min(_, _, _)
            | Shape::Max(_, _, _) => Ok(()),
        }
    }

    // Puts that a concept, if there is one, closes a part of a union.
    fn put(&mut self, concept: Option<u32>, union: u32, closes: Closes) -> Result<(), NoMemory> {
        let Some(concept) = concept else {
            return Ok(());
        };
        let place = concept as usize;
        for _ in self.latest.len()..place + 1 {
            self.latest.push(END)?;
        }
        let count = self.watches.len();
        if count >= END as usize || place >= self.latest.len() {
            return Err(NoMemory);
        }
        self.watches.push(Watch {
            union,
            closes,
            next: self.latest[place],
        })?;
        self.latest[place] = count as u32;
        Ok(())
    }
}
