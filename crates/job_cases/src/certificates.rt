// What stands behind a document.

use crate::turns::Turn;
use job_runs::NoMemory;
use std::alloc::Global;

/// The lines of a certificate.
#[derive(Drop)]
pub(crate) struct Certificate<'a> {
    lines: Vec<&'a str>,
    has_returns: bool,
    is_unended: bool,
}

impl<'a> Certificate<'a> {
    /// No line.
    pub(crate) fn new(alloc: Global) -> Certificate<'a> {
        Certificate {
            lines: Vec::new(alloc),
            has_returns: false,
            is_unended: false,
        }
    }

    /// Whether nothing was said of it.
    pub(crate) fn is_new(&self) -> bool {
        self.lines.is_empty() && !self.has_returns && !self.is_unended
    }

    /// Becomes like another one.
    pub(crate) fn take_over(&mut self, other: &Certificate<'a>) -> Result<(), NoMemory> {
        self.lines.extend_from_slice(&other.lines)?;
        self.has_returns = other.has_returns;
        self.is_unended = other.is_unended;
        Ok(())
    }

    /// One line more.
    pub(crate) fn push(&mut self, line: &'a str) -> Result<bool, NoMemory> {
        self.lines.push(line)?;
        Ok(true)
    }

    /// Puts another line in the place of one; `false` where there is none.
    pub(crate) fn change(&mut self, rest: &'a str) -> bool {
        let (place, line) = placed(rest);
        match self.lines.get_mut(place) {
            Some(old) => {
                *old = line;
                true
            }
            None => false,
        }
    }

    /// Puts a line before another one, or behind the last; `false` where the place is none of these.
    pub(crate) fn insert(&mut self, rest: &'a str) -> Result<bool, NoMemory> {
        let (place, line) = placed(rest);
        if place > self.lines.len() {
            return Ok(false);
        }
        self.lines.insert(place, line)?;
        Ok(true)
    }

    /// Takes a line out; `false` where there is none.
    pub(crate) fn drop_line(&mut self, number: &str) -> bool {
        let place = place_of(number);
        if place >= self.lines.len() {
            return false;
        }
        self.lines.remove(place);
        true
    }

    /// Keeps the first lines alone; `false` where there are not so many.
    pub(crate) fn keep(&mut self, number: &str) -> bool {
        match number.parse::<usize>() {
            Ok(count) if count <= self.lines.len() => {
                self.lines.truncate(count);
                true
            }
            _ => false,
        }
    }

    /// A carriage return stands before each line feed.
    pub(crate) fn put_returns(&mut self) -> bool {
        self.has_returns = true;
        true
    }

    /// The last line has no line feed.
    pub(crate) fn leave_unended(&mut self) -> bool {
        self.is_unended = true;
        true
    }

    /// Puts the lines behind a text, or those of a run, as that has them.
    pub(crate) fn put(&self, text: &mut String, turn: Turn) -> Result<(), NoMemory> {
        let lines = &self.lines[..turn.lines.min(self.lines.len())];
        for (index, line) in lines.iter().enumerate() {
            if !is_at(turn.dropped, index) {
                text.push_str(line)?;
                if is_at(turn.spoiled, index) {
                    text.push_str(" x")?;
                }
                text.push_str(self.end_of(index + 1 < lines.len()))?;
            }
        }
        Ok(())
    }

    // What stands behind a line, by whether one more follows.
    fn end_of(&self, is_followed: bool) -> &'static str {
        if self.is_unended && !is_followed {
            ""
        } else if self.has_returns {
            "\r\n"
        } else {
            "\n"
        }
    }
}

// Whether a number, counted from 1, is that of a place, counted from 0.
fn is_at(number: Option<u32>, place: usize) -> bool {
    match number {
        Some(number) => number as usize == place.saturating_add(1),
        None => false,
    }
}

// A place, counted from 0, and the line for it.
fn placed(rest: &str) -> (usize, &str) {
    match rest.split_once(' ') {
        Some((number, line)) => (place_of(number), line),
        None => (place_of(rest), ""),
    }
}

// The place, counted from 0, of a number that counts from 1; the greatest where it is none.
fn place_of(number: &str) -> usize {
    match number.parse::<usize>() {
        Ok(number) => number.wrapping_sub(1),
        Err(_) => usize::MAX,
    }
}
