// Documents, whole or by their axioms.

use crate::numbers::decimal;
use job_runs::{NoMemory, document};
use std::alloc::Global;

/// A piece of a document, or of its axioms.
#[derive(Clone, Copy)]
enum Piece<'a> {
    /// A line.
    Line(&'a str),
    /// So many lines. In each `@` stands for its number, counted from 1, and `%` for the next number.
    Lines(u32, &'a str),
    /// So many times this text, at the end of the last line.
    More(u32, &'a str),
}

/// The lines of a document, or of its axioms.
#[derive(Drop)]
pub(crate) struct Document<'a> {
    pieces: Vec<Piece<'a>>,
    is_whole: bool,
    /// Blanks stand behind it, up to so many bytes.
    length: usize,
}

impl<'a> Document<'a> {
    /// No axioms.
    pub(crate) fn new(alloc: Global) -> Document<'a> {
        Document {
            pieces: Vec::new(alloc),
            is_whole: false,
            length: 0,
        }
    }

    /// Whether nothing was said of it.
    pub(crate) fn is_new(&self) -> bool {
        self.pieces.is_empty() && !self.is_whole && self.length == 0
    }

    /// Becomes like another one.
    pub(crate) fn take_over(&mut self, other: &Document<'a>) -> Result<(), NoMemory> {
        self.pieces.extend_from_slice(&other.pieces)?;
        self.is_whole = other.is_whole;
        self.length = other.length;
        Ok(())
    }

    /// A line of axioms more; `false` where the document is given whole.
    pub(crate) fn push_axioms(&mut self, line: &'a str) -> Result<bool, NoMemory> {
        self.pieces.push(Piece::Line(line))?;
        Ok(!self.is_whole)
    }

    /// A line of the whole text more; `false` where there are axioms.
    pub(crate) fn push_text(&mut self, line: &'a str) -> Result<bool, NoMemory> {
        let is_apt = self.make_whole();
        self.pieces.push(Piece::Line(line))?;
        Ok(is_apt)
    }

    /// Lines of one form more; `false` where their number is missing.
    pub(crate) fn push_lines(&mut self, rest: &'a str) -> Result<bool, NoMemory> {
        match counted(rest) {
            Some((count, text)) => {
                self.pieces.push(Piece::Lines(count, text))?;
                Ok(true)
            }
            None => Ok(false),
        }
    }

    /// Some text more at the end of the last line; `false` where there is no line, or no number of times.
    pub(crate) fn push_more(&mut self, rest: &'a str) -> Result<bool, NoMemory> {
        match counted(rest) {
            Some((count, text)) => {
                let is_apt = !self.pieces.is_empty();
                self.pieces.push(Piece::More(count, text))?;
                Ok(is_apt)
            }
            None => Ok(false),
        }
    }

    /// The document is given whole from here on; `false` where there are axioms.
    pub(crate) fn make_whole(&mut self) -> bool {
        let is_apt = self.is_whole || self.pieces.is_empty();
        self.is_whole = true;
        is_apt
    }

    /// Blanks stand behind it, up to so many bytes; `false` where the number is none.
    pub(crate) fn fill_to(&mut self, number: &str) -> bool {
        match number.parse::<usize>() {
            Ok(length) => {
                self.length = length;
                true
            }
            Err(_) => false,
        }
    }

    /// The text of the document, with the blanks behind it.
    pub(crate) fn text(&self, alloc: Global) -> Result<String, NoMemory> {
        let mut text = self.bare_text(alloc)?;
        fill(&mut text, self.length)?;
        Ok(text)
    }

    // The text of the document.
    fn bare_text(&self, alloc: Global) -> Result<String, NoMemory> {
        let lines = self.lines(alloc)?;
        if self.is_whole {
            Ok(lines)
        } else {
            document(alloc, lines.as_str())
        }
    }

    fn lines(&self, alloc: Global) -> Result<String, NoMemory> {
        let mut text = String::new(alloc);
        self.put(alloc, &mut text)?;
        Ok(text)
    }

    // Puts the lines, with a line feed between each two, and one behind the last where the document is given whole.
    fn put(&self, alloc: Global, text: &mut String) -> Result<(), NoMemory> {
        for (index, piece) in self.pieces.iter().enumerate() {
            put_piece(alloc, text, piece, index == 0)?;
        }
        if self.is_whole && !self.pieces.is_empty() {
            text.push_str("\n")?;
        }
        Ok(())
    }
}

// Puts blanks last, up to so many bytes.
fn fill(text: &mut String, length: usize) -> Result<(), NoMemory> {
    for _ in text.len()..length {
        text.push_str(" ")?;
    }
    Ok(())
}

// A number from 1 on, and what stands behind it.
fn counted(rest: &str) -> Option<(u32, &str)> {
    let (number, text) = rest.split_once(' ')?;
    match number.parse::<u32>() {
        Ok(count) if count > 0 => Some((count, text)),
        _ => None,
    }
}

fn put_piece(
    alloc: Global,
    text: &mut String,
    piece: &Piece<'_>,
    is_first: bool,
) -> Result<(), NoMemory> {
    match piece {
        Piece::Line(line) => put_line(text, line, is_first),
        Piece::Lines(count, line) => put_lines(alloc, text, *count, line, is_first),
        Piece::More(count, more) => put_more(text, *count, more),
    }
}

fn put_line(text: &mut String, line: &str, is_first: bool) -> Result<(), NoMemory> {
    if !is_first {
        text.push_str("\n")?;
    }
    text.push_str(line)?;
    Ok(())
}

fn put_lines(
    alloc: Global,
    text: &mut String,
    count: u32,
    line: &str,
    is_first: bool,
) -> Result<(), NoMemory> {
    for number in 0..count {
        put_numbered(alloc, text, line, number, is_first && number == 0)?;
    }
    Ok(())
}

// Puts the line of a number, which is counted from 0 here.
fn put_numbered(
    alloc: Global,
    text: &mut String,
    line: &str,
    before: u32,
    is_first: bool,
) -> Result<(), NoMemory> {
    let line = numbered(alloc, line, u64::from(before))?;
    put_line(text, line.as_str(), is_first)
}

fn numbered(alloc: Global, line: &str, before: u64) -> Result<String, NoMemory> {
    let line = with_number(alloc, line, "@", before.wrapping_add(1))?;
    with_number(alloc, line.as_str(), "%", before.wrapping_add(2))
}

// A text with a number in the place of a sign.
fn with_number(alloc: Global, text: &str, sign: &str, number: u64) -> Result<String, NoMemory> {
    let number = decimal(alloc, number)?;
    Ok(text.replace(alloc, sign, number.as_str())?)
}

fn put_more(text: &mut String, count: u32, more: &str) -> Result<(), NoMemory> {
    for _ in 0..count {
        text.push_str(more)?;
    }
    Ok(())
}
