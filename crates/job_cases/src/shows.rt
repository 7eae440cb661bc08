// What of an answer is printed.

use crate::blocks::Show;
use crate::numbers::put_decimal;
use job_runs::{Answer, NoMemory};
use std::alloc::Global;

/// Puts a whole answer on a line, with ` | ` between its lines.
pub(crate) fn put_whole(alloc: Global, line: &mut String, text: &[u8]) -> Result<(), NoMemory> {
    let text = text_of(text);
    match text.strip_suffix('\n') {
        Some(lines) => put_joined(alloc, line, lines),
        None => {
            put_joined(alloc, line, text)?;
            line.push_str(" (unended)")?;
            Ok(())
        }
    }
}

fn put_joined(alloc: Global, line: &mut String, lines: &str) -> Result<(), NoMemory> {
    let joined = lines.replace(alloc, "\n", " | ")?;
    line.push_str(joined.as_str())?;
    Ok(())
}

/// The text of an answer.
pub(crate) fn text_of(bytes: &[u8]) -> &str {
    str::from_utf8(bytes).unwrap_or("(no text)")
}

/// Puts on a line what a case asks for besides.
pub(crate) fn put_shows(
    alloc: Global,
    line: &mut String,
    shows: &[Show<'_>],
    answer: &Answer,
) -> Result<(), NoMemory> {
    for show in shows {
        line.push_str("; ")?;
        put_show(alloc, line, *show, text_of(answer.text()), answer)?;
    }
    Ok(())
}

fn put_show(
    alloc: Global,
    line: &mut String,
    show: Show<'_>,
    text: &str,
    answer: &Answer,
) -> Result<(), NoMemory> {
    match show {
        Show::Find(kinds) => put_kinds(line, text, kinds),
        Show::Count(kind) => put_number(alloc, line, kind, count_of(text, kind) as u64),
        Show::First(kind) => put_first(line, text, kind),
        Show::Steps => put_number(alloc, line, "steps", answer.spent),
        Show::Tests => put_number(alloc, line, "tests", answer.entries as u64),
    }
}

// The kinds of lines that the answer has, and those that it lacks.
fn put_kinds(line: &mut String, text: &str, kinds: &str) -> Result<(), NoMemory> {
    line.push_str("has")?;
    put_those(line, text, kinds, true)?;
    line.push_str("; lacks")?;
    put_those(line, text, kinds, false)
}

fn put_those(line: &mut String, text: &str, kinds: &str, are_there: bool) -> Result<(), NoMemory> {
    for kind in kinds.split_whitespace() {
        if (count_of(text, kind) > 0) == are_there {
            line.push_str(" ")?;
            line.push_str(kind)?;
        }
    }
    Ok(())
}

fn put_number(alloc: Global, line: &mut String, name: &str, number: u64) -> Result<(), NoMemory> {
    line.push_str(name)?;
    line.push_str(" ")?;
    put_decimal(alloc, line, number)
}

fn put_first(line: &mut String, text: &str, kind: &str) -> Result<(), NoMemory> {
    line.push_str(first_of(text, kind).unwrap_or("no such line"))?;
    Ok(())
}

// The first line of this kind.
fn first_of<'a>(text: &'a str, kind: &str) -> Option<&'a str> {
    for line in text.lines() {
        if is_of_kind(line, kind) {
            return Some(line);
        }
    }
    None
}

// How many lines are of this kind.
fn count_of(text: &str, kind: &str) -> usize {
    let mut count = 0usize;
    for line in text.lines() {
        count = count.wrapping_add(usize::from(is_of_kind(line, kind)));
    }
    count
}

// Whether this is the first word of the line.
fn is_of_kind(line: &str, kind: &str) -> bool {
    line.split(' ').next() == Some(kind)
}
