// Which entries rest on which.
use crate::NoMemory;
use std::alloc::Global;

/// For each entry those that it rests on, all of which come before it.
#[derive(Drop)]
pub(crate) struct Supporters {
    // Of each entry whether it stays in any case, whether it is a line, and where those begin that it rests on.
    stays: Vec<bool>,
    are_lines: Vec<bool>,
    begins: Vec<usize>,
    entries: Vec<u32>,
}

impl Supporters {
    pub(crate) fn new(alloc: Global) -> Supporters {
        Supporters {
            stays: Vec::new(alloc),
            are_lines: Vec::new(alloc),
            begins: Vec::new(alloc),
            entries: Vec::new(alloc),
        }
    }

    /// One entry more, which rests on nothing so far.
    pub(crate) fn begin(&mut self, is_line: bool, stays: bool) -> Result<(), NoMemory> {
        self.begins.push(self.entries.len())?;
        self.are_lines.push(is_line)?;
        self.stays.push(stays)?;
        Ok(())
    }

    /// The latest entry rests on this one too.
    pub(crate) fn put(&mut self, entry: u32) -> Result<(), NoMemory> {
        self.entries.push(entry)?;
        Ok(())
    }

    /// Of each line whether an entry that stays rests on it, by whichever entries between.
    pub(crate) fn needed(self, alloc: Global) -> Result<Vec<bool>, NoMemory> {
        let Supporters {
            mut stays,
            are_lines,
            begins,
            entries,
        } = self;
        let mut end = entries.len();
        for step in 0..begins.len() {
            let entry = begins.len() - 1 - step;
            let begin = begins[entry];
            if stays.get(entry) == Some(&true) {
                keep_all(&mut stays, &entries, begin, end);
            }
            end = begin;
        }
        of_lines(alloc, &stays, &are_lines)
    }
}

// What is said of those entries that are lines.
fn of_lines(alloc: Global, stays: &[bool], are_lines: &[bool]) -> Result<Vec<bool>, NoMemory> {
    let mut lines = Vec::new(alloc);
    for (stay, is_line) in stays.iter().zip(are_lines) {
        if *is_line {
            lines.push(*stay)?;
        }
    }
    Ok(lines)
}

// Keeps the entries that stand in a list from one place to before another.
fn keep_all(stays: &mut Vec<bool>, entries: &[u32], begin: usize, end: usize) {
    for place in begin..end {
        match entries.get(place) {
            Some(entry) => keep(stays, *entry as usize),
            None => {}
        }
    }
}

fn keep(stays: &mut Vec<bool>, entry: usize) {
    if entry < stays.len() {
        stays[entry] = true;
    }
}
