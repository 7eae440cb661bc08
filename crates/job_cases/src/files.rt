// Reading a file of cases.

use crate::blocks::Block;
use crate::faults::Fault;
use crate::keys::{Key, key_of};
use job_runs::NoMemory;
use std::alloc::Global;

/// Puts the blocks of a file of cases.
///
/// # Errors
///
/// The line that is malformed first, that there is no case, or out of memory.
pub(crate) fn read_cases<'a>(
    alloc: Global,
    blocks: &mut Vec<Block<'a>>,
    text: &'a str,
) -> Result<(), Fault> {
    for (index, line) in text.lines().enumerate() {
        if !take_line(alloc, blocks, index + 1, line)? {
            return Err(Fault::Malformed { line: index + 1 });
        }
    }
    check_all_asked(blocks)
}

// Takes what a line says; `false` where it is malformed.
fn take_line<'a>(
    alloc: Global,
    blocks: &mut Vec<Block<'a>>,
    number: usize,
    line: &'a str,
) -> Result<bool, NoMemory> {
    if line.is_empty() || line.starts_with('#') {
        return Ok(true);
    }
    let (word, rest) = line.split_once(' ').unwrap_or((line, ""));
    match key_of(word) {
        Some(Key::Case) => begin(blocks, Block::new(alloc, rest, number, true)),
        Some(Key::Document) => begin(blocks, Block::new(alloc, rest, number, false)),
        Some(Key::Like) => take_over(blocks, rest),
        Some(key) => take_in_last(blocks, key, rest),
        None => Ok(false),
    }
}

// The first block of this name.
fn find<'b, 'a>(blocks: &'b [Block<'a>], name: &str) -> Option<&'b Block<'a>> {
    for block in blocks {
        if block.name == name {
            return Some(block);
        }
    }
    None
}

// Begins a block; `false` where its name is none, or stands before.
fn begin<'a>(blocks: &mut Vec<Block<'a>>, block: Block<'a>) -> Result<bool, NoMemory> {
    let is_new = !block.name.is_empty() && find(blocks, block.name).is_none();
    blocks.push(block)?;
    Ok(is_new)
}

// The last block takes over what an earlier one has; `false` where there is none of this name.
fn take_over<'a>(blocks: &mut Vec<Block<'a>>, name: &str) -> Result<bool, NoMemory> {
    let Some((last, earlier)) = blocks.split_last_mut() else {
        return Ok(false);
    };
    match find(earlier, name) {
        Some(block) => last.take_over(block),
        None => Ok(false),
    }
}

fn take_in_last<'a>(
    blocks: &mut Vec<Block<'a>>,
    key: Key,
    rest: &'a str,
) -> Result<bool, NoMemory> {
    match blocks.last_mut() {
        Some(block) => block.take(key, rest),
        None => Ok(false),
    }
}

// Each case asks something, and there is one.
fn check_all_asked(blocks: &[Block<'_>]) -> Result<(), Fault> {
    let mut has_case = false;
    for block in blocks {
        if block.is_case && !block.is_asked {
            return Err(Fault::Malformed { line: block.line });
        }
        has_case |= block.is_case;
    }
    if has_case { Ok(()) } else { Err(Fault::NoCase) }
}
