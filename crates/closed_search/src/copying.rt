// Copies of lines.
ghost use Rattle.std.specs.Prelude.{◌≡◌, [], ◌∷◌, ◌++◌, false, map, get_or, IfOk, OnOk};
ghost use Rattle.search_trace.specs.RuleLine.{line_of};
ghost use Rattle.closed_search.specs.Shorter.{staying, line_if, AreAmong};

use crate::NoMemory;
use search_trace::Line;
use shq_terms::NumberList;
use std::alloc::Global;

/// A copy of each line, in their order.
pub(crate) fn copies(alloc: Global, lines: &[Line]) -> Result<Vec<Line>, NoMemory>
    ensures { IfOk result (λ ls. map line_of ls.items ≡ map line_of lines.now) }
{
    let mut copies = Vec::new(alloc);
    for line in lines {
        copies.push(copy_of(alloc, line)?)?;
    }
    Ok(copies)
}

/// Copies of the lines that are to be kept, in their order. A line behind the end of `keep` is left out.
pub(crate) fn kept_lines(
    alloc: Global,
    lines: &[Line],
    keep: &[bool],
) -> Result<Vec<Line>, NoMemory>
    ensures stay { IfOk result (λ ls. map line_of ls.items ≡ staying keep.now (map line_of lines.now)) }
    ensures among { IfOk result (λ ls. AreAmong (map line_of lines.now) (map line_of ls.items)) }
{
    let mut kept = Vec::new(alloc);
    for place in 0..lines.len() {
        put_if(alloc, &mut kept, &lines[place], stays(keep, place))?;
    }
    Ok(kept)
}

// Whether the line at a place is to be kept.
fn stays(keep: &[bool], place: usize) -> bool
    ensures { result ≡ get_or keep.now place false }
{
    match keep.get(place) {
        Some(stays) => *stays,
        None => false,
    }
}

// Puts a copy of the line last, where it is to be kept.
fn put_if(alloc: Global, lines: &mut Vec<Line>, line: &Line, stays: bool) -> Result<(), NoMemory>
    ensures { OnOk result
        (map line_of lines.new.items ≡ map line_of lines.old.items ++ line_if stays (line_of line.now)) }
{
    if stays {
        put_copy(alloc, lines, line)
    } else {
        Ok(())
    }
}

// Puts a copy of the line last.
fn put_copy(alloc: Global, lines: &mut Vec<Line>, line: &Line) -> Result<(), NoMemory>
    ensures { OnOk result (map line_of lines.new.items ≡ map line_of lines.old.items ++ line_of line.now ∷ []) }
{
    lines.push(copy_of(alloc, line)?)?;
    Ok(())
}

fn copy_of(alloc: Global, line: &Line) -> Result<Line, NoMemory>
    ensures { IfOk result (λ l. line_of l ≡ line_of line.now) }
{
    match line {
        Line::Start => Ok(Line::Start),
        Line::And(node, concept) => Ok(Line::And(*node, *concept)),
        Line::Or(node, concept) => Ok(Line::Or(*node, *concept)),
        Line::All(node, end, concept) => Ok(Line::All(*node, *end, *concept)),
        Line::Carry(node, end, role, concept) => Ok(Line::Carry(*node, *end, *role, *concept)),
        Line::Row(node, axiom, part, positions) => {
            Ok(Line::Row(*node, *axiom, *part, copy_of_list(alloc, positions)?))
        }
        Line::Range(node, end, axiom) => Ok(Line::Range(*node, *end, *axiom)),
        Line::SomeOf(node, end, concept) => Ok(Line::SomeOf(*node, *end, *concept)),
        Line::Least(node, first, concept) => Ok(Line::Least(*node, *first, *concept)),
        Line::Choose(node, concept) => Ok(Line::Choose(*node, *concept)),
        Line::Pair(one, other) => Ok(Line::Pair(*one, *other)),
        Line::Bottom(node) => Ok(Line::Bottom(*node)),
        Line::Clash(node, concept) => Ok(Line::Clash(*node, *concept)),
        Line::Most(node, concept, ends) => {
            Ok(Line::Most(*node, *concept, copy_of_list(alloc, ends)?))
        }
        Line::Fact(axiom, place) => Ok(Line::Fact(*axiom, *place)),
        Line::Differ(one, other) => Ok(Line::Differ(*one, *other)),
    }
}

fn copy_of_list(alloc: Global, numbers: &NumberList) -> Result<NumberList, NoMemory>
    ensures { IfOk result (λ ns. ns ≡ numbers.now) }
{
    let mut copy = NumberList::new(alloc);
    for number in numbers.items() {
        copy.push(*number)?;
    }
    Ok(copy)
}
