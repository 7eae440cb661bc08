// Rule lines are read.
ghost use Rattle.std.specs.Prelude.{◌≡◌, map, Some, IfOk, IfErr, option_map, length};
ghost use Rattle.certificate_lines.specs.Lines.{bytes_of};
ghost use Rattle.refutation_tree.specs.RuleLine.{line_of};
ghost use Rattle.refutation_tree.specs.RefutationText.{start_in, short_line, row_in, most_in, numbered_line, carry_in};
ghost use Rattle.refutation_tree.specs.RefutationText.{rule_in, rule_line};
ghost use Rattle.certificate_lines.specs.Malformed.{IsFaultAt};

use crate::fields::{one_of, read_numbers, restriction_in, three_of, two_of};
use crate::keywords::{LineKind, line_kind};
use crate::{CertFault, Line, NoMemory};
use certificate_lines::{NumberList, Ontology, number};
use std::alloc::Global;

/// The rule line that words are, on the line whose number is given.
pub(crate) fn read_rule_line(
    alloc: Global,
    words: &[&[u8]],
    line: u32,
    ontology: &Ontology,
) -> Result<Line, CertFault>
    ensures value { IfOk result (λ l. rule_line ontology.now (bytes_of words.now) ≡ Some (line_of l)) }
    ensures fault { IfErr result (IsFaultAt line (rule_line ontology.now (bytes_of words.now))) }
{
    match words {
        [keyword, fields @ ..] => match line_kind(keyword) {
            Some(kind) => read_rule(alloc, kind, fields, line, ontology),
            None => Err(CertFault::Malformed(line)),
        },
        _ => Err(CertFault::Malformed(line)),
    }
}

fn read_rule(
    alloc: Global,
    kind: LineKind,
    fields: &[&[u8]],
    line: u32,
    ontology: &Ontology,
) -> Result<Line, CertFault>
    ensures value { IfOk result (λ l. rule_in ontology.now kind (bytes_of fields.now) ≡ Some (line_of l)) }
    ensures fault { IfErr result (IsFaultAt line (rule_in ontology.now kind (bytes_of fields.now))) }
{
    if kind == LineKind::Carry {
        return found(carry_in(fields, ontology), line);
    }
    let numbers = read_numbers(alloc, fields, line)?;
    numbered_line(alloc, kind, &numbers, line)
}

// The rule line, if there is one.
fn found(rule: Option<Line>, line: u32) -> Result<Line, CertFault>
    ensures value { IfOk result (λ l. option_map line_of rule ≡ Some (line_of l)) }
    ensures fault { IfErr result (IsFaultAt line (option_map line_of rule)) }
{
    match rule {
        Some(rule) => Ok(rule),
        None => Err(CertFault::Malformed(line)),
    }
}

fn carry_in(fields: &[&[u8]], ontology: &Ontology) -> Option<Line>
    ensures { option_map line_of result ≡ carry_in ontology.now (bytes_of fields.now) }
{
    match fields {
        [from, to, others @ ..] => {
            let x = number(from)?;
            let y = number(to)?;
            let restriction = restriction_in(others, ontology)?;
            Some(Line::Carry(x, y, restriction.role, restriction.filler))
        }
        _ => None,
    }
}

fn numbered_line(
    alloc: Global,
    kind: LineKind,
    numbers: &[u32],
    line: u32,
) -> Result<Line, CertFault>
    ensures value { IfOk result (λ l. numbered_line kind numbers.now ≡ Some (line_of l)) }
    ensures fault { IfErr result (IsFaultAt line (numbered_line kind numbers.now)) }
{
    match kind {
        LineKind::Row => read_row(alloc, numbers, line),
        LineKind::Most => read_most(alloc, numbers, line),
        _ => found(short_line(kind, numbers), line),
    }
}

fn read_row(alloc: Global, numbers: &[u32], line: u32) -> Result<Line, CertFault>
    ensures value { IfOk result (λ l. row_in numbers.now ≡ Some (line_of l)) }
    ensures fault { IfErr result (IsFaultAt line (row_in numbers.now)) }
{
    match numbers {
        [x, axiom, part, others @ ..] => {
            let positions = list_of(alloc, others)?;
            Ok(Line::Row(*x, *axiom, *part, positions))
        }
        _ => Err(CertFault::Malformed(line)),
    }
}

fn read_most(alloc: Global, numbers: &[u32], line: u32) -> Result<Line, CertFault>
    ensures value { IfOk result (λ l. most_in numbers.now ≡ Some (line_of l)) }
    ensures fault { IfErr result (IsFaultAt line (most_in numbers.now)) }
{
    if numbers.len() < 3 {
        return Err(CertFault::Malformed(line));
    }
    let nodes = list_of(alloc, &numbers[2..])?;
    Ok(Line::Most(numbers[0], numbers[1], nodes))
}

fn list_of(alloc: Global, numbers: &[u32]) -> Result<NumberList, NoMemory>
    ensures { IfOk result (λ l. l ≡ numbers.now) }
{
    let mut list = NumberList::new(alloc);
    for number in numbers {
        list.push(*number)?;
    }
    Ok(list)
}

// A line of as many numbers as each line of its kind has.
fn short_line(kind: LineKind, numbers: &[u32]) -> Option<Line>
    ensures { option_map line_of result ≡ short_line kind numbers.now }
{
    match kind {
        LineKind::Start => start_in(numbers),
        LineKind::And => two_of(numbers).map(|t| Line::And(t.0, t.1)),
        LineKind::Or => two_of(numbers).map(|t| Line::Or(t.0, t.1)),
        LineKind::All => three_of(numbers).map(|t| Line::All(t.0, t.1, t.2)),
        LineKind::Range => three_of(numbers).map(|t| Line::Range(t.0, t.1, t.2)),
        LineKind::SomeOf => three_of(numbers).map(|t| Line::SomeOf(t.0, t.1, t.2)),
        LineKind::Least => three_of(numbers).map(|t| Line::Least(t.0, t.1, t.2)),
        LineKind::Choose => two_of(numbers).map(|t| Line::Choose(t.0, t.1)),
        LineKind::Pair => two_of(numbers).map(|t| Line::Pair(t.0, t.1)),
        LineKind::Bottom => one_of(numbers).map(|x| Line::Bottom(x)),
        LineKind::Clash => two_of(numbers).map(|t| Line::Clash(t.0, t.1)),
        LineKind::Fact => two_of(numbers).map(|t| Line::Fact(t.0, t.1)),
        LineKind::Differ => two_of(numbers).map(|t| Line::Differ(t.0, t.1)),
        LineKind::Carry | LineKind::Row | LineKind::Most => None,
    }
}

fn start_in(numbers: &[u32]) -> Option<Line>
    ensures { option_map line_of result ≡ start_in numbers.now }
{
    match numbers {
        [] => Some(Line::Start),
        _ => None,
    }
}
