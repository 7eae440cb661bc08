// Lines that are read one after another.
ghost use Rattle.std.specs.Prelude.{◌≡◌, ◌≤◌, ◌<◌, ◌+◌, ◌^◌, [], true, length, Ok, IfOk, IfErr, OnOk, IfSome, IfNone};
ghost use Rattle.std.specs.Prelude.{option_map, option_and_then, nat_le, min, ◌-◌};
ghost use Rattle.axiom_sets.specs.Sets.{member_list};
ghost use Rattle.certificate_lines.specs.Lines.{bytes_of};
ghost use Rattle.certificate_lines.specs.Malformed.{clamped_line};
ghost use Rattle.audit_file.specs.AuditText.{IsNextLine, line_read, block_len, block, behind_block, fixed, count_line};
ghost use Rattle.audit_file.specs.AuditText.{count_in, up_to, numbers_set, set_line, later_set, set_in, blank_read};
ghost use Rattle.audit_file.specs.AuditText.{IsShifted};
ghost use Rattle.audit_file.specs.Following.{sets_above, lists_after, can_follow};
ghost use Rattle.audit_file.specs.AuditText.{IsFaultBy};
ghost use Rattle.audit_file.specs.AuditLists.{follows};
ghost use Rattle.finite_model.specs.ModelText.{element_in};

use crate::AuditFault;
use axiom_sets::AxiomSet;
use certificate_lines::{clamped_line, first_unblank, number, words};
use shq_terms::NoMemory;
use std::alloc::Global;
use std::marker::Model;

/// Lines that are still to be read. Contracts see them, and the number of the first.
#[derive(Drop)]
pub(crate) struct Reader<'a> {
    number: usize,
    rest: &'a [&'a [u8]],
}

impl<'a> Model for Reader<'a> {
    ghost use Rattle.std.specs.Prelude.{◌+◌, ◌^◌, ◌<◌, ◌≤◌, length};
    ghost use Rattle.certificate_lines.specs.Lines.{bytes_of};
    ghost use Rattle.audit_file.specs.AuditText.{Ahead};

    ghost Value = { Ahead };

    ghost view = { λ r. record { number = r.number; lines = bytes_of r.rest.now } };

    ghost invariant = { λ r. (1 ≤ r.number) × (r.number + length r.rest.now < 2 ^ 61) };
}

impl<'a> Reader<'a> {
    /// All of the lines, of which the first has the number 1.
    pub(crate) fn new(lines: &'a [&'a [u8]]) -> Reader<'a>
        ensures { result ≡ record { number = 1; lines = bytes_of lines.now } }
    {
        Reader {
            number: 1,
            rest: lines,
        }
    }

    /// The number of the next line.
    pub(crate) fn number(&self) -> usize
        ensures number { result ≡ self.now.number }
        ensures some { 1 ≤ self.now.number }
        ensures small { self.now.number < 2 ^ 61 }
    {
        prove!(self.number >= 1);
        self.number
    }

    /// Takes the next line.
    fn next(&mut self) -> Option<&'a [u8]>
        ensures some { IfSome result (λ l. IsNextLine self.old l.now self.new) }
        ensures later { IfSome result (λ _. 2 ≤ self.new.number) }
        ensures none { IfNone result (self.old.lines ≡ []) }
    {
        let first = *self.rest.first()?;
        self.rest = &self.rest[1..];
        self.number += 1;
        Some(first)
    }

    /// Takes the lines up to the first line `end`, with it, or all where there is none.
    pub(crate) fn block(&mut self) -> &'a [&'a [u8]]
        ensures block { bytes_of result.now ≡ block self.old.lines }
        ensures within { length result.now ≤ length self.old.lines }
        ensures behind { self.new ≡ behind_block self.old }
    {
        let len = block_len(self.rest);
        let block = &self.rest[..len];
        self.rest = &self.rest[len..];
        self.number += len;
        block
    }

    /// Reads a line that is just this text.
    pub(crate) fn fixed(&mut self, text: &[u8]) -> Result<(), AuditFault>
        ensures read { OnOk result (line_read (fixed text.now) self.old ≡ Ok (tt, self.new)) }
        ensures fault { IfErr result (IsFaultBy (line_read (fixed text.now) self.old)) }
    {
        let number = clamped_line(self.number());
        match self.next() {
            Some(line) if line == text => Ok(()),
            Some(_) | None => Err(AuditFault::Malformed(number)),
        }
    }

    /// Reads a line of a keyword and of how many sets of numbers up to a count follow. No more can follow than come
    /// after the one before, if there is one.
    pub(crate) fn count(
        &mut self,
        alloc: Global,
        keyword: &[u8],
        count: u32,
        before: Option<&AxiomSet>,
    ) -> Result<u32, AuditFault>
        ensures count { IfOk result
            (λ n. line_read (count_in keyword.now (can_follow count (option_map (λ b. b.now) before.entry))) self.old
            ≡ Ok (n, self.new)) }
        ensures fault { IfErr result
            (IsFaultBy
            (line_read (count_in keyword.now (can_follow count (option_map (λ b. b.now) before.entry))) self.old)) }
    {
        let number = clamped_line(self.number());
        let Some(line) = self.next() else {
            return Err(AuditFault::Malformed(number));
        };
        match count_in(alloc, keyword, count, before, line)? {
            Some(count) => Ok(count),
            None => Err(AuditFault::Malformed(number)),
        }
    }

    /// Reads a line `set K ..` of numbers up to a count, whose set comes after the one before it, and after which so
    /// many more can come.
    pub(crate) fn set(
        &mut self,
        alloc: Global,
        count: u32,
        before: Option<&AxiomSet>,
        more: u32,
    ) -> Result<AxiomSet, AuditFault>
        requires { IfSome before (λ s. s.now.limit ≡ count) }
        ensures set { IfOk result
            (λ s. line_read (set_in count (option_map (λ b. b.now) before.entry) more) self.old ≡ Ok (s, self.new)) }
        ensures limit { IfOk result (λ s. s.limit ≡ count) }
        ensures follows { IfOk result (λ s. follows (option_map (λ b. b.now) before.entry) s ≡ true) }
        ensures later { IfOk result (λ _. 2 ≤ self.new.number) }
        ensures fault { IfErr result
            (IsFaultBy (line_read (set_in count (option_map (λ b. b.now) before.entry) more) self.old)) }
    {
        let number = clamped_line(self.number());
        let Some(line) = self.next() else {
            return Err(AuditFault::Malformed(number));
        };
        match set_in(alloc, count, before, more, line)? {
            Some(set) => Ok(set),
            None => Err(AuditFault::Malformed(number)),
        }
    }

    /// Whether nothing but blank lines is left, else the first other line.
    pub(crate) fn blank_rest(&self) -> Result<(), AuditFault>
        ensures blank { OnOk result (blank_read self.now ≡ Ok tt) }
        ensures fault { IfErr result (IsFaultBy (blank_read self.now)) }
    {
        prove!(self.number >= 1);
        match first_unblank(self.rest, self.number) {
            None => Ok(()),
            Some(number) => Err(AuditFault::Malformed(clamped_line(number))),
        }
    }
}

/// The fault of a line of a block, whose first line has the number that is given, from the fault that its reader told.
pub(crate) fn fault_in_block(first: usize, fault: AuditFault) -> AuditFault
    requires { first < 2 ^ 61 }
    ensures { IsShifted first fault result }
{
    match fault {
        AuditFault::Malformed(line) => {
            let number = (first + line as usize).saturating_sub(2);
            AuditFault::Malformed(clamped_line(number))
        }
        AuditFault::NoMemory => AuditFault::NoMemory,
    }
}

/// How many lines there are up to the first line `end` and with it, or in all where there is none.
fn block_len(lines: &[&[u8]]) -> usize
    ensures len { result ≡ block_len (bytes_of lines.now) }
    ensures within { result ≤ length lines.now }
{
    for index in 0..lines.len() {
        if lines[index] == b"end".as_slice() {
            return index + 1;
        }
    }
    lines.len()
}

fn count_in(
    alloc: Global,
    keyword: &[u8],
    count: u32,
    before: Option<&AxiomSet>,
    line: &[u8],
) -> Result<Option<u32>, NoMemory>
    ensures { IfOk result
        (λ c. c ≡ count_in keyword.now (can_follow count (option_map (λ b. b.now) before.entry)) line.now) }
{
    let words = words(alloc, line)?;
    Ok(count_line(keyword, count, before, &words))
}

fn count_line(keyword: &[u8], count: u32, before: Option<&AxiomSet>, words: &[&[u8]]) -> Option<u32>
    ensures { result
        ≡ count_line keyword.now (can_follow count (option_map (λ b. b.now) before.entry)) (bytes_of words.now) }
{
    match words {
        [first, sets] if *first == keyword => possible_count(count, before, number(sets)?),
        _ => None,
    }
}

/// The number of sets, where so many can follow.
fn possible_count(count: u32, before: Option<&AxiomSet>, sets: u32) -> Option<u32>
    ensures { result ≡ up_to (can_follow count (option_map (λ b. b.now) before.entry)) sets }
{
    if can_follow(count, before, sets) {
        Some(sets)
    } else {
        None
    }
}

/// The set that a line says, where it comes after the one before it, and so many more can come after it.
fn set_in(
    alloc: Global,
    count: u32,
    before: Option<&AxiomSet>,
    more: u32,
    line: &[u8],
) -> Result<Option<AxiomSet>, NoMemory>
    requires { IfSome before (λ s. s.now.limit ≡ count) }
    ensures set { IfOk result (λ s. s ≡ set_in count (option_map (λ b. b.now) before.entry) more line.now) }
    ensures limit { IfOk result (λ s. IfSome s (λ t. t.limit ≡ count)) }
    ensures follows { IfOk result (λ s. IfSome s (λ t. follows (option_map (λ b. b.now) before.entry) t ≡ true)) }
{
    let words = words(alloc, line)?;
    let set = set_line(alloc, count, &words)?;
    Ok(later_set(count, before, more, set))
}

fn later_set(
    count: u32,
    before: Option<&AxiomSet>,
    more: u32,
    set: Option<AxiomSet>,
) -> Option<AxiomSet>
    requires { IfSome before (λ s. IfSome set (λ t. s.now.limit ≡ t.limit)) }
    ensures set { result ≡ option_and_then (later_set count (option_map (λ b. b.now) before.entry) more) set }
    ensures follows { IfSome result (λ t. follows (option_map (λ b. b.now) before.entry) t ≡ true) }
{
    let set = set?;
    if follows(before, &set) && can_follow(count, Some(&set), more) {
        return Some(set);
    }
    drop(set);
    None
}

fn follows(before: Option<&AxiomSet>, set: &AxiomSet) -> bool
    requires { IfSome before (λ s. s.now.limit ≡ set.now.limit) }
    ensures { result ≡ follows (option_map (λ b. b.now) before.entry) set.now }
{
    match before {
        Some(before) => before.cmp_list(set).is_lt(),
        None => true,
    }
}

/// Whether so many sets of numbers up to a count come after the one before, if there is one.
#[tactic(auto, using(crate::proofs::Following::at_most))]
fn can_follow(count: u32, before: Option<&AxiomSet>, sets: u32) -> bool
    ensures { result ≡ nat_le sets (can_follow count (option_map (λ b. b.now) before.entry)) }
{
    u64::from(sets) <= following(count, before)
}

/// How many there are, up to the greatest number of 32 bits.
fn following(count: u32, before: Option<&AxiomSet>) -> u64
    ensures { result ≡ min (can_follow count (option_map (λ b. b.now) before.entry)) (2 ^ 32 - 1) }
{
    match before {
        Some(set) => following_set(count, set),
        None => 2u64.saturating_pow(count).min(u64::from(u32::MAX)),
    }
}

#[tactic(auto, using(crate::proofs::Sums::counted_on, crate::proofs::Sums::counted_last))]
fn following_set(count: u32, set: &AxiomSet) -> u64
    ensures { result ≡ min (lists_after count 0 (member_list set.now)) (2 ^ 32 - 1) }
{
    let mut sets = 0;
    let mut last = 0;
    for number in set.numbers() {
        sets = sum(sets, sets_above(count, number));
        last = number;
    }
    sum(sets, sets_above(count, last))
}

/// How many sets of numbers above a number and up to a count there are, the empty one apart, up to the greatest number
/// of 32 bits.
fn sets_above(count: u32, number: u32) -> u64
    ensures { result ≡ min (sets_above count number) (2 ^ 32 - 1) }
{
    let all = 2u64.saturating_pow(count.saturating_sub(number));
    all.saturating_sub(1).min(u64::from(u32::MAX))
}

/// The sum, up to the greatest number of 32 bits.
fn sum(one: u64, other: u64) -> u64
    ensures { result ≡ min (one + other) (2 ^ 32 - 1) }
{
    one.saturating_add(other).min(u64::from(u32::MAX))
}

fn set_line(alloc: Global, count: u32, words: &[&[u8]]) -> Result<Option<AxiomSet>, NoMemory>
    ensures set { IfOk result (λ s. s ≡ set_line count (bytes_of words.now)) }
    ensures limit { IfOk result (λ s. IfSome s (λ t. t.limit ≡ count)) }
{
    match words {
        [keyword, numbers @ ..] if *keyword == b"set".as_slice() => {
            numbers_set(alloc, count, numbers)
        }
        _ => Ok(None),
    }
}

/// The set of the numbers that words are, where they are from 1 to the count and ascend.
fn numbers_set(alloc: Global, count: u32, words: &[&[u8]]) -> Result<Option<AxiomSet>, NoMemory>
    ensures set { IfOk result (λ s. s ≡ numbers_set count (bytes_of words.now)) }
    ensures limit { IfOk result (λ s. IfSome s (λ t. t.limit ≡ count)) }
{
    let mut set = AxiomSet::empty(alloc, count)?;
    let mut last = 0;
    for word in words {
        let Some(number) = number_after(last, count, word) else {
            return Ok(None);
        };
        set.put(number);
        last = number;
    }
    Ok(Some(set))
}

fn number_after(last: u32, count: u32, word: &[u8]) -> Option<u32>
    ensures number { result ≡ element_in (last + 1) (count + 1) word.now }
    ensures low { IfSome result (λ n. last < n) }
    ensures high { IfSome result (λ n. n ≤ count) }
{
    match number(word) {
        Some(number) if last < number && number <= count => Some(number),
        _ => None,
    }
}
