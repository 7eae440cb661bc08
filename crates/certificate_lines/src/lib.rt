//! The line format of certificates: a text is its lines, a line its words, and a word may be a number or a name.
//!
//! A certificate is read by a program that is proved, so its format is as plain as the clausal proofs of SAT solvers
//! (DRAT: Wetzler, Heule and Hunt, SAT 2014): one fact on each line, words with one blank between them, numbers in
//! decimal. Names are full IRIs between `<` and `>`, as in RDF 1.1 N-Triples. What differs: nothing is passed over. Two
//! blanks together, a leading zero or a word too many make a line malformed, so a text has one reading at most, and a
//! text without a reading has one first malformed line: the first with which no text begins. That law is proved here
//! once, over any reading of one line more (`Body` and `FirstMalformed` among the specs and proofs); the crates above
//! say only how they read a line.
#![tactic(auto)]

ghost use Rattle.std.specs.Prelude.{◌≡◌, map, true, IfOk, option_map, nat_eq};
ghost use Rattle.std.specs.Char.{is_ascii_digit};
ghost use Rattle.std.specs.List.{list_all, slice_split};
ghost use Rattle.std.specs.Str.Lines.{strip_carriage_return};
ghost use Rattle.certificate_lines.specs.Lines.{lines, is_space, is_blank, words, is_numeral, small_value, number_in};
ghost use Rattle.certificate_lines.specs.Lines.{iri_in};

mod fault;
mod laws;

pub use fault::{LineFault, clamped_line, first_unblank};
pub use laws::{
    iris_are_read_back, lines_are_read_back, numbers_are_read_back, words_are_read_back,
};
pub use shq_terms::{NoMemory, NumberList, Ontology};
use std::alloc::Global;
use std::str;

/// The lines of a text, cut at line feeds. A carriage return at the end of a line is dropped. A line feed at the end of
/// the text has an empty line after it.
pub fn lines(alloc: Global, text: &[u8]) -> Result<Vec<&[u8]>, NoMemory>
    ensures { IfOk result (λ ls. map (λ l. l.now) ls.items ≡ lines text.now) }
{
    let pieces = pieces(alloc, text, b'\n')?;
    let mut lines = Vec::new(alloc);
    for piece in &pieces {
        lines.push(without_return(piece))?;
    }
    Ok(lines)
}

fn pieces(alloc: Global, text: &[u8], mark: u8) -> Result<Vec<&[u8]>, NoMemory>
    ensures { IfOk result (λ ps. map (λ p. p.now) ps.items ≡ slice_split (λ b. nat_eq b mark) text.now) }
{
    Ok(text.split(|byte| *byte == mark).collect(alloc)?)
}

fn without_return(line: &[u8]) -> &[u8]
    ensures { result.now ≡ strip_carriage_return line.now }
{
    if !line.is_empty() && line[line.len() - 1] == b'\r' {
        return &line[..line.len() - 1];
    }
    line
}

/// Whether the line is empty, or of whitespace alone: blanks, tabs and carriage returns.
pub fn is_blank(line: &[u8]) -> bool
    ensures { result ≡ is_blank line.now }
{
    line.iter().all(|byte| is_space(*byte))
}

fn is_space(byte: u8) -> bool
    ensures { result ≡ is_space byte }
{
    byte == b' ' || byte == b'\t' || byte == b'\n' || byte == b'\r'
}

/// The words of a line, which are separated by one blank. Two blanks together, and a blank at either end of the line,
/// make an empty word.
pub fn words(alloc: Global, line: &[u8]) -> Result<Vec<&[u8]>, NoMemory>
    ensures { IfOk result (λ ws. map (λ w. w.now) ws.items ≡ words line.now) }
{
    pieces(alloc, line, b' ')
}

/// The number that the word is in decimal. `None` exactly where it has another character than a digit, no digit or a
/// leading zero, or where the number is 4,294,967,296 or more.
pub fn number(word: &[u8]) -> Option<u32>
    ensures { result ≡ number_in word.now }
{
    if is_numeral(word) {
        return small_value(word);
    }
    None
}

fn is_numeral(word: &[u8]) -> bool
    ensures { result ≡ is_numeral word.now }
{
    are_digits(word) && !word.is_empty() && (word.len() == 1 || word[0] != b'0')
}

fn are_digits(word: &[u8]) -> bool
    ensures { result ≡ list_all is_ascii_digit word.now }
{
    word.iter().all(|byte| byte.is_ascii_digit())
}

fn small_value(digits: &[u8]) -> Option<u32>
    requires { is_numeral digits.now ≡ true }
    ensures { result ≡ small_value digits.now }
{
    match str::from_utf8(digits) {
        Ok(text) => match text.parse::<u32>() {
            Ok(number) => Some(number),
            Err(_) => None,
        },
        Err(_) => unreachable!(),
    }
}

/// What stands between `<` at the word's start and `>` at its end. `None` exactly where it has not both.
pub fn iri(word: &[u8]) -> Option<&[u8]>
    ensures { option_map (λ i. i.now) result ≡ iri_in word.now }
{
    if word.len() > 1 && word[0] == b'<' && word[word.len() - 1] == b'>' {
        return Some(&word[1..word.len() - 1]);
    }
    None
}
