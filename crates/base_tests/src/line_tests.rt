// Lines, words and numbers as they are written in certificates.

use crate::checks::check;
use certificate_lines::{
    LineFault, clamped_line, first_unblank, iri, is_blank, lines, number, words,
};
use shq_terms::NoMemory;
use std::alloc::{AllocError, Global};
use std::process::Abort;
use std::test::Fail;

const NUMBERS: &[(&[u8], Option<u32>)] = &[
    (b"0", Some(0)),
    (b"7", Some(7)),
    (b"10", Some(10)),
    (b"4294967295", Some(4_294_967_295)),
    (b"4294967296", None),
    (b"99999999999999999999999", None),
    (b"00", None),
    (b"07", None),
    (b"+7", None),
    (b"-7", None),
    (b"7a", None),
    (b"", None),
];

const IRIS: &[(&[u8], Option<&[u8]>)] = &[
    (b"<A>", Some(b"A")),
    (b"<>", Some(b"")),
    (b"<", None),
    (b"A>", None),
    (b"<A", None),
    (b"", None),
];

/// Lines, and whether they are blank.
const BLANKS: &[(&[u8], bool)] = &[(b"", true), (b" \t\r", true), (b" . ", false)];

/// A text, its lines, and the words of the second.
const TEXT: &[u8] = b"model 2\r\nclass <A>  0\n\nend\n";

const LINES: &[&[u8]] = &[b"model 2", b"class <A>  0", b"", b"end", b""];

const WORDS: &[&[u8]] = &[b"class", b"<A>", b"", b"0"];

/// Lines, the numbers of the first one, and that of the first that is not blank.
const UNBLANK: &[(&[&[u8]], Option<usize>)] = &[
    (&[b"", b" \t\r", b" .", b"end"], Some(7)),
    (&[b"end"], Some(5)),
    (&[b"", b" \t\r"], None),
];

/// Numbers of lines, and what is told of them.
const CLAMPED: &[(usize, u32)] = &[
    (7, 7),
    (4_294_967_295, 4_294_967_295),
    (4_294_967_296, 4_294_967_295),
];

/// Faults, and what is written of them.
const FAULTS: &[(LineFault, &str)] = &[
    (LineFault::Malformed(7), "line 7 is malformed"),
    (LineFault::NoMemory, "memory was refused"),
];

fn are_pieces(pieces: &[&[u8]], wanted: &[&[u8]]) -> bool {
    let mut are_same = pieces.len() == wanted.len();
    for (piece, want) in pieces.iter().zip(wanted) {
        are_same &= *piece == *want;
    }
    are_same
}

fn are_lines(alloc: Global) -> Result<bool, NoMemory> {
    let cut = lines(alloc, TEXT)?;
    Ok(are_pieces(&cut, LINES))
}

fn are_words(alloc: Global) -> Result<bool, NoMemory> {
    let cut = words(alloc, LINES[1])?;
    Ok(are_pieces(&cut, WORDS))
}

fn is_told_so(alloc: Global, fault: LineFault, text: &str) -> Result<bool, AllocError> {
    let told = format!(in alloc; "{fault}")?;
    Ok(told.as_str() == text)
}

// The first line that is not blank, of which the first has the number 5.
fn first_of(lines: &[&[u8]]) -> Option<usize> {
    if lines.len() > 4 {
        return None;
    }
    first_unblank(lines, 5)
}

fn are_numbers() -> bool {
    let mut are_same = true;
    for (word, want) in NUMBERS {
        are_same &= number(word) == *want;
    }
    for (line, want) in CLAMPED {
        are_same &= clamped_line(*line) == *want;
    }
    are_same
}

fn are_iris() -> bool {
    let mut are_same = true;
    for (word, want) in IRIS {
        are_same &= iri(word) == *want;
    }
    are_same
}

fn are_blank() -> bool {
    let mut are_same = true;
    for (line, want) in BLANKS {
        are_same &= is_blank(line) == *want;
    }
    for (lines, want) in UNBLANK {
        are_same &= first_of(lines) == *want;
    }
    are_same
}

fn test_faults(rt: &impl Abort, alloc: Global) -> Result<(), AllocError> {
    for (fault, text) in FAULTS {
        check(rt, is_told_so(alloc, *fault, text)?, text);
    }
    Ok(())
}

fn test_lines(rt: &impl Abort, alloc: Global) -> Result<(), NoMemory> {
    check(rt, are_lines(alloc)?, "lines");
    check(rt, are_words(alloc)?, "words");
    check(rt, are_numbers(), "numbers");
    check(rt, are_iris(), "names");
    check(rt, are_blank(), "blank lines");
    Ok(())
}

#[test]
fn cuts_lines_and_reads_words(rt: HostRuntime) -> Result<(), Fail> {
    test_lines(&rt, rt.alloc())?;
    test_faults(&rt, rt.alloc())?;
    Ok(())
}
