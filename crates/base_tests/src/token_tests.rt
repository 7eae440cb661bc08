// Texts with their tokens, and tokens with their trees.
ghost use Rattle.std.specs.Prelude.{◌≤◌, length};

use crate::checks::check;
use ofn_tree::{Form, Kind, TextFault, Token, Tree, end_line, tokens, tree};
use std::alloc::{AllocError, Global};
use std::process::Abort;
use std::test::Fail;

/// The first bytes of a text, which are all that it has in each test.
fn short(text: &[u8]) -> &[u8]
    ensures { length result.now ≤ 1000 }
{
    &text[..text.len().min(1000)]
}

// A letter for each kind.
fn letter(kind: Kind) -> u8 {
    match kind {
        Kind::OpenBracket => b'(',
        Kind::CloseBracket => b')',
        Kind::Equals => b'=',
        Kind::Iri => b'i',
        Kind::String => b's',
        Kind::Tag => b't',
        Kind::Carets => b'c',
        Kind::Name => b'n',
    }
}

// The line of the last token, where the tokens have these letters.
fn last_line(tokens: &[Token<'_>], letters: &[u8]) -> Option<u32> {
    let mut is_same = tokens.len() == letters.len();
    let mut line = 0;
    for (token, wanted) in tokens.iter().zip(letters) {
        is_same &= letter(token.kind) == *wanted;
        line = token.line;
    }
    if is_same { Some(line) } else { None }
}

// The line of the last token of a text, and the place after what was read.
fn read_as(alloc: Global, text: &[u8], letters: &[u8]) -> Result<(u32, usize), TextFault> {
    let (read, place) = tokens(alloc, short(text))?;
    Ok((last_line(&read, letters).unwrap_or(u32::MAX), place))
}

/// Texts with a letter for each token, the line of the last one, and the place after what was read; or with the
/// first fault.
type Cut = (
    &'static [u8],
    &'static [u8],
    Result<(u32, usize), TextFault>,
);

const TOKENS: &[Cut] = &[
    (b"", b"", Ok((0, 0))),
    (b"\xef\xbb\xbfA", b"n", Ok((1, 4))),
    (b"A\xef\xbb\xbf", b"n", Ok((1, 4))),
    (b"a'b,;:!\\~ -1", b"nn", Ok((1, 12))),
    (b"A<b>c", b"nin", Ok((1, 5))),
    (b"caf\xc3\xa9\xc2\xa0b", b"n", Ok((1, 8))),
    (b"\"\"=\"a\n\\\"\\\\\"\n=", b"s=s=", Ok((3, 13))),
    (b"\"x\"@en-GB1:a^^b", b"stncn", Ok((1, 15))),
    (b"#\x01>\n#\nA#\r\nB", b"nn", Ok((4, 11))),
    (b"Ontology( A )\n\"", b"n(n)", Ok((1, 13))),
    (b"(Ontology())(", b"(n())(", Ok((1, 13))),
    (b")Ontology()\xff", b")n()", Ok((1, 11))),
    // A name that belongs to a literal is no name of the document's group.
    (b"\"x\"^^Ontology()A", b"scn()n", Ok((1, 16))),
    (b"^^Ontology()A", b"cn()", Ok((1, 12))),
    (b"\n\xff", b"", Err(TextFault::BadUtf8(2))),
    (b"#\n#\xff\n", b"", Err(TextFault::BadUtf8(2))),
    (b"<a\xed\xa0\x80>", b"", Err(TextFault::BadUtf8(1))),
    (b"\n\"\n\\", b"", Err(TextFault::BadToken(2))),
    (b"\n\"\n\\\xff", b"", Err(TextFault::BadUtf8(3))),
    (b"\"\n\\n\xff\"", b"", Err(TextFault::BadToken(1))),
    (b"\n<a", b"", Err(TextFault::BadToken(2))),
    (b"<a b>", b"", Err(TextFault::BadToken(1))),
    (b"<a\x7f>", b"", Err(TextFault::BadToken(1))),
    (b"@\xff", b"", Err(TextFault::BadUtf8(1))),
    (b"@\xc3\xa9", b"", Err(TextFault::BadToken(1))),
    (b"^ ^", b"", Err(TextFault::BadToken(1))),
    (b"a\n\x7f", b"", Err(TextFault::BadToken(2))),
    (b"(Ontology())\x00", b"", Err(TextFault::BadToken(1))),
];

/// How many brackets are opened and then closed, what stands behind them, and how many items there are.
type Bracketed = (usize, usize, &'static [u8], Result<usize, TextFault>);

const BRACKETS: &[Bracketed] = &[
    (0, 0, b"", Ok(0)),
    (64, 64, b"A", Ok(2)),
    (65, 65, b"", Err(TextFault::TooDeep(1))),
    (65, 0, b"", Err(TextFault::TooDeep(1))),
    (64, 63, b"", Err(TextFault::Unbalanced(1))),
    (1, 2, b"", Err(TextFault::Unbalanced(1))),
    (1, 1, b")", Err(TextFault::Unbalanced(1))),
    (64, 65, b"(", Err(TextFault::Unbalanced(1))),
    (64, 64, b"A()<b>(A)", Ok(4)),
];

/// Texts with a letter for each item.
const ITEMS: &[(&[u8], &[u8])] = &[
    (b"\"x\"@en @en", b"l="),
    (b"\"x\"#\n^^#\na", b"l"),
    (b"\"x\"^^<a>b", b"ln"),
    (b"\"x\"^^\"y\"^^a", b"l=l"),
    (b"\"x\"^^(a)", b"l=g"),
    (b"\"x\"^^a(b)", b"lg"),
    (b"\"x\"@en^^a", b"l=n"),
    (b"=^^a@en", b"==n="),
];

// The items of a text.
fn items<'a>(alloc: Global, text: &'a [u8]) -> Result<Vec<Tree<'a>>, TextFault> {
    let text = short(text);
    let read = tokens(alloc, text)?;
    tree(alloc, &read.0, end_line(text))
}

fn bracketed(
    alloc: Global,
    opened: usize,
    closed: usize,
    rest: &[u8],
) -> Result<Vec<u8>, AllocError> {
    let mut text = vec![in alloc; b'('; opened]?;
    text.resize(opened.saturating_add(closed), b')')?;
    text.extend_from_slice(rest)?;
    Ok(text)
}

fn item_count(alloc: Global, text: &[u8]) -> Result<usize, TextFault> {
    let trees = items(alloc, text)?;
    Ok(trees.len())
}

fn bracketed_count(
    alloc: Global,
    opened: usize,
    closed: usize,
    rest: &[u8],
) -> Result<Result<usize, TextFault>, AllocError> {
    let text = bracketed(alloc, opened, closed, rest)?;
    Ok(item_count(alloc, &text))
}

fn are_counted(alloc: Global, brackets: &[Bracketed]) -> Result<bool, AllocError> {
    let mut are_so = true;
    for (opened, closed, rest, wanted) in brackets {
        are_so &= bracketed_count(alloc, *opened, *closed, rest)? == *wanted;
    }
    Ok(are_so)
}

// A letter for each item.
fn item_letter(item: &Tree) -> u8 {
    match &item.form {
        Form::Name(_, _) => b'n',
        Form::Iri(_, _) => b'i',
        Form::Literal(_) => b'l',
        Form::Sign(_, _) => b'=',
        Form::Group(_, _, _) => b'g',
    }
}

fn have_letters(items: &[Tree], letters: &[u8]) -> bool {
    let mut is_same = items.len() == letters.len();
    for (item, wanted) in items.iter().zip(letters) {
        is_same &= item_letter(item) == *wanted;
    }
    is_same
}

fn has_items(alloc: Global, text: &[u8], letters: &[u8]) -> Result<bool, TextFault> {
    let items = items(alloc, text)?;
    Ok(have_letters(&items, letters))
}

// The items of a group with this name, or without any, on this line.
fn items_of<'t, 'a>(item: &'t Tree<'a>, name: Option<&str>, line: u32) -> &'t [Tree<'a>] {
    match &item.form {
        Form::Group(head, items, at) if *head == name && *at == line => items.as_slice(),
        _ => &[],
    }
}

// A (B), and on the next line (<i> C()).
fn are_trees(items: &[Tree]) -> bool {
    match items {
        [first, second] => is_first(first) && is_second(second),
        _ => false,
    }
}

fn is_first(item: &Tree) -> bool {
    match items_of(item, Some("A"), 1) {
        [name] => matches!(name.form, Form::Name("B", 1)),
        _ => false,
    }
}

fn is_second(item: &Tree) -> bool {
    match items_of(item, None, 2) {
        [iri, inner] => matches!(iri.form, Form::Iri("i", 2)) && is_empty_group(inner),
        _ => false,
    }
}

fn is_empty_group(item: &Tree) -> bool {
    match &item.form {
        Form::Group(Some("C"), items, _) => items.is_empty(),
        _ => false,
    }
}

fn makes_trees(alloc: Global) -> Result<bool, TextFault> {
    let trees = items(alloc, b"A (B)\n(<i> C())")?;
    Ok(are_trees(&trees))
}

fn are_tokens(alloc: Global, cuts: &[Cut]) -> bool {
    let mut are_so = true;
    for (text, letters, wanted) in cuts {
        are_so &= read_as(alloc, text, letters) == *wanted;
    }
    are_so
}

fn have_items(alloc: Global, texts: &[(&[u8], &[u8])]) -> Result<bool, TextFault> {
    let mut have = true;
    for (text, letters) in texts {
        have &= has_items(alloc, text, letters)?;
    }
    Ok(have)
}

fn test_texts(rt: &impl Abort, alloc: Global) -> Result<(), TextFault> {
    check(rt, makes_trees(alloc)?, "trees");
    check(rt, have_items(alloc, ITEMS)?, "items");
    check(rt, are_tokens(alloc, TOKENS), "tokens");
    Ok(())
}

fn test_brackets(rt: &impl Abort, alloc: Global) -> Result<(), AllocError> {
    check(rt, are_counted(alloc, BRACKETS)?, "brackets");
    Ok(())
}

#[test]
fn reads_tokens_and_trees(rt: HostRuntime) -> Result<(), Fail> {
    test_texts(&rt, rt.alloc())?;
    test_brackets(&rt, rt.alloc())?;
    Ok(())
}
