// What stands at the front of a text: whitespace, a comment or a token.
ghost use Rattle.std.specs.Prelude.{◌≡◌, ◌<◌, ◌≤◌, ◌∷◌, [], true, false, length, slice_index, drop, IfSome};
ghost use Rattle.std.specs.List.{prefix_len};
ghost use Rattle.std.specs.Str.{IsCharBoundary};
ghost use Rattle.ofn_tree.specs.Lexemes.{is_iri_byte, is_comment_byte, cut_short, iri_at, quoted, string_at, front_tag};
ghost use Rattle.ofn_tree.specs.Lexemes.{carets_at, front_name, sign_at, cut_at, gap};
ghost use Rattle.ofn_tree.specs.Scanned.{cut_of, quoted_of, IsCutWithin, ClosesWithin, HasFeeds, ClosesBehind};

use crate::Kind;
use crate::bytes::{
    comment_len, feeds_in, iri_len, is_name_byte, is_whitespace, name_len, tag_len,
};

// A token, how many bytes it takes up, and how many of them are line feeds.
#[derive(Clone, Copy)]
pub(crate) struct Lexeme<'a> {
    pub(crate) kind: Kind,
    pub(crate) text: &'a str,
    pub(crate) len: usize,
    pub(crate) line_feeds: usize,
}

// The front of a text.
#[derive(Clone, Copy)]
pub(crate) enum Cut<'a> {
    // Whitespace or a comment of so many bytes, and how many of them are line feeds.
    Gap { len: usize, line_feeds: usize },
    // A whole token.
    Token(Lexeme<'a>),
    // A token that a character breaks, or a character that begins none.
    Wrong,
    // A token that goes on where the text ends.
    Unended,
}

// How a string goes on.
#[derive(Clone, Copy)]
enum StringEnd {
    // Its closing quotation mark is after so many bytes, and so many of them are line feeds.
    Closes { len: usize, line_feeds: usize },
    // A character after a backslash breaks it.
    Breaks,
    // It goes on where the text ends.
    RunsOn,
}

// What is answered for a token that is not whole, where these bytes stand after what there is of it.
fn cut_short<'a>(rest: &[u8]) -> Cut<'a>
    ensures { cut_of result ≡ cut_short rest.now }
{
    if rest.is_empty() {
        Cut::Unended
    } else {
        Cut::Wrong
    }
}

// The token that is the first byte.
fn sign_at(kind: Kind, text: &str) -> Cut<'_>
    requires some { 0 < length text.now }
    requires ascii { slice_index text.now 0 < 128 }
    requires printing { 32 < slice_index text.now 0 }
    ensures cut { cut_of result ≡ sign_at kind (slice_index text.now 0) }
    ensures within { IsCutWithin text.now result }
    ensures feeds { HasFeeds text.now result }
{
    Cut::Token(Lexeme {
        kind,
        text: &text[..1],
        len: 1,
        line_feeds: 0,
    })
}

// The comment whose `#` is the first byte.
fn comment_at(text: &str) -> Cut<'_>
    requires some { 0 < length text.now }
    requires printing { 32 < slice_index text.now 0 }
    ensures cut { cut_of result ≡ gap (prefix_len is_comment_byte (drop 1 text.now)) }
    ensures within { IsCutWithin text.now result }
    ensures feeds { HasFeeds text.now result }
{
    Cut::Gap {
        len: 1 + comment_len(&text.as_bytes()[1..]),
        line_feeds: 0,
    }
}

// The IRI whose `<` is the first byte.
fn iri_at(text: &str) -> Cut<'_>
    requires some { 0 < length text.now }
    requires ascii { slice_index text.now 0 < 128 }
    requires printing { 32 < slice_index text.now 0 }
    ensures cut { cut_of result ≡ iri_at (prefix_len is_iri_byte (drop 1 text.now)) (drop 1 text.now) }
    ensures within { IsCutWithin text.now result }
    ensures feeds { HasFeeds text.now result }
{
    let rest = &text.as_bytes()[1..];
    let len = iri_len(rest);
    if len < rest.len() && rest[len] == b'>' {
        return Cut::Token(Lexeme {
            kind: Kind::Iri,
            text: &text[1..len + 1],
            len: len + 2,
            line_feeds: 0,
        });
    }
    cut_short(&rest[len..])
}

// How a string goes on after its first quotation mark.
fn string_end(text: &[u8]) -> StringEnd
    ensures end { quoted_of result ≡ quoted false text.now }
    ensures within { ClosesWithin text.now result }
    ensures feeds { ClosesBehind text.now result }
{
    let mut escaped = false;
    let mut line_feeds = 0;
    for (len, byte) in text.iter().enumerate() {
        if escaped {
            if *byte != b'"' && *byte != b'\\' {
                return StringEnd::Breaks;
            }
            escaped = false;
        } else if *byte == b'"' {
            return StringEnd::Closes { len, line_feeds };
        } else {
            escaped = *byte == b'\\';
            line_feeds += feeds_in(*byte);
        }
    }
    StringEnd::RunsOn
}

// The string whose first quotation mark is the first byte.
fn string_at(text: &str) -> Cut<'_>
    requires some { 0 < length text.now }
    requires ascii { slice_index text.now 0 < 128 }
    requires printing { 32 < slice_index text.now 0 }
    ensures cut { cut_of result ≡ string_at (quoted false (drop 1 text.now)) (drop 1 text.now) }
    ensures within { IsCutWithin text.now result }
    ensures feeds { HasFeeds text.now result }
{
    match string_end(&text.as_bytes()[1..]) {
        StringEnd::Closes { len, line_feeds } => Cut::Token(Lexeme {
            kind: Kind::String,
            text: &text[1..len + 1],
            len: len + 2,
            line_feeds,
        }),
        StringEnd::Breaks => Cut::Wrong,
        StringEnd::RunsOn => Cut::Unended,
    }
}

// The tag whose `@` is the first byte.
fn tag_at(text: &str) -> Cut<'_>
    requires some { 0 < length text.now }
    requires printing { 32 < slice_index text.now 0 }
    ensures cut { cut_of result ≡ front_tag text.now }
    ensures within { IsCutWithin text.now result }
    ensures feeds { HasFeeds text.now result }
{
    let rest = &text.as_bytes()[1..];
    let len = tag_len(rest);
    if len == 0 {
        return cut_short(rest);
    }
    Cut::Token(Lexeme {
        kind: Kind::Tag,
        text: &text[..len + 1],
        len: len + 1,
        line_feeds: 0,
    })
}

// The two carets of which the first byte is one.
fn carets_at(text: &str) -> Cut<'_>
    requires some { 0 < length text.now }
    requires printing { 32 < slice_index text.now 0 }
    ensures cut { cut_of result ≡ carets_at (slice_index text.now 0) (drop 1 text.now) }
    ensures within { IsCutWithin text.now result }
    ensures feeds { HasFeeds text.now result }
{
    let rest = &text.as_bytes()[1..];
    if !rest.is_empty() && rest[0] == b'^' {
        return Cut::Token(Lexeme {
            kind: Kind::Carets,
            text: &text[..2],
            len: 2,
            line_feeds: 0,
        });
    }
    cut_short(rest)
}

// The name that begins with the first byte.
fn name_at(text: &str) -> Cut<'_>
    requires some { 0 < length text.now }
    requires printing { 32 < slice_index text.now 0 }
    ensures cut { cut_of result ≡ front_name text.now }
    ensures within { IsCutWithin text.now result }
    ensures feeds { HasFeeds text.now result }
{
    let len = 1 + name_len(&text.as_bytes()[1..]);
    Cut::Token(Lexeme {
        kind: Kind::Name,
        text: &text[..len],
        len,
        line_feeds: 0,
    })
}

// What stands at the front of the text.
pub(crate) fn cut_at(text: &str) -> Cut<'_>
    requires some { 0 < length text.now }
    ensures cut { cut_of result ≡ cut_at (slice_index text.now 0) (drop 1 text.now) }
    ensures within { IsCutWithin text.now result }
    ensures feeds { HasFeeds text.now result }
{
    match text.as_bytes()[0] {
        first if is_whitespace(first) => Cut::Gap {
            len: 1,
            line_feeds: feeds_in(first),
        },
        b'#' => comment_at(text),
        b'(' => sign_at(Kind::OpenBracket, text),
        b')' => sign_at(Kind::CloseBracket, text),
        b'=' => sign_at(Kind::Equals, text),
        b'<' => iri_at(text),
        b'"' => string_at(text),
        b'@' => tag_at(text),
        b'^' => carets_at(text),
        first if is_name_byte(first) => name_at(text),
        _ => Cut::Wrong,
    }
}
