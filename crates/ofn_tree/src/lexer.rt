// A text cut into tokens.
ghost use Rattle.std.specs.Prelude.{◌≡◌, ℕ, List, ◌<◌, ◌≤◌, ◌+◌, ◌-◌, ◌^◌, true, Some, None, is_some, not, IfOk, IfErr};
ghost use Rattle.std.specs.Prelude.{length};
ghost use Rattle.std.specs.Str.{IsUtf8, IsCharBoundary};
ghost use Rattle.ofn_tree.specs.Token.{plain_token};
ghost use Rattle.ofn_tree.specs.Lexemes.{utf8_front, bad_byte_line, mark_len, unended_fault};
ghost use Rattle.ofn_tree.specs.Document.{DocumentTokens, nothing_met, is_last, met_after, behind_name, behind_carets};
ghost use Rattle.ofn_tree.specs.Document.{is_document_name, latest_after, reading};
ghost use Rattle.ofn_tree.specs.Spans.{AreSlices, HaveLines};
ghost use Rattle.ofn_tree.specs.TokenLaws.{HaveOnlyGaps, AreLongest};
ghost use Rattle.ofn_tree.specs.Group.{EndsDocumentOrInput, EndsAtFirstDocument};
ghost use Rattle.ofn_tree.specs.Faults.{TellsFault, token_fault};
ghost use Rattle.ofn_tree.specs.Lexed.{reading_of};
ghost use Rattle.ofn_tree.specs.Scanned.{met_of};

use crate::bytes::{MAX_BYTES, end_line};
use crate::cut::{Cut, cut_at};
use crate::{Kind, TextFault, Token};
use std::alloc::Global;
use std::str;

// What the last tokens were, as far as it tells what a name after them is.
#[derive(Clone, Copy, PartialEq, Eq)]
enum Latest {
    // The name of the document's group, which is no part of a literal.
    DocumentName,
    // A string.
    QuotedString,
    // A string and carets: a name after them is part of their literal.
    TypedString,
    Other,
}

impl Latest {
    fn is_document_name(self) -> bool
        ensures { result ≡ is_document_name self }
    {
        self == Latest::DocumentName
    }

    fn behind_name(self, text: &str) -> Latest
        ensures { result ≡ behind_name text.now self }
    {
        if self != Latest::TypedString && text == "Ontology" {
            Latest::DocumentName
        } else {
            Latest::Other
        }
    }

    fn behind_carets(self) -> Latest
        ensures { result ≡ behind_carets self }
    {
        if self == Latest::QuotedString {
            Latest::TypedString
        } else {
            Latest::Other
        }
    }

    // What the last tokens are after one more.
    fn behind(self, token: &Token) -> Latest
        ensures { result ≡ latest_after token.now.kind token.now.text.now self }
    {
        match token.kind {
            Kind::Name => self.behind_name(token.text),
            Kind::String => Latest::QuotedString,
            Kind::Carets => self.behind_carets(),
            _ => Latest::Other,
        }
    }
}

// The brackets that are open, whether the outermost of them is that of the document's group, and what the last tokens
// were.
#[derive(Clone, Copy)]
struct Brackets {
    depth: usize,
    document: bool,
    latest: Latest,
}

impl Brackets {
    // No bracket is open, and there was no token.
    fn none() -> Brackets
        ensures none { met_of result ≡ nothing_met }
        ensures depth { result.depth ≡ 0 }
    {
        Brackets {
            depth: 0,
            document: false,
            latest: Latest::Other,
        }
    }

    // The token closes the document's group.
    fn closes_document(self, token: &Token) -> bool
        ensures { result ≡ is_last (met_of self) (plain_token token.now) }
    {
        token.kind == Kind::CloseBracket && self.depth == 1 && self.document
    }

    // What is open after the token.
    fn behind(self, token: &Token) -> Brackets
        requires { self.depth < 2 ^ 64 - 1 }
        ensures value { met_of result ≡ met_after token.now.kind token.now.text.now (met_of self) }
        ensures within { result.depth ≤ self.depth + 1 }
    {
        let latest = self.latest.behind(token);
        match token.kind {
            Kind::OpenBracket => Brackets {
                depth: self.depth + 1,
                document: if self.depth == 0 {
                    self.latest.is_document_name()
                } else {
                    self.document
                },
                latest,
            },
            Kind::CloseBracket => Brackets {
                depth: self.depth.saturating_sub(1),
                document: self.document,
                latest,
            },
            _ => Brackets {
                depth: self.depth,
                document: self.document,
                latest,
            },
        }
    }
}

// The longest front of the text that is UTF-8.
fn utf8_front(text: &[u8]) -> &str
    ensures front { result.now ≡ utf8_front text.now }
    ensures within { length result.now ≤ length text.now }
{
    match str::from_utf8(text) {
        Ok(front) => front,
        Err(error) => utf8_text(&text[..error.valid_up_to()]),
    }
}

fn utf8_text(bytes: &[u8]) -> &str
    requires { IsUtf8 bytes.now }
    ensures { result.now ≡ bytes.now }
{
    match str::from_utf8(bytes) {
        Ok(text) => text,
        Err(_) => unreachable!(),
    }
}

// The line of the byte after the text's front that is UTF-8, if there is one.
fn bad_byte_line(front: &str, text: &[u8]) -> Option<u32>
    requires front { front.now ≡ utf8_front text.now }
    requires short { length text.now ≤ MAX_BYTES }
    ensures { result ≡ bad_byte_line text.now }
{
    if front.len() < text.len() {
        Some(end_line(front.as_bytes()))
    } else {
        None
    }
}

// How long the byte order mark at the start of the text is.
fn mark_len(text: &str) -> usize
    ensures value { result ≡ mark_len text.now }
    ensures within { IsCharBoundary text.now result }
{
    if text.as_bytes().starts_with(b"\xef\xbb\xbf") {
        3
    } else {
        0
    }
}

// The fault of a token on a line that goes on where the text's front that is UTF-8 ends.
fn unended_fault(bad_line: Option<u32>, line: u32) -> TextFault
    ensures { result ≡ unended_fault bad_line line }
{
    match bad_line {
        Some(bad) => TextFault::BadUtf8(bad),
        None => TextFault::BadToken(line),
    }
}

/// The tokens of the document that the text begins with, in order, and the place after the last byte that was read: up
/// to the bracket that closes the document's group, or to the end of the text. What follows is not looked at. The
/// document's group is the first with exactly the name `Ontology` that begins where no bracket is open.
///
/// Tokens are those of the functional-style syntax (OWL 2 Structural Specification, sections 2 and 3.7), with these
/// choices: whitespace is blank, tab, line feed and carriage return; a comment runs from `#` to before the next line
/// feed or carriage return; a name is the longest run of characters other than whitespace, control characters and `( )
/// = < > " # @ ^`; control characters stand in comments and strings alone. A byte order mark at the start of the text
/// is skipped. The line of a token is 1 plus the number of line feeds before it.
///
/// # Errors
///
/// The fault before that place that is met first, from left to right. `BadUtf8` with the line of a byte that is not
/// part of UTF-8, in comments and strings too, also where that byte cuts off a token. `BadToken` with the line of a
/// character that begins no token, or of the first character of a token that another one breaks or the text's end cuts
/// off. And `NoMemory`.
pub fn tokens(alloc: Global, text: &[u8]) -> Result<(Vec<Token<'_>>, usize), TextFault>
    requires { length text.now ≤ MAX_BYTES }
    ensures ok { IfOk result (λ r. reading text.now ≡ Some (reading_of r.0.items r.1)) }
    ensures within { IfOk result (λ r. r.1 ≤ length text.now) }
    ensures fault { IfErr result (TellsFault (token_fault text.now)) }
{
    let front = utf8_front(text);
    let bad_line = bad_byte_line(front, text);
    let mut tokens = Vec::new(alloc);
    let mut brackets = Brackets::none();
    let mut place = mark_len(front);
    let mut line = 1;
    while place < front.len() {
        match cut_at(&front[place..]) {
            Cut::Gap { len, line_feeds } => {
                place += len;
                line += line_feeds as u32;
            }
            Cut::Token(lexeme) => {
                let token = Token {
                    kind: lexeme.kind,
                    text: lexeme.text,
                    start: place,
                    line,
                };
                tokens.push(token)?;
                place += lexeme.len;
                line += lexeme.line_feeds as u32;
                if brackets.closes_document(&token) {
                    return Ok((tokens, place));
                }
                brackets = brackets.behind(&token);
            }
            Cut::Wrong => return Err(TextFault::BadToken(line)),
            Cut::Unended => return Err(unended_fault(bad_line, line)),
        }
    }
    match bad_line {
        Some(bad) => Err(TextFault::BadUtf8(bad)),
        None => Ok((tokens, place)),
    }
}

/// The tokens that are read are slices of the text, in order and apart, up to the place after the last byte that was
/// read.
pub fn tokens_are_slices()
    ensures { (input : List ℕ) (r : DocumentTokens) → reading input ≡ Some r → AreSlices input r }
{}

/// Up to the place after the last byte that was read there are only whitespace and comments before the tokens, between
/// them and after them, but for a byte order mark at the start of the text.
pub fn only_gaps_stand_between_tokens()
    ensures { (input : List ℕ) (r : DocumentTokens) → reading input ≡ Some r → HaveOnlyGaps input r }
{}

/// Each token that is read has the form of its kind and stands at its place in the text, and no longer token of its
/// kind stands there.
pub fn tokens_are_longest()
    ensures { (input : List ℕ) (r : DocumentTokens) → reading input ≡ Some r → AreLongest (utf8_front input) r.tokens }
{}

/// The line of each token that is read is that on which the text before it ends.
pub fn tokens_have_lines()
    ensures { (input : List ℕ) (r : DocumentTokens) → reading input ≡ Some r → HaveLines input r.tokens }
{}

/// The tokens that are read end with the first bracket that closes a group whose name is `Ontology` and which begins
/// where no bracket is open; without such a bracket the whole text is read.
pub fn tokens_end_with_the_document()
    ensures ends { (input : List ℕ) (r : DocumentTokens) → reading input ≡ Some r → EndsDocumentOrInput input r }
    ensures first { (input : List ℕ) (r : DocumentTokens) → reading input ≡ Some r → EndsAtFirstDocument r.tokens }
{}

/// A text either has tokens, or a first fault.
pub fn texts_are_read_or_faulty()
    ensures { (input : List ℕ) → is_some (token_fault input) ≡ not (is_some (reading input)) }
{}
