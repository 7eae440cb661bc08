// The tree of a text's brackets.
ghost use Rattle.std.specs.Prelude.{◌≡◌, ◌<◌, ◌≤◌, ◌++◌, ◌+◌, ◌∷◌, [], true, false, List, IfOk, IfErr, OnOk, None};
ghost use Rattle.std.specs.Prelude.{Some, length, map};
ghost use Rattle.ofn_tree.specs.Token.{plain_token, tokens_from, PlainToken, is_open, is_close, is_name, is_string};
ghost use Rattle.ofn_tree.specs.Token.{is_tag, is_carets, is_datatype};
ghost use Rattle.ofn_tree.specs.Items.{Item, IsTree, written, nesting, mark_of, begins_with_open, begins_with_datatype};
ghost use Rattle.ofn_tree.specs.Items.{begins_with_type, literal_rest, rest_behind};
ghost use Rattle.ofn_tree.specs.Form.{head_text};
ghost use Rattle.ofn_tree.specs.Parsed.{begins_with_close, begins_with_head, ReadsItems, ReadsGroup};
ghost use Rattle.ofn_tree.specs.Faults.{TellsFault, bracket_fault};

use crate::{Form, Kind, TextFault, Token, Tree};
use std::alloc::Global;

// How many brackets may be open at once.
const MAX_OPEN: u32 = 64;

/// The items of the tokens, bracketed. A name directly followed by an opening bracket begins a group with that name. A
/// string is one literal with a tag that follows it, or with carets and a name or IRI that follow it, also where a
/// bracket opens after that name: the group has no name then. Equals signs, and tags and carets elsewhere, are signs.
/// `end_line` is the line of the text's end.
///
/// # Errors
///
/// `Unbalanced` at a closing bracket where none is open, or at the end of the text where a bracket is still open;
/// `TooDeep` at the bracket that makes 65 open brackets; of these the one that is met first. And `NoMemory`.
pub fn tree<'a>(
    alloc: Global,
    tokens: &[Token<'a>],
    end_line: u32,
) -> Result<Vec<Tree<'a>>, TextFault>
    ensures ok { IfOk result (λ trees. IsTree (map plain_token tokens.now) trees.items) }
    ensures no_fault { OnOk result (bracket_fault end_line 0 (map plain_token tokens.now) ≡ None) }
    ensures fault { IfErr result (TellsFault (bracket_fault end_line 0 (map plain_token tokens.now))) }
{
    let (trees, place) = items(alloc, tokens, 0, 0, end_line)?;
    if place < tokens.len() {
        return Err(TextFault::Unbalanced(tokens[place].line));
    }
    Ok(trees)
}

// The items from a place on, up to a bracket that closes none of theirs, or to the end, and the place after them.
#[cycle(trees)]
fn items<'a>(
    alloc: Global,
    tokens: &[Token<'a>],
    start: usize,
    depth: u32,
    end_line: u32,
) -> Result<(Vec<Tree<'a>>, usize), TextFault>
    requires start { start ≤ length tokens.now }
    requires depth { depth ≤ 64 }
    ensures within { IfOk result (λ r. (start ≤ r.1) × (r.1 ≤ length tokens.now)) }
    ensures read { IfOk result (λ r. ReadsItems end_line depth tokens.now start r.1 r.0.items) }
    ensures ended { IfOk result (λ r. r.1 < length tokens.now → begins_with_close (tokens_from tokens.now r.1) ≡ true) }
    ensures fault { IfErr result (TellsFault (bracket_fault end_line depth (tokens_from tokens.now start))) }
{
    let mut trees = Vec::new(alloc);
    let mut place = start;
    while place < tokens.len() {
        if closes_at(tokens, place) {
            return Ok((trees, place));
        }
        let (tree, behind) = one(alloc, tokens, place, depth, end_line)?;
        push_tree(&mut trees, tree)?;
        place = behind;
    }
    Ok((trees, place))
}

fn push_tree<'a>(trees: &mut Vec<Tree<'a>>, tree: Tree<'a>) -> Result<(), TextFault>
    ensures pushed { OnOk result (trees.new.items ≡ trees.old.items ++ tree.entry ∷ []) }
    ensures refused { IfErr result (TellsFault None) }
{
    trees.push(tree)?;
    Ok(())
}

// The item at a place, where no bracket closes, and the place after it.
#[cycle(trees)]
fn one<'a>(
    alloc: Global,
    tokens: &[Token<'a>],
    start: usize,
    depth: u32,
    end_line: u32,
) -> Result<(Tree<'a>, usize), TextFault>
    requires start { start < length tokens.now }
    requires depth { depth ≤ 64 }
    requires begins { begins_with_close (tokens_from tokens.now start) ≡ false }
    ensures within { IfOk result (λ r. (start < r.1) × (r.1 ≤ length tokens.now)) }
    ensures read { IfOk result (λ r. ReadsItems end_line depth tokens.now start r.1 (r.0 ∷ [])) }
    ensures fault { IfErr result (TellsFault (bracket_fault end_line depth (tokens_from tokens.now start))) }
{
    let token = tokens[start];
    if opens_at(tokens, start) {
        return group(alloc, tokens, None, token.line, start, depth, end_line);
    }
    if heads_group_at(tokens, start) {
        return group(
            alloc,
            tokens,
            Some(token.text),
            token.line,
            start + 1,
            depth,
            end_line,
        );
    }
    let rest = rest_behind(tokens, start);
    Ok((single(&token), start + 1 + rest))
}

fn is_open(kind: Kind) -> bool
    ensures { result ≡ is_open kind }
{
    kind == Kind::OpenBracket
}

fn is_close(kind: Kind) -> bool
    ensures { result ≡ is_close kind }
{
    kind == Kind::CloseBracket
}

fn is_name(kind: Kind) -> bool
    ensures { result ≡ is_name kind }
{
    kind == Kind::Name
}

fn is_string(kind: Kind) -> bool
    ensures { result ≡ is_string kind }
{
    kind == Kind::String
}

fn is_tag(kind: Kind) -> bool
    ensures { result ≡ is_tag kind }
{
    kind == Kind::Tag
}

fn is_carets(kind: Kind) -> bool
    ensures { result ≡ is_carets kind }
{
    kind == Kind::Carets
}

// The kind may name the type of a literal.
fn is_datatype(kind: Kind) -> bool
    ensures { result ≡ is_datatype kind }
{
    kind == Kind::Name || kind == Kind::Iri
}

// A bracket opens at a place.
fn opens_at(tokens: &[Token], place: usize) -> bool
    ensures { result ≡ begins_with_open (tokens_from tokens.now place) }
{
    place < tokens.len() && is_open(tokens[place].kind)
}

// A bracket closes at a place.
fn closes_at(tokens: &[Token], place: usize) -> bool
    ensures { result ≡ begins_with_close (tokens_from tokens.now place) }
{
    place < tokens.len() && is_close(tokens[place].kind)
}

// The name of a group stands at a place.
fn heads_group_at(tokens: &[Token], place: usize) -> bool
    requires { place < length tokens.now }
    ensures { result ≡ begins_with_head (tokens_from tokens.now place) }
{
    is_name(tokens[place].kind) && opens_at(tokens, place + 1)
}

// A name or an IRI stands at a place.
fn datatype_at(tokens: &[Token], place: usize) -> bool
    ensures datatype { result ≡ begins_with_datatype (tokens_from tokens.now place) }
    ensures within { result ≡ true → place < length tokens.now }
{
    place < tokens.len() && is_datatype(tokens[place].kind)
}

// Carets and a name or an IRI stand at a place.
fn type_at(tokens: &[Token], place: usize) -> bool
    requires { place < length tokens.now }
    ensures typed { result ≡ begins_with_type (tokens_from tokens.now place) }
    ensures within { result ≡ true → place + 2 ≤ length tokens.now }
{
    is_carets(tokens[place].kind) && datatype_at(tokens, place + 1)
}

// How many of the tokens at a place are part of the literal whose string stands before them.
fn literal_rest(tokens: &[Token], place: usize) -> usize
    requires { place ≤ length tokens.now }
    ensures rest { result ≡ literal_rest (tokens_from tokens.now place) }
    ensures within { place + result ≤ length tokens.now }
{
    if place == tokens.len() {
        return 0;
    }
    if is_tag(tokens[place].kind) {
        return 1;
    }
    if type_at(tokens, place) {
        return 2;
    }
    0
}

// How many of the tokens after the one at a place are part of its literal, where it is a string.
fn rest_behind(tokens: &[Token], place: usize) -> usize
    requires { place < length tokens.now }
    ensures rest { result ≡ rest_behind (tokens_from tokens.now place) }
    ensures within { place + 1 + result ≤ length tokens.now }
{
    if is_string(tokens[place].kind) {
        literal_rest(tokens, place + 1)
    } else {
        0
    }
}

// The item that begins with a token and is no group.
fn single<'a>(token: &Token<'a>) -> Tree<'a>
    requires open { is_open token.now.kind ≡ false }
    requires close { is_close token.now.kind ≡ false }
    ensures made { written result ≡ mark_of token.now.kind token.now.text.now token.now.line ∷ [] }
    ensures nested { nesting result ≡ 0 }
{
    let form = match token.kind {
        Kind::Name => Form::Name(token.text, token.line),
        Kind::Iri => Form::Iri(token.text, token.line),
        Kind::String => Form::Literal(token.line),
        kind => Form::Sign(kind, token.line),
    };
    Tree { form }
}

// The group with a name and a line whose opening bracket stands at a place, and the place after its closing bracket.
#[cycle(trees)]
fn group<'a>(
    alloc: Global,
    tokens: &[Token<'a>],
    head: Option<&'a str>,
    line: u32,
    place: usize,
    depth: u32,
    end_line: u32,
) -> Result<(Tree<'a>, usize), TextFault>
    requires place { place < length tokens.now }
    requires depth { depth ≤ 64 }
    requires begins { begins_with_open (tokens_from tokens.now place) ≡ true }
    ensures within { IfOk result (λ r. (place < r.1) × (r.1 ≤ length tokens.now)) }
    ensures read { IfOk result (λ r. ReadsGroup end_line depth (head_text head.entry) line tokens.now place r.1 r.0) }
    ensures fault { IfErr result (TellsFault (bracket_fault end_line depth (tokens_from tokens.now place))) }
{
    if depth == MAX_OPEN {
        return Err(TextFault::TooDeep(tokens[place].line));
    }
    let (inner, end) = items(alloc, tokens, place + 1, depth + 1, end_line)?;
    if end == tokens.len() {
        return Err(TextFault::Unbalanced(end_line));
    }
    let form = Form::Group(head, inner, line);
    Ok((Tree { form }, end + 1))
}

/// Tokens make one list of items at most.
pub fn trees_are_unique()
    ensures { (ts : List PlainToken) (is js : List Item) → IsTree ts is → IsTree ts js → is ≡ js }
{}
