// What the lines of a script ask for.
ghost use Rattle.std.specs.Prelude.{◌≡◌};
ghost use Rattle.edit_session.specs.ScriptLines.{request, split_request, worded, removal};
ghost use Rattle.edit_session.specs.Requests.{plain_request};

use certificate_lines::number;
use std::str;

/// What a line asks for.
#[derive(Clone, Copy)]
pub(crate) enum Request<'a> {
    /// `add TEXT`: the text is to be added as an axiom.
    Add(&'a str),
    /// `remove K`: the axiom of this number is to be removed.
    Remove(u32),
    /// `ask TEXT`: the text is asked as a query.
    Ask(&'a str),
    /// It is no line of a script.
    Other,
}

/// What a line asks for, of which the first word stands before its first blank.
pub(crate) fn read_request(line: &[u8]) -> Request<'_>
    ensures { plain_request result ≡ request line.now }
{
    match str::from_utf8(line) {
        Ok(text) => split_request(text),
        Err(_) => Request::Other,
    }
}

fn split_request(line: &str) -> Request<'_>
    ensures { plain_request result ≡ split_request line.now }
{
    match line.split_once(' ') {
        Some((word, text)) => worded(word, text),
        None => Request::Other,
    }
}

// What a word asks for, with the text after it.
fn worded<'a>(word: &str, text: &'a str) -> Request<'a>
    ensures { plain_request result ≡ worded word.now text.now }
{
    match word {
        "add" => Request::Add(text),
        "remove" => removal(number(text.as_bytes())),
        "ask" => Request::Ask(text),
        _ => Request::Other,
    }
}

// The removal of an axiom, if its number stands there.
fn removal(number: Option<u32>) -> Request<'static>
    ensures { plain_request result ≡ removal number }
{
    match number {
        Some(number) => Request::Remove(number),
        None => Request::Other,
    }
}
