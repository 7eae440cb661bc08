// Cardinalities.
ghost use Rattle.std.specs.Prelude.{◌≡◌, ◌≢◌, IfErr, ◌≤◌, ◌+◌, ◌*◌, ◌-◌, true, IfOk, option_map, min};
ghost use Rattle.std.specs.List.{list_all};
ghost use Rattle.std.specs.Char.{digit_value};
ghost use Rattle.std.specs.Str.Parse.{digits_value};
ghost use Rattle.ofn_expressions.specs.Counts.{Counts};
ghost use Rattle.ofn_expressions.specs.Walk.{Judged};
ghost use Rattle.ofn_expressions.specs.Classes.{is_digit, cardinality_in, number_tests, number_tests_of};
ghost use Rattle.ofn_expressions.specs.Classes.{cardinality_of, or_zero};

use crate::{Refusal, Which};
use ofn_tree::{Form, Tree};

// The greatest cardinality.
const MAX_NUMBER: u32 = 100;

/// The number that an item is.
///
/// # Errors
///
/// `BadShape` where it is no name of ASCII digits, and the limit `Number` where it is above 100.
pub(crate) fn read_number(tree: &Tree<'_>) -> Result<u32, Refusal>
    ensures tests { (s : Counts) → Judged result s (number_tests tree.now) s }
    ensures takes_no_memory { IfErr result (λ e. e ≢ Refusal.NoMemory) }
    ensures value { IfOk result (λ n. cardinality_of tree.now ≡ n) }
{
    match &tree.form {
        Form::Name(text, line) => read_digits(text.as_bytes(), *line),
        Form::Iri(_, line) | Form::Literal(line) | Form::Sign(_, line) | Form::Group(_, _, line) =>
            { Err(Refusal::BadShape(*line)) }
    }
}

fn read_digits(text: &[u8], line: u32) -> Result<u32, Refusal>
    ensures tests { (s : Counts) → Judged result s (number_tests_of line (cardinality_in text.now)) s }
    ensures takes_no_memory { IfErr result (λ e. e ≢ Refusal.NoMemory) }
    ensures value { IfOk result (λ n. or_zero (cardinality_in text.now) ≡ n) }
{
    let Some(number) = capped_number(text) else {
        return Err(Refusal::BadShape(line));
    };
    if number > MAX_NUMBER {
        return Err(Refusal::Limit(Which::Number, line));
    }
    Ok(number)
}

// The number of some digits, or 101 where it is above 100.
fn capped_number(text: &[u8]) -> Option<u32>
    ensures { result ≡ option_map (λ n. min n 101) (cardinality_in text.now) }
{
    if text.is_empty() || !are_digits(text) {
        return None;
    }
    Some(capped_value(text))
}

fn are_digits(text: &[u8]) -> bool
    ensures { result ≡ list_all is_digit text.now }
{
    text.iter().all(|byte| is_digit(*byte))
}

fn is_digit(byte: u8) -> bool
    ensures { result ≡ is_digit byte }
{
    byte.is_ascii_digit()
}

fn capped_value(text: &[u8]) -> u32
    requires { list_all is_digit text.now ≡ true }
    ensures { result ≡ min (digits_value 10 text.now) 101 }
{
    let mut number = 0;
    for byte in text {
        number = next_number(number, *byte);
    }
    number
}

// One digit more after a number.
fn next_number(number: u32, digit: u8) -> u32
    requires within { number ≤ 101 }
    requires digit { is_digit digit ≡ true }
    ensures value { result ≡ min (number * 10 + digit_value digit) 101 }
    ensures within { result ≤ 101 }
{
    (number * 10 + u32::from(digit - b'0')).min(101)
}
