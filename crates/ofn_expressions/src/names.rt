// Names as they stand in a text.
ghost use Rattle.std.specs.Prelude.{◌≡◌, ◌≢◌, IfErr, ◌++◌, IfOk, string_bytes};
ghost use Rattle.ofn_tree.specs.Items.{name_item};
ghost use Rattle.ofn_expressions.specs.Counts.{Counts};
ghost use Rattle.ofn_expressions.specs.Walk.{Judged};
ghost use Rattle.ofn_expressions.specs.Names.{item_line, name_tests, iri_of, has_colon, prefix_part, local_part};
ghost use Rattle.ofn_expressions.specs.Names.{full_iri, prefix_iri};

use crate::{Prefixes, Refusal};
use ofn_tree::{Form, Tree};
use shq_terms::NoMemory;
use std::alloc::Global;

/// The line of an item.
pub fn item_line(tree: &Tree<'_>) -> u32
    ensures { result ≡ item_line tree.now }
{
    match &tree.form {
        Form::Name(_, line)
        | Form::Iri(_, line)
        | Form::Literal(line)
        | Form::Sign(_, line)
        | Form::Group(_, _, line) => *line,
    }
}

/// The IRI that an item stands for where a name must stand.
///
/// # Errors
///
/// `BadShape` where it is no name with a colon and no IRI, `UnknownPrefix`, and `NoMemory`.
pub(crate) fn read_iri(
    alloc: Global,
    tree: &Tree<'_>,
    prefixes: &Prefixes,
) -> Result<String, Refusal>
    ensures tests { (s : Counts) → Judged result s (name_tests prefixes.now tree.now) s }
    ensures value { IfOk result (λ iri. string_bytes iri ≡ iri_of prefixes.now tree.now) }
{
    match &tree.form {
        Form::Iri(iri, _) => Ok(String::from_str(alloc, iri)?),
        Form::Name(name, line) => expanded(alloc, name, *line, prefixes),
        Form::Literal(line) | Form::Sign(_, line) | Form::Group(_, _, line) => {
            Err(Refusal::BadShape(*line))
        }
    }
}

// The IRI of the prefix of a name, and the rest of the name.
fn iri_and_rest<'a>(
    name: &'a str,
    line: u32,
    prefixes: &'a Prefixes,
) -> Result<(&'a str, &'a str), Refusal>
    ensures tests { (s : Counts) → Judged result s (name_tests prefixes.now (name_item name.now line)) s }
    ensures takes_no_memory { IfErr result (λ e. e ≢ Refusal.NoMemory) }
    ensures value { IfOk result (λ r. r.0.now ++ r.1.now ≡ iri_of prefixes.now (name_item name.now line)) }
{
    let Some((prefix, rest)) = name.split_once(':') else {
        return Err(Refusal::BadShape(line));
    };
    match prefixes.iri(prefix) {
        Some(iri) => Ok((iri, rest)),
        None => Err(Refusal::UnknownPrefix(line)),
    }
}

// The IRI of a name with a prefix.
fn expanded(alloc: Global, name: &str, line: u32, prefixes: &Prefixes) -> Result<String, Refusal>
    ensures tests { (s : Counts) → Judged result s (name_tests prefixes.now (name_item name.now line)) s }
    ensures value { IfOk result (λ iri. string_bytes iri ≡ iri_of prefixes.now (name_item name.now line)) }
{
    let (iri, rest) = iri_and_rest(name, line, prefixes)?;
    Ok(joined(alloc, iri, rest)?)
}

fn joined(alloc: Global, front: &str, rest: &str) -> Result<String, NoMemory>
    ensures { IfOk result (λ text. string_bytes text ≡ front.now ++ rest.now) }
{
    let mut text = String::from_str(alloc, front)?;
    text.push_str(rest)?;
    Ok(text)
}
