// Declarations of prefixes.
ghost use Rattle.std.specs.Prelude.{◌≡◌, OnOk, option_map};
ghost use Rattle.ofn_expressions.specs.Counts.{Counts};
ghost use Rattle.ofn_expressions.specs.Walk.{Judged};
ghost use Rattle.ofn_reader.specs.Prefixes.{prefix_in, declared_name, declared_iri, is_equals, is_equals_kind};
ghost use Rattle.ofn_reader.specs.Prefixes.{clash_tests, entry_tests, with_declared, with_entry, prefix_tests};
ghost use Rattle.ofn_reader.specs.Prefixes.{with_prefix, prefixes_tests, prefixes_behind};

use crate::groups::inner_items;
use ofn_expressions::{Prefixes, Refusal, item_line};
use ofn_tree::{Form, Kind, Tree};

// A name before its only colon, if that is its last character.
fn name_before(name: &str) -> Option<&str>
    ensures { option_map (λ prefix. prefix.now) result ≡ prefix_in name.now }
{
    let Some((prefix, behind)) = name.split_once(':') else {
        return None;
    };
    if !behind.is_empty() {
        return None;
    }
    Some(prefix)
}

// The prefix name that an item declares, without its colon.
fn declared_name<'a>(tree: &Tree<'a>) -> Option<&'a str>
    ensures { option_map (λ name. name.now) result ≡ declared_name tree.now }
{
    match &tree.form {
        Form::Name(name, _) => name_before(name),
        Form::Iri(_, _) | Form::Literal(_) | Form::Sign(_, _) | Form::Group(_, _, _) => None,
    }
}

fn is_equals_kind(kind: Kind) -> bool
    ensures { result ≡ is_equals_kind kind }
{
    kind == Kind::Equals
}

fn is_equals(tree: &Tree<'_>) -> bool
    ensures { result ≡ is_equals tree.now }
{
    match &tree.form {
        Form::Sign(kind, _) => is_equals_kind(*kind),
        Form::Name(_, _) | Form::Iri(_, _) | Form::Literal(_) | Form::Group(_, _, _) => false,
    }
}

fn declared_iri<'a>(tree: &Tree<'a>) -> Option<&'a str>
    ensures { option_map (λ iri. iri.now) result ≡ declared_iri tree.now }
{
    match &tree.form {
        Form::Iri(iri, _) => Some(*iri),
        Form::Name(_, _) | Form::Literal(_) | Form::Sign(_, _) | Form::Group(_, _, _) => None,
    }
}

// Declares a prefix, unless it is declared already with this IRI.
fn declare(name: &str, iri: &str, line: u32, prefixes: &mut Prefixes) -> Result<(), Refusal>
    ensures tests { (s : Counts) → Judged result s (clash_tests prefixes.old line name.now iri.now) s }
    ensures declared { OnOk result (prefixes.new ≡ with_declared prefixes.old name.now iri.now) }
{
    match prefixes.iri(name) {
        Some(known) if known == iri => Ok(()),
        Some(_) => Err(Refusal::PrefixClash(line)),
        None => {
            prefixes.declare(name, iri)?;
            Ok(())
        }
    }
}

fn read_entry(
    name: &Tree<'_>,
    sign: &Tree<'_>,
    iri: &Tree<'_>,
    prefixes: &mut Prefixes,
) -> Result<(), Refusal>
    ensures tests { (s : Counts) → Judged result s (entry_tests prefixes.old name.now sign.now iri.now) s }
    ensures declared { OnOk result (prefixes.new ≡ with_entry prefixes.old name.now iri.now) }
{
    let line = item_line(name);
    let Some(prefix) = declared_name(name) else {
        return Err(Refusal::BadShape(line));
    };
    if !is_equals(sign) {
        return Err(Refusal::BadShape(item_line(sign)));
    }
    let Some(text) = declared_iri(iri) else {
        return Err(Refusal::BadShape(item_line(iri)));
    };
    declare(prefix, text, line, prefixes)
}

#[tactic(auto, using(ofn_expressions::proofs::Lists::item_count_is))]
fn read_prefix(tree: &Tree<'_>, prefixes: &mut Prefixes) -> Result<(), Refusal>
    ensures tests { (s : Counts) → Judged result s (prefix_tests prefixes.old tree.now) s }
    ensures declared { OnOk result (prefixes.new ≡ with_prefix prefixes.old tree.now) }
{
    let items = inner_items(tree);
    if items.len() != 3 {
        return Err(Refusal::BadShape(item_line(tree)));
    }
    read_entry(&items[0], &items[1], &items[2], prefixes)
}

/// Reads declarations of prefixes one after another.
///
/// # Errors
///
/// What is wrong first, in the order of the tests, and `NoMemory`.
pub(crate) fn read_prefixes(groups: &[Tree<'_>], prefixes: &mut Prefixes) -> Result<(), Refusal>
    ensures tests { (s : Counts) → Judged result s (prefixes_tests prefixes.old groups.now) s }
    ensures declared { OnOk result (prefixes.new ≡ prefixes_behind prefixes.old groups.now) }
{
    for group in groups {
        read_prefix(group, prefixes)?;
    }
    Ok(())
}
