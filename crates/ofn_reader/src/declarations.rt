// Declarations of entities.
ghost use Rattle.ofn_tree.specs.Items.{items_of};
ghost use Rattle.ofn_expressions.specs.Counts.{Grows};
ghost use Rattle.ofn_expressions.specs.Walk.{Tested};
ghost use Rattle.ofn_reader.specs.Declarations.{declaration_tests, entity_tests, entity_items_tests};

use crate::keywords::{EntityKeyword, entity_keyword};
use ofn_expressions::{Prefixes, Reading, Refusal, declare_class, declare_role, read_individual};
use ofn_tree::{Form, Tree};
use std::alloc::Global;

/// Reads a declaration, whose items these are, and lists its class, role or individual.
///
/// # Errors
///
/// What is wrong first, in the order of the tests, and `NoMemory`.
#[tactic(auto, using(ofn_expressions::proofs::Lists::item_count_is, ofn_expressions::proofs::Growing::grows_same))]
pub(crate) fn read_declaration(
    alloc: Global,
    items: &[Tree<'_>],
    line: u32,
    prefixes: &Prefixes,
    state: &mut Reading,
) -> Result<(), Refusal>
    ensures tests { Tested result state.old (declaration_tests prefixes.now line (items_of items.now)) state.new }
    ensures grown { Grows state.old state.new }
{
    if items.len() != 1 {
        return Err(Refusal::BadShape(line));
    }
    read_entity(alloc, &items[0], prefixes, state)
}

#[tactic(auto, using(ofn_expressions::proofs::Growing::grows_same))]
fn read_entity(
    alloc: Global,
    tree: &Tree<'_>,
    prefixes: &Prefixes,
    state: &mut Reading,
) -> Result<(), Refusal>
    ensures tests { Tested result state.old (entity_tests prefixes.now tree.now) state.new }
    ensures grown { Grows state.old state.new }
{
    match &tree.form {
        Form::Group(Some(text), items, line) => {
            read_entity_group(alloc, entity_keyword(text), items, *line, prefixes, state)
        }
        Form::Group(None, _, line)
        | Form::Name(_, line)
        | Form::Iri(_, line)
        | Form::Literal(line)
        | Form::Sign(_, line) => Err(Refusal::BadShape(*line)),
    }
}

#[tactic(auto, using(ofn_expressions::proofs::Lists::item_count_is, ofn_expressions::proofs::Growing::grows_same))]
fn read_entity_group(
    alloc: Global,
    keyword: EntityKeyword,
    items: &[Tree<'_>],
    line: u32,
    prefixes: &Prefixes,
    state: &mut Reading,
) -> Result<(), Refusal>
    ensures tests { Tested result state.old (entity_items_tests prefixes.now keyword line items.now) state.new }
    ensures grown { Grows state.old state.new }
{
    if items.len() != 1 {
        return Err(Refusal::BadShape(line));
    }
    match keyword {
        EntityKeyword::Class => declare_class(alloc, &items[0], prefixes, state),
        EntityKeyword::Role => declare_role(alloc, &items[0], prefixes, state),
        EntityKeyword::Individual => {
            read_individual(alloc, &items[0], prefixes, state)?;
            Ok(())
        }
        EntityKeyword::Unlisted => Ok(()),
        EntityKeyword::Unknown => Err(Refusal::BadShape(line)),
    }
}
