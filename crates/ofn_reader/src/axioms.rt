// The axioms of an ontology.
ghost use Rattle.std.specs.Prelude.{◌≡◌, ◌<◌, ◌+◌, IfOk, OnOk, length};
ghost use Rattle.ofn_tree.specs.Items.{items_of};
ghost use Rattle.ofn_expressions.specs.Walk.{Tested};
ghost use Rattle.ofn_reader.specs.Axioms.{numbered_tests, axiom_items_tests, axiom_tests, axioms_tests, axiom_in};
ghost use Rattle.ofn_reader.specs.Axioms.{axioms_in, AddsAxioms, AddsAxiomsLater, AddsGroup, ItemsSay};
ghost use Rattle.ofn_reader.specs.Additions.{ListsMore};
ghost use Rattle.ofn_reader.specs.declared.keywords.AxiomKeyword.TheVariants as W;

use crate::declarations::read_declaration;
use crate::groups::without_annotations;
use crate::keywords::{AxiomKeyword, AxiomKind, axiom_keyword};
use crate::operands::read_operands;
use crate::parts::begin_axiom;
use ofn_expressions::{Prefixes, Reading, Refusal};
use ofn_tree::{Form, Tree};
use shq_terms::{Axiom, MAX_AXIOMS};
use std::alloc::Global;

/// Counts a numbered axiom and reads it.
///
/// # Errors
///
/// What is wrong first, in the order of the tests, and `NoMemory`.
pub(crate) fn read_operands_of(
    alloc: Global,
    kind: AxiomKind,
    items: &[Tree<'_>],
    line: u32,
    prefixes: &Prefixes,
    state: &mut Reading,
) -> Result<Axiom, Refusal>
    ensures tests { Tested result state.old (numbered_tests prefixes.now kind line (items_of items.now)) state.new }
    ensures counted { OnOk result (state.new.counts.axioms ≡ state.old.counts.axioms + 1) }
    ensures within { OnOk result (state.old.counts.axioms < MAX_AXIOMS) }
    ensures more { ListsMore state.old state.new }
    ensures value { IfOk result (ItemsSay prefixes.now state.new.counts kind items.now) }
{
    begin_axiom(kind, items.len(), line, state)?;
    read_operands(alloc, kind, items, prefixes, state)
}

// Reads a numbered axiom and puts it last.
fn read_numbered(
    alloc: Global,
    kind: AxiomKind,
    items: &[Tree<'_>],
    line: u32,
    prefixes: &Prefixes,
    state: &mut Reading,
) -> Result<(), Refusal>
    requires { length state.old.read ≡ state.old.counts.axioms }
    ensures tests { Tested result state.old (numbered_tests prefixes.now kind line (items_of items.now)) state.new }
    ensures whole { OnOk result (length state.new.read ≡ state.new.counts.axioms) }
    ensures value { OnOk result (AddsGroup prefixes.now state.old state.new (W.Numbered kind) line items.now) }
{
    let axiom = read_operands_of(alloc, kind, items, line, prefixes, state)?;
    state.add_axiom(axiom, line)
}

fn read_axiom_group(
    alloc: Global,
    keyword: AxiomKeyword,
    items: &[Tree<'_>],
    line: u32,
    prefixes: &Prefixes,
    state: &mut Reading,
) -> Result<(), Refusal>
    requires { length state.old.read ≡ state.old.counts.axioms }
    ensures tests { Tested result state.old (axiom_items_tests prefixes.now keyword line items.now) state.new }
    ensures whole { OnOk result (length state.new.read ≡ state.new.counts.axioms) }
    ensures value { OnOk result (AddsGroup prefixes.now state.old state.new keyword line items.now) }
{
    match keyword {
        AxiomKeyword::Numbered(kind) => read_numbered(alloc, kind, items, line, prefixes, state),
        AxiomKeyword::Declaration => read_declaration(alloc, items, line, prefixes, state),
        AxiomKeyword::Annotation => Ok(()),
        AxiomKeyword::Excluded(construct) => Err(Refusal::Outside(line, construct)),
        AxiomKeyword::Unknown => Err(Refusal::BadShape(line)),
    }
}

fn read_axiom(
    alloc: Global,
    tree: &Tree<'_>,
    prefixes: &Prefixes,
    state: &mut Reading,
) -> Result<(), Refusal>
    requires { length state.old.read ≡ state.old.counts.axioms }
    ensures tests { Tested result state.old (axiom_tests prefixes.now tree.now) state.new }
    ensures whole { OnOk result (length state.new.read ≡ state.new.counts.axioms) }
    ensures value { OnOk result (AddsAxiomsLater state.old state.new (λ later. axiom_in prefixes.now later tree.now)) }
{
    match &tree.form {
        Form::Group(Some(text), items, line) => {
            let items = without_annotations(items);
            read_axiom_group(alloc, axiom_keyword(text), items, *line, prefixes, state)
        }
        Form::Group(None, _, line)
        | Form::Name(_, line)
        | Form::Iri(_, line)
        | Form::Literal(line)
        | Form::Sign(_, line) => Err(Refusal::BadShape(*line)),
    }
}

/// Reads the axioms that the items are, puts the numbered ones last, and lists the names that are declared.
///
/// # Errors
///
/// What is wrong first, in the order of the tests, and `NoMemory`.
pub(crate) fn read_axioms(
    alloc: Global,
    items: &[Tree<'_>],
    prefixes: &Prefixes,
    state: &mut Reading,
) -> Result<(), Refusal>
    requires { length state.old.read ≡ state.old.counts.axioms }
    ensures tests { Tested result state.old (axioms_tests prefixes.now (items_of items.now)) state.new }
    ensures value { OnOk result (AddsAxioms state.old state.new (λ s. axioms_in prefixes.now s (items_of items.now))) }
{
    for item in items {
        read_axiom(alloc, item, prefixes, state)?;
    }
    Ok(())
}
