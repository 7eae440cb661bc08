// An axiom that is put into an ontology.
ghost use Rattle.std.specs.Prelude.{◌≡◌, ◌≢◌, ◌<◌, ◌≤◌, ◌∷◌, [], Ok, Err, IfOk, IfErr, OnOk, OnErr, length};
ghost use Rattle.shq_terms.specs.Listed.{with_names_cut};
ghost use Rattle.ofn_expressions.specs.Walk.{Tested, RefusalAgrees};
ghost use Rattle.ofn_expressions.specs.Classes.{IsListedAxiom};
ghost use Rattle.ofn_expressions.specs.declared.refusal.Refusal.TheVariants.{NoMemory};
ghost use Rattle.ofn_reader.specs.Additions.{added_items_tests, added_tests, added_form_tests, first_axiom};
ghost use Rattle.ofn_reader.specs.Additions.{addition_walk, AdditionIsRead, IsAdditionTo, IsNoAdditionTo, ListsMore};
ghost use Rattle.ofn_reader.specs.Additions.{GroupSays, ItemSays, TestsAllRoles, IsListedIn, PutsAxiom, MayCut};

use crate::axioms::read_operands_of;
use crate::groups::without_annotations;
use crate::held::reading_of;
use crate::keywords::{AxiomKeyword, axiom_keyword};
use crate::queries::{alone, first_line, if_simple, read_query_text};
use crate::simple_roles::all_count_simple_with;
use crate::{Context, Prefixes, Refusal};
use ofn_expressions::{MAX_NODES, Reading};
use ofn_tree::{Form, Tree, end_line};
use shq_terms::{AddFault, Axiom, MAX_AXIOMS, Ontology};
use std::alloc::Global;
use std::mem;

// An axiom that is put in stands on the first line of its own text.
const LINE: u32 = 1;

fn read_added_group(
    alloc: Global,
    keyword: AxiomKeyword,
    items: &[Tree<'_>],
    line: u32,
    prefixes: &Prefixes,
    state: &mut Reading,
) -> Result<Axiom, Refusal>
    ensures tests { Tested result state.old (added_items_tests prefixes.now keyword line items.now) state.new }
    ensures within { OnOk result (state.old.counts.axioms < MAX_AXIOMS) }
    ensures more { ListsMore state.old state.new }
    ensures value { IfOk result (GroupSays prefixes.now state.new.counts keyword items.now) }
{
    match keyword {
        AxiomKeyword::Numbered(kind) => read_operands_of(alloc, kind, items, line, prefixes, state),
        AxiomKeyword::Excluded(construct) => Err(Refusal::Outside(line, construct)),
        AxiomKeyword::Declaration | AxiomKeyword::Annotation | AxiomKeyword::Unknown => {
            Err(Refusal::BadShape(line))
        }
    }
}

fn read_added(
    alloc: Global,
    tree: &Tree<'_>,
    prefixes: &Prefixes,
    state: &mut Reading,
) -> Result<Axiom, Refusal>
    ensures tests { Tested result state.old (added_tests prefixes.now tree.now) state.new }
    ensures within { OnOk result (state.old.counts.axioms < MAX_AXIOMS) }
    ensures more { ListsMore state.old state.new }
    ensures value { IfOk result (ItemSays prefixes.now state.new.counts tree.now) }
{
    match &tree.form {
        Form::Group(Some(text), items, line) => {
            let items = without_annotations(items);
            read_added_group(alloc, axiom_keyword(text), items, *line, prefixes, state)
        }
        Form::Group(None, _, line)
        | Form::Name(_, line)
        | Form::Iri(_, line)
        | Form::Literal(line)
        | Form::Sign(_, line) => Err(Refusal::BadShape(*line)),
    }
}

fn read_added_items(
    alloc: Global,
    items: &[Tree<'_>],
    end_line: u32,
    prefixes: &Prefixes,
    state: &mut Reading,
) -> Result<Axiom, Refusal>
    ensures tests { Tested result state.old (added_form_tests prefixes.now end_line items.now) state.new }
    ensures within { OnOk result (state.old.counts.axioms < MAX_AXIOMS) }
    ensures more { ListsMore state.old state.new }
    ensures says { IfOk result (λ a. first_axiom prefixes.now state.new.counts items.now ≡ a ∷ []) }
    ensures listed { IfOk result (IsListedAxiom state.new.counts) }
{
    if items.is_empty() {
        return Err(Refusal::BadShape(end_line));
    }
    let axiom = read_added(alloc, &items[0], prefixes, state);
    alone(axiom, items.split_at(1).1)
}

// The axiom that was read, if with it all axioms count simple roles alone.
fn if_all_simple(
    alloc: Global,
    ontology: &Ontology,
    read: Result<Axiom, Refusal>,
    line: u32,
) -> Result<Axiom, Refusal>
    ensures same { IfOk result (λ a. read ≡ Ok a) }
    ensures tests { TestsAllRoles ontology.now.axioms line read result }
{
    match read {
        Ok(axiom) => {
            let simple = all_count_simple_with(alloc, ontology, &axiom);
            if_simple(axiom, simple, line)
        }
        Err(refusal) => Err(refusal),
    }
}

// Puts the axiom that was read last, and answers its number.
fn put_axiom(ontology: &mut Ontology, read: Result<Axiom, Refusal>) -> Result<u32, Refusal>
    requires room { OnOk read (length ontology.old.axioms < MAX_AXIOMS) }
    requires listed { IfOk read (IsListedIn ontology.old) }
    ensures put { PutsAxiom ontology.old read ontology.new result }
    ensures unchanged { OnErr result (ontology.new ≡ ontology.old) }
{
    match read {
        Ok(axiom) => put_last(ontology, axiom),
        Err(refusal) => Err(refusal),
    }
}

fn put_last(ontology: &mut Ontology, axiom: Axiom) -> Result<u32, Refusal>
    requires room { length ontology.old.axioms < MAX_AXIOMS }
    requires listed { IsListedIn ontology.old «axiom» }
    ensures put { PutsAxiom ontology.old (Ok «axiom») ontology.new result }
    ensures unchanged { OnErr result (ontology.new ≡ ontology.old) }
{
    match ontology.add_axiom(axiom, LINE) {
        Ok(number) => Ok(number),
        Err(AddFault::Full) => unreachable!(),
        Err(AddFault::NoMemory) => Err(Refusal::NoMemory),
    }
}

// Keeps so many names alone.
fn cut_again(ontology: &mut Ontology, classes: u32, roles: u32, individuals: u32)
    requires { MayCut ontology.old classes roles individuals }
    ensures { ontology.new ≡ with_names_cut ontology.old classes roles individuals }
{
    ontology.cut_names(classes, roles, individuals);
}

// The number of an axiom that was put, and the count of nodes with it.
fn with_nodes(put: Result<u32, Refusal>, nodes: u32) -> Result<(u32, u32), Refusal>
    ensures put { IfOk result (λ r. (put ≡ Ok r.0) × (r.1 ≡ nodes)) }
    ensures refused { IfErr result (λ e. put ≡ Err e) }
{
    match put {
        Ok(number) => Ok((number, nodes)),
        Err(refusal) => Err(refusal),
    }
}

// Reads the axiom, lists its names and puts it last. Answers its number and the count of nodes. After a refusal the
// names are cut again.
fn read_axiom_on(
    alloc: Global,
    items: &[Tree<'_>],
    end_line: u32,
    prefixes: &Prefixes,
    ontology: &mut Ontology,
) -> Result<(u32, u32), Refusal>
    ensures axiom { IfOk result
        (λ r. AdditionIsRead prefixes.now ontology.old end_line items.now ontology.new r.0 r.1) }
    ensures within { IfOk result (λ r. r.1 ≤ MAX_NODES) }
    ensures refused { IfErr result (RefusalAgrees (addition_walk prefixes.now ontology.old end_line items.now)) }
    ensures unchanged { OnErr result (ontology.new ≡ ontology.old) }
{
    let classes = ontology.class_count();
    let roles = ontology.role_count();
    let individuals = ontology.individual_count();
    let own = mem::replace(ontology, Ontology::new(alloc));
    let mut state = reading_of(own);
    let read = read_added_items(alloc, items, end_line, prefixes, &mut state);
    let (mut own, nodes) = state.into_parts();
    let read = if_all_simple(alloc, &own, read, first_line(items, end_line));
    let put = put_axiom(&mut own, read);
    if put.is_err() {
        cut_again(&mut own, classes, roles, individuals);
    }
    *ontology = own;
    with_nodes(put, nodes)
}

/// Reads one numbered axiom, which may begin with annotations and uses the document's prefixes, puts it last into the
/// ontology with the line 1, and answers its number. New names are listed last, and all counts go on from what the
/// axioms of the ontology hold. Queries that are read later go on from the count of nodes with it.
///
/// # Errors
///
/// `Limit` of the text where it has more than 16,777,216 bytes; the first fault of the text, else what is wrong first
/// in the order of the text, where `BadShape` is given for what is no numbered axiom; `NotSimple` where with the axiom
/// some axiom of the ontology, or this one, has a number restriction over a role that is not simple, or such a
/// functional role; and `NoMemory`. Both the ontology and what queries take over are then as before.
pub fn read_axiom(
    alloc: Global,
    text: &str,
    ontology: &mut Ontology,
    context: &mut Context,
) -> Result<u32, Refusal>
    ensures added { IfOk result (IsAdditionTo context.old ontology.old text.now ontology.new context.new) }
    ensures refused { IfErr result (λ e. e ≢ NoMemory → IsNoAdditionTo context.old ontology.old text.now e) }
    ensures unchanged { OnErr result (ontology.new ≡ ontology.old) }
    ensures same_context { OnErr result (context.new ≡ context.old) }
{
    let bytes = text.as_bytes();
    let items = read_query_text(alloc, bytes)?;
    let (number, nodes) = read_axiom_on(
        alloc,
        &items,
        end_line(bytes),
        context.prefixes(),
        ontology,
    )?;
    context.set_nodes(nodes);
    Ok(number)
}
