// Documents.
ghost use Rattle.std.specs.Prelude.{◌≡◌, ◌≢◌, ◌≤◌, IfOk, IfErr, OnOk, length, Some, None, option_map};
ghost use Rattle.std.specs.List.{prefix_len};
ghost use Rattle.ofn_expressions.specs.Counts.{Counts};
ghost use Rattle.ofn_expressions.specs.Walk.{Judged, Tested, RefusalAgrees, walked};
ghost use Rattle.ofn_expressions.specs.Names.{predeclared};
ghost use Rattle.ofn_reader.specs.Axioms.{AddsAxioms};
ghost use Rattle.ofn_reader.specs.Documents.{start, is_prefix_group, ontology_tests, ontology_axioms, form_tests};
ghost use Rattle.ofn_reader.specs.Documents.{all_simple_tests, document_tests, document_axioms, document_prefixes};
ghost use Rattle.ofn_reader.specs.Documents.{DocumentIsRead, IsDocument, IsNoDocument};
ghost use Rattle.ofn_expressions.specs.declared.refusal.Refusal.TheVariants.{NoMemory};

use crate::axioms::read_axioms;
use crate::groups::{axiom_items, inner_items, is_group};
use crate::prefix_groups::read_prefixes;
use crate::texts::read_items;
use ofn_expressions::{MAX_NODES, Prefixes, Reading, Refusal, item_line};
use ofn_tree::{MAX_BYTES, Tree, end_line};
use role_box::first_not_simple;
use shq_terms::Ontology;
use std::alloc::Global;
use std::marker::Model;

/// What a query takes over from its document besides the names: the prefixes, and the count of the nodes of its class
/// expressions.
#[derive(Drop)]
pub struct Context {
    prefixes: Prefixes,
    nodes: u32,
}

impl Model for Context {
    ghost use Rattle.std.specs.Prelude.{◌≤◌};
    ghost use Rattle.ofn_reader.specs.DocumentContext.{DocumentContext};

    ghost Value = { DocumentContext };

    ghost view = { λ c. record { prefixes = c.prefixes; nodes = c.nodes } };

    ghost invariant = { λ c. c.nodes ≤ 262144 };
}

impl Context {
    /// The prefixes of the document, with those that every document begins with.
    pub fn prefixes(&self) -> &Prefixes
        ensures { result.now ≡ self.now.prefixes }
    {
        &self.prefixes
    }

    pub(crate) fn nodes(&self) -> u32
        ensures nodes { result ≡ self.now.nodes }
        ensures within { result ≤ MAX_NODES }
    {
        self.nodes
    }

    /// Goes on from another count of nodes.
    pub(crate) fn set_nodes(&mut self, nodes: u32)
        requires { nodes ≤ MAX_NODES }
        ensures { self.new ≡ record self.old { nodes = nodes } }
    {
        self.nodes = nodes;
    }
}

fn is_prefix_group(tree: &Tree<'_>) -> bool
    ensures { result ≡ is_prefix_group tree.now }
{
    is_group(tree, "Prefix")
}

fn prefix_group_count(items: &[Tree<'_>]) -> usize
    ensures value { result ≡ prefix_len is_prefix_group items.now }
    ensures within { result ≤ length items.now }
{
    items
        .iter()
        .take_while(|item| is_prefix_group(item))
        .count()
}

// Reads the group `Ontology` that stands first.
fn read_ontology_group(
    alloc: Global,
    items: &[Tree<'_>],
    end_line: u32,
    prefixes: &Prefixes,
    state: &mut Reading,
) -> Result<(), Refusal>
    requires { length state.old.read ≡ state.old.counts.axioms }
    ensures tests { Tested result state.old (ontology_tests prefixes.now end_line items.now) state.new }
    ensures value { OnOk result (AddsAxioms state.old state.new (λ s. ontology_axioms prefixes.now s items.now)) }
{
    if items.is_empty() {
        return Err(Refusal::BadShape(end_line));
    }
    let group = &items[0];
    if !is_group(group, "Ontology") {
        return Err(Refusal::BadShape(item_line(group)));
    }
    read_axioms(alloc, axiom_items(inner_items(group)), prefixes, state)
}

// Reads declarations of prefixes, and after them the ontology.
fn read_document(
    alloc: Global,
    items: &[Tree<'_>],
    end_line: u32,
    prefixes: &mut Prefixes,
    state: &mut Reading,
) -> Result<(), Refusal>
    requires { length state.old.read ≡ state.old.counts.axioms }
    ensures tests { Tested result state.old (form_tests prefixes.old end_line items.now) state.new }
    ensures declared { OnOk result (prefixes.new ≡ document_prefixes prefixes.old items.now) }
    ensures value { OnOk result (AddsAxioms state.old state.new (λ s. document_axioms prefixes.old s items.now)) }
{
    let (groups, behind) = items.split_at(prefix_group_count(items));
    read_prefixes(groups, prefixes)?;
    read_ontology_group(alloc, behind, end_line, prefixes, state)
}

// Reads a document, whose roles are not tested yet.
fn read_form(
    alloc: Global,
    items: &[Tree<'_>],
    end_line: u32,
) -> Result<(Ontology, Context), Refusal>
    ensures document { IfOk result (λ r. DocumentIsRead (form_tests predeclared end_line) items.now r.0 r.1) }
    ensures refused { IfErr result (RefusalAgrees (walked start (form_tests predeclared end_line items.now))) }
{
    let mut prefixes = Prefixes::predeclared(alloc)?;
    let mut state = Reading::new(Ontology::new(alloc), 0, 0);
    read_document(alloc, items, end_line, &mut prefixes, &mut state)?;
    let (ontology, nodes) = state.into_parts();
    Ok((ontology, Context { prefixes, nodes }))
}

// Refuses the line on which a role is counted that is not simple, if there is one.
fn refuse_line(line: Option<u32>) -> Result<(), Refusal>
    ensures passed { OnOk result (line ≡ None) }
    ensures refused { IfErr result (λ e. option_map (λ n. Refusal.NotSimple n) line ≡ Some e) }
{
    match line {
        Some(line) => Err(Refusal::NotSimple(line)),
        None => Ok(()),
    }
}

// Tests that the roles which axioms count are simple.
fn test_roles(alloc: Global, ontology: &Ontology) -> Result<(), Refusal>
    ensures { (s : Counts) → Judged result s (all_simple_tests ontology.now.axioms) s }
{
    let line = first_not_simple(alloc, ontology)?;
    refuse_line(line)
}

#[tactic(auto, using(crate::proofs::Simple::document_refused, crate::proofs::Simple::document_walk))]
fn read_from_items(
    alloc: Global,
    items: &[Tree<'_>],
    end_line: u32,
) -> Result<(Ontology, Context), Refusal>
    ensures document { IfOk result (λ r. DocumentIsRead (document_tests predeclared end_line) items.now r.0 r.1) }
    ensures refused { IfErr result (RefusalAgrees (walked start (document_tests predeclared end_line items.now))) }
{
    let (ontology, context) = read_form(alloc, items, end_line)?;
    test_roles(alloc, &ontology)?;
    Ok((ontology, context))
}

/// Reads the document that the text begins with: declarations of prefixes, and one group `Ontology` of axioms (OWL 2
/// Structural Specification, sections 3 and 9, in the profile of the description logic SHQ). Gives its ontology, what
/// queries on it need besides, and the place after it; the rest of the text is not looked at.
///
/// Each occurrence of a numbered axiom is an axiom of its own. Annotations and declarations have no number.
///
/// # Errors
///
/// The first fault of the text, else what is wrong first in the order of the text, else `NotSimple` at the line of the
/// least numbered axiom with a number restriction over a role that is not simple, or with such a functional role; and
/// `NoMemory`.
pub fn read_ontology(alloc: Global, text: &[u8]) -> Result<(Ontology, Context, usize), Refusal>
    requires { length text.now ≤ MAX_BYTES }
    ensures document { IfOk result (λ r. IsDocument text.now r.0 r.1 r.2) }
    ensures within { IfOk result (λ r. r.2 ≤ length text.now) }
    ensures refused { IfErr result (λ e. e ≢ NoMemory → IsNoDocument text.now e) }
{
    let (items, end) = read_items(alloc, text)?;
    let (ontology, context) = read_from_items(alloc, &items, end_line(text))?;
    Ok((ontology, context, end))
}
