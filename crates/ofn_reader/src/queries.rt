// Queries on a document.
ghost use Rattle.std.specs.Prelude.{◌≡◌, ◌≢◌, ℕ, ◌^◌, ◌≤◌, ◌∷◌, [], Ok, IfOk, IfErr, OnOk, OnErr, length};
ghost use Rattle.ofn_tree.specs.Items.{items_of};
ghost use Rattle.ofn_expressions.specs.Counts.{Grows};
ghost use Rattle.ofn_expressions.specs.Walk.{Tested, RefusalAgrees};
ghost use Rattle.ofn_expressions.specs.Classes.{IsListed};
ghost use Rattle.shq_terms.specs.Concept.{top};
ghost use Rattle.ofn_expressions.specs.declared.refusal.Refusal.TheVariants.{NoMemory};
ghost use Rattle.ofn_reader.specs.Axioms.{member_tests};
ghost use Rattle.ofn_reader.specs.Texts.{HasItems};
ghost use Rattle.ofn_reader.specs.Queries.{query_items_tests, axiom_query_tests, query_form_tests, class_form_tests};
ghost use Rattle.ofn_reader.specs.Queries.{counted_by_first, counted_in_first, first_line, first_query, first_class};
ghost use Rattle.ofn_reader.specs.Queries.{query_walk, class_walk, QueryIsRead, ClassIsRead, IsQueryOn, IsNoQueryOn};
ghost use Rattle.ofn_reader.specs.Queries.{IsClassOn, IsNoClassOn, QueryTextIsRefused, TestsRoles, read_alone};
ghost use Rattle.ofn_reader.specs.Queries.{read_simple, MeansGroupQuery, MeansQuery, Asks, member_in, IsListedQuery};

use crate::groups::without_annotations;
use crate::keywords::{AxiomKeyword, AxiomKind, axiom_keyword};
use crate::operands::{Membership, read_member, read_pair};
use crate::texts::read_items;
use crate::{Context, Prefixes, Refusal, Which};
use ofn_expressions::{MAX_NODES, Reading, item_line};
use ofn_tree::{Form, Tree, end_line};
use role_box::{class_is_simple, query_is_simple};
use shq_terms::{Concept, Node, On, Ontology, Query};
use std::alloc::Global;
use std::mem;

const MAX_TEXT: usize = 1 << 24;

fn member_query(member: Membership) -> Query
    ensures { result ≡ record { sub = top; sup = member.class; on = On.Individual member.individual } }
{
    Query {
        sub: Concept { node: Node::Top },
        sup: member.class,
        on: On::Individual(member.individual),
    }
}

// The question whether an individual is in a class expression.
#[tactic(auto, using(ofn_expressions::proofs::Growing::grows_grows, ofn_expressions::proofs::Growing::grows_same))]
fn read_member_query(
    alloc: Global,
    class: &Tree<'_>,
    individual: &Tree<'_>,
    prefixes: &Prefixes,
    state: &mut Reading,
) -> Result<Query, Refusal>
    ensures tests { Tested result state.old (member_tests prefixes.now class.now individual.now) state.new }
    ensures grown { Grows state.old state.new }
    ensures value { IfOk result
        (Asks state.new.counts (λ later. member_in prefixes.now later (items_of (class.now ∷ individual.now ∷ [])))) }
{
    let member = read_member(alloc, class, individual, prefixes, state)?;
    Ok(member_query(member))
}

#[tactic(auto, using(ofn_expressions::proofs::Lists::item_count_is, ofn_expressions::proofs::Growing::grows_same))]
fn read_query_group(
    alloc: Global,
    keyword: AxiomKeyword,
    items: &[Tree<'_>],
    line: u32,
    prefixes: &Prefixes,
    state: &mut Reading,
) -> Result<Query, Refusal>
    ensures tests { Tested result state.old (query_items_tests prefixes.now keyword line items.now) state.new }
    ensures grown { Grows state.old state.new }
    ensures value { IfOk result (MeansGroupQuery prefixes.now state.new.counts keyword (items_of items.now)) }
{
    match keyword {
        AxiomKeyword::Numbered(AxiomKind::SubClassOf) => {
            if items.len() != 2 {
                return Err(Refusal::BadShape(line));
            }
            read_pair(alloc, &items[0], &items[1], prefixes, state)
        }
        AxiomKeyword::Numbered(AxiomKind::Member) => {
            if items.len() != 2 {
                return Err(Refusal::BadShape(line));
            }
            read_member_query(alloc, &items[0], &items[1], prefixes, state)
        }
        AxiomKeyword::Excluded(construct) => Err(Refusal::Outside(line, construct)),
        AxiomKeyword::Numbered(
            AxiomKind::EquivalentClasses
            | AxiomKind::DisjointClasses
            | AxiomKind::DisjointUnion
            | AxiomKind::SubRole
            | AxiomKind::EquivalentRoles
            | AxiomKind::Domain
            | AxiomKind::Range
            | AxiomKind::Functional
            | AxiomKind::Transitive
            | AxiomKind::Pair
            | AxiomKind::SameAll
            | AxiomKind::Different,
        )
        | AxiomKeyword::Declaration
        | AxiomKeyword::Annotation
        | AxiomKeyword::Unknown => Err(Refusal::BadShape(line)),
    }
}

#[tactic(auto, using(ofn_expressions::proofs::Growing::grows_same))]
fn read_axiom_query(
    alloc: Global,
    tree: &Tree<'_>,
    prefixes: &Prefixes,
    state: &mut Reading,
) -> Result<Query, Refusal>
    ensures tests { Tested result state.old (axiom_query_tests prefixes.now tree.now) state.new }
    ensures grown { Grows state.old state.new }
    ensures value { IfOk result (MeansQuery prefixes.now state.new.counts tree.now) }
{
    match &tree.form {
        Form::Group(Some(text), items, line) => {
            let items = without_annotations(items);
            read_query_group(alloc, axiom_keyword(text), items, *line, prefixes, state)
        }
        Form::Group(None, _, line)
        | Form::Name(_, line)
        | Form::Iri(_, line)
        | Form::Literal(line)
        | Form::Sign(_, line) => Err(Refusal::BadShape(*line)),
    }
}

/// The items of the text of a query.
///
/// # Errors
///
/// The limit `Text`, the first fault of the text, and `NoMemory`.
pub(crate) fn read_query_text(alloc: Global, text: &[u8]) -> Result<Vec<Tree<'_>>, Refusal>
    ensures short { OnOk result (length text.now ≤ 2 ^ 24) }
    ensures made { IfOk result (λ items. (end : ℕ) × HasItems text.now items.items end) }
    ensures refused { IfErr result (QueryTextIsRefused text.now) }
{
    if text.len() > MAX_TEXT {
        return Err(Refusal::Limit(Which::Text, 0));
    }
    let (items, _) = read_items(alloc, text)?;
    Ok(items)
}

/// What was read, unless something stands after it.
pub(crate) fn alone<T: Drop>(read: Result<T, Refusal>, behind: &[Tree<'_>]) -> Result<T, Refusal>
    ensures { result ≡ read_alone behind.now read }
{
    if behind.is_empty() {
        return read;
    }
    let line = item_line(&behind[0]);
    match read {
        Ok(value) => {
            drop(value);
            Err(Refusal::BadShape(line))
        }
        Err(refusal) => Err(refusal),
    }
}

fn read_query_items(
    alloc: Global,
    items: &[Tree<'_>],
    end_line: u32,
    prefixes: &Prefixes,
    state: &mut Reading,
) -> Result<Query, Refusal>
    ensures tests { Tested result state.old (query_form_tests prefixes.now end_line items.now) state.new }
    ensures grown { Grows state.old state.new }
    ensures pair { IfOk result (λ q. first_query prefixes.now state.new.counts items.now ≡ q ∷ []) }
    ensures listed { IfOk result (IsListedQuery state.new.counts) }
{
    if items.is_empty() {
        return Err(Refusal::BadShape(end_line));
    }
    let query = read_axiom_query(alloc, &items[0], prefixes, state);
    alone(query, items.split_at(1).1)
}

fn read_class_items(
    alloc: Global,
    items: &[Tree<'_>],
    end_line: u32,
    prefixes: &Prefixes,
    state: &mut Reading,
) -> Result<Concept, Refusal>
    ensures tests { Tested result state.old (class_form_tests prefixes.now end_line items.now) state.new }
    ensures grown { Grows state.old state.new }
    ensures class { IfOk result (λ c. first_class prefixes.now state.new.counts items.now ≡ c ∷ []) }
    ensures listed { IfOk result (IsListed state.new.counts) }
{
    if items.is_empty() {
        return Err(Refusal::BadShape(end_line));
    }
    let class = ofn_expressions::read_class(alloc, &items[0], prefixes, state);
    alone(class, items.split_at(1).1)
}

/// The line of the first item, or that of the end.
pub(crate) fn first_line(items: &[Tree<'_>], end_line: u32) -> u32
    ensures { result ≡ first_line end_line items.now }
{
    match items.first() {
        Some(item) => item_line(item),
        None => end_line,
    }
}

/// What was read, if the roles that it counts are simple.
pub(crate) fn if_simple<T: Drop>(
    read: T,
    simple: Result<bool, shq_terms::NoMemory>,
    line: u32,
) -> Result<T, Refusal>
    ensures { result ≡ read_simple line read simple }
{
    match simple {
        Ok(true) => Ok(read),
        Ok(false) => {
            drop(read);
            Err(Refusal::NotSimple(line))
        }
        Err(_) => {
            drop(read);
            Err(Refusal::NoMemory)
        }
    }
}

// The query that was read, if the roles that it counts are simple.
fn simple_query(
    alloc: Global,
    ontology: &Ontology,
    read: Result<Query, Refusal>,
    line: u32,
) -> Result<Query, Refusal>
    ensures same { IfOk result (λ q. read ≡ Ok q) }
    ensures tests { TestsRoles counted_by_first ontology.now.axioms line read result }
{
    match read {
        Ok(query) => {
            let simple = query_is_simple(alloc, ontology, &query);
            if_simple(query, simple, line)
        }
        Err(refusal) => Err(refusal),
    }
}

// The same for a class expression.
fn simple_class(
    alloc: Global,
    ontology: &Ontology,
    read: Result<Concept, Refusal>,
    line: u32,
) -> Result<Concept, Refusal>
    ensures same { IfOk result (λ c. read ≡ Ok c) }
    ensures tests { TestsRoles counted_in_first ontology.now.axioms line read result }
{
    match read {
        Ok(class) => {
            let simple = class_is_simple(alloc, ontology, &class);
            if_simple(class, simple, line)
        }
        Err(refusal) => Err(refusal),
    }
}

// Reads the query and lists its names. After a refusal the names are cut again.
fn read_query_on(
    alloc: Global,
    items: &[Tree<'_>],
    end_line: u32,
    prefixes: &Prefixes,
    nodes: u32,
    ontology: &mut Ontology,
) -> Result<Query, Refusal>
    requires { nodes ≤ MAX_NODES }
    ensures query { IfOk result (QueryIsRead prefixes.now nodes ontology.old end_line items.now ontology.new) }
    ensures refused { IfErr result (RefusalAgrees (query_walk prefixes.now nodes ontology.old end_line items.now)) }
    ensures unchanged { OnErr result (ontology.new ≡ ontology.old) }
{
    let classes = ontology.class_count();
    let roles = ontology.role_count();
    let individuals = ontology.individual_count();
    let axioms = ontology.axioms().len() as u32;
    let own = mem::replace(ontology, Ontology::new(alloc));
    let mut state = Reading::new(own, axioms, nodes);
    let read = read_query_items(alloc, items, end_line, prefixes, &mut state);
    let (mut own, _) = state.into_parts();
    let read = simple_query(alloc, &own, read, first_line(items, end_line));
    if read.is_err() {
        own.cut_names(classes, roles, individuals);
    }
    *ontology = own;
    read
}

// The same for a class expression.
fn read_class_on(
    alloc: Global,
    items: &[Tree<'_>],
    end_line: u32,
    prefixes: &Prefixes,
    nodes: u32,
    ontology: &mut Ontology,
) -> Result<Concept, Refusal>
    requires { nodes ≤ MAX_NODES }
    ensures class { IfOk result (ClassIsRead prefixes.now nodes ontology.old end_line items.now ontology.new) }
    ensures refused { IfErr result (RefusalAgrees (class_walk prefixes.now nodes ontology.old end_line items.now)) }
    ensures unchanged { OnErr result (ontology.new ≡ ontology.old) }
{
    let classes = ontology.class_count();
    let roles = ontology.role_count();
    let individuals = ontology.individual_count();
    let axioms = ontology.axioms().len() as u32;
    let own = mem::replace(ontology, Ontology::new(alloc));
    let mut state = Reading::new(own, axioms, nodes);
    let class = read_class_items(alloc, items, end_line, prefixes, &mut state);
    let (mut own, _) = state.into_parts();
    let class = simple_class(alloc, &own, class, first_line(items, end_line));
    if class.is_err() {
        own.cut_names(classes, roles, individuals);
    }
    *ontology = own;
    class
}

/// Reads a query on a document: one axiom `SubClassOf` of two class expressions, or one axiom `ClassAssertion` of a
/// class expression and an individual, which may begin with annotations and uses the document's prefixes. New names are
/// listed last, and the counts of names and nodes go on from those of the document.
///
/// # Errors
///
/// `Limit` of the text where it has more than 16,777,216 bytes; the first fault of the text, else what is wrong first
/// in the order of the text; `NotSimple` where a number restriction is over a role that is not simple in the document;
/// and `NoMemory`. The ontology is then as before.
pub fn read_query(
    alloc: Global,
    text: &str,
    ontology: &mut Ontology,
    context: &Context,
) -> Result<Query, Refusal>
    ensures query { IfOk result (IsQueryOn context.now ontology.old text.now ontology.new) }
    ensures refused { IfErr result (λ e. e ≢ NoMemory → IsNoQueryOn context.now ontology.old text.now e) }
    ensures unchanged { OnErr result (ontology.new ≡ ontology.old) }
{
    let bytes = text.as_bytes();
    let items = read_query_text(alloc, bytes)?;
    read_query_on(
        alloc,
        &items,
        end_line(bytes),
        context.prefixes(),
        context.nodes(),
        ontology,
    )
}

/// Reads a class expression that is asked about on a document, with the document's prefixes. New names are listed last,
/// and the counts of names and nodes go on from those of the document.
///
/// # Errors
///
/// `Limit` of the text where it has more than 16,777,216 bytes; the first fault of the text, else what is wrong first
/// in the order of the text; `NotSimple` where a number restriction is over a role that is not simple in the document;
/// and `NoMemory`. The ontology is then as before.
pub fn read_class(
    alloc: Global,
    text: &str,
    ontology: &mut Ontology,
    context: &Context,
) -> Result<Concept, Refusal>
    ensures class { IfOk result (IsClassOn context.now ontology.old text.now ontology.new) }
    ensures refused { IfErr result (λ e. e ≢ NoMemory → IsNoClassOn context.now ontology.old text.now e) }
    ensures unchanged { OnErr result (ontology.new ≡ ontology.old) }
{
    let bytes = text.as_bytes();
    let items = read_query_text(alloc, bytes)?;
    read_class_on(
        alloc,
        &items,
        end_line(bytes),
        context.prefixes(),
        context.nodes(),
        ontology,
    )
}
