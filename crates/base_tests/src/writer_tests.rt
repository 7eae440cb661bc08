// Texts of an axiom and of a class expression, and what is read of class expressions.
ghost use Rattle.std.specs.Prelude.{◌≡◌, IfOk};
ghost use Rattle.shq_terms.specs.Concept.{name, at_least};

use crate::checks::check;
use ofn_expressions::{Construct, Prefixes, Reading, Refusal, Which, excluded_axiom, read_class};
use ofn_tree::{TextFault, Tree, end_line, tokens, tree};
use ofn_writer::{axiom_text, concept_text};
use shq_terms::{AddFault, Axiom, Concept, NoMemory, Node, Ontology};
use std::alloc::Global;
use std::process::Abort;
use std::test::Fail;

fn items<'a>(alloc: Global, text: &'a [u8]) -> Result<Vec<Tree<'a>>, TextFault> {
    let text = &text[..text.len().min(1000)];
    let read = tokens(alloc, text)?;
    tree(alloc, &read.0, end_line(text))
}

fn read_item(
    alloc: Global,
    items: &[Tree<'_>],
    prefixes: &Prefixes,
    state: &mut Reading,
) -> Result<(), Refusal> {
    if let Some(item) = items.first() {
        drop(read_class(alloc, item, prefixes, state)?);
    }
    Ok(())
}

// Reads the first item as a class expression.
fn read_first(alloc: Global, items: &[Tree<'_>], state: &mut Reading) -> Result<(), Refusal> {
    let prefixes = Prefixes::predeclared(alloc)?;
    read_item(alloc, items, &prefixes, state)
}

fn counts_in(state: Reading) -> (u32, u32, u32) {
    let parts = state.into_parts();
    (parts.0.class_count(), parts.0.role_count(), parts.1)
}

fn counts_after(alloc: Global, items: &[Tree<'_>]) -> Result<(u32, u32, u32), Refusal> {
    let mut state = Reading::new(Ontology::new(alloc), 0, 0);
    read_first(alloc, items, &mut state)?;
    Ok(counts_in(state))
}

// How many classes, roles and nodes there are when the first item was read as a class expression.
fn counts_of(alloc: Global, text: &str) -> Result<(u32, u32, u32), Refusal> {
    let items = items(alloc, text.as_bytes()).map_err(Refusal::Text)?;
    counts_after(alloc, &items)
}

const CLASSES: &[(&str, Result<(u32, u32, u32), Refusal>)] = &[
    ("owl:Thing", Ok((0, 0, 1))),
    ("ObjectUnionOf(<A> <B> <A>)", Ok((2, 0, 4))),
    ("ObjectMinCardinality(007 <R>)", Ok((0, 1, 2))),
    ("A", Err(Refusal::BadShape(1))),
    ("ObjectIntersectionOf(<A>)", Err(Refusal::BadShape(1))),
    (
        "ObjectMaxCardinality(101 <R> x)",
        Err(Refusal::Limit(Which::Number, 1)),
    ),
    ("ObjectMaxCardinality(1x <R>)", Err(Refusal::BadShape(1))),
    (
        "ObjectUnionOf(ObjectHasSelf(<R>) A)",
        Err(Refusal::Outside(1, Construct::ObjectHasSelf)),
    ),
];

fn is_excluded(text: &str) -> bool {
    match excluded_axiom(text) {
        Some(construct) => construct.text() == text,
        None => false,
    }
}

fn name(class: u32) -> Concept
    ensures { result ≡ name class }
{
    Concept {
        node: Node::Name(class),
    }
}

// At least twenty successors are in the class.
fn twenty(alloc: Global) -> Result<Concept, NoMemory>
    ensures { IfOk result (λ c. c ≡ at_least 20 0 (name 0)) }
{
    let filler = Box::new(alloc, name(0))?;
    Ok(Concept {
        node: Node::Min(20, 0, filler),
    })
}

fn put_axiom(text: &mut Vec<u8>, ontology: &Ontology) -> Result<(), NoMemory> {
    if ontology.class_count() == 0 {
        return Err(NoMemory);
    }
    axiom_text(text, &Axiom::SubClassOf(name(0), name(0)), ontology)
}

fn put_assertion(text: &mut Vec<u8>, ontology: &Ontology) -> Result<(), NoMemory> {
    if ontology.role_count() == 0 || ontology.individual_count() < 2 {
        return Err(NoMemory);
    }
    axiom_text(text, &Axiom::Pair(0, 1, 0), ontology)
}

fn put_expression(
    text: &mut Vec<u8>,
    concept: &Concept,
    ontology: &Ontology,
) -> Result<(), NoMemory>
    requires { concept.now ≡ at_least 20 0 (name 0) }
{
    if ontology.class_count() == 0 || ontology.role_count() == 0 {
        return Err(NoMemory);
    }
    concept_text(text, concept, ontology)
}

// What is written of an axiom, of an assertion behind it, and of an expression.
fn put_all(alloc: Global, text: &mut Vec<u8>, ontology: &Ontology) -> Result<(), NoMemory> {
    put_axiom(text, ontology)?;
    text.push(b'#')?;
    put_assertion(text, ontology)?;
    text.push(b'#')?;
    put_expression(text, &twenty(alloc)?, ontology)
}

fn put_named(alloc: Global, text: &mut Vec<u8>, ontology: &mut Ontology) -> Result<(), AddFault> {
    ontology.add_class("A")?;
    ontology.add_role("R")?;
    ontology.add_individual("a")?;
    ontology.add_individual("b")?;
    Ok(put_all(alloc, text, ontology)?)
}

fn is_written(text: &[u8]) -> bool {
    let wanted: &[u8] =
        b"SubClassOf(<A> <A>)#ObjectPropertyAssertion(<R> <b> <a>)#ObjectMinCardinality(20 <R> <A>)";
    text == wanted
}

fn writes_on(alloc: Global, ontology: &mut Ontology) -> Result<bool, AddFault> {
    let mut text = Vec::new(alloc);
    put_named(alloc, &mut text, ontology)?;
    Ok(is_written(&text))
}

fn writes(alloc: Global) -> Result<bool, AddFault> {
    let mut ontology = Ontology::new(alloc);
    writes_on(alloc, &mut ontology)
}

fn test_expressions(rt: &impl Abort, alloc: Global) -> Result<(), AddFault> {
    for text in ["Import", "HasKey", "DataPropertyAssertion"] {
        check(rt, is_excluded(text), text);
    }
    for (text, wanted) in CLASSES {
        check(rt, counts_of(alloc, text) == *wanted, text);
    }
    check(rt, writes(alloc)?, "what is written");
    Ok(())
}

#[test]
fn reads_and_writes_expressions(rt: HostRuntime) -> Result<(), Fail> {
    test_expressions(&rt, rt.alloc())?;
    Ok(())
}
