// Modules that were worked out by hand, and workloads, which are read.
ghost use Rattle.std.specs.Prelude.{◌≤◌, length};

use crate::checks::check;
use axiom_sets::AxiomSet;
use module_extract::module;
use ofn_reader::{Context, Refusal, read_ontology, read_query};
use shq_terms::{Concept, NoMemory, Node, On, Ontology, Query};
use std::alloc::{AllocError, Global};
use std::process::Abort;
use std::str;
use std::test::Fail;
use workload::{QUERY, generate};

/// A query on two classes.
const CLASSES: &str = "SubClassOf(:A :B)";

/// A query on two classes and a role.
const ROLE: &str = "SubClassOf(:A ObjectSomeValuesFrom(:r :B))";

/// Axioms, a query, and the numbers of the axioms in its module.
type Case = (&'static str, &'static str, &'static [u32]);

const MODULES: &[Case] = &[
    ("", CLASSES, &[]),
    ("SubClassOf(:A :B)SubClassOf(:A :B)", CLASSES, &[1, 2]),
    ("SubClassOf(:A :B)SubClassOf(:C :D)", CLASSES, &[1]),
    ("SubClassOf(:A :B)", "SubClassOf(:X :Y)", &[]),
    // What an axiom that joins brings in.
    (
        "SubClassOf(:A :C)SubClassOf(:C :D)SubClassOf(:E :D)",
        CLASSES,
        &[1, 2],
    ),
    (
        "SubClassOf(:D :E)SubClassOf(:C :D)SubClassOf(:A :C)",
        CLASSES,
        &[1, 2, 3],
    ),
    (
        "SubClassOf(:C :D)SubClassOf(:B ObjectSomeValuesFrom(:r :C))",
        CLASSES,
        &[1, 2],
    ),
    // Axioms that need no name.
    (
        "SubClassOf(owl:Thing :C)SubClassOf(:C :D)",
        CLASSES,
        &[1, 2],
    ),
    ("SubClassOf(owl:Thing owl:Nothing)", CLASSES, &[1]),
    (
        "SubClassOf(owl:Thing :A)SubClassOf(:A :B)",
        "SubClassOf(owl:Thing owl:Nothing)",
        &[1, 2],
    ),
    (
        "SubClassOf(:A owl:Nothing)",
        "SubClassOf(owl:Thing owl:Nothing)",
        &[],
    ),
    ("SubClassOf(:A owl:Thing)", CLASSES, &[]),
    ("SubClassOf(owl:Nothing :A)", CLASSES, &[]),
    (
        "SubClassOf(owl:Nothing :C)SubClassOf(:C owl:Thing)",
        CLASSES,
        &[],
    ),
    ("SubClassOf(:A owl:Nothing)", CLASSES, &[1]),
    // Axioms that are local.
    ("EquivalentClasses(:C :D)", CLASSES, &[]),
    (
        "EquivalentClasses(owl:Thing ObjectComplementOf(:C))",
        CLASSES,
        &[],
    ),
    ("EquivalentClasses(:C owl:Thing)", CLASSES, &[1]),
    ("EquivalentClasses(:A :C)", CLASSES, &[1]),
    ("DisjointClasses(:C :D)", CLASSES, &[]),
    ("DisjointClasses(:C :A :D)", CLASSES, &[]),
    ("DisjointClasses(:A :C :B)", CLASSES, &[1]),
    ("DisjointClasses(:A :A)", CLASSES, &[1]),
    ("DisjointClasses(:A owl:Thing)", CLASSES, &[1]),
    ("DisjointUnion(:C :D :E)", CLASSES, &[]),
    ("DisjointUnion(:C :A :D)", CLASSES, &[1]),
    ("DisjointUnion(:A :C :D)", CLASSES, &[1]),
    ("SubObjectPropertyOf(:s :r)", ROLE, &[]),
    ("SubObjectPropertyOf(:r :s)", ROLE, &[1]),
    (
        "SubObjectPropertyOf(:r :s)SubClassOf(:A ObjectAllValuesFrom(:s :C))",
        ROLE,
        &[1, 2],
    ),
    ("EquivalentObjectProperties(:s :t)", ROLE, &[]),
    ("EquivalentObjectProperties(:s :r)", ROLE, &[1]),
    ("ObjectPropertyDomain(:r :A)", CLASSES, &[]),
    ("ObjectPropertyDomain(:r owl:Thing)", ROLE, &[]),
    ("ObjectPropertyDomain(:r ObjectComplementOf(:C))", ROLE, &[]),
    ("ObjectPropertyDomain(:r :C)", ROLE, &[1]),
    ("ObjectPropertyRange(:r :A)", CLASSES, &[]),
    ("ObjectPropertyRange(:r owl:Thing)", ROLE, &[]),
    ("ObjectPropertyRange(:r ObjectComplementOf(:C))", ROLE, &[]),
    ("ObjectPropertyRange(:r :C)", ROLE, &[1]),
    ("FunctionalObjectProperty(:r)", CLASSES, &[]),
    ("FunctionalObjectProperty(:r)", ROLE, &[1]),
    ("TransitiveObjectProperty(:r)", CLASSES, &[]),
    ("TransitiveObjectProperty(:r)", ROLE, &[1]),
    (
        "TransitiveObjectProperty(:s)SubObjectPropertyOf(:r :s)",
        ROLE,
        &[1, 2],
    ),
    ("ObjectPropertyRange(:r :C)SubClassOf(:C :D)", ROLE, &[1, 2]),
];

/// A class expression and a query. Whether the axiom with the expression on the left joins, and the axiom with it on
/// the right; the other side is a class of the query. Where it is void the first does not, and where it is whole the
/// second does not.
type Side = (&'static str, &'static str, bool, bool);

const SIDES: &[Side] = &[
    (":A", CLASSES, true, true),
    (":C", CLASSES, false, true),
    ("ObjectComplementOf(:C)", CLASSES, true, false),
    ("ObjectComplementOf(:A)", CLASSES, true, true),
    ("ObjectComplementOf(owl:Nothing)", CLASSES, true, false),
    ("ObjectIntersectionOf(:A :C)", CLASSES, false, true),
    ("ObjectIntersectionOf(:A owl:Thing)", CLASSES, true, true),
    (
        "ObjectIntersectionOf(owl:Thing ObjectComplementOf(:C))",
        CLASSES,
        true,
        false,
    ),
    ("ObjectUnionOf(:C :D)", CLASSES, false, true),
    ("ObjectUnionOf(:A owl:Nothing)", CLASSES, true, true),
    (
        "ObjectUnionOf(:A ObjectComplementOf(:C))",
        CLASSES,
        true,
        false,
    ),
    ("ObjectSomeValuesFrom(:r :A)", CLASSES, false, true),
    ("ObjectSomeValuesFrom(:r :C)", ROLE, false, true),
    ("ObjectSomeValuesFrom(:r :A)", ROLE, true, true),
    ("ObjectAllValuesFrom(:r :A)", CLASSES, true, false),
    (
        "ObjectAllValuesFrom(:r ObjectComplementOf(:C))",
        ROLE,
        true,
        false,
    ),
    ("ObjectAllValuesFrom(:r :A)", ROLE, true, true),
    ("ObjectMinCardinality(0 :r :A)", ROLE, true, false),
    ("ObjectMinCardinality(0 :r :C)", CLASSES, true, false),
    ("ObjectMinCardinality(2 :r :A)", CLASSES, false, true),
    ("ObjectMinCardinality(1 :r :C)", ROLE, false, true),
    ("ObjectMinCardinality(1 :r :A)", ROLE, true, true),
    ("ObjectMaxCardinality(2 :r :A)", CLASSES, true, false),
    ("ObjectMaxCardinality(0 :r :C)", ROLE, true, false),
    ("ObjectMaxCardinality(0 :r :A)", ROLE, true, true),
    ("ObjectExactCardinality(2 :r :A)", CLASSES, false, true),
    ("ObjectExactCardinality(1 :r :C)", ROLE, false, true),
    ("ObjectExactCardinality(1 :r :A)", ROLE, true, true),
    ("ObjectExactCardinality(0 :r :A)", CLASSES, true, false),
    ("ObjectExactCardinality(0 :r :C)", ROLE, true, false),
    ("ObjectExactCardinality(0 :r :A)", ROLE, true, true),
];

/// The lines of a workload of two groups.
const LINES: &[&str] = &[
    "Prefix(:=<http://example.org/w#>)",
    "Ontology(<http://example.org/w>",
    "SubClassOf(:Q0 :Q1)",
    "SubClassOf(:Q0 ObjectIntersectionOf(:Q1 :P0))",
    "SubClassOf(:Q1 :Q2)",
    "SubClassOf(:Q1 ObjectIntersectionOf(:Q2 :P1))",
    "SubClassOf(:Q2 :Q3)",
    "SubClassOf(:Q2 ObjectIntersectionOf(:Q3 :P2))",
    "SubObjectPropertyOf(:s :r)",
    "SubClassOf(:A1 ObjectSomeValuesFrom(:r :B1))",
    "SubClassOf(:A1 ObjectMinCardinality(2 :s :B1))",
    "SubClassOf(:B1 ObjectAllValuesFrom(:r :C1))",
    "SubClassOf(:C1 ObjectUnionOf(:A1 :D1))",
    "SubClassOf(:A2 ObjectSomeValuesFrom(:r :B2))",
    "SubClassOf(:A2 ObjectMinCardinality(2 :s :B2))",
    "SubClassOf(:B2 ObjectAllValuesFrom(:r :C2))",
    "SubClassOf(:C2 ObjectUnionOf(:A2 :D2))",
    ")",
];

/// How many groups a workload has, and how many axioms and classes.
const GROUPS: &[(u32, u32)] = &[(1, 11), (2, 15), (4_000, 16_007)];

/// The bytes of a short text.
fn short_bytes(text: &[u8]) -> &[u8]
    ensures { length result.now ≤ 4294967293 }
{
    if text.len() > 4_000_000 {
        return &[];
    }
    text
}

/// Whether these are the numbers of the set.
fn are_numbers(set: &AxiomSet, wanted: &[u32]) -> bool {
    let mut numbers = set.numbers();
    let mut are_same = true;
    for number in wanted {
        are_same &= numbers.next() == Some(*number);
    }
    are_same && numbers.next().is_none()
}

/// Whether these are the numbers of the axioms in the module of the query.
fn is_module(
    alloc: Global,
    ontology: &Ontology,
    query: &Query,
    wanted: &[u32],
) -> Result<bool, Refusal> {
    let found = module(alloc, ontology, query)?;
    Ok(are_numbers(&found, wanted))
}

/// The same of a query that is read.
fn has_module(
    alloc: Global,
    ontology: &mut Ontology,
    context: &Context,
    query: &str,
    wanted: &[u32],
) -> Result<bool, Refusal> {
    let query = read_query(alloc, query, ontology, context)?;
    is_module(alloc, ontology, &query, wanted)
}

/// The numbers of axioms, classes and roles.
type Counts = (u32, u32, u32);

/// Whether these are the counts, where some are wanted.
fn are_counts(ontology: &Ontology, wanted: Option<Counts>) -> bool {
    let counts = (
        ontology.axiom_count(),
        ontology.class_count(),
        ontology.role_count(),
    );
    wanted.is_none() || wanted == Some(counts)
}

/// Whether a document has these counts, where some are wanted, and these are the numbers of the axioms in the module of
/// the query.
fn is_so(
    alloc: Global,
    text: &[u8],
    query: &str,
    wanted: &[u32],
    counts: Option<Counts>,
) -> Result<bool, Refusal> {
    let (mut ontology, context, _) = read_ontology(alloc, short_bytes(text))?;
    is_so_in(alloc, &mut ontology, &context, query, wanted, counts)
}

fn is_so_in(
    alloc: Global,
    ontology: &mut Ontology,
    context: &Context,
    query: &str,
    wanted: &[u32],
    counts: Option<Counts>,
) -> Result<bool, Refusal> {
    let are_right = are_counts(ontology, counts);
    Ok(has_module(alloc, ontology, context, query, wanted)? && are_right)
}

fn put_each(text: &mut String, pieces: &[&str]) -> Result<(), AllocError> {
    for piece in pieces {
        text.push_str(piece)?;
    }
    Ok(())
}

fn joined(alloc: Global, pieces: &[&str]) -> Result<String, AllocError> {
    let mut text = String::new(alloc);
    put_each(&mut text, pieces)?;
    Ok(text)
}

fn gives(alloc: Global, axioms: &str, query: &str, wanted: &[u32]) -> Result<bool, Refusal> {
    let text = joined(alloc, &["Prefix(:=<e:>)\nOntology(\n", axioms, "\n)\n"])?;
    is_so(alloc, text.as_bytes(), query, wanted, None)
}

/// Whether an inclusion joins, or does not.
fn joins(alloc: Global, sub: &str, sup: &str, query: &str, wanted: bool) -> Result<bool, Refusal> {
    let axiom = joined(alloc, &["SubClassOf(", sub, " ", sup, ")"])?;
    gives(alloc, &axiom, query, if wanted { &[1] } else { &[] })
}

/// Two classes; an assertion of each kind, an inclusion of the class that an individual is in, and another one.
const ASSERTIONS: &[u8] =
    b"Ontology(Declaration(Class(<A>))Declaration(Class(<B>))ClassAssertion(<C> <a>)\
    ObjectPropertyAssertion(<r> <a> <b>)SameIndividual(<a> <b>)DifferentIndividuals(<a> <b>)SubClassOf(<C> <D>)\
    SubClassOf(<E> <F>))";

/// The numbers of the axioms that are in the module of the two classes: the assertions, and the inclusion of a class
/// that one of them names.
const IN_MODULE: &[u32] = &[1, 2, 3, 4, 5];

fn class(number: u32) -> Concept {
    Concept {
        node: Node::Name(number),
    }
}

/// Whether the assertions are in the module of a query on the two classes.
fn has_assertions(alloc: Global, ontology: &Ontology, on: On) -> Result<bool, Refusal> {
    let query = Query {
        sub: class(0),
        sup: class(1),
        on,
    };
    is_module(alloc, ontology, &query, IN_MODULE)
}

/// Whether they are, whatever the query speaks of.
fn have_assertions(alloc: Global, ontology: &Ontology) -> Result<bool, Refusal> {
    let on_any = has_assertions(alloc, ontology, On::Any)?;
    let on_one = has_assertions(alloc, ontology, On::Individual(1))?;
    Ok(on_any && on_one)
}

fn are_asserted(alloc: Global, text: &[u8]) -> Result<bool, Refusal> {
    let (ontology, _, _) = read_ontology(alloc, short_bytes(text))?;
    have_assertions(alloc, &ontology)
}

fn test_cases(rt: &impl Abort, alloc: Global, cases: &[Case]) -> Result<(), Refusal> {
    for (axioms, query, wanted) in cases {
        check(rt, gives(alloc, axioms, query, wanted)?, axioms);
    }
    Ok(())
}

fn test_sides(rt: &impl Abort, alloc: Global, sides: &[Side]) -> Result<(), Refusal> {
    for (class, query, left, right) in sides {
        check(rt, joins(alloc, class, ":B", query, *left)?, class);
        check(rt, joins(alloc, ":A", class, query, *right)?, class);
    }
    Ok(())
}

fn test_modules(rt: &impl Abort, alloc: Global) -> Result<(), Refusal> {
    check(rt, are_asserted(alloc, ASSERTIONS)?, "assertions");
    test_sides(rt, alloc, SIDES)?;
    test_cases(rt, alloc, MODULES)
}

/// The text of a workload. A count that is not allowed counts as out of memory.
fn made(alloc: Global, groups: u32) -> Result<Vec<u8>, NoMemory> {
    if groups == 0 || groups > 4000 {
        return Err(NoMemory);
    }
    generate(alloc, groups)
}

fn are_lines(text: &str, wanted: &[&str]) -> bool {
    let mut lines = text.lines();
    let mut are_same = text.ends_with("\n");
    for line in wanted {
        are_same &= lines.next() == Some(*line);
    }
    are_same && lines.next().is_none()
}

fn is_text(text: &[u8]) -> bool {
    match str::from_utf8(text) {
        Ok(text) => are_lines(text, LINES),
        Err(_) => false,
    }
}

fn is_made(alloc: Global) -> Result<bool, NoMemory> {
    let text = made(alloc, 2)?;
    Ok(is_text(&text))
}

/// Whether a workload has so many axioms and classes and two roles, and the first six axioms are in the module of
/// its query.
fn is_read(alloc: Global, groups: u32, listed: u32) -> Result<bool, Refusal> {
    let text = made(alloc, groups)?;
    let counts = Some((listed, listed, 2));
    is_so(alloc, &text, QUERY, &[1, 2, 3, 4, 5, 6], counts)
}

fn are_read(alloc: Global, groups: &[(u32, u32)]) -> Result<bool, Refusal> {
    let mut are_so = true;
    for (count, listed) in groups {
        are_so &= is_read(alloc, *count, *listed)?;
    }
    Ok(are_so)
}

fn test_workloads(rt: &impl Abort, alloc: Global) -> Result<(), Refusal> {
    check(rt, are_read(alloc, GROUPS)?, "groups");
    check(rt, is_made(alloc)?, "the text of two groups");
    Ok(())
}

#[test]
fn modules_and_workloads(rt: HostRuntime) -> Result<(), Fail> {
    test_modules(&rt, rt.alloc())?;
    test_workloads(&rt, rt.alloc())?;
    Ok(())
}
