// Names and axioms of small ontologies.
ghost use Rattle.std.specs.Prelude.{◌≡◌, ◌<◌, ◌≤◌, [], length};

use crate::checks::check;
use shq_terms::{
    AddFault, Axiom, Concept, ConceptList, MAX_ROLES, NoMemory, Node, NumberList, Ontology,
};
use std::alloc::{AllocError, Global};
use std::process::Abort;
use std::test::Fail;

/// Names of classes in turn, and their numbers: each is listed once.
const CLASSES: &[(&str, u32)] = &[("A", 0), ("B", 1), ("A", 0), ("C", 2), ("B", 1)];

/// Names of individuals in turn, and their numbers. A class may have the same name.
const INDIVIDUALS: &[(&str, u32)] = &[("a", 0), ("A", 1), ("a", 0), ("A", 1)];

/// Bytes, and the class and the role whose name they are.
const NAMES: &[(&[u8], Option<u32>, Option<u32>)] = &[
    (b"B", Some(1), None),
    (b"D", None, None),
    (b"\xff", None, None),
    (b"r999", None, Some(999)),
];

/// Lines of axioms, and the numbers that these get.
const LINES: &[(u32, u32)] = &[(3, 1), (4, 2), (5, 3)];

// The names of a class and of a role.
fn names(ontology: &Ontology, class: u32, role: u32) -> Option<(&str, &str)> {
    if class >= ontology.class_count() || role >= ontology.role_count() {
        return None;
    }
    Some((ontology.class_name(class), ontology.role_name(role)))
}

fn line_of(ontology: &Ontology, number: u32) -> Option<u32> {
    if number < 1 || number > ontology.axiom_count() {
        return None;
    }
    Some(ontology.axiom(number).line)
}

fn is_listed_as(ontology: &mut Ontology, iri: &str, number: u32) -> Result<bool, AddFault> {
    let given = ontology.add_class(iri)?;
    Ok(given == number && ontology.class_number(iri) == Some(number))
}

fn is_individual_as(ontology: &mut Ontology, iri: &str, number: u32) -> Result<bool, AddFault> {
    let given = ontology.add_individual(iri)?;
    Ok(given == number && ontology.individual_number(iri) == Some(number))
}

fn is_role_as(ontology: &mut Ontology, iri: &str, number: u32) -> Result<bool, AddFault> {
    let given = ontology.add_role(iri)?;
    Ok(given == number && ontology.role_number(iri) == Some(number))
}

fn role_iri(alloc: Global, number: u32) -> Result<String, AllocError> {
    format!(in alloc; "r{number}")
}

fn is_role(alloc: Global, ontology: &mut Ontology, number: u32) -> Result<bool, AddFault> {
    let iri = role_iri(alloc, number)?;
    is_role_as(ontology, &iri, number)
}

fn add_axiom(ontology: &mut Ontology, line: u32) -> Result<u32, AddFault> {
    let sub = Concept { node: Node::Top };
    let sup = Concept { node: Node::Bottom };
    ontology.add_axiom(Axiom::SubClassOf(sub, sup), line)
}

// Whether each name is listed once, as many roles as may be, and each axiom gets the next number.
fn are_added(alloc: Global, ontology: &mut Ontology) -> Result<bool, AddFault> {
    let mut are_so = true;
    for (iri, number) in CLASSES {
        are_so &= is_listed_as(ontology, iri, *number)?;
    }
    for (iri, number) in INDIVIDUALS {
        are_so &= is_individual_as(ontology, iri, *number)?;
    }
    for number in 0..MAX_ROLES {
        are_so &= is_role(alloc, ontology, number)?;
    }
    for (line, number) in LINES {
        are_so &= add_axiom(ontology, *line)? == *number;
    }
    Ok(are_so)
}

// The name of an individual.
fn individual(ontology: &Ontology, number: u32) -> Option<&str> {
    if number >= ontology.individual_count() {
        return None;
    }
    Some(ontology.individual_name(number))
}

fn are_individuals(ontology: &Ontology) -> bool {
    individual(ontology, 1) == Some("A")
        && individual(ontology, 2).is_none()
        && ontology.individual_of_bytes(b"a") == Some(0)
        && ontology.individual_of_bytes(b"B").is_none()
}

fn are_counts(ontology: &Ontology) -> bool {
    ontology.class_count() == 3 && ontology.axiom_count() == 3 && ontology.axioms().len() == 3
}

fn is_full(ontology: &mut Ontology) -> bool {
    ontology.add_role("r") == Err(AddFault::Full)
}

fn are_found(ontology: &Ontology) -> bool {
    let mut are_so = names(ontology, 2, 7) == Some(("C", "r7"));
    for (iri, class, role) in NAMES {
        are_so &= ontology.class_of_bytes(iri) == *class;
        are_so &= ontology.role_of_bytes(iri) == *role;
    }
    for (line, number) in LINES {
        are_so &= line_of(ontology, *number) == Some(*line);
    }
    are_so
}

// A class, a role and two individuals that are listed, all but the first individual cut off again.
fn is_cut_off(ontology: &mut Ontology) -> Result<bool, AddFault>
    requires { ontology.old.axioms ≡ [] }
{
    ontology.add_class("A")?;
    ontology.add_role("r")?;
    ontology.add_individual("a")?;
    ontology.add_individual("b")?;
    cut_to_one(ontology);
    Ok(is_one_left(ontology))
}

// Keeps the first individual alone.
fn cut_to_one(ontology: &mut Ontology)
    requires none { ontology.old.axioms ≡ [] }
    requires one { 1 ≤ length ontology.old.individuals }
{
    ontology.cut_names(0, 0, 1);
}

fn is_one_left(ontology: &Ontology) -> bool {
    ontology.class_number("A").is_none()
        && ontology.role_number("r").is_none()
        && ontology.individual_number("a") == Some(0)
        && ontology.individual_number("b").is_none()
}

// An assertion about the individual.
fn add_assertion(ontology: &mut Ontology, individual: u32) -> Result<u32, AddFault>
    requires { individual < length ontology.old.individuals }
{
    let class = Concept { node: Node::Top };
    ontology.add_axiom(Axiom::Member(class, individual), 1)
}

// One individual, and an assertion about it.
fn is_asserted_in(ontology: &mut Ontology) -> Result<bool, AddFault> {
    let individual = ontology.add_individual("a")?;
    let number = add_assertion(ontology, individual)?;
    Ok(number == 1 && is_about(ontology, number, individual))
}

fn is_asserted(alloc: Global) -> Result<bool, AddFault> {
    let mut ontology = Ontology::new(alloc);
    is_asserted_in(&mut ontology)
}

fn is_about(ontology: &Ontology, number: u32, individual: u32) -> bool {
    if number < 1 || number > ontology.axiom_count() {
        return false;
    }
    match &ontology.axiom(number).axiom {
        Axiom::Member(_, named) => *named == individual,
        _ => false,
    }
}

fn is_cut(alloc: Global) -> Result<bool, AddFault> {
    let mut ontology = Ontology::new(alloc);
    is_cut_off(&mut ontology)
}

fn test_on(rt: &impl Abort, alloc: Global, ontology: &mut Ontology) -> Result<(), AddFault> {
    check(rt, are_added(alloc, ontology)?, "what is added");
    check(rt, are_counts(ontology), "counts");
    check(rt, are_found(ontology), "names and lines");
    check(rt, are_individuals(ontology), "individuals");
    check(rt, is_full(ontology), "one role more");
    Ok(())
}

fn test_ontology(rt: &impl Abort, alloc: Global) -> Result<(), AddFault> {
    let mut ontology = Ontology::new(alloc);
    test_on(rt, alloc, &mut ontology)
}

fn test_single(rt: &impl Abort, alloc: Global) -> Result<(), AddFault> {
    check(rt, is_cut(alloc)?, "names that are cut off");
    check(rt, is_asserted(alloc)?, "an assertion");
    Ok(())
}

fn exactly_two(alloc: Global) -> Result<Concept, NoMemory> {
    let node = Node::Name(5);
    let filler = Box::new(alloc, Concept { node })?;
    let node = Node::Exact(2, 7, filler);
    Ok(Concept { node })
}

fn is_exactly_two(concept: &Concept) -> bool {
    match &concept.node {
        Node::Exact(2, 7, filler) => matches!(&filler.node, Node::Name(5)),
        _ => false,
    }
}

fn copy(alloc: Global) -> Result<Concept, NoMemory> {
    let concept = exactly_two(alloc)?;
    concept.try_clone(alloc)
}

fn put_copy(alloc: Global, concepts: &mut ConceptList) -> Result<(), NoMemory> {
    let copy = copy(alloc)?;
    concepts.push(copy)
}

fn is_one_copy(concepts: &[Concept]) -> bool {
    match concepts {
        [copy] => is_exactly_two(copy),
        _ => false,
    }
}

fn is_copied(alloc: Global) -> Result<bool, NoMemory> {
    let mut concepts = ConceptList::new(alloc);
    put_copy(alloc, &mut concepts)?;
    Ok(is_one_copy(concepts.items()))
}

fn put_all(numbers: &mut NumberList, items: &[u32]) -> Result<(), NoMemory> {
    for item in items {
        numbers.push(*item)?;
    }
    Ok(())
}

fn are_listed(alloc: Global, items: &[u32]) -> Result<bool, NoMemory> {
    let mut numbers = NumberList::new(alloc);
    put_all(&mut numbers, items)?;
    Ok(numbers.items() == items)
}

fn test_lists(rt: &impl Abort, alloc: Global) -> Result<(), NoMemory> {
    check(rt, is_copied(alloc)?, "copy");
    check(rt, are_listed(alloc, &[0, 3, 6, 9, 12, 15])?, "numbers");
    Ok(())
}

#[test]
fn names_axioms_and_lists(rt: HostRuntime) -> Result<(), Fail> {
    test_ontology(&rt, rt.alloc())?;
    test_single(&rt, rt.alloc())?;
    test_lists(&rt, rt.alloc())?;
    Ok(())
}
