// Documents that were worked out by hand: what is read of them, and what is written again.
ghost use Rattle.std.specs.Prelude.{◌≤◌, length};

use crate::checks::check;
use ofn_reader::{Refusal, read_ontology};
use ofn_writer::ontology_text;
use shq_terms::{Axiom, Ontology};
use std::alloc::Global;
use std::process::Abort;
use std::test::Fail;

// The bytes of a text, which is short in each test.
fn short_bytes(text: &str) -> &[u8]
    ensures { length result.now ≤ 4294967293 }
{
    if text.len() > 4_000_000 {
        return &[];
    }
    text.as_bytes()
}

/// What is told of a document: the numbers of axioms, classes and roles, the place after it, and the kind and the
/// line of the first axiom.
#[derive(Clone, Copy, PartialEq, Eq)]
struct Told {
    counts: (u32, u32, u32),
    end: usize,
    first: Option<(u32, u32)>,
}

// The place of an axiom's kind in the table.
fn kind(axiom: &Axiom) -> u32 {
    match axiom {
        Axiom::SubClassOf(_, _) => 0,
        Axiom::EquivalentClasses(_) => 1,
        Axiom::DisjointClasses(_) => 2,
        Axiom::DisjointUnion(_, _) => 3,
        Axiom::SubRole(_, _) => 4,
        Axiom::EquivalentRoles(_) => 5,
        Axiom::Domain(_, _) => 6,
        Axiom::Range(_, _) => 7,
        Axiom::Functional(_) => 8,
        Axiom::Transitive(_) => 9,
        Axiom::Member(_, _) => 10,
        Axiom::Pair(_, _, _) => 11,
        Axiom::SameAll(_) => 12,
        Axiom::Different(_) => 13,
    }
}

fn first_axiom(ontology: &Ontology) -> Option<(u32, u32)> {
    let numbered = ontology.axioms().first()?;
    Some((kind(&numbered.axiom), numbered.line))
}

fn counts_of(ontology: &Ontology) -> (u32, u32, u32) {
    (
        ontology.axiom_count(),
        ontology.class_count(),
        ontology.role_count(),
    )
}

// What is told of a document, of which the ontology is written again.
fn rewrite(alloc: Global, text: &str, written: &mut Vec<u8>) -> Result<Told, Refusal> {
    let (ontology, _, end) = read_ontology(alloc, short_bytes(text))?;
    write_again(&ontology, end, written)
}

fn write(ontology: &Ontology, written: &mut Vec<u8>) -> Result<(), Refusal> {
    ontology_text(written, ontology)?;
    Ok(())
}

fn told_of(ontology: &Ontology, end: usize) -> Told {
    Told {
        counts: counts_of(ontology),
        end,
        first: first_axiom(ontology),
    }
}

fn write_again(ontology: &Ontology, end: usize, written: &mut Vec<u8>) -> Result<Told, Refusal> {
    write(ontology, written)?;
    Ok(told_of(ontology, end))
}

fn read_so(alloc: Global, text: &str) -> Result<Told, Refusal> {
    let mut written = Vec::new(alloc);
    rewrite(alloc, text, &mut written)
}

fn is_rewritten_so(alloc: Global, text: &str, wanted: &str) -> Result<bool, Refusal> {
    let mut written = Vec::new(alloc);
    rewrite(alloc, text, &mut written)?;
    Ok(written.as_slice() == wanted.as_bytes())
}

/// Documents, and what is told of them.
const DOCUMENTS: &[(&str, Told)] = &[
    (
        "Ontology()",
        Told {
            counts: (0, 0, 0),
            end: 10,
            first: None,
        },
    ),
    (
        "#x\nOntology(<o> <v>)",
        Told {
            counts: (0, 0, 0),
            end: 20,
            first: None,
        },
    ),
    (
        "Prefix(:=<e>)Ontology(SubClassOf(:A :B))",
        Told {
            counts: (1, 2, 0),
            end: 40,
            first: Some((0, 1)),
        },
    ),
    (
        "Ontology(SubClassOf(<A> <A>)SubClassOf(<A> <A>))",
        Told {
            counts: (2, 1, 0),
            end: 48,
            first: Some((0, 1)),
        },
    ),
    (
        "Ontology(SubClassOf(owl:Thing owl:Nothing))",
        Told {
            counts: (1, 0, 0),
            end: 43,
            first: Some((0, 1)),
        },
    ),
    (
        "Ontology(Declaration(ObjectProperty(<r>)))",
        Told {
            counts: (0, 0, 1),
            end: 42,
            first: None,
        },
    ),
    (
        "Ontology(Declaration(Datatype(x:y)))",
        Told {
            counts: (0, 0, 0),
            end: 36,
            first: None,
        },
    ),
    (
        "Ontology(Annotation(\"(\"^^x))",
        Told {
            counts: (0, 0, 0),
            end: 28,
            first: None,
        },
    ),
    (
        "Ontology(SubClassOf(Annotation(x) <A> <A>))",
        Told {
            counts: (1, 1, 0),
            end: 43,
            first: Some((0, 1)),
        },
    ),
    (
        "Ontology() \u{7f} )",
        Told {
            counts: (0, 0, 0),
            end: 10,
            first: None,
        },
    ),
];

/// Documents, and what is written of each.
const WRITTEN: &[(&str, &str)] = &[
    (
        "Prefix(:=<p#>)\n# Class: :A (:A)\nOntology(<p>\nAnnotationAssertion(rdfs:label :A \"a \\\"s\\\" # one\"@en)\n\
            SubClassOf(Annotation(rdfs:comment \"x\") :A :B))",
        "Ontology(\nDeclaration(Class(<p#A>))\nDeclaration(Class(<p#B>))\nSubClassOf(<p#A> <p#B>)\n)\n",
    ),
    (
        "Ontology(SubClassOf(<A> ObjectMaxCardinality(007 <r>)))",
        "Ontology(\nDeclaration(Class(<A>))\nDeclaration(ObjectProperty(<r>))\n\
            SubClassOf(<A> ObjectMaxCardinality(7 <r> owl:Thing))\n)\n",
    ),
    (
        "Ontology(Declaration(Class(<A>))Declaration(ObjectProperty(<R>))Declaration(ObjectProperty(<S>))\
            Declaration(Class(<B>))SubClassOf(<B> <A>)FunctionalObjectProperty(<R>))",
        "Ontology(\nDeclaration(Class(<A>))\nDeclaration(Class(<B>))\nDeclaration(ObjectProperty(<R>))\n\
            Declaration(ObjectProperty(<S>))\nSubClassOf(<B> <A>)\nFunctionalObjectProperty(<R>)\n)\n",
    ),
    (
        "Prefix(_:=<p>)Ontology(Declaration(NamedIndividual(<_:b>))DifferentIndividuals(<c> \
            <_:b>)ObjectPropertyAssertion(<R> <a> <c>)ClassAssertion(ObjectComplementOf(_:A) <a>)SameIndividual(<b> \
            <c> <b>))",
        "Ontology(\nDeclaration(Class(<pA>))\nDeclaration(ObjectProperty(<R>))\nDeclaration(NamedIndividual(<_:b>))\n\
            Declaration(NamedIndividual(<c>))\nDeclaration(NamedIndividual(<a>))\nDeclaration(NamedIndividual(<b>))\n\
            DifferentIndividuals(<c> <_:b>)\nObjectPropertyAssertion(<R> <a> <c>)\n\
            ClassAssertion(ObjectComplementOf(<pA>) <a>)\nSameIndividual(<b> <c> <b>)\n)\n",
    ),
];

fn test_told(rt: &impl Abort, alloc: Global, documents: &[(&str, Told)]) {
    for (text, wanted) in documents {
        check(rt, read_so(alloc, text) == Ok(*wanted), text);
    }
}

fn test_written(rt: &impl Abort, alloc: Global, written: &[(&str, &str)]) -> Result<(), Refusal> {
    for (text, wanted) in written {
        check(rt, is_rewritten_so(alloc, text, wanted)?, text);
        check(rt, is_rewritten_so(alloc, wanted, wanted)?, wanted);
    }
    Ok(())
}

fn test_documents(rt: &impl Abort, alloc: Global) -> Result<(), Refusal> {
    test_told(rt, alloc, DOCUMENTS);
    test_written(rt, alloc, WRITTEN)
}

#[test]
fn reads_documents(rt: HostRuntime) -> Result<(), Fail> {
    test_documents(&rt, rt.alloc())?;
    Ok(())
}
