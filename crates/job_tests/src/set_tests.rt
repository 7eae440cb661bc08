// A refutation that names some axioms, checked over sets of axioms that have these or lack some.
ghost use Rattle.std.specs.Prelude.{◌≡◌, IfOk};
ghost use Rattle.ontology_limits.specs.Limits.{IsInLimit};

use crate::reading::{read, set_of};
use refutation_check::{Verdict, check};
use refutation_tree::{CertFault, Refutation, read_text};
use shq_terms::{Ontology, Query};
use std::alloc::Global;
use std::test::Fail;

// A union and what all elements have that a transitive role reaches. The last axiom is not needed.
const DOCUMENT: &[u8] = b"Prefix(:=<e:>)Ontology(
SubClassOf(:A ObjectIntersectionOf(:B ObjectUnionOf(:C :D)))
SubClassOf(ObjectIntersectionOf(:A :C) owl:Nothing)
SubClassOf(:D ObjectSomeValuesFrom(:R :E))
TransitiveObjectProperty(:R)
SubClassOf(:B ObjectAllValuesFrom(:R :F))
SubClassOf(:F ObjectSomeValuesFrom(:R :G))
ObjectPropertyRange(:R :H)
SubClassOf(ObjectIntersectionOf(:G :H) ObjectComplementOf(:F))
SubClassOf(:A :E))";

const REFUTATION: &[&[u8]] = &[
    b"refutation",
    b"axioms 1 2 3 4 5 6 7 8",
    b"concept 1 name <e:B>",
    b"concept 2 name <e:C>",
    b"concept 3 name <e:D>",
    b"concept 4 or 2 3",
    b"concept 5 and 1 4",
    b"concept 6 name <e:E>",
    b"concept 7 some <e:R> 6",
    b"concept 8 name <e:F>",
    b"concept 9 all <e:R> 8",
    b"concept 10 name <e:G>",
    b"concept 11 some <e:R> 10",
    b"start",
    b"row 0 1 1 1",
    b"and 0 5",
    b"or 0 4",
    b"row 0 2 1 1 2",
    b"bottom 0",
    b"row 0 3 1 1",
    b"some 0 1 7",
    b"row 0 5 1 1",
    b"all 0 1 9",
    b"carry 0 1 <e:R> 9",
    b"row 1 6 1 1",
    b"some 1 2 11",
    b"all 1 2 9",
    b"range 1 2 7",
    b"row 2 8 1 1 2",
    b"clash 2 8",
    b"end",
];

// The axioms that the set has, and what is said then.
const SETS: &[(&[u32], Verdict)] = &[
    (&[1, 2, 3, 4, 5, 6, 7, 8, 9], Verdict::Accepted),
    (&[1, 2, 3, 4, 5, 6, 7, 8], Verdict::Accepted),
    (&[1, 2, 3, 4, 5, 6, 7, 9], Verdict::Rejected(0)),
    (&[2, 3, 4, 5, 6, 7, 8, 9], Verdict::Rejected(0)),
    (&[], Verdict::Rejected(0)),
];

// What is said of a refutation over the axioms of these numbers.
#[tactic(auto, using(refutation_check::proofs::Checkable::in_limit_checkable))]
fn verdict_over(
    alloc: Global,
    ontology: &Ontology,
    query: &Query,
    refutation: &Refutation,
    numbers: &[u32],
) -> Result<Verdict, CertFault>
    requires { IsInLimit ontology.now query.now }
{
    if refutation.lines().len() > 100 {
        return Err(CertFault::NoMemory);
    }
    let set = set_of(alloc, ontology.axiom_count(), numbers)?;
    let verdict = check(alloc, ontology, &set, query, refutation);
    drop(set);
    Ok(verdict?)
}

fn are_judged(
    alloc: Global,
    ontology: &Ontology,
    query: &Query,
    refutation: &Refutation,
) -> Result<bool, CertFault>
    requires { IsInLimit ontology.now query.now }
{
    let mut are_so = true;
    for (numbers, wanted) in SETS {
        are_so &= verdict_over(alloc, ontology, query, refutation, numbers)? == *wanted;
    }
    Ok(are_so)
}

fn is_judged(alloc: Global, ontology: &Ontology, query: &Query) -> Result<bool, CertFault>
    requires { IsInLimit ontology.now query.now }
{
    let refutation = read_text(alloc, REFUTATION, ontology)?;
    are_judged(alloc, ontology, query, &refutation)
}

#[test]
fn sets_have_what_is_named(rt: HostRuntime) -> Result<(), Fail> {
    let (ontology, query) = read(rt.alloc(), DOCUMENT, "SubClassOf(:A owl:Nothing)")?;
    assert!(rt; is_judged(rt.alloc(), &ontology, &query) == Ok(true));
    Ok(())
}
