// The axioms that a refutation names.
ghost use Rattle.std.specs.Prelude.{◌≡◌, ◌≤◌, ◌==◌, true, IfOk, length, map};
ghost use Rattle.std.specs.FinSet as sets;
ghost use Rattle.search_trace.specs.RuleLine.{line_of};
ghost use Rattle.closed_search.specs.Named.{axiom_of, uses_axiom, AreRoleAxioms, NamesAxioms, IsPut, ArePut};

use crate::NoMemory;
use axiom_sets::AxiomSet;
use search_trace::Line;
use shq_terms::Ontology;

/// Of the axioms of the set, the role axioms, which are given, and those that stand in the lines.
pub(crate) fn axioms_named(
    ontology: &Ontology,
    set: &AxiomSet,
    role_axioms: &AxiomSet,
    lines: &[Line],
) -> Result<AxiomSet, NoMemory>
    requires set { set.now.limit ≡ length ontology.now.axioms }
    requires role_limit { role_axioms.now.limit ≡ set.now.limit }
    requires role_axioms { AreRoleAxioms ontology.now.axioms set.now.members role_axioms.now.members }
    ensures { IfOk result (NamesAxioms ontology.now.axioms set.now (map line_of lines.now)) }
{
    let _ontology = ontology;
    let mut named = role_axioms.try_clone()?;
    put_used(&mut named, set, lines);
    Ok(named)
}

// Puts the axioms of the set that stand in the lines in.
fn put_used(named: &mut AxiomSet, set: &AxiomSet, lines: &[Line])
    requires { named.old.limit ≡ set.now.limit }
    ensures limit { named.new.limit ≡ named.old.limit }
    ensures members { ArePut set.now.members uses_axiom (map line_of lines.now) named.old.members named.new.members }
{
    for line in lines {
        put_axiom_of(named, set, line);
    }
}

// Puts the axiom that stands in the line in, if it is one of the set.
fn put_axiom_of(named: &mut AxiomSet, set: &AxiomSet, line: &Line)
    requires { named.old.limit ≡ set.now.limit }
    ensures limit { named.new.limit ≡ named.old.limit }
    ensures members { IsPut set.now.members (λ k. uses_axiom k (line_of line.now)) named.old.members named.new.members }
{
    match axiom_in(line) {
        Some(number) => put_member(named, set, number),
        None => {}
    }
}

// Puts the number in, if it is a member of the set.
fn put_member(named: &mut AxiomSet, set: &AxiomSet, number: u32)
    requires { named.old.limit ≡ set.now.limit }
    ensures limit { named.new.limit ≡ named.old.limit }
    ensures members { IsPut set.now.members (λ k. number == k) named.old.members named.new.members }
{
    if is_member(set, number) {
        named.put(number);
    }
}

// Whether the number is a member of the set, whatever number it is.
fn is_member(set: &AxiomSet, number: u32) -> bool
    ensures member { result ≡ sets.contains set.now.members number }
    ensures within { result ≡ true → (1 ≤ number) × (number ≤ set.now.limit) }
{
    let limit = set.limit();
    if number < 1 || number > limit {
        return false;
    }
    set.has(number)
}

// The axiom that stands in the line.
fn axiom_in(line: &Line) -> Option<u32>
    ensures { result ≡ axiom_of (line_of line.now) }
{
    match line {
        Line::Row(_, axiom, _, _) => Some(*axiom),
        Line::Range(_, _, axiom) => Some(*axiom),
        Line::Fact(axiom, _) => Some(*axiom),
        Line::Start | Line::Pair(..) | Line::Bottom(..) | Line::Differ(..) => None,
        Line::And(..) | Line::Or(..) | Line::Choose(..) | Line::Clash(..) => None,
        Line::All(..) | Line::Carry(..) | Line::SomeOf(..) | Line::Least(..) => None,
        Line::Most(..) => None,
    }
}
