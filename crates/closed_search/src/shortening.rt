// From a refutation to one without the lines on which nothing rests.
ghost use Rattle.std.specs.Prelude.{◌≡◌, true, IfOk, IfSome, length, map};
ghost use Rattle.std.specs.List.{list_all};
ghost use Rattle.refutation_check.specs.Limits.{IsInLimit};
ghost use Rattle.search_trace.specs.ReadBack.{has_nodes};
ghost use Rattle.search_trace.specs.RuleLine.{line_of};
ghost use Rattle.closed_search.specs.Finished.{are_over, IsNumbered};
ghost use Rattle.closed_search.specs.Named.{AreRoleAxioms};
ghost use Rattle.closed_search.specs.Refuted.{uses_names};
ghost use Rattle.closed_search.specs.Shorter.{HasSomeOf, IsOver, IsShorter};

use crate::copying::kept_lines;
use crate::gathering::refutation_by;
use crate::idle_roles::idle_role_axioms;
use crate::naming::axioms_named;
use crate::{NoMemory, Refutation};
use axiom_sets::AxiomSet;
use refutation_check::{Verdict, check, needed_lines};
use refutation_truth::{Concepts, RoleBox};
use search_trace::Line;
use shq_terms::{Ontology, Query};
use std::alloc::Global;

const MOST_LINES: usize = 4294967293;

/// The refutation of those lines of the whole one on which the ends of its branches rest, if it is valid. So what is
/// left out is needed by none of the lines that stay. The lines are let go before those that stay are numbered.
///
/// # Errors
///
/// Out of memory.
#[tactic(auto, using(refutation_check::proofs::Checkable::in_limit_checkable))]
pub(crate) fn shorter(
    alloc: Global,
    lines: Vec<Line>,
    ontology: &Ontology,
    set: &AxiomSet,
    role_axioms: &AxiomSet,
    query: &Query,
    concepts: &Concepts,
    roles: &RoleBox,
    whole: &Refutation,
) -> Result<Option<Refutation>, NoMemory>
    requires set { set.now.limit ≡ length ontology.now.axioms }
    requires role_limit { role_axioms.now.limit ≡ set.now.limit }
    requires role_axioms { AreRoleAxioms ontology.now.axioms set.now.members role_axioms.now.members }
    requires in_limit { IsInLimit ontology.now query.now }
    requires over { are_over (length concepts.now) (map line_of lines.items) ≡ true }
    requires listed { list_all (uses_names ontology.now concepts.now) (map line_of lines.items) ≡ true }
    ensures valid { IfOk result (λ found. IfSome found (IsShorter ontology.now set.now query.now)) }
    ensures lines { IfOk result (λ found. IfSome found (HasSomeOf concepts.now (map line_of lines.items))) }
{
    if whole.lines().len() > MOST_LINES {
        return Ok(None);
    }
    let keep = needed_lines(alloc, ontology, set, query, whole)?;
    let kept = kept_lines(alloc, &lines, &keep)?;
    drop(lines);
    if !have_nodes(&kept) {
        return Ok(None);
    }
    let found = of_lines(alloc, kept, ontology, set, role_axioms, concepts, roles)?;
    if_valid(alloc, ontology, set, query, found)
}

// The refutation of the lines, each of which has its nodes, without the role axioms on which they do not rest.
fn of_lines(
    alloc: Global,
    lines: Vec<Line>,
    ontology: &Ontology,
    set: &AxiomSet,
    role_axioms: &AxiomSet,
    concepts: &Concepts,
    roles: &RoleBox,
) -> Result<Refutation, NoMemory>
    requires set { set.now.limit ≡ length ontology.now.axioms }
    requires role_limit { role_axioms.now.limit ≡ set.now.limit }
    requires role_axioms { AreRoleAxioms ontology.now.axioms set.now.members role_axioms.now.members }
    requires over { are_over (length concepts.now) (map line_of lines.items) ≡ true }
    requires listed { list_all (uses_names ontology.now concepts.now) (map line_of lines.items) ≡ true }
    requires nodes { list_all has_nodes (map line_of lines.items) ≡ true }
    ensures over { IfOk result (IsOver ontology.now set.now) }
    ensures numbered { IfOk result (λ r. IsNumbered concepts.now r.axioms (map line_of lines.items) r) }
{
    let idle = idle_role_axioms(alloc, &lines, ontology, role_axioms, concepts, roles)?;
    let mut named = axioms_named(ontology, set, role_axioms, &lines)?;
    named.take_all(&idle);
    let refutation = refutation_by(alloc, lines, ontology, named, concepts)?;
    Ok(refutation)
}

// The refutation, if it is valid.
#[tactic(auto, using(refutation_check::proofs::Checkable::in_limit_checkable))]
fn if_valid(
    alloc: Global,
    ontology: &Ontology,
    set: &AxiomSet,
    query: &Query,
    refutation: Refutation,
) -> Result<Option<Refutation>, NoMemory>
    requires set { set.now.limit ≡ length ontology.now.axioms }
    requires in_limit { IsInLimit ontology.now query.now }
    requires over { IsOver ontology.now set.now refutation }
    ensures valid { IfOk result (λ found. IfSome found (IsShorter ontology.now set.now query.now)) }
    ensures same { IfOk result (λ found. IfSome found (λ r. r ≡ refutation)) }
{
    if refutation.lines().len() > MOST_LINES {
        return Ok(None);
    }
    match check(alloc, ontology, set, query, &refutation)? {
        Verdict::Accepted => Ok(Some(refutation)),
        Verdict::Rejected(_) => Ok(None),
    }
}

// Whether each line of an "at most" restriction has a successor.
fn have_nodes(lines: &[Line]) -> bool
    ensures { result ≡ list_all has_nodes (map line_of lines.now) }
{
    for line in lines {
        if !line_has_nodes(line) {
            return false;
        }
    }
    true
}

fn line_has_nodes(line: &Line) -> bool
    ensures { result ≡ has_nodes (line_of line.now) }
{
    match line {
        Line::Most(_, _, ends) => !ends.items().is_empty(),
        Line::Start | Line::And(..) | Line::Or(..) | Line::All(..) | Line::Carry(..) => true,
        Line::Row(..) | Line::Range(..) | Line::SomeOf(..) | Line::Least(..) => true,
        Line::Choose(..) | Line::Pair(..) | Line::Bottom(..) | Line::Clash(..) => true,
        Line::Fact(..) | Line::Differ(..) => true,
    }
}
