// From a trace that is closed to its refutation.
ghost use Rattle.std.specs.Prelude.{◌≡◌, ◌∷◌, true, IsTrue, IfOk, length, map};
ghost use Rattle.std.specs.List.{list_all};
ghost use Rattle.shq_terms.specs.declared.axioms.Query.{Query as Asked};
ghost use Rattle.lane_sieve.specs.Sets.{IsPart};
ghost use Rattle.calculus_specs.specs.Line.Line.{start_line};
ghost use Rattle.refutation_check.specs.Limits.{IsInLimit};
ghost use Rattle.search_trace.specs.Written.{names_are_listed};
ghost use Rattle.search_trace.specs.RuleLine.{line_of};
ghost use Rattle.search_trace.specs.Trace.{TraceLists, lines_in};
ghost use Rattle.closed_search.specs.Finished.{are_over, IsNumbered};
ghost use Rattle.closed_search.specs.Named.{AreRoleAxioms, NamesAxioms, NamesNoOther};
ghost use Rattle.closed_search.specs.Refuted.{uses_names, CloseAll, IsWrittenRefutation};
ghost use Rattle.closed_search.specs.Shorter.{HasSomeOf};

use crate::copying::copies;
use crate::gathering::refutation_by;
use crate::naming::axioms_named;
use crate::shortening::shorter;
use crate::{NoMemory, Refutation, Trace};
use axiom_sets::AxiomSet;
use refutation_truth::{Concepts, RoleBox};
use search_trace::Line;
use shq_terms::{Ontology, Query};
use std::alloc::Global;

/// A refutation of the query by lines of a search over a set of axioms, where these close everything: by those on which
/// the ends of the branches rest, or by all. What is left out is needed by none of the lines that stay, since these are
/// a valid refutation where all lines close everything. Of the set it names role axioms alone, and axioms that stand in
/// its lines. The concepts of the lines are numbers of the table, `roles` is the role box of the set, and its role
/// axioms are given, since to look for them among all axioms would cost each refutation what the set costs.
///
/// # Errors
///
/// Out of memory.
pub fn refutation_of(
    alloc: Global,
    trace: Trace,
    ontology: &Ontology,
    set: &AxiomSet,
    role_axioms: &AxiomSet,
    query: &Query,
    concepts: &Concepts,
    roles: &RoleBox,
) -> Result<Refutation, NoMemory>
    requires set { set.now.limit ≡ length ontology.now.axioms }
    requires role_limit { role_axioms.now.limit ≡ set.now.limit }
    requires role_axioms { AreRoleAxioms ontology.now.axioms set.now.members role_axioms.now.members }
    requires in_limit { IsInLimit ontology.now query.now }
    requires over { are_over (length concepts.now) (lines_in trace) ≡ true }
    requires listed { list_all (uses_names ontology.now concepts.now) (lines_in trace) ≡ true }
    ensures axioms { IfOk result (λ r. NamesNoOther ontology.now.axioms set.now r.lines r.axioms) }
    ensures part { IfOk result (λ r. IsPart r.axioms.members set.now.members) }
    ensures listed { IfOk result (λ r. IsTrue (names_are_listed ontology.now r)) }
    ensures lines { IfOk result (HasSomeOf concepts.now (start_line ∷ lines_in trace)) }
    ensures refutes { IfOk result (λ r. CloseAll ontology.now set.now concepts.now query.now trace.lines
        → IsWrittenRefutation ontology.now query.now r) }
{
    let lines = trace.into_lines(alloc)?;
    let whole = whole(
        alloc,
        copies(alloc, &lines)?,
        ontology,
        set,
        role_axioms,
        concepts,
    )?;
    let found = shorter(
        alloc,
        lines,
        ontology,
        set,
        role_axioms,
        query,
        concepts,
        roles,
        &whole,
    )?;
    match found {
        Some(found) => Ok(found),
        None => Ok(whole),
    }
}

// The refutation of all lines of a trace, over all role axioms of the set.
fn whole(
    alloc: Global,
    lines: Vec<Line>,
    ontology: &Ontology,
    set: &AxiomSet,
    role_axioms: &AxiomSet,
    concepts: &Concepts,
) -> Result<Refutation, NoMemory>
    requires set { set.now.limit ≡ length ontology.now.axioms }
    requires role_limit { role_axioms.now.limit ≡ set.now.limit }
    requires role_axioms { AreRoleAxioms ontology.now.axioms set.now.members role_axioms.now.members }
    requires over { are_over (length concepts.now) (map line_of lines.items) ≡ true }
    requires listed { list_all (uses_names ontology.now concepts.now) (map line_of lines.items) ≡ true }
    ensures axioms { IfOk result (λ r. NamesNoOther ontology.now.axioms set.now r.lines r.axioms) }
    ensures part { IfOk result (λ r. IsPart r.axioms.members set.now.members) }
    ensures listed { IfOk result (λ r. IsTrue (names_are_listed ontology.now r)) }
    ensures lines { IfOk result (HasSomeOf concepts.now (map line_of lines.items)) }
    ensures refutes { IfOk result (λ r. (trace : TraceLists) → map line_of lines.items ≡ start_line ∷ lines_in trace
        → (query : Asked) → CloseAll ontology.now set.now concepts.now query trace.lines
        → IsWrittenRefutation ontology.now query r) }
{
    let named = axioms_named(ontology, set, role_axioms, &lines)?;
    let refutation = refutation_by(alloc, lines, ontology, named, concepts)?;
    Ok(refutation)
}
