// The refutation by lines of a search.
ghost use Rattle.std.specs.Prelude.{◌≡◌, true, IsTrue, IfOk, length, map};
ghost use Rattle.std.specs.List.{list_all};
ghost use Rattle.search_trace.specs.ReadBack.{has_nodes, IsWritable};
ghost use Rattle.search_trace.specs.RuleLine.{line_of};
ghost use Rattle.search_trace.specs.Written.{names_are_listed};
ghost use Rattle.closed_search.specs.Finished.{are_over, IsNumbered};
ghost use Rattle.closed_search.specs.Refuted.{uses_names};

use crate::small::show_small;
use crate::{NoMemory, Refutation, numbered_refutation};
use axiom_sets::AxiomSet;
use refutation_truth::Concepts;
use search_trace::Line;
use shq_terms::Ontology;
use std::alloc::Global;

/// The refutation that has these lines and names these axioms, whether it is valid or not.
///
/// # Errors
///
/// Out of memory.
pub(crate) fn refutation_by(
    alloc: Global,
    lines: Vec<Line>,
    ontology: &Ontology,
    named: AxiomSet,
    concepts: &Concepts,
) -> Result<Refutation, NoMemory>
    requires limit { named.limit ≡ length ontology.now.axioms }
    requires over { are_over (length concepts.now) (map line_of lines.items) ≡ true }
    requires listed { list_all (uses_names ontology.now concepts.now) (map line_of lines.items) ≡ true }
    ensures numbered { IfOk result (IsNumbered concepts.now named (map line_of lines.items)) }
    ensures listed { IfOk result (λ r. IsTrue (names_are_listed ontology.now r)) }
    ensures writable { IfOk result (λ r. list_all has_nodes (map line_of lines.items) ≡ true
        → IsWritable ontology.now r) }
{
    let _ontology = ontology;
    let _ = concepts.len();
    let refutation = numbered_refutation(alloc, named, concepts, lines)?;
    let _ = refutation.shape_count();
    let _ = refutation.axioms_used().limit();
    show_small(refutation.lines());
    Ok(refutation)
}
