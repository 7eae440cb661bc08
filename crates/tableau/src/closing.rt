// What a search comes to whose lines close everything.
ghost use Rattle.std.specs.Prelude.{◌≡◌, false, IfOk};
ghost use Rattle.closed_search.specs.Trace.{begun};
ghost use Rattle.tableau.specs.Steps.{Refutes};
ghost use Rattle.tableau.specs.Inside.{IsClosing, IsClosedBy};

use crate::{NoMemory, Refutation};
use closed_search::refutation_of;
use search_rules::SearchRules;
use search_state::Progress;
use std::alloc::{Allocator, Global};

/// The refutation of the lines, if they are one. Where the search went on behind the beginning of another one they are
/// none: they try out no other alternative of the choices that the beginning made.
pub(crate) fn close<A: Allocator + Copy>(
    heap: Global,
    progress: &mut Progress<'_, A>,
    rules: &SearchRules<'_>,
) -> Result<Option<Refutation>, NoMemory>
    requires { IsClosing rules.now progress.old }
    ensures { IfOk result (IsClosedBy rules.now progress.old progress.new) }
{
    if progress.behind() {
        return Ok(None);
    }
    let refutation = refutation(heap, progress, rules)?;
    Ok(Some(refutation))
}

// The refutation of the lines, which leave the progress.
fn refutation<A: Allocator + Copy>(
    heap: Global,
    progress: &mut Progress<'_, A>,
    rules: &SearchRules<'_>,
) -> Result<Refutation, NoMemory>
    requires closing { IsClosing rules.now progress.old }
    requires from_nothing { progress.old.behind ≡ false }
    ensures left { progress.new ≡ record progress.old { trace = begun } }
    ensures refutes { IfOk result (Refutes rules.now progress.old.query) }
{
    let query = progress.query();
    let trace = progress.take_trace();
    refutation_of(
        heap,
        trace,
        rules.ontology(),
        rules.set(),
        rules.role_axioms(),
        query,
        rules.concepts(),
        rules.roles(),
    )
}
