// How many items and how many parts a numbered axiom has.
ghost use Rattle.std.specs.Prelude.{◌≡◌, ◌≢◌, IfErr, ◌<◌, ◌≤◌, ◌+◌, ◌∷◌, [], OnOk, true};
ghost use Rattle.ofn_expressions.specs.Walk.{Tested, parts};
ghost use Rattle.ofn_reader.specs.Axioms.{axiom_fits, pair_count, parts_by_item_count, head_tests};
ghost use Rattle.ofn_reader.specs.Additions.{CountsAlone};

use crate::keywords::AxiomKind;
use ofn_expressions::{Reading, Refusal};
use shq_terms::MAX_AXIOMS;

/// More items than may have one part each.
pub(crate) const MANY: usize = 1_000_000;

fn fits(kind: AxiomKind, count: usize) -> bool
    ensures { result ≡ axiom_fits kind count }
{
    match kind {
        AxiomKind::EquivalentClasses
        | AxiomKind::DisjointClasses
        | AxiomKind::EquivalentRoles
        | AxiomKind::SameAll
        | AxiomKind::Different => count >= 2,
        AxiomKind::DisjointUnion => count >= 3,
        AxiomKind::SubClassOf
        | AxiomKind::SubRole
        | AxiomKind::Domain
        | AxiomKind::Range
        | AxiomKind::Member => count == 2,
        AxiomKind::Pair => count == 3,
        AxiomKind::Functional | AxiomKind::Transitive => count == 1,
    }
}

fn pair_count(count: u64) -> u64
    requires { count ≤ 1000000 }
    ensures value { result ≡ pair_count count }
    ensures within { result ≤ 1000000000000 }
{
    if count == 0 {
        return 0;
    }
    count * (count - 1) / 2
}

/// How many parts an axiom of this kind has that is written with so many items.
pub(crate) fn parts_by_item_count(kind: AxiomKind, count: u64) -> u64
    requires { count ≤ 1000000 }
    ensures { result ≡ parts_by_item_count kind count }
{
    match kind {
        AxiomKind::SubClassOf
        | AxiomKind::Domain
        | AxiomKind::Range
        | AxiomKind::Functional
        | AxiomKind::Member
        | AxiomKind::Pair => 1,
        AxiomKind::EquivalentClasses => count,
        AxiomKind::DisjointClasses => pair_count(count),
        AxiomKind::DisjointUnion => count + pair_count(count.saturating_sub(1)),
        AxiomKind::SameAll => count.saturating_sub(1),
        AxiomKind::Different => pair_count(count),
        AxiomKind::SubRole | AxiomKind::EquivalentRoles | AxiomKind::Transitive => 0,
    }
}

// Counts the parts of an axiom. More than a million items give too many parts, or as many as a million.
fn count_parts(kind: AxiomKind, count: usize, line: u32, state: &mut Reading) -> Result<(), Refusal>
    ensures tests { Tested result state.old (parts line (parts_by_item_count kind count) ∷ []) state.new }
    ensures axioms { OnOk result (state.new.counts.axioms ≡ state.old.counts.axioms) }
    ensures takes_no_memory { IfErr result (λ e. e ≢ Refusal.NoMemory) }
    ensures read { state.new.read ≡ state.old.read }
    ensures alone { CountsAlone state.old state.new }
{
    state.count_parts(line, parts_by_item_count(kind, count.min(MANY) as u64))
}

/// Counts a numbered axiom with so many items, and its parts.
///
/// # Errors
///
/// The limit `Axioms`, `BadShape` for the number of items, or the limit `Parts`, in this order.
pub(crate) fn begin_axiom(
    kind: AxiomKind,
    count: usize,
    line: u32,
    state: &mut Reading,
) -> Result<(), Refusal>
    ensures tests { Tested result state.old (head_tests kind line count) state.new }
    ensures fits { OnOk result (axiom_fits kind count ≡ true) }
    ensures counted { OnOk result (state.new.counts.axioms ≡ state.old.counts.axioms + 1) }
    ensures within { OnOk result (state.old.counts.axioms < MAX_AXIOMS) }
    ensures takes_no_memory { IfErr result (λ e. e ≢ Refusal.NoMemory) }
    ensures read { state.new.read ≡ state.old.read }
    ensures alone { CountsAlone state.old state.new }
{
    state.count_axiom(line)?;
    if !fits(kind, count) {
        return Err(Refusal::BadShape(line));
    }
    count_parts(kind, count, line, state)
}
