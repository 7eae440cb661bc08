// What the rows add.
ghost use Rattle.std.specs.Prelude.{◌≡◌, ℕ, ◌<◌, ◌==◌, true, false, MatchOption, IsTrue};
ghost use Rattle.std.specs.List.{All, list_all};
ghost use Rattle.calculus_specs.specs.State.{node_count_from, has as holds, is_successor};
ghost use Rattle.step_finders.specs.Found.{PlainHolds, PlainDue, NamedHold, NamedLacks, NamedDue, NamesHold, EdgeHolds};
ghost use Rattle.step_finders.specs.Found.{EdgesHold, HoldsRows};
ghost use Rattle.step_finders.specs.Reasons.{IsAddition};

use crate::parts::find_part;
use crate::{Addition, NamedRow, PlainRow, Reason, Rules, State, StateWithRules};

// Whether the node has each of the concepts.
fn has_all<S: State>(state: &S, node: u32, concepts: &[u32]) -> bool
    ensures { result ≡ list_all (holds (S.facts state.now) node) concepts.now }
{
    match find_part(state, node, concepts) {
        Some(_) => false,
        None => true,
    }
}

// Whether the row gives the node what it does not have.
fn is_due<S: State>(state: &S, node: u32, row: &NamedRow) -> bool
    ensures yes { IsTrue result → NamedLacks (S.facts state.now) node row.now }
    ensures no { result ≡ false → NamedHold (S.facts state.now) node row.now }
{
    !state.has(node, row.gives) && has_all(state, node, row.waits.items())
}

// The place of a row that gives the node what it does not have, and what it gives.
fn find_due<S: State>(state: &S, node: u32, rows: &[NamedRow]) -> Option<(usize, u32)>
    ensures { let fs = S.facts state.now in
        MatchOption result (All (NamedHold fs node) rows.now) (λ p. NamedDue fs node rows.now p.0 p.1) }
{
    for (place, row) in rows.iter().enumerate() {
        if is_due(state, node, row) {
            return Some((place, row.gives));
        }
    }
    None
}

// A row that gives the node what it does not have.
fn find_plain<S: State>(state: &S, node: u32, rows: &[PlainRow]) -> Option<PlainRow>
    ensures { let fs = S.facts state.now in
        MatchOption result (All (PlainHolds fs node) rows.now) (PlainDue fs node rows.now) }
{
    for row in rows {
        if !state.has(node, row.gives) {
            return Some(*row);
        }
    }
    None
}

/// What a row gives the node that waits for one of its concepts, among others; none exactly where they give nothing
/// new.
pub fn find_by_name<S: State, R: Rules>(
    search: &StateWithRules<'_, S, R>,
    node: u32,
    concept: u32,
) -> Option<Addition>
    requires is_node { node < node_count_from (R.context search.now.rules.now).first (S.facts search.now.state.now) }
    requires holds { holds (S.facts search.now.state.now) node concept ≡ true }
    ensures { let w = R.context search.now.rules.now in let fs = S.facts search.now.state.now in
        MatchOption result (All (NamedHold fs node) ((R.files search.now.rules.now).named concept))
        (IsAddition w fs (R.files search.now.rules.now)) }
{
    search.rules.is_ready();
    match find_due(search.state, node, search.rules.named(concept)) {
        Some((place, gives)) => Some(Addition {
            node,
            concept: gives,
            reason: Reason::Named { concept, place },
        }),
        None => None,
    }
}

/// What a row gives the node since it has some concepts; none exactly where such rows give nothing new.
pub fn find_by_names<S: State, R: Rules>(
    search: &StateWithRules<'_, S, R>,
    node: u32,
) -> Option<Addition>
    requires { node < node_count_from (R.context search.now.rules.now).first (S.facts search.now.state.now) }
    ensures { let w = R.context search.now.rules.now in let fs = S.facts search.now.state.now in
        MatchOption result (NamesHold (R.files search.now.rules.now) fs node)
        (IsAddition w fs (R.files search.now.rules.now)) }
{
    for concept in search.state.label(node) {
        match find_by_name(search, node, *concept) {
            Some(addition) => return Some(addition),
            None => {}
        }
    }
    None
}

/// What a row gives where the edge begins; none exactly where such rows give nothing new.
pub fn find_at_begin<S: State, R: Rules>(
    search: &StateWithRules<'_, S, R>,
    node: u32,
    role: u32,
    end: u32,
) -> Option<Addition>
    requires is_node { node < node_count_from (R.context search.now.rules.now).first (S.facts search.now.state.now) }
    requires next { is_successor (S.facts search.now.state.now) (λ r. r == role) node end ≡ true }
    ensures { let w = R.context search.now.rules.now in let fs = S.facts search.now.state.now in
        MatchOption result (All (PlainHolds fs node) ((R.files search.now.rules.now).begins role))
        (IsAddition w fs (R.files search.now.rules.now)) }
{
    search.rules.is_ready();
    match find_plain(search.state, node, search.rules.at_begins(role)) {
        Some(row) => Some(Addition {
            node,
            concept: row.gives,
            reason: Reason::Begin { role, end, row },
        }),
        None => None,
    }
}

/// What a row gives where the edge ends; none exactly where such rows give nothing new.
pub fn find_at_end<S: State, R: Rules>(
    search: &StateWithRules<'_, S, R>,
    node: u32,
    role: u32,
    end: u32,
) -> Option<Addition>
    requires is_node { node < node_count_from (R.context search.now.rules.now).first (S.facts search.now.state.now) }
    requires next { is_successor (S.facts search.now.state.now) (λ r. r == role) node end ≡ true }
    ensures { let w = R.context search.now.rules.now in let fs = S.facts search.now.state.now in
        MatchOption result (All (PlainHolds fs end) ((R.files search.now.rules.now).ends role))
        (IsAddition w fs (R.files search.now.rules.now)) }
{
    search.rules.is_ready();
    match find_plain(search.state, end, search.rules.at_ends(role)) {
        Some(row) => Some(Addition {
            node: end,
            concept: row.gives,
            reason: Reason::End {
                from: node,
                role,
                row,
            },
        }),
        None => None,
    }
}

/// What a row gives where the edge begins or ends; none exactly where such rows give nothing new.
pub fn find_by_edge<S: State, R: Rules>(
    search: &StateWithRules<'_, S, R>,
    node: u32,
    role: u32,
    end: u32,
) -> Option<Addition>
    requires is_node { node < node_count_from (R.context search.now.rules.now).first (S.facts search.now.state.now) }
    requires next { is_successor (S.facts search.now.state.now) (λ r. r == role) node end ≡ true }
    ensures { let w = R.context search.now.rules.now in let fs = S.facts search.now.state.now in
        MatchOption result (EdgeHolds (R.files search.now.rules.now) fs node role end)
        (IsAddition w fs (R.files search.now.rules.now)) }
{
    match find_at_begin(search, node, role, end) {
        Some(addition) => Some(addition),
        None => find_at_end(search, node, role, end),
    }
}

/// What a row gives where some edge from the node begins or ends; none exactly where such rows give nothing new.
pub fn find_by_edges<S: State, R: Rules>(
    search: &StateWithRules<'_, S, R>,
    node: u32,
) -> Option<Addition>
    requires { node < node_count_from (R.context search.now.rules.now).first (S.facts search.now.state.now) }
    ensures { let w = R.context search.now.rules.now in let fs = S.facts search.now.state.now in
        MatchOption result (EdgesHold (R.files search.now.rules.now) fs node)
        (IsAddition w fs (R.files search.now.rules.now)) }
{
    for edge in search.state.edges(node) {
        match find_by_edge(search, node, edge.0, search.state.representative(edge.1)) {
            Some(addition) => return Some(addition),
            None => {}
        }
    }
    None
}

/// What a row gives the node that is used at each node; none exactly where such rows give nothing new.
pub fn find_general<S: State, R: Rules>(
    search: &StateWithRules<'_, S, R>,
    node: u32,
) -> Option<Addition>
    requires { node < node_count_from (R.context search.now.rules.now).first (S.facts search.now.state.now) }
    ensures { let w = R.context search.now.rules.now in let fs = S.facts search.now.state.now in
        MatchOption result (All (PlainHolds fs node) (R.files search.now.rules.now).general)
        (IsAddition w fs (R.files search.now.rules.now)) }
{
    search.rules.is_ready();
    match find_plain(search.state, node, search.rules.general()) {
        Some(row) => Some(Addition {
            node,
            concept: row.gives,
            reason: Reason::General { row },
        }),
        None => None,
    }
}

/// What a row gives the node, or the end of an edge from it; none exactly where rows give nothing new.
pub fn find_by_rows<S: State, R: Rules>(
    search: &StateWithRules<'_, S, R>,
    node: u32,
) -> Option<Addition>
    requires { node < node_count_from (R.context search.now.rules.now).first (S.facts search.now.state.now) }
    ensures { let w = R.context search.now.rules.now in let fs = S.facts search.now.state.now in
        MatchOption result (HoldsRows (R.files search.now.rules.now) fs node)
        (IsAddition w fs (R.files search.now.rules.now)) }
{
    match find_general(search, node) {
        Some(addition) => Some(addition),
        None => match find_by_names(search, node) {
            Some(addition) => Some(addition),
            None => find_by_edges(search, node),
        },
    }
}
