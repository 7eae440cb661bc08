// A plain clash: one that a step makes, or any. It takes no memory.
ghost use Rattle.std.specs.Prelude.{◌≡◌, ℕ, ◌<◌, ◌↔◌, true, false, MatchOption, IsTrue, IfSome, IfOk, OnOk, IfErr};
ghost use Rattle.std.specs.List.{All};
ghost use Rattle.calculus_specs.specs.Shape.{shape_of};
ghost use Rattle.calculus_specs.specs.Shape.Shape.{bottom};
ghost use Rattle.calculus_specs.specs.State.{node_count_from, has as holds, are_apart as kept_apart, speak_of_nodes};
ghost use Rattle.calculus_specs.specs.Tree.{IsComplement};
ghost use Rattle.step_finders.specs.Choosing.{LacksComplement};
ghost use Rattle.step_finders.specs.Clashing.{IsShown, NotOverrun, NoneOverrun, NotOverrunOver, CountsNot, IsMost};
ghost use Rattle.step_finders.specs.Clashing.{NoneByShape, NoneAbove, NoneInto, NoneAt, NoClashBy, AreLedTo, NoneOver};
ghost use Rattle.step_finders.specs.Clashing.{NoClashByNew, NoClashByEdge, NoClashByApart, NoClashByJoin};
ghost use Rattle.step_finders.specs.Clashing.{ShownClashesArePlain};
ghost use Rattle.tableau_specs.specs.Clash.{IsPlainClash};
ghost use Rattle.tableau_specs.specs.Steps.{below_of};

use crate::nodes::{are_apart, count_of, members_of, parent_of};
use crate::overrun::is_overrun;
use crate::{Rules, State, StateWithRules};
use shq_nnf::Shape;

/// A plain clash.
#[derive(Clone, Copy, Debug, PartialEq, Eq)]
pub enum Clash {
    /// A node that has bottom.
    Bottom {
        /// The node.
        node: u32,
        /// The number of bottom.
        concept: u32,
    },
    /// A node that has a class and its complement.
    Both {
        /// The node.
        node: u32,
        /// The number of the class.
        class: u32,
        /// The number of its complement.
        complement: u32,
    },
    /// A node with an 'at most' of too many.
    Most {
        /// The node.
        node: u32,
        /// The number of the 'at most'.
        concept: u32,
    },
    /// Two nodes that are one, and are apart.
    Differ(u32, u32),
}

// A clash by an 'at most' with this filler, if the node has it.
fn find_by_most<S: State, R: Rules>(
    search: &StateWithRules<'_, S, R>,
    node: u32,
    filler: u32,
    concept: u32,
) -> Option<Clash>
    requires is_node { node < node_count_from (R.context search.now.rules.now).first (S.facts search.now.state.now) }
    requires shape { IsMost (R.context search.now.rules.now).table filler concept }
    ensures { let w = R.context search.now.rules.now in let fs = S.facts search.now.state.now in
        MatchOption result (NotOverrun w fs node filler concept) (IsShown w fs) }
{
    if !search.state.has(node, concept) {
        return None;
    }
    match search.rules.shape(concept) {
        Shape::Max(count, role, _) => {
            if is_overrun(search, node, count, role, filler) {
                Some(Clash::Most { node, concept })
            } else {
                None
            }
        }
        _ => None,
    }
}

// A clash by one of these, which are all 'at most' with this filler.
fn find_by_mosts<S: State, R: Rules>(
    search: &StateWithRules<'_, S, R>,
    node: u32,
    filler: u32,
    concepts: &[u32],
) -> Option<Clash>
    requires is_node { node < node_count_from (R.context search.now.rules.now).first (S.facts search.now.state.now) }
    requires shapes { All (IsMost (R.context search.now.rules.now).table filler) concepts.now }
    ensures { let w = R.context search.now.rules.now in let fs = S.facts search.now.state.now in
        MatchOption result (All (NotOverrun w fs node filler) concepts.now) (IsShown w fs) }
{
    for concept in concepts {
        match find_by_most(search, node, filler, *concept) {
            Some(clash) => return Some(clash),
            None => {}
        }
    }
    None
}

// A clash by the complement of the concept, where it is a class, or where it is the complement of one.
fn find_opposite<S: State, R: Rules>(
    search: &StateWithRules<'_, S, R>,
    node: u32,
    concept: u32,
) -> Option<u32>
    ensures { let w = R.context search.now.rules.now in let fs = S.facts search.now.state.now in
        MatchOption result (LacksComplement w fs node concept)
        (λ c. IsComplement w.table concept c × (holds fs node c ≡ true)) }
{
    search.rules.is_ready();
    match search.rules.complement(concept) {
        Some(complement) => {
            if search.state.has(node, complement) {
                Some(complement)
            } else {
                None
            }
        }
        None => None,
    }
}

// A clash by an 'at most' of the node with this filler.
fn find_counting<S: State, R: Rules>(
    search: &StateWithRules<'_, S, R>,
    node: u32,
    filler: u32,
) -> Option<Clash>
    requires is_node { node < node_count_from (R.context search.now.rules.now).first (S.facts search.now.state.now) }
    ensures { let w = R.context search.now.rules.now in let fs = S.facts search.now.state.now in
        MatchOption result (NoneOverrun w fs node filler) (IsShown w fs) }
{
    find_by_mosts(search, node, filler, search.rules.mosts(filler))
}

// A clash at the node by the concept.
fn find_at_node<S: State, R: Rules>(
    search: &StateWithRules<'_, S, R>,
    node: u32,
    concept: u32,
) -> Option<Clash>
    requires is_node { node < node_count_from (R.context search.now.rules.now).first (S.facts search.now.state.now) }
    requires holds { holds (S.facts search.now.state.now) node concept ≡ true }
    ensures { let w = R.context search.now.rules.now in let fs = S.facts search.now.state.now in
        MatchOption result (NoneByShape w fs node (shape_of w.table concept)) (IsShown w fs) }
{
    search.rules.is_ready();
    match search.rules.shape(concept) {
        Shape::Bottom => Some(Clash::Bottom { node, concept }),
        Shape::Name(_) => match find_opposite(search, node, concept) {
            Some(complement) => Some(Clash::Both {
                node,
                class: concept,
                complement,
            }),
            None => None,
        },
        Shape::NotName(_) => match find_opposite(search, node, concept) {
            Some(class) => Some(Clash::Both {
                node,
                class,
                complement: concept,
            }),
            None => None,
        },
        Shape::Max(count, role, filler) => {
            if is_overrun(search, node, count, role, filler) {
                Some(Clash::Most { node, concept })
            } else {
                None
            }
        }
        _ => None,
    }
}

// Looks for a clash by an 'at most' of the node with this filler, unless it is the node at which was looked last.
// Answers the node at which was looked last, or the clash.
fn look_at_begin<S: State, R: Rules>(
    search: &StateWithRules<'_, S, R>,
    node: u32,
    filler: u32,
    last: Option<u32>,
) -> Result<Option<u32>, Clash>
    requires is_node { node < node_count_from (R.context search.now.rules.now).first (S.facts search.now.state.now) }
    requires last { IfSome last (λ z. NoneOverrun (R.context search.now.rules.now) (S.facts search.now.state.now) z
        filler) }
    ensures none { OnOk result (NoneOverrun (R.context search.now.rules.now) (S.facts search.now.state.now) node
        filler) }
    ensures last { IfOk result (λ z. IfSome z
        (λ z. NoneOverrun (R.context search.now.rules.now) (S.facts search.now.state.now) z filler)) }
    ensures clash { IfErr result (IsShown (R.context search.now.rules.now) (S.facts search.now.state.now)) }
{
    if last == Some(node) {
        return Ok(last);
    }
    match find_counting(search, node, filler) {
        Some(clash) => Err(clash),
        None => Ok(Some(node)),
    }
}

// Looks for a clash by an 'at most' with this filler, at each node from which an axiom gives an edge to this one. Edges
// that begin at one node mostly come one after the other, and it is looked at once for them.
fn look_into<S: State, R: Rules>(
    search: &StateWithRules<'_, S, R>,
    node: u32,
    filler: u32,
    last: Option<u32>,
) -> Result<Option<u32>, Clash>
    requires last { IfSome last (λ z. NoneOverrun (R.context search.now.rules.now) (S.facts search.now.state.now) z
        filler) }
    ensures none { OnOk result (NoneInto (R.context search.now.rules.now) (S.facts search.now.state.now) filler node) }
    ensures last { IfOk result (λ z. IfSome z
        (λ z. NoneOverrun (R.context search.now.rules.now) (S.facts search.now.state.now) z filler)) }
    ensures clash { IfErr result (IsShown (R.context search.now.rules.now) (S.facts search.now.state.now)) }
{
    let mut last = last;
    for edge in search.rules.given_into(node) {
        last = look_at_begin(search, search.state.representative(edge.1), filler, last)?;
    }
    Ok(last)
}

// A clash by an 'at most' with this filler, at a node from which an axiom gives an edge to one of these.
fn find_into_any<S: State, R: Rules>(
    search: &StateWithRules<'_, S, R>,
    nodes: &[u32],
    filler: u32,
) -> Option<Clash>
    ensures { let w = R.context search.now.rules.now in let fs = S.facts search.now.state.now in
        MatchOption result (All (NoneInto w fs filler) nodes.now) (IsShown w fs) }
{
    let mut last = None;
    for node in nodes {
        match look_into(search, *node, filler, last) {
            Ok(looked) => last = looked,
            Err(clash) => return Some(clash),
        }
    }
    None
}

// A clash above the node by its concept. Where its representative has a parent, all edges to it come from there; where
// it has none, it is a first node, and they are by edges that axioms give to a node that is one with it.
fn find_above<S: State, R: Rules>(
    search: &StateWithRules<'_, S, R>,
    node: u32,
    concept: u32,
) -> Option<Clash>
    requires is_node { node < node_count_from (R.context search.now.rules.now).first (S.facts search.now.state.now) }
    requires speak { speak_of_nodes (R.context search.now.rules.now).first (S.facts search.now.state.now) ≡ true }
    requires above { AreLedTo (R.context search.now.rules.now) (S.facts search.now.state.now) node }
    ensures { let w = R.context search.now.rules.now in let fs = S.facts search.now.state.now in
        MatchOption result (NoneAbove w fs node concept) (IsShown w fs) }
{
    if search.rules.mosts(concept).is_empty() {
        return None;
    }
    match parent_of(search, search.state.representative(node)) {
        Some(up) => find_counting(search, search.state.representative(up), concept),
        None => find_into_any(search, members_of(search, node), concept),
    }
}

/// A plain clash that is there since the node has the concept; none exactly where there is none.
pub fn find_clash<S: State, R: Rules>(
    search: &StateWithRules<'_, S, R>,
    node: u32,
    concept: u32,
) -> Option<Clash>
    requires is_node { node < node_count_from (R.context search.now.rules.now).first (S.facts search.now.state.now) }
    requires holds { holds (S.facts search.now.state.now) node concept ≡ true }
    requires speak { speak_of_nodes (R.context search.now.rules.now).first (S.facts search.now.state.now) ≡ true }
    requires above { AreLedTo (R.context search.now.rules.now) (S.facts search.now.state.now) node }
    ensures { let w = R.context search.now.rules.now in let fs = S.facts search.now.state.now in
        MatchOption result (NoClashBy w fs node concept) (IsShown w fs) }
{
    match find_at_node(search, node, concept) {
        Some(clash) => Some(clash),
        None => find_above(search, node, concept),
    }
}

// Whether the concept is an 'at most' that counts successors by this role.
fn counts_by<R: Rules>(rules: &R, concept: u32, role: u32) -> bool
    ensures { result ≡ false → CountsNot (R.context rules.now) role concept }
{
    match rules.shape(concept) {
        Shape::Max(_, upper, _) => rules.is_below(role, upper),
        _ => false,
    }
}

// A clash by an 'at most' with this filler, if the node has it and it counts successors by this role.
fn find_by_most_over<S: State, R: Rules>(
    search: &StateWithRules<'_, S, R>,
    node: u32,
    role: u32,
    filler: u32,
    concept: u32,
) -> Option<Clash>
    requires is_node { node < node_count_from (R.context search.now.rules.now).first (S.facts search.now.state.now) }
    requires shape { IsMost (R.context search.now.rules.now).table filler concept }
    ensures { let w = R.context search.now.rules.now in let fs = S.facts search.now.state.now in
        MatchOption result (NotOverrunOver w fs node role filler concept) (IsShown w fs) }
{
    if !counts_by(search.rules, concept, role) {
        return None;
    }
    find_by_most(search, node, filler, concept)
}

// A clash by one of these, which are all 'at most' with this filler, that counts successors by this role.
fn find_by_mosts_over<S: State, R: Rules>(
    search: &StateWithRules<'_, S, R>,
    node: u32,
    role: u32,
    filler: u32,
    concepts: &[u32],
) -> Option<Clash>
    requires is_node { node < node_count_from (R.context search.now.rules.now).first (S.facts search.now.state.now) }
    requires shapes { All (IsMost (R.context search.now.rules.now).table filler) concepts.now }
    ensures { let w = R.context search.now.rules.now in let fs = S.facts search.now.state.now in
        MatchOption result (All (NotOverrunOver w fs node role filler) concepts.now) (IsShown w fs) }
{
    for concept in concepts {
        match find_by_most_over(search, node, role, filler, *concept) {
            Some(clash) => return Some(clash),
            None => {}
        }
    }
    None
}

// A clash by an 'at most' of the node with this filler that counts successors by this role.
fn find_by_filler<S: State, R: Rules>(
    search: &StateWithRules<'_, S, R>,
    node: u32,
    role: u32,
    filler: u32,
) -> Option<Clash>
    requires is_node { node < node_count_from (R.context search.now.rules.now).first (S.facts search.now.state.now) }
    ensures { let w = R.context search.now.rules.now in let fs = S.facts search.now.state.now in
        MatchOption result (NoneOver w fs node role filler) (IsShown w fs) }
{
    find_by_mosts_over(search, node, role, filler, search.rules.mosts(filler))
}

// Whether the concept is bottom.
fn is_bottom<R: Rules>(rules: &R, concept: u32) -> bool
    ensures { IsTrue result ↔ (shape_of (R.context rules.now).table concept ≡ bottom) }
{
    match rules.shape(concept) {
        Shape::Bottom => true,
        _ => false,
    }
}

// A clash by an 'at most' of the node that counts successors by this role, and whose filler is this one or top.
fn find_by_fillers<S: State, R: Rules>(
    search: &StateWithRules<'_, S, R>,
    node: u32,
    role: u32,
    filler: u32,
) -> Option<Clash>
    requires is_node { node < node_count_from (R.context search.now.rules.now).first (S.facts search.now.state.now) }
    ensures { let w = R.context search.now.rules.now in let fs = S.facts search.now.state.now in
        MatchOption result (NoneOver w fs node role 0 × NoneOver w fs node role filler) (IsShown w fs) }
{
    match find_by_filler(search, node, role, 0) {
        Some(clash) => Some(clash),
        None => find_by_filler(search, node, role, filler),
    }
}

/// A plain clash that is there since new nodes with this concept are at the ends of edges by the role from the parent,
/// where `first` is one of them; none exactly where there is none.
pub fn find_clash_of_new_nodes<S: State, R: Rules>(
    search: &StateWithRules<'_, S, R>,
    parent: u32,
    role: u32,
    filler: u32,
    first: u32,
) -> Option<Clash>
    requires parent { parent < node_count_from (R.context search.now.rules.now).first (S.facts search.now.state.now) }
    requires first { first < node_count_from (R.context search.now.rules.now).first (S.facts search.now.state.now) }
    requires holds { holds (S.facts search.now.state.now) first filler ≡ true }
    ensures { let w = R.context search.now.rules.now in let fs = S.facts search.now.state.now in
        MatchOption result (NoClashByNew w fs parent role filler) (IsShown w fs) }
{
    if is_bottom(search.rules, filler) {
        return Some(Clash::Bottom {
            node: first,
            concept: filler,
        });
    }
    find_by_fillers(search, parent, role, filler)
}

// A clash above the first node by the concept, where the second has it too.
fn find_shared<S: State, R: Rules>(
    search: &StateWithRules<'_, S, R>,
    first: u32,
    second: u32,
    concept: u32,
) -> Option<Clash>
    requires is_node { first < node_count_from (R.context search.now.rules.now).first (S.facts search.now.state.now) }
    requires speak { speak_of_nodes (R.context search.now.rules.now).first (S.facts search.now.state.now) ≡ true }
    requires above { AreLedTo (R.context search.now.rules.now) (S.facts search.now.state.now) first }
    ensures { let w = R.context search.now.rules.now in let fs = S.facts search.now.state.now in
        MatchOption result (holds fs second concept ≡ true → NoneAbove w fs first concept) (IsShown w fs) }
{
    if !search.state.has(second, concept) {
        return None;
    }
    find_above(search, first, concept)
}

/// A plain clash that is there since an edge of the role leads from one node to another; none exactly where there is
/// none.
pub fn find_clash_of_edge<S: State, R: Rules>(
    search: &StateWithRules<'_, S, R>,
    role: u32,
    begin: u32,
    end: u32,
) -> Option<Clash>
    requires is_node { begin < node_count_from (R.context search.now.rules.now).first (S.facts search.now.state.now) }
    ensures { let w = R.context search.now.rules.now in let fs = S.facts search.now.state.now in
        MatchOption result (NoClashByEdge w fs role begin end) (IsShown w fs) }
{
    for concept in search.state.label(end) {
        match find_by_filler(search, begin, role, *concept) {
            Some(clash) => return Some(clash),
            None => {}
        }
    }
    None
}

/// A plain clash that is there since the two nodes are apart; none exactly where there is none.
pub fn find_clash_of_apart<S: State, R: Rules>(
    search: &StateWithRules<'_, S, R>,
    first: u32,
    second: u32,
) -> Option<Clash>
    requires is_node { first < node_count_from (R.context search.now.rules.now).first (S.facts search.now.state.now) }
    requires is_other_node { second < node_count_from (R.context search.now.rules.now).first
        (S.facts search.now.state.now) }
    requires apart { kept_apart (S.facts search.now.state.now) first second ≡ true }
    requires speak { speak_of_nodes (R.context search.now.rules.now).first (S.facts search.now.state.now) ≡ true }
    requires above { AreLedTo (R.context search.now.rules.now) (S.facts search.now.state.now) first }
    ensures { let w = R.context search.now.rules.now in let fs = S.facts search.now.state.now in
        MatchOption result (NoClashByApart w fs first second) (IsShown w fs) }
{
    if search.state.representative(first) == search.state.representative(second) {
        return Some(Clash::Differ(first, second));
    }
    for concept in search.state.label(first) {
        match find_shared(search, first, second, *concept) {
            Some(clash) => return Some(clash),
            None => {}
        }
    }
    None
}

/// A plain clash that is there since the node is one with another; none exactly where there is none.
pub fn find_clash_of_join<S: State, R: Rules>(
    search: &StateWithRules<'_, S, R>,
    node: u32,
) -> Option<Clash>
    requires is_node { node < node_count_from (R.context search.now.rules.now).first (S.facts search.now.state.now) }
    requires speak { speak_of_nodes (R.context search.now.rules.now).first (S.facts search.now.state.now) ≡ true }
    requires above { AreLedTo (R.context search.now.rules.now) (S.facts search.now.state.now) node }
    ensures { let w = R.context search.now.rules.now in let fs = S.facts search.now.state.now in
        MatchOption result (NoClashByJoin w fs node) (IsShown w fs) }
{
    if are_apart(search, node, node) {
        return Some(Clash::Differ(node, node));
    }
    for concept in search.state.label(node) {
        match find_clash(search, node, *concept) {
            Some(clash) => return Some(clash),
            None => {}
        }
    }
    None
}

// A clash at the node by one of its concepts.
fn find_by_label<S: State, R: Rules>(search: &StateWithRules<'_, S, R>, node: u32) -> Option<Clash>
    requires is_node { node < node_count_from (R.context search.now.rules.now).first (S.facts search.now.state.now) }
    ensures { let w = R.context search.now.rules.now in let fs = S.facts search.now.state.now in
        MatchOption result ((c : ℕ) → holds fs node c ≡ true → NoneByShape w fs node (shape_of w.table c))
        (IsShown w fs) }
{
    for concept in search.state.label(node) {
        match find_at_node(search, node, *concept) {
            Some(clash) => return Some(clash),
            None => {}
        }
    }
    None
}

// A clash at the node by one of its concepts, or since it is apart from itself.
fn find_anywhere_at<S: State, R: Rules>(
    search: &StateWithRules<'_, S, R>,
    node: u32,
) -> Option<Clash>
    requires is_node { node < node_count_from (R.context search.now.rules.now).first (S.facts search.now.state.now) }
    ensures { let w = R.context search.now.rules.now in let fs = S.facts search.now.state.now in
        MatchOption result (NoneAt w fs node) (IsShown w fs) }
{
    if are_apart(search, node, node) {
        return Some(Clash::Differ(node, node));
    }
    find_by_label(search, node)
}

/// A plain clash of the state; none exactly where it has none.
pub fn find_plain_clash<S: State, R: Rules>(search: &StateWithRules<'_, S, R>) -> Option<Clash>
    ensures { let w = R.context search.now.rules.now in let fs = S.facts search.now.state.now in
        MatchOption result (¬ IsPlainClash w.first (below_of w) w.table fs) (IsShown w fs) }
{
    for node in 0..count_of(search) {
        match find_anywhere_at(search, node) {
            Some(clash) => return Some(clash),
            None => {}
        }
    }
    None
}

/// What the finders show is a plain clash.
pub fn shown_clashes_are_plain()
    ensures { ShownClashesArePlain }
{}
