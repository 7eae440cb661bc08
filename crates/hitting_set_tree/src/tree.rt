// The tree, depth first: the child from which most numbers are barred comes first, so each set is looked at after its
// parts.

ghost use Rattle.std.specs.Prelude.{◌≡◌, ◌+◌, ◌<◌, ◌≤◌, [], true, IfOk, OnOk, OnErr, length, slice_index_or};
ghost use Rattle.std.specs.List.{All, Contains};
ghost use Rattle.lane_sieve.specs.Sets.{DoMeet};
ghost use Rattle.axiom_sets.specs.Sets.{Limited, IsWithin};
ghost use Rattle.pinpointing_specs.specs.Smallest.{AreApart};
ghost use Rattle.pinpointing_specs.specs.Nodes.{AreNodes};
ghost use Rattle.set_questions.specs.Meaning.{Keeps, ShowsNothing};
ghost use Rattle.set_questions.specs.Asked.{Answers, IsUnknownIf};
ghost use Rattle.hitting_set_tree.specs.Territory.{IsNode, IsFrame, InNode, InFrame, Frames};
ghost use Rattle.hitting_set_tree.specs.Weight.{node_weight, frame_weight};
ghost use Rattle.hitting_set_tree.specs.Tree.{lists, IsOrdered, with_frame, others, HoldsLists, AreFrames, IsCovered};
ghost use Rattle.hitting_set_tree.specs.Tree.{IsOutstanding, IsStep, IsGrown, AddsLabel, AddsLeaf};
ghost use Rattle.hitting_set_tree.specs.Tree.{HasFoundIn, HasFoundNamed, ListsShown, KeepsAll, LooksInBudget};
ghost use Rattle.hitting_set_tree.specs.Tree.{SettlesInBudget, FailsInBudget};
ghost use Rattle.hitting_set_tree.specs.Open.{HasOpen, HasPending, IsBeside, StaysOpen, TakesPath, Closes, AsksFew};
ghost use Rattle.hitting_set_tree.specs.Found.{IsFound, ListsAllShown, HasTree};

use crate::{Frame, Look, Node, frame_of, next_child};
use axiom_sets::AxiomSet;
use justification_shrink::{Shrunk, shrink};
use lane_sieve::NoMemory;
use set_questions::{Entail, Reply, place_apart, place_of_part, put_in_order, rest_of};
use std::alloc::Global;

/// What is known, and what is still to be looked at.
#[derive(Drop)]
pub struct Tree {
    /// The smallest yes-sets that were found, in the order in which a label is looked for among them.
    justifications: Vec<AxiomSet>,

    /// The same sets in the order of sets. Each is put here when it is found, so that no memory is needed once a test
    /// has ended because the budget was spent.
    ordered: Vec<AxiomSet>,
    leaves: Vec<AxiomSet>,
    frames: Vec<Frame>,

    /// The nodes of how many frames, from the first on, were taken.
    rooted: usize,
}

/// What was found.
#[derive(Drop)]
pub struct Found {
    /// The smallest yes-sets, in their order.
    pub justifications: Vec<AxiomSet>,

    /// The sets that were asked and whose rest is no yes-set.
    pub leaves: Vec<AxiomSet>,

    /// Whether the budget sufficed.
    pub finished: bool,
}

/// Lists the smallest yes-sets in their order, and leaves whose rests are no yes-sets: all of them where the budget
/// suffices. It is told as too small only where something is lacking: where some set meets each listed yes-set, and has
/// no leaf as part.
///
/// Nothing that was found is left out: each set that was shown to be a yes-set has a listed set as part, or, where the
/// budget was spent, a yes-set of which no answer says whether it is a smallest one. Each taken node is a leaf or apart
/// from a listed set, or no answer about its rest is remembered, or its rest is a yes-set that was not shrunk to the
/// end.
///
/// # Errors
/// Out of memory. The sets that were taken until then are nodes of such a tree all the same, and no more was
/// asked than goes with them. No test ended because the budget was spent: that is told without memory.
pub fn enumerate<E: Entail>(alloc: Global, entail: &mut E) -> Result<Found, NoMemory>
    requires { (E.meaning entail.old).taken ≡ [] }
    ensures keeps { Keeps (E.meaning entail.old) (E.meaning entail.new) }
    ensures same { E.origin entail.new ≡ E.origin entail.old }
    ensures found { IfOk result (IsFound (E.meaning entail.new)) }
    ensures shown { IfOk result (ListsAllShown (E.meaning entail.old) (E.meaning entail.new)) }
    ensures in_budget { IfOk result
        (λ f. LooksInBudget (E.meaning entail.old) (E.meaning entail.new) f.finished) }
    ensures begun { OnErr result (HasTree (E.meaning entail.new)) }
    ensures ran_out { OnErr result ((E.meaning entail.new).ran_out ≡ (E.meaning entail.old).ran_out) }
    ensures asked { AsksFew (E.meaning entail.new).size (E.meaning entail.old) (E.meaning entail.new) }
{
    let count = entail.count();
    let mut tree = Tree {
        justifications: Vec::new(alloc),
        ordered: Vec::new(alloc),
        leaves: Vec::new(alloc),
        frames: Vec::new(alloc),
        rooted: 0,
    };
    let root = Node {
        hit: AxiomSet::empty(alloc, count)?,
        barred: AxiomSet::empty(alloc, count)?,
    };
    let finished = grow(alloc, entail, &mut tree, root)?;
    let Tree {
        justifications: _,
        ordered,
        leaves,
        frames: _,
        rooted: _,
    } = tree;
    Ok(Found {
        justifications: ordered,
        leaves,
        finished,
    })
}

/// Looks at the root, and then at all that is ahead. Answers whether the budget sufficed.
fn grow<E: Entail>(
    alloc: Global,
    entail: &mut E,
    tree: &mut Tree,
    root: Node,
) -> Result<bool, NoMemory>
    requires node { IsNode (E.meaning entail.old).size root }
    requires listed { HoldsLists (E.meaning entail.old) (lists tree.old) }
    requires order { IsOrdered tree.old }
    requires open { HasOpen (E.meaning entail.old).taken (lists tree.old) tree.old.rooted }
    requires beside { IsBeside (E.meaning entail.old).taken (lists tree.old).frames root }
    requires covered { IsCovered (lists tree.old) (InNode root) }
    ensures keeps { Keeps (E.meaning entail.old) (E.meaning entail.new) }
    ensures same { E.origin entail.new ≡ E.origin entail.old }
    ensures closed { IfOk result (Closes (E.meaning entail.new).taken (lists tree.new)) }
    ensures grown { IfOk result (IsGrown (E.meaning entail.new) (lists tree.new)) }
    ensures shown { IfOk result
        (ListsShown (E.meaning entail.old) (E.meaning entail.new) (lists tree.new).justifications) }
    ensures order { OnOk result (IsOrdered tree.new) }
    ensures in_budget { IfOk result (LooksInBudget (E.meaning entail.old) (E.meaning entail.new)) }
    ensures begun { OnErr result (HasTree (E.meaning entail.new)) }
    ensures ran_out { OnErr result ((E.meaning entail.new).ran_out ≡ (E.meaning entail.old).ran_out) }
    ensures asked { AsksFew (E.meaning entail.old).size (E.meaning entail.old) (E.meaning entail.new) }
{
    let went_on = visit(alloc, entail, tree, root)?;
    if !went_on {
        return Ok(false);
    }
    run(alloc, entail, tree)
}

/// Looks at frames, the last one first, until none is left or the budget is spent.
fn run<E: Entail>(alloc: Global, entail: &mut E, tree: &mut Tree) -> Result<bool, NoMemory>
    requires listed { HoldsLists (E.meaning entail.old) (lists tree.old) }
    requires order { IsOrdered tree.old }
    requires open { HasOpen (E.meaning entail.old).taken (lists tree.old) tree.old.rooted }
    requires covered { IsCovered (lists tree.old) (λ _. ⊥) }
    ensures keeps { Keeps (E.meaning entail.old) (E.meaning entail.new) }
    ensures same { E.origin entail.new ≡ E.origin entail.old }
    ensures closed { IfOk result (Closes (E.meaning entail.new).taken (lists tree.new)) }
    ensures grown { IfOk result (IsGrown (E.meaning entail.new) (lists tree.new)) }
    ensures grows { OnOk result (KeepsAll (lists tree.old).justifications (lists tree.new).justifications) }
    ensures shown { IfOk result
        (ListsShown (E.meaning entail.old) (E.meaning entail.new) (lists tree.new).justifications) }
    ensures order { OnOk result (IsOrdered tree.new) }
    ensures in_budget { IfOk result (LooksInBudget (E.meaning entail.old) (E.meaning entail.new)) }
    ensures begun { OnErr result (HasTree (E.meaning entail.new)) }
    ensures ran_out { OnErr result ((E.meaning entail.new).ran_out ≡ (E.meaning entail.old).ran_out) }
    ensures asked { AsksFew (E.meaning entail.old).size (E.meaning entail.old) (E.meaning entail.new) }
{
    while let Some(frame) = tree.frames.pop() {
        let went_on = look_on(alloc, entail, tree, frame)?;
        if !went_on {
            return Ok(false);
        }
    }
    Ok(true)
}

/// Looks at the next child of a frame that was the last one, or lets go of a frame that has none.
fn look_on<E: Entail>(
    alloc: Global,
    entail: &mut E,
    tree: &mut Tree,
    mut frame: Frame,
) -> Result<bool, NoMemory>
    requires frame { IsFrame (E.meaning entail.old).size frame }
    requires listed { HoldsLists (E.meaning entail.old) (lists tree.old) }
    requires order { IsOrdered tree.old }
    requires open { HasOpen (E.meaning entail.old).taken (with_frame (lists tree.old) frame) tree.old.rooted }
    ensures keeps { Keeps (E.meaning entail.old) (E.meaning entail.new) }
    ensures same { E.origin entail.new ≡ E.origin entail.old }
    ensures open { IfOk result (StaysOpen (E.meaning entail.new).taken (lists tree.new) tree.new.rooted) }
    ensures step { IfOk result
        (IsStep (E.meaning entail.new) (lists tree.old) (lists tree.new) (InFrame frame) (frame_weight frame)) }
    ensures shown { IfOk result
        (ListsShown (E.meaning entail.old) (E.meaning entail.new) (lists tree.new).justifications) }
    ensures order { OnOk result (IsOrdered tree.new) }
    ensures in_budget { IfOk result (LooksInBudget (E.meaning entail.old) (E.meaning entail.new)) }
    ensures begun { OnErr result (HasTree (E.meaning entail.new)) }
    ensures ran_out { OnErr result ((E.meaning entail.new).ran_out ≡ (E.meaning entail.old).ran_out) }
    ensures asked { AsksFew (E.meaning entail.old).size (E.meaning entail.old) (E.meaning entail.new) }
{
    match next_child(&mut frame)? {
        Look::Done => {
            tree.rooted = tree.rooted.min(tree.frames.len());
            Ok(true)
        }
        Look::Child(node) => {
            tree.frames.push(frame)?;
            let went_on = visit(alloc, entail, tree, node)?;
            Ok(went_on)
        }
    }
}

/// Looks at a node: a listed set apart from it is its label; else nothing is to be done where a known leaf is part of
/// it; else it is taken and asked.
fn visit<E: Entail>(
    alloc: Global,
    entail: &mut E,
    tree: &mut Tree,
    node: Node,
) -> Result<bool, NoMemory>
    requires node { IsNode (E.meaning entail.old).size node }
    requires listed { HoldsLists (E.meaning entail.old) (lists tree.old) }
    requires order { IsOrdered tree.old }
    requires open { HasOpen (E.meaning entail.old).taken (lists tree.old) tree.old.rooted }
    requires beside { IsBeside (E.meaning entail.old).taken (lists tree.old).frames node }
    ensures keeps { Keeps (E.meaning entail.old) (E.meaning entail.new) }
    ensures same { E.origin entail.new ≡ E.origin entail.old }
    ensures open { IfOk result (StaysOpen (E.meaning entail.new).taken (lists tree.new) tree.new.rooted) }
    ensures step { IfOk result
        (IsStep (E.meaning entail.new) (lists tree.old) (lists tree.new) (InNode node) (node_weight node)) }
    ensures shown { IfOk result
        (ListsShown (E.meaning entail.old) (E.meaning entail.new) (lists tree.new).justifications) }
    ensures order { OnOk result (IsOrdered tree.new) }
    ensures in_budget { IfOk result (LooksInBudget (E.meaning entail.old) (E.meaning entail.new)) }
    ensures begun { OnErr result (HasTree (E.meaning entail.new)) }
    ensures ran_out { OnErr result ((E.meaning entail.new).ran_out ≡ (E.meaning entail.old).ran_out) }
    ensures asked { AsksFew (E.meaning entail.old).size (E.meaning entail.old) (E.meaning entail.new) }
{
    if let Some(place) = place_apart(&tree.justifications, &node.hit) {
        let frame = frame_by(node, &tree.justifications, place)?;
        tree.frames.push(frame)?;
        return Ok(true);
    }
    if place_of_part(&tree.leaves, &node.hit).is_some() {
        return Ok(true);
    }
    take_and_ask(alloc, entail, tree, node)
}

/// The frame of a node with one of the listed sets that is apart from it.
fn frame_by(node: Node, justifications: &[AxiomSet], place: usize) -> Result<Frame, NoMemory>
    requires node { IsNode node.hit.limit node }
    requires within { place < length justifications.now }
    requires limits { All (λ s. s.limit ≡ node.hit.limit) justifications.now }
    requires apart { ¬ DoMeet (slice_index_or justifications.now place node.hit).members node.hit.members }
    ensures { IfOk result (λ f. (j : Limited) × Contains justifications.now j × Frames node j f) }
{
    let frame = frame_of(node, &justifications[place])?;
    Ok(frame)
}

/// Takes a node, after the nodes above it, and asks it.
fn take_and_ask<E: Entail>(
    alloc: Global,
    entail: &mut E,
    tree: &mut Tree,
    node: Node,
) -> Result<bool, NoMemory>
    requires node { IsNode (E.meaning entail.old).size node }
    requires listed { HoldsLists (E.meaning entail.old) (lists tree.old) }
    requires order { IsOrdered tree.old }
    requires open { HasOpen (E.meaning entail.old).taken (lists tree.old) tree.old.rooted }
    requires beside { IsBeside (E.meaning entail.old).taken (lists tree.old).frames node }
    requires outstanding { IsOutstanding (lists tree.old) node }
    ensures keeps { Keeps (E.meaning entail.old) (E.meaning entail.new) }
    ensures same { E.origin entail.new ≡ E.origin entail.old }
    ensures open { IfOk result (StaysOpen (E.meaning entail.new).taken (lists tree.new) tree.new.rooted) }
    ensures step { IfOk result
        (IsStep (E.meaning entail.new) (lists tree.old) (lists tree.new) (InNode node) (node_weight node)) }
    ensures shown { IfOk result
        (ListsShown (E.meaning entail.old) (E.meaning entail.new) (lists tree.new).justifications) }
    ensures order { OnOk result (IsOrdered tree.new) }
    ensures in_budget { IfOk result (LooksInBudget (E.meaning entail.old) (E.meaning entail.new)) }
    ensures begun { OnErr result (HasTree (E.meaning entail.new)) }
    ensures ran_out { OnErr result ((E.meaning entail.new).ran_out ≡ (E.meaning entail.old).ran_out) }
    ensures asked { AsksFew (E.meaning entail.old).size (E.meaning entail.old) (E.meaning entail.new) }
{
    let taken = take_path(entail, tree, &node)?;
    if !taken {
        return Ok(false);
    }
    ask_node(alloc, entail, tree, node)
}

/// Takes the nodes of the frames that were not taken before, from the root down, and then the node.
fn take_path<E: Entail>(entail: &mut E, tree: &Tree, node: &Node) -> Result<bool, NoMemory>
    requires node { IsNode (E.meaning entail.old).size node.now }
    requires frames { AreFrames (E.meaning entail.old).size (lists tree.now).frames }
    requires open { HasOpen (E.meaning entail.old).taken (lists tree.now) tree.now.rooted }
    requires beside { IsBeside (E.meaning entail.old).taken (lists tree.now).frames node.now }
    ensures keeps { Keeps (E.meaning entail.old) (E.meaning entail.new) }
    ensures same { E.origin entail.new ≡ E.origin entail.old }
    ensures taken { IfOk result (TakesPath (E.meaning entail.new) (lists tree.now) node.now) }
    ensures shown { ShowsNothing (E.meaning entail.old) (E.meaning entail.new) }
    ensures asks { (E.meaning entail.new).asks ≡ (E.meaning entail.old).asks }
    ensures ran_out { (E.meaning entail.new).ran_out ≡ (E.meaning entail.old).ran_out }
    ensures more { IfOk result (λ b. b ≡ true →
        length (E.meaning entail.old).taken < length (E.meaning entail.new).taken) }
    ensures begun { OnErr result (AreNodes (lists tree.now).justifications (E.meaning entail.new).taken) }
    ensures grown { length (E.meaning entail.old).taken ≤ length (E.meaning entail.new).taken }
{
    for place in tree.rooted..tree.frames.len() {
        let taken = entail.take_node(&tree.frames[place].hit)?;
        if !taken {
            return Ok(false);
        }
    }
    let taken = entail.take_node(&node.hit)?;
    Ok(taken)
}

/// Asks whether the rest of a node is a yes-set, and settles the node.
fn ask_node<E: Entail>(
    alloc: Global,
    entail: &mut E,
    tree: &mut Tree,
    node: Node,
) -> Result<bool, NoMemory>
    requires node { IsNode (E.meaning entail.old).size node }
    requires listed { HoldsLists (E.meaning entail.old) (lists tree.old) }
    requires order { IsOrdered tree.old }
    requires pending { HasPending (E.meaning entail.old).taken (lists tree.old) node }
    requires outstanding { IsOutstanding (lists tree.old) node }
    ensures keeps { Keeps (E.meaning entail.old) (E.meaning entail.new) }
    ensures same { E.origin entail.new ≡ E.origin entail.old }
    ensures taken { (E.meaning entail.new).taken ≡ (E.meaning entail.old).taken }
    ensures open { IfOk result (StaysOpen (E.meaning entail.new).taken (lists tree.new) tree.new.rooted) }
    ensures step { IfOk result
        (IsStep (E.meaning entail.new) (lists tree.old) (lists tree.new) (InNode node) (node_weight node)) }
    ensures shown { IfOk result
        (ListsShown (E.meaning entail.old) (E.meaning entail.new) (lists tree.new).justifications) }
    ensures order { OnOk result (IsOrdered tree.new) }
    ensures in_budget { IfOk result (LooksInBudget (E.meaning entail.old) (E.meaning entail.new)) }
    ensures begun { OnErr result (HasTree (E.meaning entail.new)) }
    ensures ran_out { OnErr result ((E.meaning entail.new).ran_out ≡ (E.meaning entail.old).ran_out) }
    ensures asked { (E.meaning entail.new).asks ≤ (E.meaning entail.old).asks + ((E.meaning entail.old).size + 1) }
{
    let rest = rest_of(alloc, &node.hit)?;
    let answer = entail.ask(&rest)?;
    settle(entail, tree, node, answer)
}

/// Settles a node by the answer about its rest: where that is a yes-set, a smallest one in it is the node's label, else
/// the node is a leaf.
fn settle<E: Entail>(
    entail: &mut E,
    tree: &mut Tree,
    node: Node,
    answer: Reply,
) -> Result<bool, NoMemory>
    requires node { IsNode (E.meaning entail.old).size node }
    requires within { IsWithin node.hit.limit node.hit.members }
    requires listed { HoldsLists (E.meaning entail.old) (lists tree.old) }
    requires order { IsOrdered tree.old }
    requires pending { HasPending (E.meaning entail.old).taken (lists tree.old) node }
    requires outstanding { IsOutstanding (lists tree.old) node }
    requires answer { Answers (E.meaning entail.old) (others node) answer }
    requires unknown { IsUnknownIf (E.meaning entail.old) (others node) answer }
    ensures keeps { Keeps (E.meaning entail.old) (E.meaning entail.new) }
    ensures same { E.origin entail.new ≡ E.origin entail.old }
    ensures taken { (E.meaning entail.new).taken ≡ (E.meaning entail.old).taken }
    ensures open { IfOk result (StaysOpen (E.meaning entail.new).taken (lists tree.new) tree.new.rooted) }
    ensures step { IfOk result
        (IsStep (E.meaning entail.new) (lists tree.old) (lists tree.new) (InNode node) (node_weight node)) }
    ensures named { IfOk result (HasFoundNamed (E.meaning entail.new) (lists tree.new).justifications answer) }
    ensures shown { IfOk result
        (ListsShown (E.meaning entail.old) (E.meaning entail.new) (lists tree.new).justifications) }
    ensures order { OnOk result (IsOrdered tree.new) }
    ensures in_budget { IfOk result (SettlesInBudget (E.meaning entail.old) (E.meaning entail.new) answer) }
    ensures begun { OnErr result (HasTree (E.meaning entail.new)) }
    ensures ran_out { OnErr result (FailsInBudget (E.meaning entail.old) (E.meaning entail.new) answer) }
    ensures asked { (E.meaning entail.new).asks ≤ (E.meaning entail.old).asks + (E.meaning entail.old).size }
{
    match answer {
        Reply::Yes(part) => label_node(entail, tree, node, &part),
        Reply::No => {
            add_leaf(tree, node)?;
            Ok(true)
        }
        Reply::Spent => Ok(false),
    }
}

/// Labels a node with a smallest yes-set in a part of its rest.
fn label_node<E: Entail>(
    entail: &mut E,
    tree: &mut Tree,
    node: Node,
    part: &AxiomSet,
) -> Result<bool, NoMemory>
    requires node { IsNode (E.meaning entail.old).size node }
    requires listed { HoldsLists (E.meaning entail.old) (lists tree.old) }
    requires order { IsOrdered tree.old }
    requires pending { HasPending (E.meaning entail.old).taken (lists tree.old) node }
    requires outstanding { IsOutstanding (lists tree.old) node }
    requires part { Answers (E.meaning entail.old) (others node) (Reply.Yes part.now) }
    ensures keeps { Keeps (E.meaning entail.old) (E.meaning entail.new) }
    ensures same { E.origin entail.new ≡ E.origin entail.old }
    ensures taken { (E.meaning entail.new).taken ≡ (E.meaning entail.old).taken }
    ensures open { IfOk result (StaysOpen (E.meaning entail.new).taken (lists tree.new) tree.new.rooted) }
    ensures step { IfOk result
        (IsStep (E.meaning entail.new) (lists tree.old) (lists tree.new) (InNode node) (node_weight node)) }
    ensures named { IfOk result (HasFoundIn (E.meaning entail.new) (lists tree.new).justifications part.now.members) }
    ensures shown { IfOk result
        (ListsShown (E.meaning entail.old) (E.meaning entail.new) (lists tree.new).justifications) }
    ensures order { OnOk result (IsOrdered tree.new) }
    ensures in_budget { IfOk result (LooksInBudget (E.meaning entail.old) (E.meaning entail.new)) }
    ensures begun { OnErr result (HasTree (E.meaning entail.new)) }
    ensures ran_out { OnErr result ((E.meaning entail.new).ran_out ≡ (E.meaning entail.old).ran_out) }
    ensures asked { (E.meaning entail.new).asks ≤ (E.meaning entail.old).asks + (E.meaning entail.old).size }
{
    match shrink(entail, part)? {
        Shrunk::Smallest(just) => {
            add_label(tree, node, just)?;
            Ok(true)
        }
        Shrunk::Spent => Ok(false),
    }
}

/// Puts the set, which is apart from the node, with the node's frame that it labels.
fn add_label(tree: &mut Tree, node: Node, just: AxiomSet) -> Result<(), NoMemory>
    requires node { IsNode node.hit.limit node }
    requires limit { just.limit ≡ node.hit.limit }
    requires apart { AreApart just.members node.hit.members }
    requires limits { (s : Limited) → Contains tree.old.justifications.items s → s.limit ≡ just.limit }
    requires order { IsOrdered tree.old }
    ensures added { OnOk result (AddsLabel (lists tree.old) (lists tree.new) tree.new.rooted node just) }
    ensures order { OnOk result (IsOrdered tree.new) }
{
    let frame = frame_of(node, &just)?;
    put_in_order(&mut tree.ordered, just.try_clone()?)?;
    tree.justifications.push(just)?;
    tree.frames.push(frame)?;
    tree.rooted = tree.frames.len();
    Ok(())
}

/// Puts the node with the leaves.
fn add_leaf(tree: &mut Tree, node: Node) -> Result<(), NoMemory>
    requires order { IsOrdered tree.old }
    ensures added { OnOk result (AddsLeaf (lists tree.old) (lists tree.new) tree.new.rooted node) }
    ensures order { OnOk result (IsOrdered tree.new) }
{
    tree.leaves.push(node.hit)?;
    tree.rooted = tree.frames.len();
    Ok(())
}
