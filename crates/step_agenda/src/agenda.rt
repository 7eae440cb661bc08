// The agenda: up to where a search has looked for each kind of step, and the phases of a look.
ghost use Rattle.std.specs.Prelude.{◌≡◌, IfOk, IfSome};
ghost use Rattle.step_finders.specs.Stepping.{IsStep};

use crate::NoMemory;
use crate::additions::{Reached, WantedRows, first_addition, first_general};
use crate::branchings::{Wanted, first_branching, next_union_of, node_at};
use crate::forced::first_forced;
use crate::givings::first_giving;
use crate::makings::{Held, first_below_first, first_held, first_making};
use crate::nearness::Nearness;
use crate::passed::Passed;
use crate::waiting::WaitingRows;
use crate::watched::UnionIndex;
use blocking::{Tree, least_changed};
use std::alloc::{Allocator, Global};
use step_finders::{Rules, State, StateWithBlocks, StateWithRules, Step};

// Unions of first nodes come before new nodes of other nodes until there are twice as many choices as these, and twice
// as many as when all new nodes were looked for last.
const FEW_CHOICES: usize = 16;

// A search may turn in circles once it has looked for so many steps.
const MANY_STEPS: u64 = 10_000;

// It does so if it has looked for more than so many steps to each entry of its trail.
const STEPS_AN_ENTRY: u64 = 4;

// Up to which entry of the trail, counted from 0, a search has looked for each kind of step.
#[derive(Clone, Copy, Debug, PartialEq, Eq)]
struct Cursors {
    // The last ring of given facts that is open.
    ring: usize,
    // Up to which of the given facts, by nearness, it has looked for one that does not hold yet.
    given: usize,
    // Up to which of the first nodes, by nearness, it has looked for a concept that each node gets.
    general: usize,
    // For concepts that are added.
    additions: Reached,
    // For what rows add that wait for classes, unions too, where `additions` has left these out.
    rows: Reached,
    // For unions of which all parts but one would clash at once.
    forced: u32,
    // For successors that may be one.
    pairs: u32,
    // For new nodes below first nodes, and for unions of first nodes.
    first_makings: u32,
    first_unions: u32,
    // For new nodes below the node in question.
    asked_makings: u32,
    // For new nodes below any node, and for unions of any node.
    makings: u32,
    unions: u32,
    // The node of the union that was found last, as its entry has it, if one was found.
    union_node: Option<u32>,
    // For fillers that successors may have.
    mosts: u32,
    // How many choices had been made when it last looked for all new nodes, and found none.
    choices: usize,
    // The least node that has changed since all held entries were asked in vain, as far as the first `seen` entries of
    // the trail tell. Held entries of nodes below it need not be asked again.
    touched: u32,
    seen: u32,
}

impl Cursors {
    // At the first entry.
    fn start() -> Cursors {
        Cursors {
            ring: 0,
            given: 0,
            general: 0,
            additions: Reached { place: 0, rows: 0 },
            rows: Reached { place: 0, rows: 0 },
            forced: 0,
            pairs: 0,
            first_makings: 0,
            first_unions: 0,
            asked_makings: 0,
            makings: 0,
            unions: 0,
            union_node: None,
            mosts: 0,
            choices: 0,
            touched: u32::MAX,
            seen: 0,
        }
    }

    // At the first entry of a trail of so many entries, in which all given facts hold, and whose nodes were looked at.
    fn behind(len: u32) -> Cursors {
        Cursors {
            ring: usize::MAX,
            given: usize::MAX,
            seen: len,
            ..Cursors::start()
        }
    }

    // Up to which entry it has looked for choices of this kind.
    fn choice(&self, wanted: Wanted) -> u32 {
        match wanted {
            Wanted::Pair => self.pairs,
            Wanted::Part => self.unions,
            Wanted::FirstPart => self.first_unions,
            Wanted::Most => self.mosts,
        }
    }

    fn put_choice(&mut self, wanted: Wanted, place: u32) {
        match wanted {
            Wanted::Pair => self.pairs = place,
            Wanted::Part => self.unions = place,
            Wanted::FirstPart => self.first_unions = place,
            Wanted::Most => self.mosts = place,
        }
    }

    // Up to where it has looked for concepts that these rows add, with all other additions or alone.
    fn addition(&self, wanted: WantedRows) -> Reached {
        match wanted {
            WantedRows::All | WantedRows::NoUnions => self.additions,
            WantedRows::Alone => self.rows,
        }
    }

    fn put_addition(&mut self, wanted: WantedRows, reached: Reached) {
        match wanted {
            WantedRows::All | WantedRows::NoUnions => self.additions = reached,
            WantedRows::Alone => self.rows = reached,
        }
    }
}

/// How far a search has looked for steps, and where it looked when each of its choices was made.
#[derive(Drop)]
pub struct Agenda {
    cursors: Cursors,
    // The cursors at each choice, in order.
    saved: Vec<Cursors>,
    // The entries that are never looked at.
    passed: Passed,
    // The entries that ask for nodes and were passed over since their own nodes were not clear, in order.
    held: Vec<Held>,
    // The node in question.
    at: u32,
    // In which order facts are given around it, made at the first look for a step.
    nearness: Nearness,
    waiting: WaitingRows,
    index: UnionIndex,
    // How many steps were looked for, and whether the search has turned in circles.
    steps: u64,
    has_turned: bool,
    // How many entries were looked at, each once for each kind of step.
    looks: u64,
}

impl Agenda {
    /// An agenda that has looked at nothing, of a search that asks of the first node `at`. It takes no memory of `heap`
    /// yet.
    pub fn new(heap: Global, at: u32) -> Agenda {
        Agenda {
            cursors: Cursors::start(),
            saved: Vec::new(heap),
            passed: Passed::none(),
            held: Vec::new(heap),
            at,
            nearness: Nearness::none(heap),
            waiting: WaitingRows::new(heap),
            index: UnionIndex::new(heap),
            steps: 0,
            has_turned: false,
            looks: 0,
        }
    }

    /// An agenda of a search that asks of the first node `at`, and goes on behind a given trail of `len` entries. What
    /// follows from the entries behind its start was done when that trail was made, and all given facts are among them:
    /// they are passed over.
    pub fn behind(heap: Global, at: u32, len: u32) -> Agenda {
        let mut agenda = Agenda::new(heap, at);
        agenda.cursors = Cursors::behind(len);
        agenda.passed = Passed::behind_start(len);
        agenda
    }

    /// Keeps up to where it has looked, when a choice is made.
    ///
    /// # Errors
    ///
    /// Out of memory.
    pub fn put_mark(&mut self) -> Result<(), NoMemory> {
        self.saved.push(self.cursors)?;
        Ok(())
    }

    /// Looks on from where it had looked when choice number `count`, from 1, was made: the search has gone back to it.
    pub fn back_to(&mut self, count: usize) {
        self.saved.truncate(count);
        self.cursors = match self.saved.last() {
            Some(cursors) => *cursors,
            None => Cursors::start(),
        };
        for _ in 0..self.held.len() {
            match self.held.last() {
                Some(held) if held.place >= self.cursors.makings => {
                    self.held.pop();
                }
                _ => break,
            }
        }
    }

    /// Goes past the node in question in the look for what rows give that are used at each node.
    pub fn leave_node_out(&mut self) {
        self.cursors.general = self.cursors.general.max(1);
    }

    /// Looks again at all first nodes for what such rows give, the node in question included.
    pub fn take_node_in(&mut self) {
        self.cursors.general = 0;
    }

    /// How many entries of trails were looked at, each once for each kind of step.
    pub fn looks(&self) -> u64 {
        self.looks
    }

    // Counts a look for a step over a trail of `len` entries, and notes when the search turns in circles.
    fn count_step(&mut self, len: u32) {
        self.steps = self.steps.wrapping_add(1);
        if self.steps >= MANY_STEPS && self.steps / STEPS_AN_ENTRY > u64::from(len) {
            self.has_turned = true;
        }
    }

    // Counts the entries from `from` to `to` as looked at.
    fn count_looks(&mut self, from: u32, to: u32) {
        let count = u64::from(to.saturating_sub(from)) + 1;
        self.looks = self.looks.wrapping_add(count);
    }

    /// A step that can be made whatever is blocked, if one is seen at the facts that were not looked at before. `tree`
    /// is the tree of the state of `search`.
    ///
    /// These are the phases of a look, in their order. The first phase that finds a step ends the look, with the oldest
    /// step of its kind. Given facts that are not near the node in question come after what follows from those that
    /// are, and rows that give unions to individuals come after all of these. If no given fact is near, all given facts
    /// come after all other phases.
    ///
    /// # Errors
    ///
    /// Out of memory.
    pub fn next_at_any<A: Allocator + Copy, S: State, R: Rules>(
        &mut self,
        heap: Global,
        tree: &Tree<A>,
        search: &StateWithRules<'_, S, R>,
    ) -> Result<Option<Step>, NoMemory>
        ensures { IfOk result
            (λ found. IfSome found (IsStep (R.context search.now.rules.now) (S.facts search.now.state.now)
            (R.files search.now.rules.now))) }
    {
        self.count_step(tree.len());
        if let Some(step) = self.given(heap, search)? {
            return Ok(Some(step));
        }
        if let Some(step) = self.general(search) {
            return Ok(Some(step));
        }
        let rows = self.rows_for_first_nodes();
        if let Some(step) = self.addition(tree, search, rows)? {
            return Ok(Some(step));
        }
        if let Some(step) = self.forced(tree, search)? {
            return Ok(Some(step));
        }
        if self.is_on_individual() {
            if let Some(step) = self.below_asked(heap, tree, search)? {
                return Ok(Some(step));
            }
            if let Some(step) = self.outwards(search) {
                return Ok(Some(step));
            }
            if let Some(step) = self.addition(tree, search, WantedRows::Alone)? {
                return Ok(Some(step));
            }
        }
        if let Some(step) = self.choice(heap, tree, search, Wanted::Pair)? {
            return Ok(Some(step));
        }
        if let Some(step) = self.below_first(heap, tree, search)? {
            return Ok(Some(step));
        }
        if let Some(step) = self.first_union(heap, tree, search)? {
            return Ok(Some(step));
        }
        Ok(self.next_union(tree, search))
    }

    /// A step that rests on blocks, or comes after those that do, to be asked for when [`Agenda::next_at_any`] sees
    /// none. These are the phases that come after the others.
    ///
    /// # Errors
    ///
    /// Out of memory.
    pub fn next_with_blocks<A: Allocator + Copy, S: StateWithBlocks, R: Rules>(
        &mut self,
        heap: Global,
        tree: &Tree<A>,
        search: &StateWithRules<'_, S, R>,
    ) -> Result<Option<Step>, NoMemory>
        ensures { IfOk result
            (λ found. IfSome found (IsStep (R.context search.now.rules.now) (S.facts search.now.state.now)
            (R.files search.now.rules.now))) }
    {
        if let Some(step) = self.making(heap, tree, search)? {
            return Ok(Some(step));
        }
        if let Some(step) = self.held(heap, tree, search)? {
            return Ok(Some(step));
        }
        self.cursors.choices = self.saved.len();
        if let Some(step) = self.first_union(heap, tree, search)? {
            return Ok(Some(step));
        }
        if let Some(step) = self.union(heap, tree, search)? {
            return Ok(Some(step));
        }
        if let Some(step) = self.choice(heap, tree, search, Wanted::Most)? {
            return Ok(Some(step));
        }
        Ok(self.outwards(search))
    }

    // Whether a given fact names the node in question.
    fn is_on_individual(&self) -> bool {
        self.nearness.facts_within(0) > 0
    }

    // A given fact that does not hold yet, of the rings that are open.
    fn given<S: State, R: Rules>(
        &mut self,
        heap: Global,
        search: &StateWithRules<'_, S, R>,
    ) -> Result<Option<Step>, NoMemory>
        ensures { IfOk result
            (λ found. IfSome found (IsStep (R.context search.now.rules.now) (S.facts search.now.state.now)
            (R.files search.now.rules.now))) }
    {
        if !self.nearness.is_made() {
            self.nearness = Nearness::around(heap, search.rules, self.at)?;
        }
        let to = self.nearness.facts_within(self.cursors.ring);
        let (rank, given) = first_giving(search, &self.nearness, self.cursors.given, to);
        self.cursors.given = rank;
        match given {
            Some(given) => Ok(Some(Step::Give(given))),
            None => Ok(None),
        }
    }

    // A concept that a row gives to each node, at a first node of these rings.
    fn general<S: State, R: Rules>(&mut self, search: &StateWithRules<'_, S, R>) -> Option<Step>
        ensures { IfSome result (IsStep (R.context search.now.rules.now) (S.facts search.now.state.now)
            (R.files search.now.rules.now)) }
    {
        let to = self.nearness.nodes_within(self.cursors.ring);
        let (rank, addition) = first_general(search, &self.nearness, self.cursors.general, to);
        self.cursors.general = rank;
        Some(Step::Add(addition?))
    }

    // The next given fact that does not hold yet, of any ring; the rings up to its own are open from then on. If there
    // is none, all rings are open, and a concept is looked for that a row gives to each node. If all were open before,
    // nothing is looked for.
    fn outwards<S: State, R: Rules>(&mut self, search: &StateWithRules<'_, S, R>) -> Option<Step>
        ensures { IfSome result (IsStep (R.context search.now.rules.now) (S.facts search.now.state.now)
            (R.files search.now.rules.now)) }
    {
        if self.cursors.ring >= self.nearness.ring_count() {
            return None;
        }
        let to = self.nearness.fact_count();
        let (rank, given) = first_giving(search, &self.nearness, self.cursors.given, to);
        self.cursors.given = rank;
        self.cursors.ring = self.nearness.ring_of(rank, self.cursors.ring);
        match given {
            Some(given) => Some(Step::Give(given)),
            None => self.general(search),
        }
    }

    // Which of the rows that wait for classes are used at first nodes before all given facts are put.
    fn rows_for_first_nodes(&self) -> WantedRows {
        if self.is_on_individual() {
            WantedRows::NoUnions
        } else {
            WantedRows::All
        }
    }

    // A concept that an entry adds. Of the rows that wait for classes those that are wanted are used.
    fn addition<A: Allocator + Copy, S: State, R: Rules>(
        &mut self,
        tree: &Tree<A>,
        search: &StateWithRules<'_, S, R>,
        wanted: WantedRows,
    ) -> Result<Option<Step>, NoMemory>
        ensures { IfOk result
            (λ found. IfSome found (IsStep (R.context search.now.rules.now) (S.facts search.now.state.now)
            (R.files search.now.rules.now))) }
    {
        let from = self.cursors.addition(wanted);
        let (reached, addition) = first_addition(
            tree,
            search,
            &mut self.waiting,
            wanted,
            self.passed,
            from,
        )?;
        self.count_looks(from.place, reached.place);
        self.cursors.put_addition(wanted, reached);
        match addition {
            Some(addition) => Ok(Some(Step::Add(addition))),
            None => Ok(None),
        }
    }

    // A part of a union of which all parts but one would clash at once, or such a union that a row gives.
    fn forced<A: Allocator + Copy, S: State, R: Rules>(
        &mut self,
        tree: &Tree<A>,
        search: &StateWithRules<'_, S, R>,
    ) -> Result<Option<Step>, NoMemory>
        ensures { IfOk result
            (λ found. IfSome found (IsStep (R.context search.now.rules.now) (S.facts search.now.state.now)
            (R.files search.now.rules.now))) }
    {
        let looks_at_rows = self.is_on_individual();
        self.index.look_at_rows(looks_at_rows);
        let from = self.cursors.forced;
        let (place, forced) = first_forced(tree, search, &mut self.index, self.passed, from)?;
        self.count_looks(from, place);
        self.cursors.forced = place;
        Ok(forced)
    }

    // A choice of this kind that an entry makes possible.
    fn choice<A: Allocator + Copy, S: State, R: Rules>(
        &mut self,
        heap: Global,
        tree: &Tree<A>,
        search: &StateWithRules<'_, S, R>,
        wanted: Wanted,
    ) -> Result<Option<Step>, NoMemory>
        ensures { IfOk result
            (λ found. IfSome found (IsStep (R.context search.now.rules.now) (S.facts search.now.state.now)
            (R.files search.now.rules.now))) }
    {
        let from = self.cursors.choice(wanted);
        let (place, choosing) = first_branching(heap, tree, search, wanted, self.passed, from)?;
        self.count_looks(from, place);
        self.cursors.put_choice(wanted, place);
        match choosing {
            Some(choosing) => Ok(Some(Step::Choose(choosing))),
            None => Ok(None),
        }
    }

    // New nodes below first nodes, if there are individuals. A first node is clear, whatever its label is, so these new
    // nodes are made before blocks are looked at.
    fn below_first<A: Allocator + Copy, S: State, R: Rules>(
        &mut self,
        heap: Global,
        tree: &Tree<A>,
        search: &StateWithRules<'_, S, R>,
    ) -> Result<Option<Step>, NoMemory>
        ensures { IfOk result
            (λ found. IfSome found (IsStep (R.context search.now.rules.now) (S.facts search.now.state.now)
            (R.files search.now.rules.now))) }
    {
        if search.rules.first() == 1 {
            return Ok(None);
        }
        let from = self.cursors.first_makings;
        let (place, making) = first_below_first(heap, tree, search, None, self.passed, from)?;
        self.count_looks(from, place);
        self.cursors.first_makings = place;
        match making {
            Some(new) => Ok(Some(Step::Generate(new))),
            None => Ok(None),
        }
    }

    // New nodes below the node in question, once the ring of its neighbours is open.
    fn below_asked<A: Allocator + Copy, S: State, R: Rules>(
        &mut self,
        heap: Global,
        tree: &Tree<A>,
        search: &StateWithRules<'_, S, R>,
    ) -> Result<Option<Step>, NoMemory>
        ensures { IfOk result
            (λ found. IfSome found (IsStep (R.context search.now.rules.now) (S.facts search.now.state.now)
            (R.files search.now.rules.now))) }
    {
        if self.cursors.ring == 0 {
            return Ok(None);
        }
        let from = self.cursors.asked_makings;
        let (place, making) = first_below_first(
            heap,
            tree,
            search,
            Some(self.at),
            self.passed,
            from,
        )?;
        self.count_looks(from, place);
        self.cursors.asked_makings = place;
        match making {
            Some(new) => Ok(Some(Step::Generate(new))),
            None => Ok(None),
        }
    }

    // A part of a union of a first node, if there are individuals, the search does not turn in circles, and the time to
    // look for all new nodes has not come.
    fn first_union<A: Allocator + Copy, S: State, R: Rules>(
        &mut self,
        heap: Global,
        tree: &Tree<A>,
        search: &StateWithRules<'_, S, R>,
    ) -> Result<Option<Step>, NoMemory>
        ensures { IfOk result
            (λ found. IfSome found (IsStep (R.context search.now.rules.now) (S.facts search.now.state.now)
            (R.files search.now.rules.now))) }
    {
        if search.rules.first() == 1 || self.has_turned || self.has_many_choices() {
            return Ok(None);
        }
        self.choice(heap, tree, search, Wanted::FirstPart)
    }

    // Whether the choices are many, and have doubled since it last looked for all new nodes.
    fn has_many_choices(&self) -> bool {
        self.saved.len() / 2 >= self.cursors.choices.max(FEW_CHOICES)
    }

    // A part of a further union of the node of which a union was decided last, if there are individuals and the search
    // does not turn in circles: as far as the concepts of this node stand one after the other.
    fn next_union<A: Allocator + Copy, S: State, R: Rules>(
        &mut self,
        tree: &Tree<A>,
        search: &StateWithRules<'_, S, R>,
    ) -> Option<Step>
        ensures { IfSome result (IsStep (R.context search.now.rules.now) (S.facts search.now.state.now)
            (R.files search.now.rules.now)) }
    {
        if search.rules.first() == 1 || self.has_turned {
            return None;
        }
        let from = self.cursors.unions;
        let (place, union) = next_union_of(
            tree,
            search,
            self.passed,
            self.cursors.union_node,
            from,
        );
        self.count_looks(from, place);
        self.cursors.unions = place;
        Some(Step::Choose(union?))
    }

    // New nodes below a node that is clear.
    fn making<A: Allocator + Copy, S: StateWithBlocks, R: Rules>(
        &mut self,
        heap: Global,
        tree: &Tree<A>,
        search: &StateWithRules<'_, S, R>,
    ) -> Result<Option<Step>, NoMemory>
        ensures { IfOk result
            (λ found. IfSome found (IsStep (R.context search.now.rules.now) (S.facts search.now.state.now)
            (R.files search.now.rules.now))) }
    {
        let from = self.cursors.makings;
        let (place, making) = first_making(heap, tree, search, &mut self.held, self.passed, from)?;
        self.count_looks(from, place);
        self.cursors.makings = place;
        match making {
            Some(new) => Ok(Some(Step::Generate(new))),
            None => Ok(None),
        }
    }

    // New nodes below a node that was not clear when it was looked at.
    fn held<A: Allocator + Copy, S: StateWithBlocks, R: Rules>(
        &mut self,
        heap: Global,
        tree: &Tree<A>,
        search: &StateWithRules<'_, S, R>,
    ) -> Result<Option<Step>, NoMemory>
        ensures { IfOk result
            (λ found. IfSome found (IsStep (R.context search.now.rules.now) (S.facts search.now.state.now)
            (R.files search.now.rules.now))) }
    {
        let least = least_changed(tree, self.cursors.seen.min(tree.len()));
        self.cursors.seen = tree.len();
        self.cursors.touched = self.cursors.touched.min(least);
        match first_held(heap, tree, search, &self.held, self.cursors.touched)? {
            Some(new) => Ok(Some(Step::Generate(new))),
            None => {
                self.cursors.touched = u32::MAX;
                Ok(None)
            }
        }
    }

    // A part of a union of any node.
    fn union<A: Allocator + Copy, S: State, R: Rules>(
        &mut self,
        heap: Global,
        tree: &Tree<A>,
        search: &StateWithRules<'_, S, R>,
    ) -> Result<Option<Step>, NoMemory>
        ensures { IfOk result
            (λ found. IfSome found (IsStep (R.context search.now.rules.now) (S.facts search.now.state.now)
            (R.files search.now.rules.now))) }
    {
        let step = self.choice(heap, tree, search, Wanted::Part)?;
        self.cursors.union_node = node_at(tree, self.cursors.unions);
        Ok(step)
    }
}
