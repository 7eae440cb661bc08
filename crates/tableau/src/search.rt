// The search: one step, runs of steps, and how they end.
ghost use Rattle.std.specs.Prelude.{◌≡◌, ◌+◌, ◌<◌, ◌≤◌, ◌^◌, [], ◌∷◌, true, false, IsTrue, ◌||◌, IfOk, OnOk, OnErr};
ghost use Rattle.std.specs.Prelude.{length};
ghost use Rattle.std.specs.Prelude.{IsSome, ℕ};
ghost use Rattle.tableau_specs.specs.Reached.{start};
ghost use Rattle.search_rules.specs.Limits.{IsInLimit};
ghost use Rattle.search_rules.specs.RuleLists.{AreNumbersOf};
ghost use Rattle.search_state.specs.Trail.{items_of};
ghost use Rattle.std.specs.List.{list_any};
ghost use Rattle.tableau_specs.specs.Items.{facts_of};
ghost use Rattle.tableau.specs.Seen.{AreOver, AreSeenIn, IsToldApart, concept_room, gives_more};
ghost use Rattle.tableau.specs.SearchState.{is_any, room_for, context_of, tree_in, IsReachedBy, HasRun, HasBegun};
ghost use Rattle.tableau.specs.SearchState.{HasAllBlocks, IsSameSearch};
ghost use Rattle.tableau.specs.SearchState.{question_of, trail_of};
ghost use Rattle.tableau.specs.Steps.{IsEvent, IsEnd, IsAtModel, ShowsApart};
ghost use Rattle.tableau.specs.Beginning.{LastMeets, IsEndAlone, IsEventElsewhere, IsEndElsewhere};
ghost use Rattle.tableau.specs.Bounds.{HasFewSteps, HasFewMarks};
ghost use Rattle.tableau.specs.Inside.{goes_on as event_goes_on, is_spent, IsHalted};
ghost use Rattle.tableau.specs.Inside.{goes_on_elsewhere, closing_event, closing_end, end_by};

use crate::advancing::{advance, advance_elsewhere, settle};
use crate::beginning::meets_other;
use crate::seen::SeenClasses;
use crate::{NoMemory, Refutation};
use axiom_sets::AxiomSet;
use search_laws::{few_marks, few_steps_without_going_back};
use search_rules::{Rules, SearchRules};
use search_state::{Blocks, Effort, Progress, Tree};
use shq_terms::{On, Query};
use std::alloc::{Allocator, Global};
use std::marker::Model;

/// What one call of [`Search::step`] did.
#[derive(Drop)]
pub enum Event {
    /// One step.
    Moved,
    /// None: the trail is saturated, and describes a counter-model.
    Saturated,
    /// None: each way is closed, and this refutation shows it.
    Closed(Refutation),
    /// None: no way is left open behind the beginning of another search, with which this one went on. There may be one
    /// by another alternative of a choice that the beginning made, so that there is no refutation.
    Lost,
}

impl Event {
    /// Whether the search goes on.
    pub(crate) fn goes_on(&self) -> bool
        ensures { result ≡ event_goes_on self.now }
    {
        matches!(self, Event::Moved)
    }

    /// What a step comes to that closes everything.
    pub(crate) fn closed(found: Option<Refutation>) -> Event
        ensures { result ≡ closing_event found }
    {
        match found {
            Some(refutation) => Event::Closed(refutation),
            None => Event::Lost,
        }
    }

    // How a run ends by this, if it does.
    fn end(self) -> Option<End>
        ensures { result ≡ end_by self }
    {
        match self {
            Event::Moved => None,
            Event::Saturated => Some(End::Saturated),
            Event::Closed(refutation) => Some(End::Closed(refutation)),
            Event::Lost => Some(End::Lost),
        }
    }
}

/// How a call of [`Search::run`] ended.
#[derive(Drop)]
pub enum End {
    /// The trail is saturated, and describes a counter-model.
    Saturated,
    /// Each way is closed, and this refutation shows it.
    Closed(Refutation),
    /// No way is left open behind the beginning of another search, with which this one went on. There may be one by
    /// another alternative of a choice that the beginning made, so that there is no refutation.
    Lost,
    /// As many steps as were allowed were made, and one more could be.
    Spent,
}

impl End {
    // Whether the steps were spent.
    fn is_spent(&self) -> bool
        ensures { result ≡ is_spent self.now }
    {
        matches!(self, End::Spent)
    }

    /// How a run ends that closes everything.
    pub(crate) fn closed(found: Option<Refutation>) -> End
        ensures { result ≡ closing_end found }
    {
        match found {
            Some(refutation) => End::Closed(refutation),
            None => End::Lost,
        }
    }
}

/// A search whether a query follows from the axioms of a set. The blocks that are known may be those of the first nodes
/// alone while steps are made, and after [`Search::run_alone`] and [`Search::run_elsewhere`] that answer none; at the
/// end of [`Search::step`] and [`Search::run`] those of all nodes are known.
#[derive(Drop)]
pub struct Search<'b, A: Allocator> {
    pub(crate) heap: Global,
    pub(crate) rules: &'b SearchRules<'b>,
    pub(crate) query: &'b Query,
    pub(crate) sub: u32,
    pub(crate) not_sup: u32,
    pub(crate) progress: Progress<'b, A>,
    pub(crate) seen: SeenClasses,
    pub(crate) steps: u64,
    pub(crate) behind: bool,
    pub(crate) ended: bool,
    pub(crate) failed: bool,
}

impl<'b, A: Allocator> Model for Search<'b, A> {
    ghost use Rattle.std.specs.Coded.{codes};
    ghost use Rattle.shq_terms.specs.Code.{concept_code};
    ghost use Rattle.axiom_sets.specs.Sets.{limited_code};
    ghost use Rattle.axiom_sets.specs.contracts.deps.Deps as deps;
    ghost use Rattle.closed_search.specs.TraceContract as traces;
    ghost use Rattle.tableau.specs.SearchState.{SearchState};

    ghost Value = { SearchState };

    ghost coded = { Prim.hlevel (codes, concept_code, limited_code, deps.the_row.coded, traces.the_row.coded) };

    ghost view = { λ s. record {
      rules = s.rules.now;
      query = s.query.now;
      sub = s.sub;
      not_sup = s.not_sup;
      first = s.progress.first;
      entries = s.progress.entries;
      found_blocks = s.progress.found_blocks;
      seen = s.seen;
      steps = s.steps;
      behind = s.behind;
      ended = s.ended;
      failed = s.failed;
    } };

    ghost use Rattle.tableau.specs.Inside.{IsKept};

    ghost invariant = { λ s. IsKept (record {
      rules = s.rules.now;
      query = s.query.now;
      sub = s.sub;
      not_sup = s.not_sup;
      first = s.progress.first;
      entries = s.progress.entries;
      found_blocks = s.progress.found_blocks;
      seen = s.seen;
      steps = s.steps;
      behind = s.behind;
      ended = s.ended;
      failed = s.failed;
    }) s.progress };
}

impl<'b, A: Allocator + Copy> Search<'b, A> {
    /// A search that begins, whose tree is in `alloc`, and all else in `heap`. The numbers are those that
    /// [`SearchRules::numbers_of`] gives for the query, and the limit of the rules' set is the count of the ontology's
    /// axioms.
    ///
    /// # Errors
    ///
    /// Out of memory.
    pub fn new_in(
        alloc: A,
        heap: Global,
        rules: &'b SearchRules<'b>,
        query: &'b Query,
        sub: u32,
        not_sup: u32,
    ) -> Result<Search<'b, A>, NoMemory>
        requires numbers { AreNumbersOf rules.now query.now sub not_sup }
        requires set { rules.now.set.limit ≡ length rules.now.ontology.axioms }
        requires in_limit { IsInLimit rules.now.ontology query.now }
        ensures begun { IfOk result (HasBegun rules.entry.now query.entry.now sub not_sup) }
        ensures current { IfOk result HasAllBlocks }
    {
        rules.is_ready();
        let _ = rules.concepts();
        let at = rules.node_in_question(query);
        let progress = Progress::new_in(alloc, heap, rules, query, at, sub, not_sup)?;
        let room = room_for(rules, query, not_sup);
        let seen = first_seen(heap, rules, progress.tree(), at, room)?;
        Ok(Search {
            heap,
            rules,
            query,
            sub,
            not_sup,
            progress,
            seen,
            steps: 0,
            behind: false,
            ended: false,
            failed: false,
        })
    }

    /// Makes the next step, if there is one.
    ///
    /// # Errors
    ///
    /// Out of memory. The search has failed and ended, and serves no more.
    pub fn step(&mut self) -> Result<Event, NoMemory>
        requires goes_on { self.old.ended ≡ false }
        requires whole { self.old.failed ≡ false }
        requires countable { self.old.steps + 1 < 2 ^ 64 }
        ensures same { IsSameSearch self.old self.new }
        ensures event { IfOk result (IsEvent self.old self.new) }
        ensures few_steps { OnOk result (HasFewSteps self.new) }
        ensures few_marks { OnOk result (HasFewMarks self.new) }
        ensures whole { OnOk result (self.new.failed ≡ false) }
        ensures failed { OnErr result (self.new.failed ≡ true) }
        ensures ended { OnErr result (self.new.ended ≡ true) }
        ensures kept { OnErr result (self.new.steps ≡ self.old.steps) }
        ensures current { self.new.failed ≡ false → HasAllBlocks self.new }
    {
        self.advance(true)
    }

    /// Makes steps until the search ends or so many are made.
    ///
    /// # Errors
    ///
    /// Out of memory. The search has failed and ended, and serves no more.
    pub fn run(&mut self, fuel: u64) -> Result<End, NoMemory>
        requires goes_on { self.old.ended ≡ false }
        requires whole { self.old.failed ≡ false }
        requires countable { self.old.steps + fuel < 2 ^ 64 }
        ensures same { IsSameSearch self.old self.new }
        ensures rises { self.old.steps ≤ self.new.steps }
        ensures within { self.new.steps ≤ self.old.steps + fuel }
        ensures end { IfOk result (IsEnd fuel self.old self.new) }
        ensures few_steps { OnOk result (HasFewSteps self.new) }
        ensures few_marks { OnOk result (HasFewMarks self.new) }
        ensures whole { OnOk result (self.new.failed ≡ false) }
        ensures failed { OnErr result (self.new.failed ≡ true) }
        ensures ended { OnErr result (self.new.ended ≡ true) }
        ensures current { self.new.failed ≡ false → HasAllBlocks self.new }
    {
        for _made in 0..fuel {
            match self.advance(false)? {
                Event::Moved => {}
                Event::Saturated => return Ok(End::Saturated),
                Event::Closed(refutation) => return Ok(End::Closed(refutation)),
                Event::Lost => return Ok(End::Lost),
            }
        }
        self.settle()
    }

    /// Makes steps until the search ends, so many are made, or another first node is met than the one in question: none
    /// is answered then.
    ///
    /// # Errors
    ///
    /// Out of memory. The search has failed and ended, and serves no more.
    pub fn run_alone(&mut self, fuel: u64) -> Result<Option<End>, NoMemory>
        requires goes_on { self.old.ended ≡ false }
        requires whole { self.old.failed ≡ false }
        requires countable { self.old.steps + fuel < 2 ^ 64 }
        ensures same { IsSameSearch self.old self.new }
        ensures rises { self.old.steps ≤ self.new.steps }
        ensures within { self.new.steps ≤ self.old.steps + fuel }
        ensures end { IfOk result (IsEndAlone fuel self.old self.new) }
        ensures few_steps { OnOk result (HasFewSteps self.new) }
        ensures few_marks { OnOk result (HasFewMarks self.new) }
        ensures whole { OnOk result (self.new.failed ≡ false) }
        ensures failed { OnErr result (self.new.failed ≡ true) }
        ensures ended { OnErr result (self.new.ended ≡ true) }
        ensures current { IfOk result (λ end. IsSome end → HasAllBlocks self.new) }
    {
        for _done in 0..fuel {
            let event = self.advance(false)?;
            match event.end() {
                Some(end) => return Ok(Some(end)),
                None => {
                    if self.has_met_other() {
                        return Ok(None);
                    }
                }
            }
        }
        let end = self.settle()?;
        Ok(Some(end))
    }

    /// Makes steps until the search ends, so many are made, or no other is seen than what a row gives the node in
    /// question that is used at each node: none is answered then, and there is no plain clash.
    ///
    /// # Errors
    ///
    /// Out of memory. The search has failed and ended, and serves no more.
    pub fn run_elsewhere(&mut self, fuel: u64) -> Result<Option<End>, NoMemory>
        requires goes_on { self.old.ended ≡ false }
        requires whole { self.old.failed ≡ false }
        requires countable { self.old.steps + fuel < 2 ^ 64 }
        ensures same { IsSameSearch self.old self.new }
        ensures rises { self.old.steps ≤ self.new.steps }
        ensures within { self.new.steps ≤ self.old.steps + fuel }
        ensures end { IfOk result (IsEndElsewhere fuel self.old self.new) }
        ensures few_steps { OnOk result (HasFewSteps self.new) }
        ensures few_marks { OnOk result (HasFewMarks self.new) }
        ensures whole { OnOk result (self.new.failed ≡ false) }
        ensures failed { OnErr result (self.new.failed ≡ true) }
        ensures ended { OnErr result (self.new.ended ≡ true) }
    {
        for _done in 0..fuel {
            let found = self.advance_elsewhere()?;
            match found {
                Some(event) => match event.end() {
                    Some(end) => return Ok(Some(end)),
                    None => {}
                },
                None => return Ok(None),
            }
        }
        let end = self.settle()?;
        Ok(Some(end))
    }

    // Makes the next step that is seen elsewhere than at the node in question, if there is one.
    fn advance_elsewhere(&mut self) -> Result<Option<Event>, NoMemory>
        requires goes_on { self.old.ended ≡ false }
        requires whole { self.old.failed ≡ false }
        requires countable { self.old.steps + 1 < 2 ^ 64 }
        ensures same { IsSameSearch self.old self.new }
        ensures event { IfOk result (IsEventElsewhere self.old self.new) }
        ensures few_steps { OnOk result (HasFewSteps self.new) }
        ensures few_marks { OnOk result (HasFewMarks self.new) }
        ensures whole { OnOk result (self.new.failed ≡ false) }
        ensures failed { OnErr result (self.new.failed ≡ true) }
        ensures ended { OnErr result (self.new.ended ≡ true) }
        ensures kept { OnErr result (self.new.steps ≡ self.old.steps) }
    {
        self.failed = true;
        self.ended = true;
        let event = advance_elsewhere(self.heap, &mut self.progress, &mut self.seen, self.rules)?;
        self.steps = self.progress.steps();
        self.ended = !goes_on_elsewhere(&event);
        self.failed = false;

        // Called for what it promises: steps and marks are few.
        self.steps();
        Ok(event)
    }

    // Whether the last item of the trail is a fact that speaks of another first node than the one in question.
    fn has_met_other(&self) -> bool
        ensures { IsTrue result
            → LastMeets (context_of self.now).first (question_of self.now).at (trail_of self.now) }
    {
        let tree = self.progress.tree();
        let len = tree.len();
        if len == 0 {
            return false;
        }
        let at = self.rules.node_in_question(self.query);
        meets_other(tree.item(len - 1), self.rules.first(), at)
    }

    // Makes the next step, if there is one. If it `follows`, or the search ends, it finds the blocks of all nodes then.
    fn advance(&mut self, follows: bool) -> Result<Event, NoMemory>
        requires goes_on { self.old.ended ≡ false }
        requires whole { self.old.failed ≡ false }
        requires countable { self.old.steps + 1 < 2 ^ 64 }
        ensures same { IsSameSearch self.old self.new }
        ensures event { IfOk result (IsEvent self.old self.new) }
        ensures few_steps { OnOk result (HasFewSteps self.new) }
        ensures few_marks { OnOk result (HasFewMarks self.new) }
        ensures whole { OnOk result (self.new.failed ≡ false) }
        ensures failed { OnErr result (self.new.failed ≡ true) }
        ensures ended { OnErr result (self.new.ended ≡ true) }
        ensures kept { OnErr result (self.new.steps ≡ self.old.steps) }
        ensures current { IsTrue (follows || self.new.ended) → self.new.failed ≡ false → HasAllBlocks self.new }
    {
        self.failed = true;
        self.ended = true;
        let event = advance(
            self.heap,
            &mut self.progress,
            &mut self.seen,
            self.rules,
            follows,
        )?;
        self.steps = self.progress.steps();
        self.ended = !event.goes_on();
        self.failed = false;

        // Called for what it promises: steps and marks are few.
        self.steps();
        Ok(event)
    }

    // Ends where no step is left, once the fuel is spent, and finds the blocks of all nodes.
    fn settle(&mut self) -> Result<End, NoMemory>
        requires goes_on { self.old.ended ≡ false }
        requires whole { self.old.failed ≡ false }
        ensures same { IsSameSearch self.old self.new }
        ensures steps { self.new.steps ≡ self.old.steps }
        ensures halted { IfOk result (IsHalted self.old self.new) }
        ensures few_steps { OnOk result (HasFewSteps self.new) }
        ensures few_marks { OnOk result (HasFewMarks self.new) }
        ensures whole { OnOk result (self.new.failed ≡ false) }
        ensures failed { OnErr result (self.new.failed ≡ true) }
        ensures ended { OnErr result (self.new.ended ≡ true) }
        ensures current { self.new.failed ≡ false → HasAllBlocks self.new }
    {
        self.failed = true;
        self.ended = true;
        let end = settle(self.heap, &mut self.progress, self.rules)?;
        self.ended = !end.is_spent();
        self.failed = false;

        // Called for what it promises: steps and marks are few.
        self.steps();
        Ok(end)
    }

    /// How many steps were made, those of a beginning from which the search went on included. They lead to the trail,
    /// and are few for the nodes and the concepts of the search until it first goes on from an alternative; so are its
    /// marks.
    pub fn steps(&self) -> u64
        ensures count { result ≡ self.now.steps }
        ensures reached { self.now.failed ≡ false → IsReachedBy self.now }
        ensures run { self.now.failed ≡ false → HasRun self.now }
        ensures few_steps { self.now.failed ≡ false → HasFewSteps self.now }
        ensures few_marks { self.now.failed ≡ false → HasFewMarks self.now }
    {
        few_steps_without_going_back();
        few_marks();
        self.steps
    }

    /// The classes of the ontology, each number greater by one, in which the query's subclass is not included, as this
    /// search shows, which has ended at a model: a search for each of them could have made the same steps. They are the
    /// classes that the run has left out. None are returned if the query is on an individual, or asks for more than
    /// whether anything is in its subclass.
    ///
    /// # Errors
    ///
    /// Out of memory.
    pub fn classes_apart(&self) -> Result<Option<AxiomSet>, NoMemory>
        requires whole { self.now.failed ≡ false }
        requires ended { IsAtModel self.now }
        ensures { IfOk result (ShowsApart self.now) }
    {
        if self.not_sup != 0 || !is_on_any(self.query) {
            return Ok(None);
        }
        let classes = self.seen.others(self.heap)?;
        Ok(Some(classes))
    }

    /// What was done beside the steps. No contract speaks of these counts.
    pub fn effort(&self) -> Effort {
        self.progress.effort()
    }

    /// Whether the search has ended: at a model, at a refutation, lost behind the beginning of another one, or since
    /// memory was refused.
    pub fn ended(&self) -> bool
        ensures { result ≡ self.now.ended }
    {
        self.ended
    }

    /// The tree, whose trail is reached by as many legal steps as were made, unless memory was refused.
    pub fn tree(&self) -> &Tree<A>
        ensures tree { result.now ≡ tree_in self.now }
        ensures first { self.now.failed ≡ false → result.now.first ≡ (context_of self.now).first }
    {
        self.progress.tree()
    }

    /// The blocks that are known: those of all nodes of the tree after the calls that promise it by a clause `current`,
    /// unless memory was refused.
    pub fn found_blocks(&self) -> &Blocks
        ensures { result.now ≡ self.now.found_blocks }
    {
        self.progress.found_blocks()
    }

    /// The rules of the search.
    pub fn rules(&self) -> &SearchRules<'b>
        ensures { result.now ≡ self.now.rules }
    {
        self.rules
    }
}

// Whether the search goes on after a step elsewhere.
fn goes_on_elsewhere(event: &Option<Event>) -> bool
    ensures { result ≡ goes_on_elsewhere event.now }
{
    match event {
        Some(event) => event.goes_on(),
        None => true,
    }
}

// What the first trail puts.
fn first_seen<A: Allocator + Copy>(
    heap: Global,
    rules: &SearchRules<'_>,
    tree: &Tree<A>,
    at: u32,
    room: u32,
) -> Result<SeenClasses, NoMemory>
    ensures over { IfOk result (AreOver room) }
    ensures seen { IfOk result (AreSeenIn at rules.now.table (items_of tree.now.entries ∷ [])) }
    ensures bare { IfOk result (λ s. list_any (gives_more at) (facts_of (items_of tree.now.entries)) ≡ false
        → s.bare ≡ true) }
    ensures told { IfOk result (λ s. (a b : ℕ) → items_of tree.now.entries ≡ start at a b
        → IsToldApart tree.now.first at rules.now.table (items_of tree.now.entries ∷ []) s) }
{
    let concepts = concept_room(rules, room);
    let mut seen = SeenClasses::new(heap, room, concepts)?;
    seen.note(rules, tree, at, 0);
    Ok(seen)
}

// Of how many concepts is noted which nodes have them: of each where classes are noted.
fn concept_room(rules: &SearchRules<'_>, room: u32) -> u32
    ensures { result ≡ concept_room room (length rules.now.table) }
{
    if room == 0 { 0 } else { rules.concepts().len() }
}

// Whether the query is on any element.
pub(crate) fn is_on_any(query: &Query) -> bool
    ensures { result ≡ is_any query.now.on }
{
    matches!(query.on, On::Any)
}

// Of how many classes is noted what a run has to do with them.
fn room_for(rules: &SearchRules<'_>, query: &Query, not_sup: u32) -> u32
    ensures { result ≡ room_for (length rules.now.ontology.classes) query.now.on not_sup }
{
    if is_on_any(query) && not_sup == 0 {
        rules.ontology().class_count()
    } else {
        0
    }
}
