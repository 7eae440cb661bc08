// How far a search is.
ghost use Rattle.std.specs.Prelude.{◌≡◌, ◌+◌, ◌<◌, ◌≤◌, ◌^◌, [], ◌∷◌, ◌++◌, None, OnOk, IfOk, min, length, take, drop};
ghost use Rattle.calculus_specs.specs.declared.facts.Fact.TheVariants.{Has};
ghost use Rattle.calculus_specs.specs.Joins.{rep};
ghost use Rattle.calculus_specs.specs.State.{node_count_from};
ghost use Rattle.search_trace.specs.RuleLine.{line_of};
ghost use Rattle.step_agenda.specs.Trail.{facts_in};
ghost use Rattle.step_agenda.specs.Changed.{least_touched};
ghost use Rattle.step_agenda.specs.Followed.{printed_first, AreBlocksBelow, AreFirstBlocks};
ghost use Rattle.step_finders.specs.Reasons.{IsAddition};
ghost use Rattle.step_agenda.specs.Entries.{IsFit};
ghost use Rattle.step_agenda.specs.Entry.TheVariants.{Fact as Grounded, Mark};
ghost use Rattle.tableau_specs.specs.Steps.{IsAlternative};
ghost use Rattle.step_finders.specs.Choosing.{branch_of, IsChoosable};
ghost use Rattle.step_finders.specs.Giving.{IsGiving};
ghost use Rattle.step_finders.specs.Making.{IsMaking};
ghost use Rattle.step_lines.specs.Kinds.{alternative_count};
ghost use Rattle.search_state.specs.Looking.{IsLookable, IsNewLookable};
ghost use Rattle.search_state.specs.Resting.{RestsAddition, RestsGiven, RestsNewNodes, RestsChoice};
ghost use Rattle.search_state.specs.Progress.{IsStanding, IsClashOf, IsSearching, HasMoved, IsLast, IsLastNew};

use crate::NoMemory;
use crate::alternatives::with_mark;
use crate::effort::Effort;
use crate::looking::{find_clash_by, find_clash_by_new};
use crate::resting::RestingLine;
use calculus_specs::Fact;
use search_trace::Trace;
use shq_terms::Query;
use std::alloc::{Allocator, Global};
use std::marker::Model;
use step_agenda::{Agenda, Blocks, By, Choice, Tree, still_current};
use step_finders::{Addition, Choosing, Clash, Given, NewNodes, Rules};
use step_lines::{alternatives_speak_of_nodes, facts_stay_grounded, new_nodes_stay_grounded};

/// The tree of a search with the blocks that are known of its nodes, its trace, and the places of the marks.
#[derive(Drop)]
pub struct Progress<'b, A: Allocator> {
    pub(crate) heap: Global,
    pub(crate) query: &'b Query,
    pub(crate) at: u32,
    pub(crate) sub: u32,
    pub(crate) not_sup: u32,
    pub(crate) tree: Tree<A>,
    pub(crate) found_blocks: Blocks,
    pub(crate) trace: Trace,
    pub(crate) marks: Vec<u32>,
    pub(crate) clash: Option<Clash>,
    pub(crate) steps: u64,
    pub(crate) behind: bool,

    // Where a next step is looked for first, and what was done beside steps. No contract speaks of them.
    pub(crate) agenda: Agenda,
    pub(crate) effort: Effort,
}

impl<'b, A: Allocator> Model for Progress<'b, A> {
    ghost use Rattle.std.specs.Prelude.{reverse};
    ghost use Rattle.std.specs.Coded.{codes};
    ghost use Rattle.shq_terms.specs.Code.{concept_code};
    ghost use Rattle.axiom_sets.specs.contracts.deps.Deps as deps;
    ghost use Rattle.search_trace.specs.contracts.trace.Trace as traces;
    ghost use Rattle.search_state.specs.Progress.{ProgressLists};

    ghost Value = { ProgressLists };

    ghost coded = { Prim.hlevel (codes, concept_code, deps.the_row.coded, traces.the_row.coded) };

    ghost view = { λ p. record {
      query = p.query.now;
      at = p.at;
      sub = p.sub;
      not_sup = p.not_sup;
      first = p.tree.first;
      entries = p.tree.entries;
      found_blocks = p.found_blocks;
      trace = p.trace;
      marks = reverse p.marks.items;
      clash = p.clash;
      steps = p.steps;
      behind = p.behind;
    } };
}

// Keeps those blocks that stand, where those below `from` stood before the entries from `place` on were put: of all
// nodes below the least of which these entries say something new.
pub(crate) fn keep_blocks<A: Allocator + Copy>(
    tree: &Tree<A>,
    found_blocks: &mut Blocks,
    place: u32,
    from: u32,
)
    requires place { place ≤ length tree.now.entries }
    requires stood { AreBlocksBelow tree.now.first (facts_in (take place tree.now.entries)) from found_blocks.old }
    ensures kept { let first = tree.now.first in let fs = facts_in tree.now.entries in
        found_blocks.new
        ≡ printed_first
        (min from (least_touched first (rep fs) (node_count_from first fs) (facts_in (drop place tree.now.entries))))
        found_blocks.old }
    ensures first { AreFirstBlocks tree.now.first (facts_in tree.now.entries) found_blocks.new }
{
    let _count = tree.nodes();
    let still = still_current(tree, place, from);
    found_blocks.keep(tree, still);
}

impl<'b, A: Allocator + Copy> Progress<'b, A> {
    // Puts the line of an addition, and the concept that is added.
    pub(crate) fn put_addition<R: Rules>(
        &mut self,
        rules: &R,
        addition: &Addition,
        resting: RestingLine,
    ) -> Result<(), NoMemory>
        requires standing { IsStanding (R.context rules.now) self.old }
        requires none { IsClashOf (R.context rules.now) (facts_in self.old.entries) None }
        requires addition { IsAddition (R.context rules.now) (facts_in self.old.entries) (R.files rules.now)
            addition.now }
        requires rests { RestsAddition (R.context rules.now) self.old.entries addition.now.node addition.now.concept
            (line_of resting.line) resting.marks }
        requires countable { self.old.steps + 1 < 2 ^ 64 }
        ensures moved { OnOk result (HasMoved (R.context rules.now) self.old self.new) }
        ensures last { OnOk result
            (IsLast (R.context rules.now) self.new.entries (Has addition.now.node addition.now.concept)) }
    {
        let RestingLine { line, marks } = resting;
        let place = self.tree.len();
        let known = self.found_blocks.len();
        let shared = marks.try_clone()?;
        let number = self.trace.put(line, shared)?;
        let by = By {
            line: number,
            marks,
        };
        self.tree
            .add(Fact::Has(addition.node, addition.concept), by)?;
        keep_blocks(&self.tree, &mut self.found_blocks, place, known);
        facts_stay_grounded();
        self.steps += 1;
        Ok(())
    }

    // Puts the line of a given fact, and the fact.
    pub(crate) fn put_given<R: Rules>(
        &mut self,
        rules: &R,
        given: &Given,
        resting: RestingLine,
    ) -> Result<(), NoMemory>
        requires standing { IsStanding (R.context rules.now) self.old }
        requires none { IsClashOf (R.context rules.now) (facts_in self.old.entries) None }
        requires giving { IsGiving (R.context rules.now) (facts_in self.old.entries) given.now }
        requires rests { RestsGiven (R.context rules.now) self.old.entries given.now.fact (line_of resting.line)
            resting.marks }
        requires countable { self.old.steps + 1 < 2 ^ 64 }
        ensures moved { OnOk result (HasMoved (R.context rules.now) self.old self.new) }
        ensures last { OnOk result (IsLast (R.context rules.now) self.new.entries given.now.fact) }
    {
        let RestingLine { line, marks } = resting;
        let place = self.tree.len();
        let known = self.found_blocks.len();
        let shared = marks.try_clone()?;
        let number = self.trace.put(line, shared)?;
        let by = By {
            line: number,
            marks,
        };
        self.tree.add(given.fact, by)?;
        keep_blocks(&self.tree, &mut self.found_blocks, place, known);
        facts_stay_grounded();
        self.steps += 1;
        Ok(())
    }

    // Finds the plain clash that the last fact has made, if it has made one.
    pub(crate) fn look<R: Rules>(&mut self, rules: &R, fact: Fact<u32>)
        requires standing { IsStanding (R.context rules.now) self.old }
        requires last { IsLast (R.context rules.now) self.old.entries fact }
        requires lookable { IsLookable (R.context rules.now) (facts_in self.old.entries) fact }
        ensures found { IsSearching (R.context rules.now) self.new }
        ensures same { self.new ≡ record self.old { clash = self.new.clash } }
    {
        let clash = find_clash_by(&self.tree, rules, fact);
        self.clash = clash;
    }

    // Puts the line of new nodes, and their facts. Answers the first of them.
    pub(crate) fn put_new_nodes<R: Rules>(
        &mut self,
        rules: &R,
        new: &NewNodes,
        resting: RestingLine,
    ) -> Result<u32, NoMemory>
        requires standing { IsStanding (R.context rules.now) self.old }
        requires none { IsClashOf (R.context rules.now) (facts_in self.old.entries) None }
        requires making { IsMaking (R.context rules.now) (facts_in self.old.entries) new.now }
        requires rests { RestsNewNodes (R.context rules.now) self.old.entries new.now (line_of resting.line)
            resting.marks }
        requires countable { self.old.steps + 1 < 2 ^ 64 }
        ensures moved { OnOk result (HasMoved (R.context rules.now) self.old self.new) }
        ensures last { IfOk result (IsLastNew (R.context rules.now) self.new.entries new.now) }
    {
        let RestingLine { line, marks } = resting;
        let place = self.tree.len();
        let known = self.found_blocks.len();
        let shared = marks.try_clone()?;
        let number = self.trace.put(line, shared)?;
        let by = By {
            line: number,
            marks,
        };
        let first = self
            .tree
            .fresh(new.parent, new.role, new.filler, new.count, by)?;
        keep_blocks(&self.tree, &mut self.found_blocks, place, known);
        new_nodes_stay_grounded();
        self.steps += 1;
        Ok(first)
    }

    // Finds the plain clash that the last new nodes have made, if they have made one.
    pub(crate) fn look_at_new_nodes<R: Rules>(&mut self, rules: &R, new: &NewNodes, first: u32)
        requires standing { IsStanding (R.context rules.now) self.old }
        requires last { IsLastNew (R.context rules.now) self.old.entries new.now first }
        requires lookable { IsNewLookable (R.context rules.now) (facts_in self.old.entries) new.now first }
        ensures found { IsSearching (R.context rules.now) self.new }
        ensures same { self.new ≡ record self.old { clash = self.new.clash } }
    {
        let clash = find_clash_by_new(&self.tree, rules, new, first);
        self.clash = clash;
    }

    // Puts the line of a choice, its mark, and the fact of its first alternative.
    pub(crate) fn put_choice<R: Rules>(
        &mut self,
        rules: &R,
        choosing: &Choosing,
        resting: RestingLine,
        left: u32,
        fact: Fact<u32>,
    ) -> Result<(), NoMemory>
        requires standing { IsStanding (R.context rules.now) self.old }
        requires none { IsClashOf (R.context rules.now) (facts_in self.old.entries) None }
        requires choosable { IsChoosable (R.context rules.now) (facts_in self.old.entries) choosing.now }
        requires rests { RestsChoice (R.context rules.now) self.old.entries (branch_of choosing.now)
            (line_of resting.line) resting.marks }
        requires left { left + 1 ≡ alternative_count (R.context rules.now).table (branch_of choosing.now) }
        requires small { left + 1 < 2 ^ 32 }
        requires first { IsAlternative (R.context rules.now).table (branch_of choosing.now) 1 fact }
        requires fits { IsFit (node_count_from self.old.first (facts_in self.old.entries)) fact }
        requires countable { self.old.steps + 1 < 2 ^ 64 }
        ensures moved { OnOk result (HasMoved (R.context rules.now) self.old self.new) }
        ensures last { OnOk result (IsLast (R.context rules.now) self.new.entries fact) }
    {
        let RestingLine { line, marks } = resting;
        let place = self.tree.len();
        let known = self.found_blocks.len();
        let shared = marks.try_clone()?;
        let mark = self.trace.open(line, shared, left)?;
        let more = with_mark(self.heap, &marks, mark)?;
        let branch = choosing.branch();
        let choice = Choice {
            line: mark,
            branch,
            alternative: 1,
        };
        let by = By {
            line: mark,
            marks: more,
        };
        put_alternative(&mut self.tree, choice, fact, by)?;
        self.marks.push(place)?;
        keep_blocks(&self.tree, &mut self.found_blocks, place, known);
        self.agenda.put_mark()?;
        facts_stay_grounded();
        alternatives_speak_of_nodes();
        self.steps += 1;
        Ok(())
    }
}

// Puts a mark and the fact of its alternative last.
pub(crate) fn put_alternative<A: Allocator + Copy>(
    tree: &mut Tree<A>,
    choice: Choice,
    fact: Fact<u32>,
    by: By,
) -> Result<(), NoMemory>
    requires { IsFit (node_count_from tree.old.first (facts_in tree.old.entries)) fact }
    ensures { let es = tree.old.entries ++ Mark choice ∷ Grounded fact by ∷ [] in
        OnOk result (tree.new ≡ record tree.old { entries = es }) }
{
    tree.put_mark(choice)?;
    tree.add(fact, by)
}
