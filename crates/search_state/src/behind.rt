// Where a search goes on behind a trail that it is given.
//
// A run of the calculus may be known before its search begins: one that gave all facts of the individuals and saturated
// them serves each query that asks nothing of them. Such a search puts the whole trail at once, counts its steps, and
// goes on. Its trace begins with all facts of that trail, which rest on no mark and on no line. So going back never
// comes to a choice that the trail has made, and lines that close everything do so from these facts on alone: they
// refute nothing, and there may be a model behind another alternative of such a choice.
ghost use Rattle.std.specs.Prelude.{◌≡◌, ◌++◌, ◌∷◌, [], OnOk, IfOk};
ghost use Rattle.calculus_specs.specs.State.{node_count_from};
ghost use Rattle.tableau_specs.specs.Reached.{start, Follows};
ghost use Rattle.tableau_specs.specs.Steps.{HasPlainClash};
ghost use Rattle.step_agenda.specs.Trail.{facts_in};
ghost use Rattle.search_state.specs.Beginning.{given_entry, given_entries, IsFitItem, AreFit};
ghost use Rattle.search_state.specs.Progress.{IsAsked};
ghost use Rattle.search_state.specs.Stepping.{IsBehind};

use crate::beginning::{on_nothing, put_start};
use crate::effort::Effort;
use crate::{NoMemory, Progress};
use search_trace::Trace;
use shq_terms::Query;
use std::alloc::{Allocator, Global};
use step_agenda::{Agenda, Blocks, Item, Tree, blocks_stay};
use step_finders::Rules;

impl<'b, A: Allocator + Copy> Progress<'b, A> {
    /// A search that goes on behind a trail: the two facts of its start, and the rest, which so many legal steps reach
    /// from these, and in which there is no plain clash.
    ///
    /// # Errors
    ///
    /// Out of memory.
    pub fn behind_in<R: Rules>(
        alloc: A,
        heap: Global,
        rules: &R,
        query: &'b Query,
        at: u32,
        sub: u32,
        not_sup: u32,
        rest: &[Item],
        steps: u64,
    ) -> Result<Progress<'b, A>, NoMemory>
        requires asked { IsAsked (R.context rules.now) query.now at sub not_sup }
        requires reached { let trail = start at sub not_sup in
            Follows (R.context rules.now) trail steps (trail ++ rest.now) }
        requires clear { ¬ HasPlainClash (R.context rules.now) (start at sub not_sup ++ rest.now) }
        ensures behind { IfOk result (IsBehind (R.context rules.now) rest.now steps) }
        ensures query { IfOk result (λ p. (p.query ≡ query.entry.now) × (p.at ≡ at)) }
        ensures numbers { IfOk result (λ p. (p.sub ≡ sub) × (p.not_sup ≡ not_sup)) }
    {
        let mut tree = Tree::new_in(alloc, rules.first())?;
        put_start(&mut tree, at, sub)?;
        put_start(&mut tree, at, not_sup)?;
        put_items(&mut tree, rest)?;
        let mut found_blocks = Blocks::new(heap);
        blocks_stay();
        found_blocks.complete(&tree)?;
        let agenda = Agenda::behind(heap, at, tree.len());
        Ok(Progress {
            heap,
            query,
            at,
            sub,
            not_sup,
            tree,
            found_blocks,
            trace: Trace::new(heap),
            marks: Vec::new(heap),
            clash: None,
            steps,
            behind: true,
            agenda,
            effort: Effort::new(),
        })
    }
}

// Puts the items of a trail last. Its facts rest on nothing.
fn put_items<A: Allocator + Copy>(tree: &mut Tree<A>, items: &[Item]) -> Result<(), NoMemory>
    requires { AreFit tree.old.first (facts_in tree.old.entries) items.now }
    ensures { let es = tree.old.entries ++ given_entries items.now in
        OnOk result (tree.new ≡ record tree.old { entries = es }) }
{
    for item in items {
        put_item(tree, *item)?;
    }
    Ok(())
}

// Puts an item of a trail last. A fact rests on nothing.
fn put_item<A: Allocator + Copy>(tree: &mut Tree<A>, item: Item) -> Result<(), NoMemory>
    requires { IsFitItem (node_count_from tree.old.first (facts_in tree.old.entries)) item }
    ensures { let es = tree.old.entries ++ given_entry item ∷ [] in
        OnOk result (tree.new ≡ record tree.old { entries = es }) }
{
    match item {
        Item::Fact(fact) => tree.add(fact, on_nothing()),
        Item::Mark(choice) => {
            tree.put_mark(choice)?;
            Ok(())
        }
    }
}
