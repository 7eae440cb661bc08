// Where a search begins.
ghost use Rattle.std.specs.Prelude.{◌≡◌, ◌<◌, [], ◌∷◌, ◌++◌, OnOk, IfOk};
ghost use Rattle.calculus_specs.specs.declared.facts.Fact.TheVariants.{Has};
ghost use Rattle.step_agenda.specs.Entry.TheVariants.{Fact as Grounded};
ghost use Rattle.step_agenda.specs.Trail.{facts_in};
ghost use Rattle.search_state.specs.Beginning.{by_start, begun_entries};
ghost use Rattle.search_state.specs.Progress.{IsAsked, IsClashOf};
ghost use Rattle.search_state.specs.Stepping.{HasBegun};

use crate::effort::Effort;
use crate::looking::find_clash_by;
use crate::{NoMemory, Progress};
use calculus_specs::Fact;
use search_trace::Trace;
use shq_terms::Query;
use std::alloc::{Allocator, Global};
use step_agenda::{Agenda, Blocks, By, Deps, Tree, blocks_stay};
use step_finders::{Clash, Rules};

impl<'b, A: Allocator + Copy> Progress<'b, A> {
    /// A search that begins, whose tree is in `alloc`. The query asks of the first node `at`, and the numbers are those
    /// of what it asks.
    ///
    /// # Errors
    ///
    /// Out of memory.
    pub fn new_in<R: Rules>(
        alloc: A,
        heap: Global,
        rules: &R,
        query: &'b Query,
        at: u32,
        sub: u32,
        not_sup: u32,
    ) -> Result<Progress<'b, A>, NoMemory>
        requires { IsAsked (R.context rules.now) query.now at sub not_sup }
        ensures begun { IfOk result (HasBegun (R.context rules.now)) }
        ensures query { IfOk result (λ p. (p.query ≡ query.entry.now) × (p.at ≡ at)) }
        ensures numbers { IfOk result (λ p. (p.sub ≡ sub) × (p.not_sup ≡ not_sup)) }
    {
        let mut tree = Tree::new_in(alloc, rules.first())?;
        put_start(&mut tree, at, sub)?;
        put_start(&mut tree, at, not_sup)?;
        let mut found_blocks = Blocks::new(heap);
        blocks_stay();
        found_blocks.complete(&tree)?;
        let clash = find_clash_at_start(&tree, rules, at, sub, not_sup);
        Ok(Progress {
            heap,
            query,
            at,
            sub,
            not_sup,
            tree,
            found_blocks,
            trace: Trace::new(heap),
            marks: Vec::new(heap),
            clash,
            steps: 0,
            behind: false,
            agenda: Agenda::new(heap, at),
            effort: Effort::new(),
        })
    }
}

// Gives the node a concept, which rests on nothing.
pub(crate) fn put_start<A: Allocator + Copy>(
    tree: &mut Tree<A>,
    node: u32,
    concept: u32,
) -> Result<(), NoMemory>
    requires { node < tree.old.first }
    ensures { let es = tree.old.entries ++ Grounded (Has node concept) by_start ∷ [] in
        OnOk result (tree.new ≡ record tree.old { entries = es }) }
{
    tree.add(Fact::Has(node, concept), on_nothing())
}

// What rests on no mark.
pub(crate) fn on_nothing() -> By
    ensures { result ≡ by_start }
{
    By {
        line: 0,
        marks: Deps::none(),
    }
}

// The plain clash that there is at the beginning, if there is one.
fn find_clash_at_start<A: Allocator + Copy, R: Rules>(
    tree: &Tree<A>,
    rules: &R,
    at: u32,
    sub: u32,
    not_sup: u32,
) -> Option<Clash>
    requires one_first { tree.now.first ≡ (R.context rules.now).first }
    requires at_first { at < tree.now.first }
    requires begun { tree.now.entries ≡ begun_entries at sub not_sup }
    ensures { IsClashOf (R.context rules.now) (facts_in tree.now.entries) result }
{
    rules.is_ready();
    match find_clash_by(tree, rules, Fact::Has(at, sub)) {
        Some(clash) => Some(clash),
        None => find_clash_by(tree, rules, Fact::Has(at, not_sup)),
    }
}
