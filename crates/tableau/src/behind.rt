// A search that goes on from the beginning of another one, and one that is a beginning for others.
ghost use Rattle.std.specs.Prelude.{◌≡◌, true, false, IfOk, IfSome, length};
ghost use Rattle.search_rules.specs.Limits.{IsInLimit};
ghost use Rattle.search_rules.specs.RuleLists.{AreNumbersOf};
ghost use Rattle.tableau_specs.specs.Steps.{HasPlainClash};
ghost use Rattle.tableau.specs.SearchState.{context_of, trail_of, HasAllBlocks};
ghost use Rattle.tableau.specs.Beginning.{Serves, can_begin, can_go_on, IsBeginningOf, GoesOnFrom, GoesOnIfCan};

use crate::NoMemory;
use crate::beginning::{Beginning, can_go_on, rest_of};
use crate::search::{Search, is_on_any};
use search_rules::{Rules, SearchRules};
use search_state::Progress;
use shq_terms::Query;
use std::alloc::{Allocator, Global};

impl<'b, A: Allocator + Copy> Search<'b, A> {
    /// What this search did, which has no plain clash, as a beginning for others: its rules, and those with more
    /// numbers, are served by it. It is none where the search asks for something else than whether anything is in top
    /// and not in bottom, or ever gave the node in question more than top.
    ///
    /// # Errors
    ///
    /// Out of memory.
    pub fn beginning(&self) -> Result<Option<Beginning>, NoMemory>
        requires whole { self.now.failed ≡ false }
        requires is_clear { ¬ HasPlainClash (context_of self.now) (trail_of self.now) }
        ensures { IfOk result (IsBeginningOf self.now) }
    {
        if !self.can_begin() {
            return Ok(None);
        }
        let rest = rest_of(self.heap, self.progress.tree())?;
        let seen = self.seen.try_clone()?;
        Ok(Some(Beginning {
            rest,
            steps: self.steps,
            seen,
        }))
    }

    // Whether this search is a beginning for others.
    fn can_begin(&self) -> bool
        ensures { result ≡ can_begin self.now }
    {
        is_on_any(self.query) && (self.sub == 0 && self.not_sup == 0) && self.seen.is_bare()
    }

    /// A search that goes on from the beginning of another one over the same rules: it puts what that did behind its
    /// own start, and counts its steps. Where it closes everything it is lost, since its lines are no refutation. It is
    /// none where the query is on an individual, or a concept of its start asks for nodes, or the two clash.
    ///
    /// # Errors
    ///
    /// Out of memory.
    pub fn behind_in(
        alloc: A,
        heap: Global,
        rules: &'b SearchRules<'b>,
        query: &'b Query,
        sub: u32,
        not_sup: u32,
        beginning: &Beginning,
    ) -> Result<Option<Search<'b, A>>, NoMemory>
        requires numbers { AreNumbersOf rules.now query.now sub not_sup }
        requires set { rules.now.set.limit ≡ length rules.now.ontology.axioms }
        requires in_limit { IsInLimit rules.now.ontology query.now }
        requires serves { Serves rules.now beginning.now }
        ensures goes_on { IfOk result (GoesOnIfCan beginning.now rules.entry.now query.entry.now sub not_sup) }
        ensures current { IfOk result (λ found. IfSome found HasAllBlocks) }
    {
        if !can_go_on(rules, query, sub, not_sup) {
            return Ok(None);
        }
        let search = Search::goes_on_in(alloc, heap, rules, query, sub, not_sup, beginning)?;
        Ok(Some(search))
    }

    // A search that goes on from a beginning, where it can.
    fn goes_on_in(
        alloc: A,
        heap: Global,
        rules: &'b SearchRules<'b>,
        query: &'b Query,
        sub: u32,
        not_sup: u32,
        beginning: &Beginning,
    ) -> Result<Search<'b, A>, NoMemory>
        requires numbers { AreNumbersOf rules.now query.now sub not_sup }
        requires set { rules.now.set.limit ≡ length rules.now.ontology.axioms }
        requires in_limit { IsInLimit rules.now.ontology query.now }
        requires serves { Serves rules.now beginning.now }
        requires can { can_go_on rules.now query.now sub not_sup ≡ true }
        ensures goes_on { IfOk result (GoesOnFrom beginning.now rules.entry.now query.entry.now sub not_sup) }
        ensures current { IfOk result HasAllBlocks }
    {
        rules.is_ready();
        let _ = rules.concepts();
        let at = rules.node_in_question(query);
        let progress = Progress::behind_in(
            alloc,
            heap,
            rules,
            query,
            at,
            sub,
            not_sup,
            &beginning.rest,
            beginning.steps,
        )?;
        let seen = beginning.seen_behind(heap, rules, at, sub, not_sup)?;
        Ok(Search {
            heap,
            rules,
            query,
            sub,
            not_sup,
            progress,
            seen,
            steps: beginning.steps,
            behind: true,
            ended: false,
            failed: false,
        })
    }
}
