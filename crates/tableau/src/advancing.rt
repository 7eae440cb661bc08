// One call on the progress of a search.
ghost use Rattle.std.specs.Prelude.{◌≡◌, ◌+◌, ◌<◌, ◌^◌, ◌||◌, not, IsTrue, OnOk, IfOk, length};
ghost use Rattle.search_rules.specs.Limits.{IsInLimit};
ghost use Rattle.search_state.specs.Trail.{facts_in};
ghost use Rattle.search_rules.specs.RuleLists.{context_in};
ghost use Rattle.search_state.specs.Followed.{IsCurrent};
ghost use Rattle.search_state.specs.Progress.{IsSearching};
ghost use Rattle.tableau.specs.Inside.{IsAtQuestion, IsAdvanced, IsNotedAfter, HasNotedNew, IsSettled, goes_on};
ghost use Rattle.tableau.specs.Inside.{IsAdvancedElsewhere, IsNotedElsewhere, HasToldNew};

use crate::NoMemory;
use crate::closing::close;
use crate::search::{End, Event};
use crate::seen::SeenClasses;
use search_rules::SearchRules;
use search_state::{Progress, Rested, Stepped, Tree};
use std::alloc::{Allocator, Global};

/// Makes the next step, if there is one, and notes what it put. If it `follows`, or the search ends, it finds the
/// blocks of all nodes then.
pub(crate) fn advance<A: Allocator + Copy>(
    heap: Global,
    progress: &mut Progress<'_, A>,
    seen: &mut SeenClasses,
    rules: &SearchRules<'_>,
    follows: bool,
) -> Result<Event, NoMemory>
    requires in_limit { IsInLimit rules.now.ontology progress.old.query }
    requires set { rules.now.set.limit ≡ length rules.now.ontology.axioms }
    requires at { IsAtQuestion rules.now progress.old }
    requires searching { IsSearching (context_in rules.now) progress.old }
    requires countable { progress.old.steps + 1 < 2 ^ 64 }
    ensures advanced { IfOk result (IsAdvanced rules.now progress.old progress.new) }
    ensures noted { IfOk result (IsNotedAfter rules.now progress.old progress.new seen.old seen.new) }
    ensures current { IfOk result (λ event. IsTrue (follows || not (goes_on event))
        → IsCurrent progress.new.first (facts_in progress.new.entries) progress.new.found_blocks) }
{
    let event = advance_once(heap, progress, seen, rules)?;
    if !follows && event.goes_on() {
        return Ok(event);
    }
    progress.follow()?;
    Ok(event)
}

// Makes the next step, if there is one, and notes what it put.
fn advance_once<A: Allocator + Copy>(
    heap: Global,
    progress: &mut Progress<'_, A>,
    seen: &mut SeenClasses,
    rules: &SearchRules<'_>,
) -> Result<Event, NoMemory>
    requires in_limit { IsInLimit rules.now.ontology progress.old.query }
    requires set { rules.now.set.limit ≡ length rules.now.ontology.axioms }
    requires at { IsAtQuestion rules.now progress.old }
    requires searching { IsSearching (context_in rules.now) progress.old }
    requires countable { progress.old.steps + 1 < 2 ^ 64 }
    ensures advanced { IfOk result (IsAdvanced rules.now progress.old progress.new) }
    ensures noted { IfOk result (IsNotedAfter rules.now progress.old progress.new seen.old seen.new) }
{
    let before = progress.tree().len();
    match progress.step(rules)? {
        Stepped::Moved => {
            note_new(progress.tree(), seen, rules, progress.at(), before);
            Ok(Event::Moved)
        }
        Stepped::Saturated => Ok(Event::Saturated),
        Stepped::Closed => Ok(Event::closed(close(heap, progress, rules)?)),
    }
}

/// Makes the next step that is seen elsewhere than at the node in question, if there is one, and notes what it put.
pub(crate) fn advance_elsewhere<A: Allocator + Copy>(
    heap: Global,
    progress: &mut Progress<'_, A>,
    seen: &mut SeenClasses,
    rules: &SearchRules<'_>,
) -> Result<Option<Event>, NoMemory>
    requires in_limit { IsInLimit rules.now.ontology progress.old.query }
    requires set { rules.now.set.limit ≡ length rules.now.ontology.axioms }
    requires at { IsAtQuestion rules.now progress.old }
    requires searching { IsSearching (context_in rules.now) progress.old }
    requires countable { progress.old.steps + 1 < 2 ^ 64 }
    ensures advanced { IfOk result (IsAdvancedElsewhere rules.now progress.old progress.new) }
    ensures noted { IfOk result (IsNotedElsewhere rules.now progress.old progress.new seen.old seen.new) }
{
    let before = progress.tree().len();
    let found = progress.step_elsewhere(rules)?;
    match found {
        Some(stepped) => match stepped {
            Stepped::Moved => {
                note_new(progress.tree(), seen, rules, progress.at(), before);
                Ok(Some(Event::Moved))
            }
            Stepped::Saturated => Ok(Some(Event::Saturated)),
            Stepped::Closed => Ok(Some(Event::closed(close(heap, progress, rules)?))),
        },
        None => Ok(None),
    }
}

// Notes what a step has put into a tree that had so many entries before. It stands at the tree's end: a step back puts
// a mark and a fact where longer ones may have stood.
fn note_new<A: Allocator + Copy>(
    tree: &Tree<A>,
    seen: &mut SeenClasses,
    rules: &SearchRules<'_>,
    at: u32,
    before: u32,
)
    ensures noted { HasNotedNew rules.now at before tree.now.entries seen.old seen.new }
    ensures told { HasToldNew rules.now tree.now.first at before tree.now.entries seen.old seen.new }
{
    let last = tree.len().saturating_sub(1);
    seen.note(rules, tree, at, before.min(last));
}

/// Looks whether there is a step, makes none, and finds the blocks of all nodes.
pub(crate) fn settle<A: Allocator + Copy>(
    heap: Global,
    progress: &mut Progress<'_, A>,
    rules: &SearchRules<'_>,
) -> Result<End, NoMemory>
    requires in_limit { IsInLimit rules.now.ontology progress.old.query }
    requires set { rules.now.set.limit ≡ length rules.now.ontology.axioms }
    requires at { IsAtQuestion rules.now progress.old }
    requires searching { IsSearching (context_in rules.now) progress.old }
    ensures settled { IfOk result (IsSettled rules.now progress.old progress.new) }
    ensures current { OnOk result
        (IsCurrent progress.new.first (facts_in progress.new.entries) progress.new.found_blocks) }
{
    let end = rest(heap, progress, rules)?;
    progress.follow()?;
    Ok(end)
}

// Looks whether there is a step, and makes none.
fn rest<A: Allocator + Copy>(
    heap: Global,
    progress: &mut Progress<'_, A>,
    rules: &SearchRules<'_>,
) -> Result<End, NoMemory>
    requires in_limit { IsInLimit rules.now.ontology progress.old.query }
    requires set { rules.now.set.limit ≡ length rules.now.ontology.axioms }
    requires at { IsAtQuestion rules.now progress.old }
    requires searching { IsSearching (context_in rules.now) progress.old }
    ensures { IfOk result (IsSettled rules.now progress.old progress.new) }
{
    match progress.rest(rules)? {
        Rested::CanMove => Ok(End::Spent),
        Rested::Saturated => Ok(End::Saturated),
        Rested::Closed => Ok(End::closed(close(heap, progress, rules)?)),
    }
}
