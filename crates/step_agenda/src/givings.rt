// Given facts that do not hold yet.
ghost use Rattle.std.specs.Prelude.{◌≡◌, IfSome};
ghost use Rattle.step_finders.specs.Giving.{IsGiving};

use crate::nearness::Nearness;
use step_finders::{Given, Rules, State, StateWithRules, is_so};

/// The first rank from `from` on and below `to`, in the order of nearness, of a given fact that does not hold yet, and
/// that fact; or `to`.
pub(crate) fn first_giving<S: State, R: Rules>(
    search: &StateWithRules<'_, S, R>,
    nearness: &Nearness,
    from: usize,
    to: usize,
) -> (usize, Option<Given>)
    ensures { IfSome result.1 (IsGiving (R.context search.now.rules.now) (S.facts search.now.state.now)) }
{
    for rank in from..to {
        match nearness.fact(rank) {
            Some(place) => match unless_so(search, place) {
                Some(given) => return (rank, Some(given)),
                None => {}
            },
            None => {}
        }
    }
    (to, None)
}

// The given fact at a place, if it does not hold yet.
fn unless_so<S: State, R: Rules>(search: &StateWithRules<'_, S, R>, place: usize) -> Option<Given>
    ensures { IfSome result (IsGiving (R.context search.now.rules.now) (S.facts search.now.state.now)) }
{
    let given = search.rules.given();
    if place >= given.len() || is_so(search.state, given[place].fact) {
        None
    } else {
        Some(given[place])
    }
}
