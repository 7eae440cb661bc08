// The choice of the next question.
ghost use Rattle.std.specs.Prelude.{◌≡◌, ◌+◌, ◌<◌, true, IfSome};
ghost use Rattle.std.specs.FinSet as set;
ghost use Rattle.subsumption.specs.Progress.{IsOneOf};

use crate::Relation;
use axiom_sets::AxiomSet;

/// One of the classes, whose numbers are greater by one in the set; none if the set is empty. It is looked for upwards,
/// so none of the others is known to be above it, except for classes that are equal to it; no clause says that. The
/// work is a look at the classes above each class on a way upwards. It takes no memory.
pub fn most_general(known: &Relation, classes: &AxiomSet) -> Option<u32>
    requires { classes.now.limit ≡ known.now.count + 2 }
    ensures { IsOneOf (known.now.count + 2) classes.now result }
{
    let Some(mut best) = first_class(classes) else {
        return None;
    };
    for _ in 0..classes.limit() {
        match one_beyond(classes, known.above(best), known.below(best)) {
            Some(higher) => best = higher,
            None => return Some(best),
        }
    }
    Some(best)
}

/// The same, looked for downwards, so that none of the others is known to be below it, except for equal ones.
pub fn most_specific(known: &Relation, classes: &AxiomSet) -> Option<u32>
    requires { classes.now.limit ≡ known.now.count + 2 }
    ensures { IsOneOf (known.now.count + 2) classes.now result }
{
    let Some(mut best) = first_class(classes) else {
        return None;
    };
    for _ in 0..classes.limit() {
        match one_beyond(classes, known.below(best), known.above(best)) {
            Some(lower) => best = lower,
            None => return Some(best),
        }
    }
    Some(best)
}

// The first of the classes that is among those `ahead`, and not among those `behind`.
fn one_beyond(classes: &AxiomSet, ahead: &AxiomSet, behind: &AxiomSet) -> Option<u32>
    requires ahead { ahead.now.limit ≡ classes.now.limit }
    requires behind { behind.now.limit ≡ classes.now.limit }
    ensures within { IfSome result (λ y. y < classes.now.limit) }
    ensures member { IfSome result (λ y. set.contains classes.now.members (y + 1) ≡ true) }
{
    for number in ahead.numbers() {
        if classes.has(number) && !behind.has(number) {
            return Some(number - 1);
        }
    }
    None
}

// The first class of a set, in which the numbers are greater by one.
fn first_class(classes: &AxiomSet) -> Option<u32>
    ensures { IsOneOf classes.now.limit classes.now result }
{
    let mut numbers = classes.numbers();
    match numbers.next() {
        Some(number) => Some(number - 1),
        None => None,
    }
}
