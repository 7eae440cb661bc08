//! One smallest yes-set inside a given yes-set: a justification, where yes-sets are the sets of axioms that entail a
//! statement.
//!
//! The numbers are taken out one at a time, and one stays out where the answer is still yes. Minimality in this sense
//! is that of delta debugging (Andreas Zeller, "Yesterday, My Program Worked. Today, It Does Not. Why?", ESEC/FSE 1999)
//! and of QuickXplain (Ulrich Junker, "QUICKXPLAIN: Preferred Explanations and Relaxations for Over-Constrained
//! Problems", AAAI 2004), which take out blocks of numbers. Here each answer yes names a part of the asked set that
//! suffices, as a refutation names the axioms that it uses, and the search goes on inside that part; so blocks come for
//! nothing, and there are never more asks than the given set has members.
#![tactic(auto)]

ghost use Rattle.std.specs.Prelude.{◌≡◌, ◌+◌, ◌<◌, ◌≤◌, IfOk, OnErr, cond, length};
ghost use Rattle.std.specs.FinSet as set;
ghost use Rattle.axiom_sets.specs.Sets.{member_list};
ghost use Rattle.set_questions.specs.Meaning.{Keeps};
ghost use Rattle.justification_shrink.specs.Shrunk.{ShrinksTo, LosesNothing, ShrinksInBudget, Tries, TriesAbove};

use axiom_sets::AxiomSet;
use lane_sieve::NoMemory;
use set_questions::{Entail, Reply};

/// What came of shrinking a set.
#[derive(Drop)]
pub enum Shrunk {
    /// A smallest yes-set.
    Smallest(AxiomSet),
    /// The budget was spent.
    Spent,
}

/// Shrinks a yes-set to a smallest one, with at most one ask for each of its members. The result is the start itself or
/// was shown to be a yes-set. Each set that was shown to be a yes-set meanwhile has the result as part; where the
/// budget was spent, it has a yes-set as part of which no answer says whether it is a smallest one.
///
/// # Errors
/// Out of memory. The object has then answered some asks, and means what it did. No test ended because the
/// budget was spent: that is always told.
pub fn shrink<E: Entail>(entail: &mut E, start: &AxiomSet) -> Result<Shrunk, NoMemory>
    requires limit { start.now.limit ≡ (E.meaning entail.old).size }
    requires yes_set { (E.meaning entail.old).holds start.now.members }
    ensures shrunk { IfOk result (ShrinksTo (E.meaning entail.new) start.now) }
    ensures shown { IfOk result (LosesNothing (E.meaning entail.old) (E.meaning entail.new) start.now) }
    ensures asked { (E.meaning entail.new).asks ≤ (E.meaning entail.old).asks + length (member_list start.now) }
    ensures keeps { Keeps (E.meaning entail.old) (E.meaning entail.new) }
    ensures same { E.origin entail.new ≡ E.origin entail.old }
    ensures taken { (E.meaning entail.new).taken ≡ (E.meaning entail.old).taken }
    ensures in_budget { IfOk result (ShrinksInBudget (E.meaning entail.old) (E.meaning entail.new)) }
    ensures ran_out { OnErr result ((E.meaning entail.new).ran_out ≡ (E.meaning entail.old).ran_out) }
{
    let mut kept = start.try_clone()?;
    let limit = start.limit();
    for place in 0..limit {
        match try_without(entail, kept, place + 1)? {
            Shrunk::Smallest(next) => kept = next,
            Shrunk::Spent => return Ok(Shrunk::Spent),
        }
    }
    Ok(Shrunk::Smallest(kept))
}

/// What is left of a yes-set once it was tried without one of its numbers.
fn try_without<E: Entail>(
    entail: &mut E,
    mut kept: AxiomSet,
    number: u32,
) -> Result<Shrunk, NoMemory>
    requires limit { kept.limit ≡ (E.meaning entail.old).size }
    requires low { 1 ≤ number }
    requires high { number ≤ kept.limit }
    ensures tried { IfOk result (Tries (E.meaning entail.new) kept number) }
    ensures shown { IfOk result (TriesAbove (E.meaning entail.old) (E.meaning entail.new) kept number) }
    ensures asked { (E.meaning entail.new).asks ≤ (E.meaning entail.old).asks
        + cond (set.contains kept.members number) 1 0 }
    ensures keeps { Keeps (E.meaning entail.old) (E.meaning entail.new) }
    ensures same { E.origin entail.new ≡ E.origin entail.old }
    ensures taken { (E.meaning entail.new).taken ≡ (E.meaning entail.old).taken }
    ensures in_budget { IfOk result (ShrinksInBudget (E.meaning entail.old) (E.meaning entail.new)) }
    ensures ran_out { OnErr result ((E.meaning entail.new).ran_out ≡ (E.meaning entail.old).ran_out) }
{
    if !kept.has(number) {
        return Ok(Shrunk::Smallest(kept));
    }
    kept.take(number);
    match entail.ask(&kept)? {
        Reply::Yes(part) => Ok(Shrunk::Smallest(part)),
        Reply::No => {
            kept.put(number);
            Ok(Shrunk::Smallest(kept))
        }
        Reply::Spent => Ok(Shrunk::Spent),
    }
}
