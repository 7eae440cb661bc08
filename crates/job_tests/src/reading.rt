// Documents and sets of their axioms, for calls below the jobs.
ghost use Rattle.std.specs.Prelude.{◌≡◌, IfOk};
ghost use Rattle.std.specs.List.{All};
ghost use Rattle.ontology_limits.specs.Limits.{IsInLimit};

use axiom_sets::AxiomSet;
use ofn_reader::{Refusal, read_ontology, read_query};
use shq_terms::{NoMemory, Ontology, Query};
use std::alloc::Global;

/// A document of at most 1,000 bytes, and a query on it.
pub(crate) fn read(
    alloc: Global,
    document: &[u8],
    query: &str,
) -> Result<(Ontology, Query), Refusal>
    ensures in_limit { IfOk result (λ r. IsInLimit r.0 r.1) }
{
    if document.len() > 1000 {
        return Err(Refusal::NoMemory);
    }
    let (mut ontology, context, _) = read_ontology(alloc, document)?;
    let query = read_query(alloc, query, &mut ontology, &context)?;
    drop(context);
    Ok((ontology, query))
}

/// The set of these numbers, up to a count.
pub(crate) fn set_of(alloc: Global, count: u32, numbers: &[u32]) -> Result<AxiomSet, NoMemory>
    ensures { IfOk result (λ s. s.limit ≡ count) }
{
    let mut set = AxiomSet::empty(alloc, count)?;
    for number in numbers {
        put(&mut set, *number);
    }
    Ok(set)
}

// Puts a number in that may be a member.
fn put(set: &mut AxiomSet, number: u32)
    ensures { set.new.limit ≡ set.old.limit }
{
    if number >= 1 && number <= set.limit() {
        set.put(number);
    }
}

/// The sets of these numbers, up to a count.
pub(crate) fn sets_of(
    alloc: Global,
    count: u32,
    lists: &[&[u32]],
) -> Result<Vec<AxiomSet>, NoMemory>
    ensures { IfOk result (λ v. All (λ s. s.limit ≡ count) v.items) }
{
    let mut sets = Vec::new(alloc);
    for list in lists {
        sets.push(set_of(alloc, count, list)?)?;
    }
    Ok(sets)
}

/// Whether the sets have these numbers, in this order.
pub(crate) fn are_sets(sets: &[AxiomSet], lists: &[&[u32]]) -> bool {
    let mut are_same = sets.len() == lists.len();
    for (set, list) in sets.iter().zip(lists) {
        are_same &= set.numbers().eq(list.iter().copied());
    }
    are_same
}
