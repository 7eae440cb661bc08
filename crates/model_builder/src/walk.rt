// What chains of edges lead to from an element.
ghost use Rattle.std.specs.Prelude.{◌≡◌, ℕ, ◌<◌, ◌==◌, false, OnOk, IfOk, All, length, replicate};
ghost use Rattle.model_builder.specs.Walks.{reaches, is_seen, is_waiting, IsInside, HasVisited};

use crate::NoMemory;
use shq_terms::NumberList;
use std::alloc::Global;

/// For each element whether a chain of one or more edges leads to it from the given one.
pub(crate) fn reached_from(
    alloc: Global,
    next: &[NumberList],
    from: u32,
) -> Result<Vec<bool>, NoMemory>
    requires begin { from < length next.now }
    requires inside { IsInside next.now }
    ensures long { IfOk result (λ seen. length seen.items ≡ length next.now) }
    ensures seen { IfOk result (λ seen. (y : ℕ) → is_seen seen.items y ≡ reaches next.now from y) }
{
    let mut seen = vec![in alloc; false; next.len()]?;
    walk(alloc, next, from, &mut seen)?;
    Ok(seen)
}

/// Marks what chains lead to from the element, where nothing is marked yet.
fn walk(alloc: Global, next: &[NumberList], from: u32, seen: &mut [bool]) -> Result<(), NoMemory>
    requires begin { from < length next.now }
    requires inside { IsInside next.now }
    requires none { seen.old ≡ replicate (length next.now) false }
    ensures { OnOk result ((y : ℕ) → is_seen seen.new y ≡ reaches next.now from y) }
{
    let mut waiting = Vec::new(alloc);
    waiting.push(from)?;
    while let Some(x) = waiting.pop() {
        visit(next[x as usize].items(), seen, &mut waiting)?;
    }
    Ok(())
}

/// Marks these elements as seen; those that were not wait from then on.
fn visit(ends: &[u32], seen: &mut [bool], waiting: &mut Vec<u32>) -> Result<(), NoMemory>
    requires { All (λ y. y < length seen.old) ends.now }
    ensures { OnOk result (HasVisited seen.old seen.new waiting.old.items waiting.new.items (is_waiting ends.now)) }
{
    for end in ends {
        mark(*end, seen, waiting)?;
    }
    Ok(())
}

/// Marks an element as seen; if it was not, it waits from then on.
fn mark(end: u32, seen: &mut [bool], waiting: &mut Vec<u32>) -> Result<(), NoMemory>
    requires { end < length seen.old }
    ensures { OnOk result (HasVisited seen.old seen.new waiting.old.items waiting.new.items (λ y. end == y)) }
{
    if seen[end as usize] {
        return Ok(());
    }
    waiting.push(end)?;
    seen[end as usize] = true;
    Ok(())
}
