// Cached rows, by the numbers of their axioms and parts.
ghost use Rattle.std.specs.Prelude.{◌≡◌, nat_eq, Some, OnOk, OnErr};
ghost use Rattle.std.specs.Option.{option_copied};
ghost use Rattle.indexmap.specs.IndexMap.{IsUnchanged, Updates};
ghost use Rattle.row_cache.specs.Cache.{entry_for, cached_range_for, serving, StoresRow};

use crate::NoMemory;
use crate::cached_row::{CachedRange, CachedRow, number_list};
use indexmap::IndexMap;
use refutation_truth::NumberList;
use std::alloc::Global;

// The row of a part, with the positions for which it was made.
#[derive(Drop)]
pub(crate) struct CacheEntry {
    positions: NumberList,
    row: CachedRow,
}

// The row that is cached for the part, if it was made for these positions.
pub(crate) fn find_row<'a>(
    rows: &'a IndexMap<(u32, u32), CacheEntry>,
    axiom: u32,
    part: u32,
    positions: &[u32],
) -> Option<&'a CachedRow>
    ensures { option_copied result ≡ serving (entry_for rows.now.entries «axiom» part) positions.now }
{
    let entry = rows.get(&(axiom, part))?;
    if entry.positions.items() == positions {
        Some(&entry.row)
    } else {
        None
    }
}

// Stores a row in the place of the part's last one, or changes nothing.
pub(crate) fn store_row(
    alloc: Global,
    rows: &mut IndexMap<(u32, u32), CacheEntry>,
    axiom: u32,
    part: u32,
    positions: &[u32],
    row: &CachedRow,
) -> Result<(), NoMemory>
    ensures stored { OnOk result (StoresRow rows.old rows.new «axiom» part positions.now row.now) }
    ensures unchanged { OnErr result (IsUnchanged rows.old rows.new) }
{
    let entry = CacheEntry {
        positions: number_list(alloc, positions)?,
        row: row.try_clone(alloc)?,
    };
    rows.insert((axiom, part), entry)?;
    Ok(())
}

// The row that is cached for a range axiom.
pub(crate) fn find_range(ranges: &IndexMap<u32, CachedRange>, axiom: u32) -> Option<CachedRange>
    ensures { result ≡ cached_range_for ranges.now.entries «axiom» }
{
    ranges.get(&axiom).copied()
}

// Stores the row of a range axiom, or changes nothing.
pub(crate) fn store_range(
    ranges: &mut IndexMap<u32, CachedRange>,
    axiom: u32,
    row: CachedRange,
) -> Result<(), NoMemory>
    ensures stored { OnOk result (Updates nat_eq ranges.old ranges.new «axiom» (Some row)) }
    ensures unchanged { OnErr result (IsUnchanged ranges.old ranges.new) }
{
    ranges.insert(axiom, row)?;
    Ok(())
}
