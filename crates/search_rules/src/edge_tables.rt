// The rows that wait for nothing, and those of edges by role.
ghost use Rattle.std.specs.Prelude.{◌≡◌, ℕ, ◌++◌, ◌<◌, ◌≤◌, ◌==◌, ◌^◌, map, All, IfOk, OnOk};
ghost use Rattle.ontology_limits.specs.Paths.{is_below};
ghost use Rattle.search_rules.specs.Lists.{list_at, EdgeLists};
ghost use Rattle.search_rules.specs.Files.{plain_of, waits_for, row_if, passing_rows, rows_above, rows_among};
ghost use Rattle.search_rules.specs.Tables.{AreEdgeLists};

use crate::NoMemory;
use crate::item_list::{ItemList, list_at};
use absorption::{Row, RowTable, Trigger};
use ontology_limits::RoleBox;
use std::alloc::Global;
use std::marker::Model;
use step_finders::PlainRow;

// An end of an edge.
#[derive(Clone, Copy, Debug, PartialEq, Eq)]
pub(crate) enum Side {
    // Where it begins.
    Begin,
    // Where it ends.
    End,
}

// The rows that wait for nothing, and those of edges by role.
#[derive(Drop)]
pub(crate) struct EdgeTables {
    general: ItemList<PlainRow>,
    begins: Vec<ItemList<PlainRow>>,
    ends: Vec<ItemList<PlainRow>>,
}

impl Model for EdgeTables {
    ghost use Rattle.search_rules.specs.Lists.{EdgeLists};

    ghost Value = { EdgeLists };

    ghost view = { λ t. record { general = t.general; begins = t.begins.items; ends = t.ends.items } };
}

impl EdgeTables {
    // Those of these rows.
    pub(crate) fn build(
        alloc: Global,
        roles: &RoleBox,
        rows: &RowTable,
    ) -> Result<EdgeTables, NoMemory>
        ensures { IfOk result (AreEdgeLists (is_below roles.now) rows.now) }
    {
        let used = rows.roles(alloc)?;
        let begins = lists_of(alloc, roles, rows, &used, Side::Begin)?;
        let ends = lists_of(alloc, roles, rows, &used, Side::End)?;
        Ok(EdgeTables {
            general: plain_rows(alloc, rows.general())?,
            begins,
            ends,
        })
    }

    pub(crate) fn general(&self) -> &[PlainRow]
        ensures { result.now ≡ self.now.general }
    {
        self.general.items()
    }

    pub(crate) fn begins(&self, role: u32) -> &[PlainRow]
        ensures { result.now ≡ list_at self.now.begins role }
    {
        list_at(&self.begins, role)
    }

    pub(crate) fn ends(&self, role: u32) -> &[PlainRow]
        ensures { result.now ≡ list_at self.now.ends role }
    {
        list_at(&self.ends, role)
    }
}

fn plain_row(row: &Row) -> PlainRow
    ensures { result ≡ plain_of row.now }
{
    PlainRow {
        axiom: row.axiom,
        part: row.part,
        gives: row.concept,
    }
}

fn plain_rows(alloc: Global, rows: &[Row]) -> Result<ItemList<PlainRow>, NoMemory>
    ensures { IfOk result (λ plain. plain ≡ map plain_of rows.now) }
{
    let mut plain = ItemList::new(alloc);
    for row in rows {
        plain.push(plain_row(row))?;
    }
    Ok(plain)
}

// For each role below a limit, the rows at roles above it. From the limit on there are none.
fn lists_of(
    alloc: Global,
    roles: &RoleBox,
    rows: &RowTable,
    used: &[u32],
    side: Side,
) -> Result<Vec<ItemList<PlainRow>>, NoMemory>
    ensures { IfOk result
        (λ lists. (r : ℕ)
        → list_at lists.items r ≡ rows_among (is_below roles.now) (waits_for side) rows.now.at_roles used.now r) }
{
    let limit = limit_of(roles, used);
    let mut lists = Vec::new(alloc);
    for role in 0..limit {
        lists.push(rows_above(alloc, roles, rows, used, role as u32, side)?)?;
    }
    Ok(lists)
}

// From it on each role is below itself alone, and none of these roles.
fn limit_of(roles: &RoleBox, used: &[u32]) -> u64
    ensures outside { (r s : ℕ) → result ≤ r → is_below roles.now r s ≡ (r == s) }
    ensures unused { All (λ s. s < result) used.now }
    ensures small { result ≤ 2 ^ 32 }
{
    let mut limit = roles.role_bound() as u64;
    for role in used {
        limit = limit_above(limit, *role);
    }
    limit
}

fn limit_above(limit: u64, role: u32) -> u64
    ensures kept { limit ≤ result }
    ensures above { role < result }
    ensures small { limit ≤ 2 ^ 32 → result ≤ 2 ^ 32 }
{
    let next = role as u64 + 1;
    if limit < next { next } else { limit }
}

// The rows at those of the roles that are above the role.
fn rows_above(
    alloc: Global,
    roles: &RoleBox,
    rows: &RowTable,
    used: &[u32],
    role: u32,
    side: Side,
) -> Result<ItemList<PlainRow>, NoMemory>
    ensures { IfOk result
        (λ list. list ≡ rows_among (is_below roles.now) (waits_for side) rows.now.at_roles used.now role) }
{
    let mut list = ItemList::new(alloc);
    for upper in used {
        push_above(&mut list, roles, rows, role, *upper, side)?;
    }
    Ok(list)
}

// Puts the rows last that stand at the upper role, where it is above the role.
fn push_above(
    list: &mut ItemList<PlainRow>,
    roles: &RoleBox,
    rows: &RowTable,
    role: u32,
    upper: u32,
    side: Side,
) -> Result<(), NoMemory>
    ensures { OnOk result
        (list.new ≡ list.old ++ rows_above (is_below roles.now) (waits_for side) rows.now.at_roles role upper) }
{
    if roles.below(role, upper) {
        push_passing(list, rows.by_role(upper), side)
    } else {
        Ok(())
    }
}

// Puts those of the rows last that wait for this end of an edge.
fn push_passing(list: &mut ItemList<PlainRow>, rows: &[Row], side: Side) -> Result<(), NoMemory>
    ensures { OnOk result (list.new ≡ list.old ++ passing_rows (waits_for side) rows.now) }
{
    for row in rows {
        push_if(list, row, waits_for(&row.trigger, side))?;
    }
    Ok(())
}

fn push_if(list: &mut ItemList<PlainRow>, row: &Row, passes: bool) -> Result<(), NoMemory>
    ensures { OnOk result (list.new ≡ list.old ++ row_if passes row.now) }
{
    if passes {
        list.push(plain_row(row))
    } else {
        Ok(())
    }
}

fn waits_for(trigger: &Trigger, side: Side) -> bool
    ensures { result ≡ waits_for side trigger.now }
{
    match side {
        Side::Begin => waits_for_begin(trigger),
        Side::End => waits_for_end(trigger),
    }
}

fn waits_for_begin(trigger: &Trigger) -> bool
    ensures { result ≡ waits_for Side.Begin trigger.now }
{
    match trigger {
        Trigger::Edge(_) => true,
        _ => false,
    }
}

fn waits_for_end(trigger: &Trigger) -> bool
    ensures { result ≡ waits_for Side.End trigger.now }
{
    match trigger {
        Trigger::End(_) => true,
        _ => false,
    }
}
