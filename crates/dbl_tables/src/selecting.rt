//! Selects: committed rows in key order, whichever sessions are changing them.

ghost use Rattle.std.specs.Prelude.{◌≡◌, ◌++◌, ◌↔◌, List, Some, None, IfOk, IfSome};
ghost use Rattle.std.specs.Prelude.{IsTrue, OnOk, option_copied, option_to_list};
ghost use Rattle.std.specs.Prelude.{filter_map, take, length, nat_le};
ghost use Rattle.std.specs.BTreeMap.{IsOrdered};
ghost use Rattle.dbl_model_table.specs.Keys.{key_cmp};
ghost use Rattle.dbl_model_history.specs.Fit.{IsKeyOf};
ghost use Rattle.dbl_tables_rows.specs.declared.demo_table.DemoTable.{DemoTable};
ghost use Rattle.dbl_tables_rows.specs.Acts.{Accepted};
ghost use Rattle.dbl_tables_rows.specs.Selects.{SelectsCommitted};
ghost use Rattle.dbl_tables.specs.Shown.{rows_after_key};
ghost use Rattle.dbl_tables.specs.Stands.{Stands};

use crate::tables::{Tables, place_of};
use dbl_base::Seq;
use dbl_model_history::key_fits;
use dbl_model_table::{Key, RawRow, TableInfo, TableName};
use dbl_tables_rows::{Slot, Slots, StepError, base};
use std::alloc::{AllocError, Global};
use std::collections::btree_map::Range;
use std::ops::Bound;

fn push_committed(alloc: Global, rows: &mut Vec<RawRow>, slot: &Slot) -> Result<(), AllocError>
    ensures { OnOk result (rows.new.items ≡ rows.old.items ++ option_to_list slot.now.committed) }
{
    let Some(row) = &slot.committed else {
        return Ok(());
    };
    rows.push(row.copy(alloc)?)?;
    Ok(())
}

fn are_enough(rows: &Vec<RawRow>, limit: u32) -> bool
    ensures { result ≡ nat_le limit (length rows.now.items) }
{
    rows.len() >= limit as usize
}

// The first rows of some slots, in their order.
fn first_rows(
    alloc: Global,
    slots: Range<'_, Key, Slot>,
    limit: u32,
) -> Result<Vec<RawRow>, AllocError>
    ensures { IfOk result (λ rows. rows.items ≡
        take limit (filter_map (λ slot. slot.1.committed) slots.entry)) }
{
    let mut rows = Vec::new(alloc);
    for (_key, slot) in slots {
        if are_enough(&rows, limit) {
            return Ok(rows);
        }
        push_committed(alloc, &mut rows, slot)?;
    }
    Ok(rows)
}

fn all_rows(alloc: Global, slots: &Slots, limit: u32) -> Result<Vec<RawRow>, AllocError>
    ensures rows { IfOk result (λ rows. rows.items ≡ rows_after_key slots.now None limit) }
    ensures ordered { IsOrdered key_cmp slots.now }
{
    first_rows(alloc, slots.range(..), limit)
}

fn rows_above(
    alloc: Global,
    slots: &Slots,
    key: &Key,
    limit: u32,
) -> Result<Vec<RawRow>, AllocError>
    ensures rows { IfOk result
        (λ rows. rows.items ≡ rows_after_key slots.now (Some key.now) limit) }
    ensures ordered { IsOrdered key_cmp slots.now }
{
    first_rows(
        alloc,
        slots.range((Bound::Excluded(key), Bound::Unbounded)),
        limit,
    )
}

// The first rows of a table's slots above a key, or the first of all if there is no key.
fn rows_after_key(
    alloc: Global,
    slots: &Slots,
    above: Option<&Key>,
    limit: u32,
) -> Result<Vec<RawRow>, AllocError>
    ensures rows { IfOk result (λ rows. rows.items ≡
        rows_after_key slots.now (option_copied above.entry) limit) }
    ensures ordered { IsOrdered key_cmp slots.now }
{
    match above {
        None => all_rows(alloc, slots, limit),
        Some(key) => rows_above(alloc, slots, key, limit),
    }
}

// Whether rows can be above the bound: it is a key of the table's, or there is none.
fn is_bound_of(info: &TableInfo, above: Option<&Key>) -> bool
    ensures { IsTrue result ↔ IfSome (option_copied above.entry) (IsKeyOf info.now) }
{
    match above {
        None => true,
        Some(key) => key_fits(info, key),
    }
}

impl Tables {
    /// The first committed rows of a table above a key, in key order, or the first of all if there
    /// is no key. No row is above a key of other types than the table's.
    pub fn select(
        &self,
        table: &TableName,
        above: Option<&Key>,
        limit: u32,
    ) -> Result<Seq<RawRow>, StepError>
        ensures { (tables : List DemoTable) (past : List Accepted) → Stands tables past self.now →
            SelectsCommitted tables past table.now (option_copied above.entry) limit result }
    {
        let Some(place) = place_of(&self.tables, table) else {
            return Err(StepError::UnknownTable);
        };
        let Some(rows) = self.tables.get(place) else {
            return Err(StepError::UnknownTable);
        };
        if !is_bound_of(&rows.table.info, above) {
            return Ok(Seq::make(Vec::new(self.alloc)));
        }
        Ok(Seq::make(rows_after_key(self.alloc, base(rows), above, limit)?))
    }
}
