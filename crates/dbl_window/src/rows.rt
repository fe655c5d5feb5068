//! The part of a window's rows that a change keeps.

ghost use Rattle.std.specs.Prelude.{◌≡◌, ◌+◌, ◌≤◌, ◌++◌, ◌∷◌, [], Option, length};
ghost use Rattle.std.specs.Prelude.{slice_set, option_map, is_some, if◌then◌else◌};
ghost use Rattle.std.specs.Prelude.{true, None, IfOk, IfSome, OnOk};
ghost use Rattle.std.specs.List.{AllByRecursion};
ghost use Rattle.dbl_model_table.specs.declared.row.Key.{Key as SpecKey};
ghost use Rattle.dbl_model_table.specs.declared.table.TableInfo.{TableInfo as SpecInfo};
ghost use Rattle.dbl_model_table.specs.Infos.{column_types};
ghost use Rattle.dbl_model_table.specs.Keys.{same_key, new_key_of};
ghost use Rattle.dbl_model_table.specs.Rows.{all_given, at_keys, overlay, updated};
ghost use Rattle.dbl_model_history.specs.Fit.{IsKeyOf};
ghost use Rattle.dbl_model_history.specs.FitsInfos.{AreSentOf};
ghost use Rattle.dbl_model_history.specs.KeyBounds.{IsAbove};
ghost use Rattle.dbl_model_history.specs.KeyedRows.{AreAbove, last_key, row_in, row_left};
ghost use Rattle.dbl_model_event.specs.Snapshots.{AreInKeyOrder};
ghost use Rattle.dbl_window.specs.Changing.{FitsRow, FitsTableChange, effect_at, laid};

use crate::keys::{gives_all, key_of, new_key_of};
use dbl_base::Seq;
use dbl_model_history::is_same;
use dbl_model_table::{Cell, Change, Key, Row, TableInfo};
use dbl_value::Val;
use std::alloc::{AllocError, Global};
use std::collections::BTreeMap;

pub(crate) type HeldRows = BTreeMap<Key, Row>;

fn put_cell(values: &mut Vec<Val>, place: usize, value: Val)
    ensures { values.new.items ≡ slice_set values.old.items place value }
{
    if place < values.len() {
        values[place] = value;
    }
}

/// Sets a cell of a row to that of an update, unless it is unsent.
fn lay_cell(
    alloc: Global,
    values: &mut Vec<Val>,
    place: usize,
    cell: &Cell,
) -> Result<(), AllocError>
    ensures { OnOk result (values.new.items ≡ laid place cell.now values.old.items) }
{
    match cell {
        Cell::Given(value) => {
            put_cell(values, place, value.copy(alloc)?);
            Ok(())
        }
        Cell::Unchanged => Ok(()),
    }
}

/// The row with the cells that an update sends. The others are moved, not copied.
pub(crate) fn overlaid_row(alloc: Global, cells: &Seq<Cell>, row: Row) -> Result<Row, AllocError>
    ensures { IfOk result (λ new. new.cells ≡ overlay cells.now row.cells) }
{
    let mut values = row.cells.into_items();
    for (place, cell) in cells.items().iter().enumerate() {
        lay_cell(alloc, &mut values, place, cell)?;
    }
    Ok(Row {
        cells: Seq::make(values),
    })
}

/// For the prover alone: the length's contract says that the rows are in the order of their keys.
pub(crate) fn in_order(rows: &HeldRows)
    ensures { AreInKeyOrder rows.now.entries }
{
    let _count = rows.len();
}

/// Removes the row at a key, if there is one.
fn remove_row(rows: &mut HeldRows, key: &Key) -> Option<Row>
    ensures row { option_map (λ row. row.cells) result ≡ row_in rows.old.entries key.now }
    ensures left { (k : SpecKey) → row_in rows.new.entries k ≡
        (if same_key key.now k then None else row_in rows.old.entries k) }
    ensures fewer { length rows.new.entries + (if is_some result then 1 else 0)
        ≡ length rows.old.entries }
    ensures fit { (info : SpecInfo) → AllByRecursion (FitsRow info) rows.old.entries →
        AllByRecursion (FitsRow info) rows.new.entries
        × IfSome result (λ row. FitsRow info (key.now, row)) }
{
    rows.remove(key)
}

/// Sets the row at a key, replacing one that exists.
pub(crate) fn put_row(rows: &mut HeldRows, key: Key, row: Row) -> Result<(), AllocError>
    ensures put { OnOk result ((k : SpecKey) → row_in rows.new.entries k ≡
        (if same_key key k then Some row.cells else row_in rows.old.entries k)) }
    ensures more { length rows.new.entries ≤ length rows.old.entries + 1 }
    ensures last { (bound : Option SpecKey) → AreAbove bound rows.old.entries →
        IsAbove (last_key bound rows.old.entries) key →
        OnOk result (rows.new.entries ≡ rows.old.entries ++ (key, row) ∷ []) }
    ensures fit { (info : SpecInfo) → AllByRecursion (FitsRow info) rows.old.entries →
        FitsRow info (key, row) → AllByRecursion (FitsRow info) rows.new.entries }
{
    match rows.insert(key, row) {
        Ok(_) => Ok(()),
        Err(_) => Err(AllocError),
    }
}

/// Applies an update's cells to the row at its key, if there is one.
fn overlay_row(
    alloc: Global,
    info: &TableInfo,
    rows: &mut HeldRows,
    key: &Key,
    cells: &Seq<Cell>,
) -> Result<(), AllocError>
    requires sent { AreSentOf (column_types info.now) cells.now }
    requires key { new_key_of info.now cells.now ≡ key.now }
    requires is_key { IsKeyOf info.now key.now }
    requires rows { AllByRecursion (FitsRow info.now) rows.old.entries }
    ensures left { OnOk result ((k : SpecKey) → row_in rows.new.entries k ≡
        (if same_key key.now k then option_map (overlay cells.now) (row_in rows.old.entries k)
        else row_in rows.old.entries k)) }
    ensures few { length rows.new.entries ≤ length rows.old.entries }
    ensures fit { AllByRecursion (FitsRow info.now) rows.new.entries }
{
    match remove_row(rows, key) {
        Some(row) => {
            let row = overlaid_row(alloc, cells, row)?;
            put_row(rows, key.copy(alloc)?, row)
        }
        None => Ok(()),
    }
}

/// The effect of an update at its new key: it sets the whole row, or some of its cells.
fn give_row(
    alloc: Global,
    info: &TableInfo,
    rows: &mut HeldRows,
    to: &Key,
    cells: &Seq<Cell>,
) -> Result<(), AllocError>
    requires sent { AreSentOf (column_types info.now) cells.now }
    requires key { new_key_of info.now cells.now ≡ to.now }
    requires is_key { IsKeyOf info.now to.now }
    requires rows { AllByRecursion (FitsRow info.now) rows.old.entries }
    ensures left { OnOk result ((k : SpecKey) → row_in rows.new.entries k ≡
        (if same_key to.now k
        then row_left (updated (all_given cells.now) cells.now) (row_in rows.old.entries k)
        else row_in rows.old.entries k)) }
    ensures few { length rows.new.entries ≤ length rows.old.entries }
    ensures fit { AllByRecursion (FitsRow info.now) rows.new.entries }
{
    if gives_all(cells) {
        remove_row(rows, to);
        Ok(())
    } else {
        overlay_row(alloc, info, rows, to, cells)
    }
}

/// The effect of an update at its old key: it ends the row that it moves away.
fn leave_row(rows: &mut HeldRows, from: &Key, to: &Key)
    ensures left { (k : SpecKey) → row_in rows.new.entries k ≡
        (if same_key to.now k then row_in rows.old.entries k
        else (if same_key from.now k then None else row_in rows.old.entries k)) }
    ensures few { length rows.new.entries ≤ length rows.old.entries }
    ensures fit { (info : SpecInfo) → AllByRecursion (FitsRow info) rows.old.entries →
        AllByRecursion (FitsRow info) rows.new.entries }
{
    if !is_same(from, to) {
        remove_row(rows, from);
    }
}

fn update_rows(
    alloc: Global,
    info: &TableInfo,
    rows: &mut HeldRows,
    from: &Key,
    cells: &Seq<Cell>,
) -> Result<(), AllocError>
    requires sent { AreSentOf (column_types info.now) cells.now }
    requires key { IsKeyOf info.now (new_key_of info.now cells.now) }
    requires rows { AllByRecursion (FitsRow info.now) rows.old.entries }
    ensures left { OnOk result ((k : SpecKey) → row_in rows.new.entries k ≡
        row_left (at_keys true (same_key (new_key_of info.now cells.now) k) (same_key from.now k)
        (updated (all_given cells.now) cells.now)) (row_in rows.old.entries k)) }
    ensures few { length rows.new.entries ≤ length rows.old.entries }
    ensures fit { AllByRecursion (FitsRow info.now) rows.new.entries }
{
    let to = new_key_of(alloc, info, cells)?;
    give_row(alloc, info, rows, &to, cells)?;
    leave_row(rows, from, &to);
    Ok(())
}

/// Applies a change of the table to its rows. After out of memory some may be missing.
pub(crate) fn change_rows(
    alloc: Global,
    info: &TableInfo,
    rows: &mut HeldRows,
    change: &Change,
) -> Result<(), AllocError>
    requires fits { FitsTableChange info.now change.now }
    requires rows { AllByRecursion (FitsRow info.now) rows.old.entries }
    ensures left { OnOk result ((k : SpecKey) → row_in rows.new.entries k ≡
        row_left (effect_at info.now change.now k) (row_in rows.old.entries k)) }
    ensures few { length rows.new.entries ≤ length rows.old.entries }
    ensures fit { AllByRecursion (FitsRow info.now) rows.new.entries }
{
    match change {
        Change::Insert { table: _, row } => {
            let key = key_of(alloc, info, &row.cells)?;
            remove_row(rows, &key);
            Ok(())
        }
        Change::Update {
            table: _,
            key,
            old: _,
            cells,
        } => update_rows(alloc, info, rows, key, cells),
        Change::Delete {
            table: _,
            key,
            old: _,
        } => {
            remove_row(rows, key);
            Ok(())
        }
        Change::Clear { table: _ } => {
            rows.clear();
            Ok(())
        }
    }
}
