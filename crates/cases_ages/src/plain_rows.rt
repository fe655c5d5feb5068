//! Rows at a point in the history by a plain walk over all changes, for one key at a time.

ghost use Rattle.std.specs.Prelude.{◌≡◌, ◌-◌, IfOk, Option, Some, None};
ghost use Rattle.std.specs.Prelude.{take, length, slice_get};
ghost use Rattle.std.specs.List.{list_all};
ghost use Rattle.std.specs.Option.{option_copied};
ghost use Rattle.dbl_model_table.specs.Infos.{key_places};
ghost use Rattle.dbl_model_table.specs.Keys.{same_key, key_at};
ghost use Rattle.dbl_model_table.specs.Rows.{all_given, updated, at_key, at_keys, overlay};
ghost use Rattle.dbl_model_table.specs.Rows.{effect_of, row_after, changes_of, rows};
ghost use Rattle.dbl_model_history.specs.PlainRows.{plain_row_cells, is_sent, row_from};
ghost use Rattle.cases_ages.specs.PlainRows.{over};

use dbl_base::Seq;
use dbl_model_history::{given_or_nulls, is_same, key_at};
use dbl_model_table::{Body, Cell, Change, Commit, Key, Row, TableInfo};
use dbl_value::Val;
use std::alloc::{AllocError, Global};

/// The indices of the key columns of a table, none if no table is captured at its index.
pub(crate) fn key_places(infos: &Vec<TableInfo>, table: u32) -> &[u32]
    ensures { result.now ≡ key_places infos.now.items table }
{
    match infos.get(table as usize) {
        Some(info) => info.key.items().as_slice(),
        None => &[],
    }
}

fn key_of_cells(
    alloc: Global,
    infos: &Vec<TableInfo>,
    table: u32,
    cells: &Seq<Val>,
) -> Result<Key, AllocError>
    ensures { IfOk result (λ key. key ≡ key_at (key_places infos.now.items table) cells.now) }
{
    key_at(alloc, key_places(infos, table), cells)
}

fn is_sent(cell: &Cell) -> bool
    ensures { result ≡ is_sent cell.now }
{
    match cell {
        Cell::Given(_) => true,
        Cell::Unchanged => false,
    }
}

/// Whether an update sends all cells.
pub(crate) fn are_sent(cells: &Seq<Cell>) -> bool
    ensures { result ≡ list_all is_sent cells.now }
{
    cells.items().iter().all(is_sent)
}

fn cell_over(alloc: Global, cells: &Seq<Cell>, i: usize, old: &Val) -> Result<Val, AllocError>
    ensures { IfOk result (λ v. v ≡ over (slice_get cells.now i) old.now) }
{
    match cells.items().get(i) {
        Some(Cell::Given(v)) => v.copy(alloc),
        Some(Cell::Unchanged) => old.copy(alloc),
        None => old.copy(alloc),
    }
}

fn overlaid_cells(alloc: Global, cells: &Seq<Cell>, row: &Seq<Val>) -> Result<Seq<Val>, AllocError>
    ensures { IfOk result (λ new. new ≡ overlay cells.now row.now) }
{
    let mut new = Vec::new(alloc);
    for (i, old) in row.items().iter().enumerate() {
        new.push(cell_over(alloc, cells, i, old)?)?;
    }
    Ok(Seq::make(new))
}

/// The effect of an update on the row at its new key.
fn row_updated(
    alloc: Global,
    cells: &Seq<Cell>,
    row: Option<Row>,
) -> Result<Option<Row>, AllocError>
    ensures { IfOk result
        (λ new. plain_row_cells new ≡ row_after (updated (all_given cells.now) cells.now)
        (plain_row_cells row)) }
{
    if are_sent(cells) {
        return Ok(Some(Row {
            cells: given_or_nulls(alloc, cells)?,
        }));
    }
    match row {
        Some(row) => Ok(Some(Row {
            cells: overlaid_cells(alloc, cells, &row.cells)?,
        })),
        None => Ok(None),
    }
}

/// The row of a table and key after one change.
fn row_changed(
    alloc: Global,
    infos: &Vec<TableInfo>,
    change: &Change,
    table: u32,
    key: &Key,
    row: Option<Row>,
) -> Result<Option<Row>, AllocError>
    ensures { IfOk result (λ new. plain_row_cells new ≡ row_after
        (effect_of infos.now.items change.now table key.now) (plain_row_cells row)) }
{
    match change {
        Change::Insert { table: t, row: new } => {
            let new_key = key_of_cells(alloc, infos, *t, &new.cells)?;
            if *t == table && is_same(&new_key, key) {
                Ok(Some(new.copy(alloc)?))
            } else {
                Ok(row)
            }
        }
        Change::Update {
            table: t,
            key: from,
            old: _,
            cells,
        } => {
            let new_cells = given_or_nulls(alloc, cells)?;
            let new_key = key_of_cells(alloc, infos, *t, &new_cells)?;
            if *t != table {
                Ok(row)
            } else if is_same(&new_key, key) {
                row_updated(alloc, cells, row)
            } else if is_same(from, key) {
                Ok(None)
            } else {
                Ok(row)
            }
        }
        Change::Delete {
            table: t,
            key: from,
            old: _,
        } => {
            if *t == table && is_same(from, key) {
                Ok(None)
            } else {
                Ok(row)
            }
        }
        Change::Clear { table: t } => { if *t == table { Ok(None) } else { Ok(row) } }
    }
}

/// The row of a table and key after the first changes of a list.
pub fn row_after_changes(
    alloc: Global,
    infos: &Vec<TableInfo>,
    changes: &Seq<Change>,
    count: u64,
    table: u32,
    key: &Key,
    row: Option<Row>,
) -> Result<Option<Row>, AllocError>
    ensures { IfOk result (λ new. plain_row_cells new ≡ row_from infos.now.items table key.now
        (plain_row_cells row) (take count changes.now)) }
{
    let mut row = row;
    for (i, change) in changes.items().iter().enumerate() {
        if i as u64 == count {
            return Ok(row);
        }
        row = row_changed(alloc, infos, change, table, key, row)?;
    }
    Ok(row)
}

/// The row of a table and key after the first changes of a commit.
pub fn row_after_commit(
    alloc: Global,
    infos: &Vec<TableInfo>,
    commit: &Commit,
    count: u64,
    table: u32,
    key: &Key,
    row: Option<Row>,
) -> Result<Option<Row>, AllocError>
    ensures { IfOk result (λ new. plain_row_cells new ≡ row_from infos.now.items table key.now
        (plain_row_cells row) (take count (changes_of commit.now))) }
{
    match &commit.body {
        Body::Changes(changes) => row_after_changes(alloc, infos, changes, count, table, key, row),
        Body::Mark(_) => Ok(row),
    }
}

/// The part of a number of changes that lies after a commit.
pub fn left_after(commit: &Commit, count: u64) -> u64
    ensures { result ≡ count - length (changes_of commit.now) }
{
    match &commit.body {
        Body::Changes(changes) => count.saturating_sub(changes.items().len() as u64),
        Body::Mark(_) => count,
    }
}

/// The row of a table and key at a point in the history. It walks over all changes.
pub fn row_at(
    alloc: Global,
    infos: &Vec<TableInfo>,
    commits: &Vec<Commit>,
    moment: u64,
    table: u32,
    key: &Key,
) -> Result<Option<Row>, AllocError>
    ensures { IfOk result
        (λ row. plain_row_cells row ≡ rows infos.now.items commits.now.items moment table key.now) }
{
    let mut row = None;
    let mut left = moment;
    for commit in commits {
        row = row_after_commit(alloc, infos, commit, left, table, key, row)?;
        left = left_after(commit, left);
    }
    Ok(row)
}
