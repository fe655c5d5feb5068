//! The part of a row that changes keep, by a plain walk over all of them, for one key at a time.
//! Only for tests.

ghost use Rattle.std.specs.Prelude.{◌≡◌, IfOk};
ghost use Rattle.dbl_model_table.specs.Infos.{key_places};
ghost use Rattle.dbl_model_table.specs.Rows.{all_given, effect_of, updated};
ghost use Rattle.dbl_model_history.specs.KeyedRows.{row_left};
ghost use Rattle.dbl_model_history.specs.PlainRows.{plain_row_cells};
ghost use Rattle.dbl_window.specs.Changing.{left_from};

use crate::keys::gives_all;
use crate::rows::overlaid_row;
use dbl_base::Seq;
use dbl_model_history::{given_or_nulls, is_same, key_at};
use dbl_model_table::{Cell, Change, Key, Row, TableInfo};
use std::alloc::{AllocError, Global};

fn key_places(infos: &Vec<TableInfo>, table: u32) -> &[u32]
    ensures { result.now ≡ key_places infos.now.items table }
{
    match infos.get(table as usize) {
        Some(info) => info.key.items().as_slice(),
        None => &[],
    }
}

fn left_of_update(
    alloc: Global,
    cells: &Seq<Cell>,
    row: Option<Row>,
) -> Result<Option<Row>, AllocError>
    ensures { IfOk result (λ left. plain_row_cells left
        ≡ row_left (updated (all_given cells.now) cells.now) (plain_row_cells row)) }
{
    if gives_all(cells) {
        return Ok(None);
    }
    match row {
        Some(row) => Ok(Some(overlaid_row(alloc, cells, row)?)),
        None => Ok(None),
    }
}

fn left_by(
    alloc: Global,
    infos: &Vec<TableInfo>,
    change: &Change,
    table: u32,
    key: &Key,
    row: Option<Row>,
) -> Result<Option<Row>, AllocError>
    ensures { IfOk result (λ left. plain_row_cells left
        ≡ row_left (effect_of infos.now.items change.now table key.now) (plain_row_cells row)) }
{
    match change {
        Change::Insert { table: t, row: new } => {
            let new_key = key_at(alloc, key_places(infos, *t), &new.cells)?;
            if *t == table && is_same(&new_key, key) {
                Ok(None)
            } else {
                Ok(row)
            }
        }
        Change::Update {
            table: t,
            key: from,
            old: _,
            cells,
        } => {
            let new_cells = given_or_nulls(alloc, cells)?;
            let new_key = key_at(alloc, key_places(infos, *t), &new_cells)?;
            if *t != table {
                Ok(row)
            } else if is_same(&new_key, key) {
                left_of_update(alloc, cells, row)
            } else if is_same(from, key) {
                Ok(None)
            } else {
                Ok(row)
            }
        }
        Change::Delete {
            table: t,
            key: from,
            old: _,
        } => {
            if *t == table && is_same(from, key) {
                Ok(None)
            } else {
                Ok(row)
            }
        }
        Change::Clear { table: t } => { if *t == table { Ok(None) } else { Ok(row) } }
    }
}

/// The part of a row at a key of a table that changes keep.
pub fn plain_left(
    alloc: Global,
    infos: &Vec<TableInfo>,
    table: u32,
    key: &Key,
    row: Option<Row>,
    changes: &Vec<Change>,
) -> Result<Option<Row>, AllocError>
    ensures { IfOk result (λ left. plain_row_cells left
        ≡ left_from infos.now.items table key.now (plain_row_cells row) changes.now.items) }
{
    let mut left = row;
    for change in changes {
        left = left_by(alloc, infos, change, table, key, left)?;
    }
    Ok(left)
}
