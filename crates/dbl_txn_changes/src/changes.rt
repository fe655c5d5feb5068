//! The changes of a captured table that messages state.

ghost use Rattle.std.specs.Prelude.{◌≡◌, ◌&&◌, not, IfOk};
ghost use Rattle.std.specs.List.{position_from};
ghost use Rattle.dbl_model_table.specs.Infos.{name_at};
ghost use Rattle.dbl_model_commit.specs.Tuples.{refuse_if, is_unsent, none_unsent};
ghost use Rattle.dbl_model_commit.specs.Tuples.{all_sent_if_moved, key_in_identity};
ghost use Rattle.dbl_model_commit.specs.Tuples.{is_full, change_of};
ghost use Rattle.dbl_model_commit.specs.declared.message_parts.RowChange.TheVariants as row;
ghost use Rattle.dbl_txn_changes.specs.Answers.{ReturnsAssembled};

use crate::keys::{identifies_key, is_same, key_before, key_of, new_key_of};
use crate::rows::{has_whole, new_cells, old_row, old_row_if_sent, row_of};
use dbl_base::{Seq, Text};
use dbl_model_commit::{Relation, RowChange, TxnError};
use dbl_model_table::{Cell, Change, Column, Key, TableInfo, TableName};
use dbl_pgmsg::{OldTuple, Tuple};
use std::alloc::{AllocError, Global};

fn is_unsent(cell: &Cell) -> bool
    ensures { result ≡ is_unsent cell.now }
{
    match cell {
        Cell::Given(_) => false,
        Cell::Unchanged => true,
    }
}

fn first_unsent(cells: &Seq<Cell>) -> Option<usize>
    ensures { result ≡ position_from is_unsent 0 cells.now }
{
    cells.items().iter().position(is_unsent)
}

fn name_at(alloc: Global, columns: &Vec<Column>, place: usize) -> Result<Text, AllocError>
    ensures { IfOk result (λ name. name ≡ name_at columns.now.items place) }
{
    match columns.get(place) {
        Some(column) => column.name.copy(alloc),
        None => Ok(Text::make(String::new(alloc))),
    }
}

fn check_sent(
    alloc: Global,
    table: &TableName,
    columns: &Vec<Column>,
    cells: &Seq<Cell>,
) -> Result<(), TxnError>
    ensures { ReturnsAssembled result (none_unsent table.now columns.now.items cells.now) }
{
    match first_unsent(cells) {
        None => Ok(()),
        Some(place) => Err(TxnError::MovedUnchanged {
            table: table.copy(alloc)?,
            column: name_at(alloc, columns, place)?,
        }),
    }
}

// Checks that an update of the key sends all cells.
#[tactic(auto, unfolding(dbl_model_commit::specs::Tuples::all_sent_if_moved))]
fn check_moved(
    alloc: Global,
    info: &TableInfo,
    key: &Key,
    cells: &Seq<Cell>,
) -> Result<(), TxnError>
    ensures { ReturnsAssembled result (all_sent_if_moved info.now key.now cells.now) }
{
    let after = new_key_of(alloc, info, cells)?;
    if is_same(key, &after) {
        return Ok(());
    }
    check_sent(alloc, &info.name, info.columns.items(), cells)
}

fn check_identity(alloc: Global, info: &TableInfo, relation: &Relation) -> Result<(), TxnError>
    ensures { ReturnsAssembled result (refuse_if (not (key_in_identity info.now relation.now))
        (TxnError.KeyNotInIdentity info.now.name)) }
{
    if identifies_key(info, relation) {
        Ok(())
    } else {
        Err(TxnError::KeyNotInIdentity {
            table: info.name.copy(alloc)?,
        })
    }
}

fn check_old(
    alloc: Global,
    info: &TableInfo,
    relation: &Relation,
    whole: bool,
) -> Result<(), TxnError>
    ensures { ReturnsAssembled result
        (refuse_if (is_full relation.now && not whole) (TxnError.MissingOld info.now.name)) }
{
    if relation.identity == b'f' && !whole {
        Err(TxnError::MissingOld {
            table: info.name.copy(alloc)?,
        })
    } else {
        Ok(())
    }
}

#[tactic(auto, unfolding(dbl_model_commit::specs::Tuples::change_of))]
fn insert_of(
    alloc: Global,
    table: u32,
    info: &TableInfo,
    relation: &Relation,
    tuple: Tuple,
) -> Result<Change, TxnError>
    ensures { ReturnsAssembled result (change_of table info.now relation.now (row.Insert tuple)) }
{
    let row = row_of(alloc, info, relation, true, tuple)?;
    Ok(Change::Insert { table, row })
}

#[tactic(auto, unfolding(dbl_model_commit::specs::Tuples::change_of))]
fn update_of(
    alloc: Global,
    table: u32,
    info: &TableInfo,
    relation: &Relation,
    before: Option<OldTuple>,
    tuple: Tuple,
) -> Result<Change, TxnError>
    ensures { ReturnsAssembled result
        (change_of table info.now relation.now (row.Update before tuple)) }
{
    let whole = has_whole(&before);
    check_identity(alloc, info, relation)?;
    check_old(alloc, info, relation, whole)?;
    let old = old_row_if_sent(alloc, info, relation, before)?;
    let cells = new_cells(alloc, info, relation, whole, &old, tuple)?;
    let key = key_before(alloc, info, &old, &cells)?;
    check_moved(alloc, info, &key, &cells)?;
    Ok(Change::Update {
        table,
        key,
        old,
        cells,
    })
}

#[tactic(auto, unfolding(dbl_model_commit::specs::Tuples::change_of))]
fn delete_of(
    alloc: Global,
    table: u32,
    info: &TableInfo,
    relation: &Relation,
    before: OldTuple,
) -> Result<Change, TxnError>
    ensures { ReturnsAssembled result (change_of table info.now relation.now (row.Delete before)) }
{
    check_identity(alloc, info, relation)?;
    let old = old_row(alloc, info, relation, before)?;
    let key = key_of(alloc, info, &old.cells)?;
    Ok(Change::Delete { table, key, old })
}

/// The change that a row message of the captured table at an index states. The texts of its new row
/// move into the change.
pub fn change_of(
    alloc: Global,
    table: u32,
    info: &TableInfo,
    relation: &Relation,
    change: RowChange,
) -> Result<Change, TxnError>
    ensures { ReturnsAssembled result (change_of table info.now relation.now change) }
{
    match change {
        RowChange::Insert(tuple) => insert_of(alloc, table, info, relation, tuple),
        RowChange::Update(before, tuple) => update_of(alloc, table, info, relation, before, tuple),
        RowChange::Delete(before) => delete_of(alloc, table, info, relation, before),
    }
}
