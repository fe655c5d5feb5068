//! Reading the rows of a change, column by column.

ghost use Rattle.std.specs.Prelude.{◌≡◌, ◌⊎◌, length};
ghost use Rattle.std.specs.Option.{option_copied};
ghost use Rattle.dbl_model_table.specs.Infos.{width};
ghost use Rattle.dbl_model_commit.specs.Tuples.{each_from, row_cell, row_of};
ghost use Rattle.dbl_model_commit.specs.Tuples.{old_row, old_row_if_sent, is_whole};
ghost use Rattle.dbl_model_commit.specs.Tuples.{filling, next_cell, new_cells};
ghost use Rattle.dbl_txn_changes.specs.Answers.{ReturnsAssembled};

use crate::cells::{given_cell, new_cell};
use crate::keys::{has_flag, has_key_place};
use dbl_base::Seq;
use dbl_model_commit::{Relation, TxnError};
use dbl_model_table::{Cell, Column, Row, TableInfo};
use dbl_pgmsg::{OldTuple, Tuple, TupleCell};
use dbl_value::Val;
use std::alloc::Global;

// The error for a wrong number of cells; more than 2^32 columns or cells count as out of memory.
fn count_error(want: usize, got: usize) -> TxnError
    ensures { (result ≡ TxnError.Memory) ⊎ (result ≡ TxnError.ColumnCount want got) }
{
    let Ok(want) = u32::try_from(want) else {
        return TxnError::Memory;
    };
    let Ok(got) = u32::try_from(got) else {
        return TxnError::Memory;
    };
    TxnError::ColumnCount { want, got }
}

fn read_cell(
    alloc: Global,
    info: &TableInfo,
    relation: &Relation,
    whole: bool,
    place: usize,
    column: &Column,
    cell: TupleCell,
) -> Result<Val, TxnError>
    ensures { ReturnsAssembled result (row_cell info.now relation.now whole place column.now cell) }
{
    if whole || has_flag(relation, place) {
        given_cell(alloc, &info.name, has_key_place(info, place), column, cell)
    } else {
        Ok(Val::Null)
    }
}

fn read_cells(
    alloc: Global,
    info: &TableInfo,
    relation: &Relation,
    whole: bool,
    cells: Vec<TupleCell>,
) -> Result<Seq<Val>, TxnError>
    requires { length cells.items ≡ width info.now }
    ensures { ReturnsAssembled result
        (each_from (row_cell info.now relation.now whole) 0 info.now.columns cells.items) }
{
    let columns = info.columns.items();
    let mut values = Vec::with_capacity(alloc, columns.len())?;
    let mut place = 0;
    for cell in cells {
        values.push(read_cell(alloc, info, relation, whole, place, &columns[place], cell)?)?;
        place += 1;
    }
    Ok(Seq::make(values))
}

/// Reads a row of a table: a complete one, or an old key.
#[tactic(auto, unfolding(dbl_model_commit::specs::Tuples::row_of))]
pub fn row_of(
    alloc: Global,
    info: &TableInfo,
    relation: &Relation,
    whole: bool,
    tuple: Tuple,
) -> Result<Row, TxnError>
    ensures { ReturnsAssembled result (row_of info.now relation.now whole tuple.cells) }
{
    let cells = tuple.cells.into_items();
    let want = info.columns.items().len();
    if cells.len() != want {
        return Err(count_error(want, cells.len()));
    }
    let cells = read_cells(alloc, info, relation, whole, cells)?;
    Ok(Row { cells })
}

/// Reads what was sent of the row before a change.
pub fn old_row(
    alloc: Global,
    info: &TableInfo,
    relation: &Relation,
    before: OldTuple,
) -> Result<Row, TxnError>
    ensures { ReturnsAssembled result (old_row info.now relation.now before) }
{
    match before {
        OldTuple::Key(tuple) => row_of(alloc, info, relation, false, tuple),
        OldTuple::Whole(tuple) => row_of(alloc, info, relation, true, tuple),
    }
}

/// Reads what was sent of the row before an update, which may be nothing.
pub fn old_row_if_sent(
    alloc: Global,
    info: &TableInfo,
    relation: &Relation,
    before: Option<OldTuple>,
) -> Result<Option<Row>, TxnError>
    ensures { ReturnsAssembled result (old_row_if_sent info.now relation.now before) }
{
    match before {
        Some(before) => {
            let row = old_row(alloc, info, relation, before)?;
            Ok(Some(row))
        }
        None => Ok(None),
    }
}

/// Whether the complete old row was sent.
pub fn has_whole(before: &Option<OldTuple>) -> bool
    ensures { result ≡ is_whole before.now }
{
    match before {
        Some(OldTuple::Whole(_)) => true,
        _ => false,
    }
}

// The value that the old row supplies at an index.
fn filling<'a>(
    relation: &Relation,
    whole: bool,
    old: &'a Option<Row>,
    place: usize,
) -> Option<&'a Val>
    ensures { option_copied result ≡ filling relation.now whole old.now place }
{
    match old {
        Some(row) => {
            if whole || has_flag(relation, place) {
                row.cells.items().get(place)
            } else {
                None
            }
        }
        None => None,
    }
}

fn next_cell(
    alloc: Global,
    info: &TableInfo,
    relation: &Relation,
    whole: bool,
    old: &Option<Row>,
    place: usize,
    column: &Column,
    cell: TupleCell,
) -> Result<Cell, TxnError>
    ensures { ReturnsAssembled result
        (next_cell info.now relation.now whole old.now place column.now cell) }
{
    new_cell(
        alloc,
        &info.name,
        has_key_place(info, place),
        filling(relation, whole, old, place),
        column,
        cell,
    )
}

fn next_cells(
    alloc: Global,
    info: &TableInfo,
    relation: &Relation,
    whole: bool,
    old: &Option<Row>,
    cells: Vec<TupleCell>,
) -> Result<Seq<Cell>, TxnError>
    requires { length cells.items ≡ width info.now }
    ensures { ReturnsAssembled result
        (each_from (next_cell info.now relation.now whole old.now) 0 info.now.columns cells.items) }
{
    let columns = info.columns.items();
    let mut renewed = Vec::with_capacity(alloc, columns.len())?;
    let mut place = 0;
    for cell in cells {
        renewed.push(next_cell(
            alloc,
            info,
            relation,
            whole,
            old,
            place,
            &columns[place],
            cell,
        )?)?;
        place += 1;
    }
    Ok(Seq::make(renewed))
}

/// Reads the cells of an update; the old row supplies those that weren't sent.
#[tactic(auto, unfolding(dbl_model_commit::specs::Tuples::new_cells))]
pub fn new_cells(
    alloc: Global,
    info: &TableInfo,
    relation: &Relation,
    whole: bool,
    old: &Option<Row>,
    tuple: Tuple,
) -> Result<Seq<Cell>, TxnError>
    ensures { ReturnsAssembled result (new_cells info.now relation.now whole old.now tuple.cells) }
{
    let cells = tuple.cells.into_items();
    let want = info.columns.items().len();
    if cells.len() != want {
        return Err(count_error(want, cells.len()));
    }
    next_cells(alloc, info, relation, whole, old, cells)
}
