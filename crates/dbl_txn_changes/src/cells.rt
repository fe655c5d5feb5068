//! Reading one cell of a row.

ghost use Rattle.std.specs.Prelude.{◌≡◌, ◌≢◌, ◌⊎◌};
ghost use Rattle.std.specs.Option.{option_copied};
ghost use Rattle.dbl_model_commit.specs.Tuples.{spelled_value, null_cell, given_cell};
ghost use Rattle.dbl_model_commit.specs.Tuples.{is_fixed, filled_cell, new_cell};
ghost use Rattle.dbl_txn_changes.specs.Answers.{ReturnsAssembled};

use dbl_base::Text;
use dbl_model_commit::TxnError;
use dbl_model_table::{Cell, Column, TableName};
use dbl_pgmsg::TupleCell;
use dbl_value::{PgType, Val, ValueError, oid, read_owned};
use std::alloc::Global;

// The error for a text that is no value of its column's type.
fn refuse_text(
    alloc: Global,
    table: &TableName,
    column: &Column,
    error: ValueError,
) -> Result<Val, TxnError>
    ensures { (result ≡ Err TxnError.Memory) ⊎ ((error ≢ ValueError.Memory) ×
        (result ≡ Err (TxnError.Value table.now column.now.name error))) }
{
    match error {
        ValueError::Memory => Err(TxnError::Memory),
        error => Err(TxnError::Value {
            table: table.copy(alloc)?,
            column: column.name.copy(alloc)?,
            error,
        }),
    }
}

#[tactic(auto, unfolding(dbl_model_commit::specs::Tuples::spelled_value))]
fn spelled_value(
    alloc: Global,
    table: &TableName,
    column: &Column,
    text: Text,
) -> Result<Val, TxnError>
    ensures { ReturnsAssembled result (spelled_value table.now column.now text) }
{
    match read_owned(alloc, column.ty, text) {
        Ok(value) => Ok(value),
        Err(error) => refuse_text(alloc, table, column, error),
    }
}

fn null_cell(alloc: Global, table: &TableName, in_key: bool) -> Result<Val, TxnError>
    ensures { ReturnsAssembled result (null_cell table.now in_key) }
{
    if in_key {
        Err(TxnError::NullKey {
            table: table.copy(alloc)?,
        })
    } else {
        Ok(Val::Null)
    }
}

/// Reads a cell of an Insert or of an old row.
#[tactic(auto, unfolding(dbl_model_commit::specs::Tuples::given_cell))]
pub fn given_cell(
    alloc: Global,
    table: &TableName,
    in_key: bool,
    column: &Column,
    cell: TupleCell,
) -> Result<Val, TxnError>
    ensures { ReturnsAssembled result (given_cell table.now in_key column.now cell) }
{
    match cell {
        TupleCell::Null => null_cell(alloc, table, in_key),
        TupleCell::Unchanged => Err(TxnError::UnchangedCell {
            table: table.copy(alloc)?,
            column: column.name.copy(alloc)?,
        }),
        TupleCell::Text(text) => spelled_value(alloc, table, column, text),
    }
}

// Whether the type has a fixed size, and so is never stored out of line.
fn is_fixed(ty: PgType) -> bool
    ensures { result ≡ is_fixed ty }
{
    const FIXED: [u32; 9] = [16, 20, 21, 23, 1082, 1083, 1114, 1184, 2950];
    let oid = oid(ty);
    FIXED.iter().any(|fixed| oid == *fixed)
}

fn filled_cell(
    alloc: Global,
    table: &TableName,
    in_key: bool,
    old: Option<&Val>,
    column: &Column,
) -> Result<Cell, TxnError>
    ensures { ReturnsAssembled result
        (filled_cell table.now in_key (option_copied old.entry) column.now) }
{
    match old {
        Some(value) => Ok(Cell::Given(value.copy(alloc)?)),
        None => {
            if in_key {
                Err(TxnError::UnchangedCell {
                    table: table.copy(alloc)?,
                    column: column.name.copy(alloc)?,
                })
            } else {
                Ok(Cell::Unchanged)
            }
        }
    }
}

/// Reads a cell of an Update's new row; the old row supplies `old` if the cell wasn't sent.
#[tactic(auto, unfolding(dbl_model_commit::specs::Tuples::new_cell))]
pub fn new_cell(
    alloc: Global,
    table: &TableName,
    in_key: bool,
    old: Option<&Val>,
    column: &Column,
    cell: TupleCell,
) -> Result<Cell, TxnError>
    ensures { ReturnsAssembled result
        (new_cell table.now in_key (option_copied old.entry) column.now cell) }
{
    match cell {
        TupleCell::Null => Ok(Cell::Given(null_cell(alloc, table, in_key)?)),
        TupleCell::Text(text) => Ok(Cell::Given(spelled_value(alloc, table, column, text)?)),
        TupleCell::Unchanged => {
            if is_fixed(column.ty) {
                Err(TxnError::UnchangedCell {
                    table: table.copy(alloc)?,
                    column: column.name.copy(alloc)?,
                })
            } else {
                filled_cell(alloc, table, in_key, old, column)
            }
        }
    }
}
