//! Captured tables in a Relation's columns.

ghost use Rattle.std.specs.Prelude.{◌≡◌, ◌⊎◌, IfOk, Some, None, is_some, if◌then◌else◌, not, ◌||◌};
ghost use Rattle.std.specs.Prelude.{slice_get};
ghost use Rattle.std.specs.List.{list_any};
ghost use Rattle.dbl_model_table.specs.Infos.{IsInfoOf, key_names, name_at};
ghost use Rattle.dbl_model_table.specs.Made.{table_fault};
ghost use Rattle.dbl_model_commit.specs.Stated.{same_column};
ghost use Rattle.dbl_model_commit.specs.Shapes.{columns_in, has_column, keep_key, entry_in};
ghost use Rattle.dbl_txn_changes.specs.Answers.{Judges};
ghost use Rattle.dbl_txn_shapes.specs.Shaping.{shape_cause, IsShaped};

use dbl_base::{Seq, Text};
use dbl_model_commit::TxnError;
use dbl_model_table::{Column, ModelError, RawColumn, RawTable, TableInfo};
use dbl_pgmsg::RelationColumn;
use dbl_txn_changes::{are_same_columns, is_same_column};
use std::alloc::{AllocError, Global};

fn is_among(columns: &Vec<RelationColumn>, column: &Column) -> bool
    ensures { result ≡ list_any (λ given. same_column (column.now, given)) columns.now.items }
{
    columns.iter().any(|given| is_same_column(column, given))
}

fn has_column(columns: &Vec<RelationColumn>, own: &Vec<Column>, place: usize) -> bool
    ensures { result ≡ has_column columns.now.items (slice_get own.now.items place) }
{
    match own.get(place) {
        Some(column) => is_among(columns, column),
        None => false,
    }
}

// Whether a Relation's columns have each key column of the table, with its type.
fn keeps_key(info: &TableInfo, columns: &Vec<RelationColumn>) -> bool
    ensures { result ≡ keep_key info.now columns.now.items }
{
    let own = info.columns.items();
    let key = info.key.items();
    key.iter()
        .all(|place| has_column(columns, own, *place as usize))
}

fn loses_key(refused: bool, info: &TableInfo, columns: &Vec<RelationColumn>) -> bool
    ensures { result ≡ (refused || not (keep_key info.now columns.now.items)) }
{
    refused || !keeps_key(info, columns)
}

fn name_at(alloc: Global, columns: &Seq<Column>, place: u32) -> Result<Text, AllocError>
    ensures { IfOk result (λ name. name ≡ name_at columns.now place) }
{
    match columns.items().get(place as usize) {
        Some(column) => column.name.copy(alloc),
        None => Ok(Text::make(String::new(alloc))),
    }
}

fn key_names(alloc: Global, info: &TableInfo) -> Result<Vec<Text>, AllocError>
    ensures { IfOk result (λ names. names.items ≡ key_names info.now) }
{
    let mut names = Vec::new(alloc);
    for place in info.key.items() {
        names.push(name_at(alloc, &info.columns, *place)?)?;
    }
    Ok(names)
}

/// A Relation's columns as the catalogue has them.
pub fn raw_columns(
    alloc: Global,
    columns: &Vec<RelationColumn>,
) -> Result<Vec<RawColumn>, AllocError>
    ensures { IfOk result (λ raw. raw.items ≡ columns_in columns.now.items) }
{
    let mut raw_columns = Vec::with_capacity(alloc, columns.len())?;
    for column in columns {
        raw_columns.push(RawColumn {
            name: column.name.copy(alloc)?,
            oid: column.oid,
        })?;
    }
    Ok(raw_columns)
}

/// The catalogue entry of the table in a Relation's columns.
pub fn entry_in(
    alloc: Global,
    info: &TableInfo,
    columns: &Vec<RelationColumn>,
) -> Result<RawTable, AllocError>
    ensures { IfOk result (λ raw. raw ≡ entry_in info.now columns.now.items) }
{
    let raw_columns = raw_columns(alloc, columns)?;
    let key = key_names(alloc, info)?;
    Ok(RawTable {
        name: info.name.copy(alloc)?,
        columns: Seq::make(raw_columns),
        key: Seq::make(key),
        version: 1,
    })
}

fn schema_changed(alloc: Global, info: &TableInfo) -> TxnError
    ensures { (result ≡ TxnError.Memory) ⊎ (result ≡ TxnError.SchemaChanged info.now.name) }
{
    match info.name.copy(alloc) {
        Ok(table) => TxnError::SchemaChanged { table },
        Err(_) => TxnError::Memory,
    }
}

// The table with a catalogue entry in other columns.
fn make_shape(alloc: Global, info: &TableInfo, entry: &RawTable) -> Result<TableInfo, TxnError>
    ensures info { IfOk result (IsInfoOf entry.now) }
    ensures fault { Judges (if is_some (table_fault entry.now)
        then Some (TxnError.SchemaChanged info.now.name) else None) result }
{
    match TableInfo::make(alloc, entry) {
        Ok(shape) => Ok(shape),
        Err(ModelError::Memory) => Err(TxnError::Memory),
        Err(_) => Err(schema_changed(alloc, info)),
    }
}

/// The captured table in a Relation's columns, None if it has them already. `refused` says whether
/// other columns are refused for the messages before.
pub fn shape_of(
    alloc: Global,
    refused: bool,
    info: &TableInfo,
    columns: &Vec<RelationColumn>,
) -> Result<Option<TableInfo>, TxnError>
    ensures shaped { IfOk result (IsShaped info.now columns.now.items) }
    ensures fault { Judges (shape_cause refused info.now columns.now.items) result }
{
    if are_same_columns(info.columns.items(), columns) {
        return Ok(None);
    }
    if loses_key(refused, info, columns) {
        return Err(schema_changed(alloc, info));
    }
    let entry = entry_in(alloc, info, columns)?;
    let shape = make_shape(alloc, info, &entry)?;
    Ok(Some(shape))
}
