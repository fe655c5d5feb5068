//! A table's columns after an alteration.

ghost use Rattle.std.specs.Prelude.{◌≡◌, ◌++◌, IfOk, OnOk, filter, map, not};
ghost use Rattle.dbl_model_table.specs.Infos.{raw_column, catalogue_of, key_names};
ghost use Rattle.dbl_tables_rows.specs.Given.{HasColumns};
ghost use Rattle.dbl_tables_rows.specs.Sending.{raw_of, column_type};
ghost use Rattle.dbl_tables_altered.specs.declared.alteration.Alteration.TheVariants.{Add};
ghost use Rattle.dbl_tables_altered.specs.Alterations.{removes, added_columns, raw_after};
ghost use Rattle.dbl_tables_altered.specs.Alterations.{is_misplaced};
ghost use Rattle.dbl_tables_altered.specs.Altered.{column_left, refusal_of, MakesInfo};
ghost use Rattle.dbl_tables_altered.specs.Altered.{JudgesColumns, AltersInfo};

use crate::Alteration;
use dbl_base::{DeepCopy, Seq, Text};
use dbl_model_table::{Column, ModelError, RawColumn, RawTable, TableInfo, name_at};
use dbl_tables_rows::{Rows, StepError, spells};
use dbl_value_types::PgType;
use std::alloc::{AllocError, Global};

/// The largest number of columns of a table.
const COLUMN_LIMIT: usize = 1600;

/// Whether the alteration removes the column of this name.
pub fn removes(alteration: &Alteration, name: &Text) -> bool
    ensures { result ≡ removes alteration.now name.now }
{
    match alteration {
        Alteration::Add { .. } => false,
        Alteration::Remove { column } => *column == *name,
    }
}

fn raw_column(alloc: Global, column: &Column) -> Result<RawColumn, AllocError>
    ensures { IfOk result (λ raw. raw ≡ raw_column column.now) }
{
    Ok(RawColumn {
        name: column.name.copy(alloc)?,
        oid: dbl_value_types::oid(column.ty),
    })
}

fn push_left(
    alloc: Global,
    left: &mut Vec<RawColumn>,
    alteration: &Alteration,
    column: &Column,
) -> Result<(), AllocError>
    ensures { OnOk result (left.new.items ≡
        left.old.items ++ column_left alteration.now (raw_column column.now)) }
{
    if removes(alteration, &column.name) {
        return Ok(());
    }
    left.push(raw_column(alloc, column)?)?;
    Ok(())
}

// The columns that the alteration doesn't remove.
fn columns_left(
    alloc: Global,
    columns: &[Column],
    alteration: &Alteration,
) -> Result<Vec<RawColumn>, AllocError>
    ensures { IfOk result (λ left. left.items ≡
        filter (λ column. not (removes alteration.now column.name)) (map raw_column columns.now)) }
{
    let mut left = Vec::new(alloc);
    for column in columns {
        push_left(alloc, &mut left, alteration, column)?;
    }
    Ok(left)
}

fn push_added(
    alloc: Global,
    columns: &mut Vec<RawColumn>,
    alteration: &Alteration,
) -> Result<(), AllocError>
    ensures { OnOk result (columns.new.items ≡
        columns.old.items ++ added_columns alteration.now) }
{
    match alteration {
        Alteration::Add { column, .. } => {
            columns.push(column.deep_copy(alloc)?)?;
            Ok(())
        }
        Alteration::Remove { .. } => Ok(()),
    }
}

fn key_names(alloc: Global, info: &TableInfo) -> Result<Vec<Text>, AllocError>
    ensures { IfOk result (λ names. names.items ≡ key_names info.now) }
{
    let mut names = Vec::new(alloc);
    for place in info.key.items() {
        names.push(name_at(alloc, info.columns.items(), *place)?)?;
    }
    Ok(names)
}

// The catalogue's entry of the table after the alteration.
fn raw_after(
    alloc: Global,
    info: &TableInfo,
    alteration: &Alteration,
) -> Result<RawTable, AllocError>
    ensures { IfOk result (λ raw. raw ≡ raw_after alteration.now (catalogue_of info.now)) }
{
    let mut columns = columns_left(alloc, info.columns.items(), alteration)?;
    push_added(alloc, &mut columns, alteration)?;
    Ok(RawTable {
        name: info.name.copy(alloc)?,
        columns: Seq::make(columns),
        key: Seq::make(key_names(alloc, info)?),
        version: 1,
    })
}

// The refusal of columns that make no table.
fn refusal(error: ModelError) -> StepError
    ensures { result ≡ refusal_of error }
{
    match error {
        ModelError::Memory => StepError::Memory,
        _ => StepError::BadAlter,
    }
}

// The table of a catalogue's entry.
fn made(alloc: Global, raw: &RawTable) -> Result<TableInfo, StepError>
    ensures { MakesInfo raw.now result }
{
    match TableInfo::make(alloc, raw) {
        Ok(info) => Ok(info),
        Err(error) => Err(refusal(error)),
    }
}

// The type of a column; text for a float's, which no table has.
fn type_of(column: &RawColumn) -> PgType
    ensures { result ≡ column_type column.now }
{
    match dbl_value_types::of(column.oid) {
        Ok(ty) => ty,
        Err(_) => PgType::Text,
    }
}

// Whether the table has room for one more column with this cell.
fn has_room(
    alloc: Global,
    info: &TableInfo,
    column: &RawColumn,
    text: &Option<Text>,
) -> Result<bool, AllocError>
    ensures { IfOk result (λ room. is_misplaced (Add column.now text.now) (catalogue_of info.now) ≡
        not room) }
{
    if info.columns.items().len() >= COLUMN_LIMIT {
        return Ok(false);
    }
    spells(alloc, type_of(column), text)
}

// Whether the table has room for what is added, or has what is removed.
fn is_placed(alloc: Global, rows: &Rows, alteration: &Alteration) -> Result<bool, AllocError>
    ensures { HasColumns rows.now.table.info rows.now.places →
        IfOk result (λ placed. is_misplaced alteration.now (raw_of rows.now.table) ≡ not placed) }
{
    match alteration {
        Alteration::Add { column, text } => has_room(alloc, &rows.table.info, column, text),
        Alteration::Remove { column } => Ok(rows.places.contains_key(column)),
    }
}

// Refuses a cell that can't be added, or a column that isn't there to be removed.
fn judge(alloc: Global, rows: &Rows, alteration: &Alteration) -> Result<(), StepError>
    ensures { HasColumns rows.now.table.info rows.now.places →
        JudgesColumns alteration.now (raw_of rows.now.table) result }
{
    if !is_placed(alloc, rows, alteration)? {
        return Err(StepError::BadAlter);
    }
    Ok(())
}

/// The table's description after the alteration.
pub fn info_after(
    alloc: Global,
    rows: &Rows,
    alteration: &Alteration,
) -> Result<TableInfo, StepError>
    ensures { HasColumns rows.now.table.info rows.now.places →
        AltersInfo alteration.now (raw_of rows.now.table) result }
{
    judge(alloc, rows, alteration)?;
    let raw = raw_after(alloc, &rows.table.info, alteration)?;
    made(alloc, &raw)
}
