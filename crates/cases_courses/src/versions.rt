//! Histories whose tables may be altered, and the rows at their points.

ghost use Rattle.std.specs.Prelude.{◌≡◌, ◌≤◌, IfOk, IsSome, None, unwrap_or, slice_get};
ghost use Rattle.std.specs.Bool.{Decides};
ghost use Rattle.dbl_model_table.specs.Rows.{no_rows};
ghost use Rattle.dbl_model_history.specs.PlainRows.{plain_row_cells, row_from};
ghost use Rattle.dbl_model_history.specs.Typed.{typed_cell, typed_cells};
ghost use Rattle.dbl_model_history.specs.VersionRows.{inserts, rows_upto};
ghost use Rattle.dbl_consume_courses.specs.AlteredTables.{WasThereThrough};
ghost use Rattle.cases_courses.specs.AlteredHistories.{versioned_of, all_versioned};
ghost use Rattle.cases_courses.specs.AlteredHistories.{column_types, altered_row};

use cases_ages::{change_count, columns_of, left_after, row_after_changes, row_after_commit};
use dbl_base::{Seq, Text};
use dbl_model_table::{Change, Column, Commit, Key, RawRow, Row, TableInfo};
use dbl_value::{PgType, Val, ValueError, read};
use std::alloc::{AllocError, Global};

/// The rows that a commit leaves in a captured table that it alters, each with a text for each of
/// the new columns.
#[derive(Drop)]
pub struct AlteredRows {
    pub table: u32,
    pub rows: Seq<RawRow>,
}

/// A commit with the captured tables from it on: the table that it alters already has its new
/// columns.
#[derive(Drop)]
pub struct Version {
    pub commit: Commit,
    pub infos: Vec<TableInfo>,
    pub altered: Option<AlteredRows>,
}

fn type_at(columns: &[Column], place: usize) -> PgType
    ensures { result ≡ unwrap_or (slice_get (column_types columns.now) place) PgType.Text }
{
    match columns.get(place) {
        Some(column) => column.ty,
        None => PgType::Text,
    }
}

// A text that parses as no value of the type stays a text.
fn typed_cell(alloc: Global, ty: PgType, text: &Option<Text>) -> Result<Val, AllocError>
    ensures { IfOk result (λ value. value ≡ typed_cell ty text.now) }
{
    let Some(text) = text else {
        return Ok(Val::Null);
    };
    match read(alloc, ty, text) {
        Ok(value) => Ok(value),
        Err(ValueError::Memory) => Err(AllocError),
        Err(_) => Ok(Val::Text(text.copy(alloc)?)),
    }
}

fn typed_cells(
    alloc: Global,
    columns: &[Column],
    texts: &Seq<Option<Text>>,
) -> Result<Seq<Val>, AllocError>
    ensures { IfOk result (λ cells. cells ≡ typed_cells (column_types columns.now) texts.now) }
{
    let mut cells = Vec::new(alloc);
    for (i, text) in texts.items().iter().enumerate() {
        cells.push(typed_cell(alloc, type_at(columns, i), text)?)?;
    }
    Ok(Seq::make(cells))
}

/// The changes that insert rows into a captured table.
pub(crate) fn inserts(
    alloc: Global,
    infos: &Vec<TableInfo>,
    table: u32,
    rows: &Seq<RawRow>,
) -> Result<Seq<Change>, AllocError>
    ensures { IfOk result (λ made. made ≡ inserts infos.now.items table rows.now) }
{
    let mut made = Vec::new(alloc);
    for row in rows.items() {
        let cells = typed_cells(alloc, columns_of(infos, table), &row.cells)?;
        made.push(Change::Insert {
            table,
            row: Row { cells },
        })?;
    }
    Ok(Seq::make(made))
}

// The row at a key that an alteration of the table leaves.
fn row_left(
    alloc: Global,
    infos: &Vec<TableInfo>,
    table: u32,
    rows: &Seq<RawRow>,
    key: &Key,
) -> Result<Option<Row>, AllocError>
    ensures { IfOk result (λ row. plain_row_cells row
        ≡ row_from infos.now.items table key.now None (inserts infos.now.items table rows.now)) }
{
    let changes = inserts(alloc, infos, table, rows)?;
    let count = changes.items().len() as u64;
    row_after_changes(alloc, infos, &changes, count, table, key, None)
}

// The row at a table and key after a commit's alteration, where `row` is the one before it.
fn row_altered(
    alloc: Global,
    version: &Version,
    table: u32,
    key: &Key,
    row: Option<Row>,
) -> Result<Option<Row>, AllocError>
    ensures { IfOk result (λ new. plain_row_cells new
        ≡ altered_row version.now.infos.items (versioned_of version.now).altered table key.now
        (plain_row_cells row)) }
{
    let Some(altered) = &version.altered else {
        return Ok(row);
    };
    if altered.table != table {
        return Ok(row);
    }
    row_left(alloc, &version.infos, table, &altered.rows, key)
}

/// The row of a table and key after the first changes of a history, in the columns in force there.
/// Each alteration before the next change has replaced its table's rows.
pub fn row_upto(
    alloc: Global,
    versions: &Vec<Version>,
    moment: u64,
    table: u32,
    key: &Key,
) -> Result<Option<Row>, AllocError>
    ensures { IfOk result (λ row. plain_row_cells row
        ≡ rows_upto no_rows (all_versioned versions.now.items) moment table key.now) }
{
    let mut row = None;
    let mut left = moment;
    for version in versions {
        row = row_after_commit(
            alloc,
            &version.infos,
            &version.commit,
            left,
            table,
            key,
            row,
        )?;
        if left < change_count(&version.commit) {
            return Ok(row);
        }
        left = left_after(&version.commit, left);
        row = row_altered(alloc, version, table, key, row)?;
    }
    Ok(row)
}

fn has_row(
    alloc: Global,
    versions: &Vec<Version>,
    moment: u64,
    table: u32,
    key: &Key,
) -> Result<bool, AllocError>
    ensures { IfOk result (λ has. Decides has
        (IsSome (rows_upto no_rows (all_versioned versions.now.items) moment table key.now))) }
{
    let row = row_upto(alloc, versions, moment, table, key)?;
    let has = row.is_some();
    drop(row);
    Ok(has)
}

/// Whether the source has a row at a table and key at some point of a span, in whatever columns. It
/// walks over the history for each point.
pub fn was_there_through(
    alloc: Global,
    versions: &Vec<Version>,
    from: u64,
    to: u64,
    table: u32,
    key: &Key,
) -> Result<bool, AllocError>
    requires { from ≤ to }
    ensures { IfOk result (λ was. Decides was
        (WasThereThrough (all_versioned versions.now.items) from to table key.now)) }
{
    for moment in from..to {
        let has = has_row(alloc, versions, moment, table, key)?;
        if has {
            return Ok(true);
        }
    }
    has_row(alloc, versions, to, table, key)
}
