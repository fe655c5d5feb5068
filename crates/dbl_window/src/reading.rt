//! The rows that a source answered, read by the columns of their table.

ghost use Rattle.std.specs.Prelude.{◌≡◌, ◌≢◌, ◌⊎◌, ◌≤◌, ◌<◌, length, Ok, Err, IfOk, MatchResult};
ghost use Rattle.std.specs.List.{AllByRecursion};
ghost use Rattle.std.specs.Option.{option_copied};
ghost use Rattle.dbl_model_table.specs.Infos.{width};
ghost use Rattle.dbl_value_types.specs.Values.{IsOf, value_of};
ghost use Rattle.dbl_model_history.specs.KeyedRows.{last_key};
ghost use Rattle.dbl_window.specs.Plans.{plan_of};
ghost use Rattle.dbl_window.specs.Reading.{null_read, value_read, cell_read, cells_read};
ghost use Rattle.dbl_window.specs.Reading.{placed, with_key, row_read, rows_read};
ghost use Rattle.dbl_window.specs.Changing.{FitsRow};
ghost use Rattle.dbl_window.specs.ReadParts.{ReadsPart, FitsColumnCell, FitCells};

use crate::WindowError;
use crate::frame::Frame;
use crate::keys::{comes_after, is_of_key, key_of};
use crate::rows::{HeldRows, put_row};
use dbl_base::{Seq, Text};
use dbl_model_table::{Column, Key, RawRow, Row, TableInfo};
use dbl_value::{Val, ValueError, read_owned};
use std::alloc::Global;
use std::collections::BTreeMap;

fn unread_cell(alloc: Global, column: &Column, error: ValueError) -> WindowError
    ensures { (result ≡ WindowError.Memory)
        ⊎ ((error ≢ ValueError.Memory) × (result ≡ WindowError.Cell column.now.name error)) }
{
    match error {
        ValueError::Memory => WindowError::Memory,
        error => match column.name.copy(alloc) {
            Ok(column) => WindowError::Cell { column, error },
            Err(_) => WindowError::Memory,
        },
    }
}

fn read_value(alloc: Global, column: &Column, text: Text) -> Result<Val, WindowError>
    ensures read { ReadsPart result (value_read column.now text (value_of column.now.ty text)) }
    ensures is { IfOk result (IsOf column.now.ty) }
{
    // Reading a text shows the prover that it is UTF-8.
    let _text = text.as_str();
    match read_owned(alloc, column.ty, text) {
        Ok(value) => Ok(value),
        Err(error) => Err(unread_cell(alloc, column, error)),
    }
}

fn read_null(number: u32, in_key: bool) -> Result<Val, WindowError>
    ensures { result ≡ null_read number in_key }
{
    if in_key {
        Err(WindowError::BadChunk { row: number })
    } else {
        Ok(Val::Null)
    }
}

fn read_cell(
    alloc: Global,
    info: &TableInfo,
    number: u32,
    place: usize,
    column: &Column,
    cell: Option<Text>,
) -> Result<Val, WindowError>
    ensures read { ReadsPart result (cell_read info.now number place column.now cell) }
    ensures fits { IfOk result (FitsColumnCell info.now place column.now.ty) }
{
    match cell {
        None => read_null(number, is_of_key(info, place)),
        Some(text) => read_value(alloc, column, text),
    }
}

fn read_cells(
    alloc: Global,
    info: &TableInfo,
    number: u32,
    cells: Vec<Option<Text>>,
) -> Result<Seq<Val>, WindowError>
    requires { length cells.items ≡ width info.now }
    ensures read { ReadsPart result (cells_read info.now number 0 info.now.columns cells.items) }
    ensures fit { IfOk result (FitCells info.now) }
{
    let columns = info.columns.items();
    let mut values = Vec::with_capacity(alloc, columns.len())?;
    let mut place = 0;
    for cell in cells {
        values.push(read_cell(alloc, info, number, place, &columns[place], cell)?)?;
        place += 1;
    }
    Ok(Seq::make(values))
}

/// The row with its key if that is after the last key, or else an error.
fn place_row(
    alloc: Global,
    info: &TableInfo,
    number: u32,
    last: Option<&Key>,
    cells: Seq<Val>,
) -> Result<(Key, Row), WindowError>
    requires { FitCells info.now cells }
    ensures read { ReadsPart result
        (placed number (option_copied last.entry) (with_key info.now cells)) }
    ensures fits { IfOk result (FitsRow info.now) }
{
    let key = key_of(alloc, info, &cells)?;
    if comes_after(last, &key) {
        Ok((key, Row { cells }))
    } else {
        Err(WindowError::BadChunk { row: number })
    }
}

fn read_row(
    frame: &Frame,
    number: u32,
    last: Option<&Key>,
    raw: RawRow,
) -> Result<(Key, Row), WindowError>
    ensures read { ReadsPart result
        (row_read (plan_of frame.now) number (option_copied last.entry) raw) }
    ensures fits { IfOk result (FitsRow frame.now.info) }
    ensures within { IfOk result (λ entry. number < frame.now.limit) }
{
    let cells = raw.cells.into_items();
    if number >= frame.limit || cells.len() != frame.info.columns.items().len() {
        return Err(WindowError::BadChunk { row: number });
    }
    let cells = read_cells(frame.alloc, &frame.info, number, cells)?;
    place_row(frame.alloc, &frame.info, number, last, cells)
}

/// The rows read of a chunk.
#[derive(Drop)]
pub(crate) struct Read {
    pub rows: HeldRows,
    /// The last key, or the one after which the window began.
    pub through: Option<Key>,
    /// The number of rows.
    pub count: u32,
}

pub(crate) fn read_rows(frame: &Frame, rows: Vec<RawRow>) -> Result<Read, WindowError>
    ensures read { MatchResult result
        (λ read. rows_read (plan_of frame.now) 0 frame.now.above rows.items ≡ Ok read.rows.entries)
        (λ e. (e ≡ WindowError.Memory)
        ⊎ (rows_read (plan_of frame.now) 0 frame.now.above rows.items ≡ Err e)) }
    ensures through { IfOk result
        (λ read. read.through ≡ last_key frame.now.above read.rows.entries) }
    ensures count { IfOk result (λ read. read.count ≡ length read.rows.entries) }
    ensures fit { IfOk result (λ read. AllByRecursion (FitsRow frame.now.info) read.rows.entries) }
    ensures few { IfOk result (λ read. read.count ≤ frame.now.limit) }
{
    let mut read = BTreeMap::new(frame.alloc);
    let mut through = match &frame.above {
        Some(key) => Some(key.copy(frame.alloc)?),
        None => None,
    };
    let mut count = 0u32;
    for raw in rows {
        let (key, row) = read_row(frame, count, through.as_ref(), raw)?;
        through = Some(key.copy(frame.alloc)?);
        put_row(&mut read, key, row)?;
        count += 1;
    }
    Ok(Read {
        rows: read,
        through,
        count,
    })
}
