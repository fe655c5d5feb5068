//! Readers of snapshot progress.

ghost use Rattle.std.specs.Prelude.{◌≡◌, map};
ghost use Rattle.dbl_record.specs.GroupReading.{Gives};
ghost use Rattle.dbl_model_table.specs.Tables.{type_at};
ghost use Rattle.dbl_model_table.specs.Infos.{key_types};
ghost use Rattle.dbl_offset_content.specs.Reading.{offset_cell_at, cells_at, cursor_at};
ghost use Rattle.dbl_offset_content.specs.Reading.{table_cursor_at, integer_at, is_integer_of};
ghost use Rattle.dbl_offset_content.specs.Reading.{offset_key_at, last_at, word_at};

use crate::entry::TableEntry;
use crate::reading::byte;
use crate::tables::read_table;
use dbl_base::Seq;
use dbl_model_history::Cursor;
use dbl_model_table::{Column, Key, TableInfo};
use dbl_offset_versions::NO_OFFSET;
use dbl_record::RecordError;
use dbl_record::fields::{read_number64, read_text, read_truth};
use dbl_value::{PgType, Val, ValueError, read_owned};
use std::alloc::Global;

fn holds_integer(ty: PgType, number: i64) -> bool
    ensures { result ≡ is_integer_of ty number }
{
    match ty {
        PgType::Int2 => i16::try_from(number).is_ok(),
        PgType::Int4 => i32::try_from(number).is_ok(),
        PgType::Int8 => true,
        _ => false,
    }
}

#[tactic(auto, unfolding(crate::specs::Reading::integer_at))]
fn read_integer(ty: PgType, bytes: &[u8]) -> Result<(Val, &[u8]), RecordError>
    ensures { Gives (λ x. (x.0, x.1.now)) result (integer_at ty bytes.now) }
{
    let (number, rest) = read_number64(0, bytes)?;
    let number = number.cast_signed();
    if !holds_integer(ty, number) {
        return Err(NO_OFFSET);
    }
    Ok((Val::Int(number), rest))
}

#[tactic(auto, unfolding(crate::specs::Reading::word_at))]
fn read_word(alloc: Global, ty: PgType, bytes: &[u8]) -> Result<(Val, &[u8]), RecordError>
    ensures { Gives (λ x. (x.0, x.1.now)) result (word_at ty bytes.now) }
{
    let (text, rest) = read_text(alloc, 0, bytes)?;
    if !matches!(ty, PgType::Text | PgType::Varchar | PgType::Uuid) {
        return Err(NO_OFFSET);
    }
    match read_owned(alloc, ty, text) {
        Ok(value) => Ok((value, rest)),
        Err(ValueError::Memory) => Err(RecordError::Memory),
        Err(_) => Err(NO_OFFSET),
    }
}

#[tactic(auto, unfolding(crate::specs::Reading::offset_cell_at))]
fn read_cell(alloc: Global, ty: PgType, bytes: &[u8]) -> Result<(Val, &[u8]), RecordError>
    ensures { Gives (λ x. (x.0, x.1.now)) result (offset_cell_at ty bytes.now) }
{
    let (kind, rest) = byte(bytes)?;
    match kind {
        1 => read_integer(ty, rest),
        2 => read_word(alloc, ty, rest),
        _ => Err(NO_OFFSET),
    }
}

fn type_of_column(columns: &[Column], place: u32) -> PgType
    ensures { result ≡ type_at columns.now place }
{
    match columns.get(place as usize) {
        Some(column) => column.ty,
        None => PgType::Text,
    }
}

fn read_cells<'a>(
    alloc: Global,
    columns: &[Column],
    key: &[u32],
    bytes: &'a [u8],
) -> Result<(Vec<Val>, &'a [u8]), RecordError>
    ensures { Gives (λ x. (x.0.items, x.1.now)) result
        (cells_at (map (type_at columns.now) key.now) bytes.now) }
{
    let mut cells = Vec::with_capacity(alloc, key.len())?;
    let mut rest = bytes;
    for place in key {
        let ty = type_of_column(columns, *place);
        let (cell, after) = read_cell(alloc, ty, rest)?;
        cells.push(cell)?;
        rest = after;
    }
    Ok((cells, rest))
}

#[tactic(auto, unfolding(crate::specs::Reading::offset_key_at))]
fn read_key<'a>(
    alloc: Global,
    info: &TableInfo,
    bytes: &'a [u8],
) -> Result<(Key, &'a [u8]), RecordError>
    ensures { Gives (λ x. (x.0, x.1.now)) result (offset_key_at (key_types info.now) bytes.now) }
{
    let columns = info.columns.items().as_slice();
    let (cells, rest) = read_cells(alloc, columns, info.key.items().as_slice(), bytes)?;
    Ok((
        Key {
            cells: Seq::make(cells),
        },
        rest,
    ))
}

#[tactic(auto, unfolding(crate::specs::Reading::last_at))]
fn read_last<'a>(
    alloc: Global,
    info: &TableInfo,
    bytes: &'a [u8],
) -> Result<(Option<Key>, &'a [u8]), RecordError>
    ensures { Gives (λ x. (x.0, x.1.now)) result (last_at (key_types info.now) bytes.now) }
{
    let (there, rest) = read_truth(0, bytes)?;
    if !there {
        return Ok((None, rest));
    }
    let (key, rest) = read_key(alloc, info, rest)?;
    Ok((Some(key), rest))
}

#[tactic(auto, unfolding(crate::specs::Reading::cursor_at))]
fn read_cursor<'a>(
    alloc: Global,
    info: &TableInfo,
    bytes: &'a [u8],
) -> Result<(Cursor, &'a [u8]), RecordError>
    ensures { Gives (λ x. (x.0, x.1.now)) result (cursor_at info.now bytes.now) }
{
    let (done, rest) = read_truth(0, bytes)?;
    let (last, rest) = read_last(alloc, info, rest)?;
    Ok((Cursor { last, done }, rest))
}

/// Reads a table, its version and the progress of its snapshot.
#[tactic(auto, unfolding(crate::specs::Reading::table_cursor_at))]
pub(crate) fn read_entry(
    alloc: Global,
    format: u8,
    bytes: &[u8],
) -> Result<(TableEntry, &[u8]), RecordError>
    ensures { Gives (λ x. (x.0, x.1.now)) result (table_cursor_at format bytes.now) }
{
    let (info, version, rest) = read_table(alloc, format, bytes)?;
    let (cursor, rest) = read_cursor(alloc, &info, rest)?;
    let entry = TableEntry {
        info,
        version,
        cursor,
    };
    Ok((entry, rest))
}
