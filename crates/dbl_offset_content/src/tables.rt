//! Readers of tables.

ghost use Rattle.std.specs.Prelude.{◌≡◌, length};
ghost use Rattle.std.specs.Int.{w32};
ghost use Rattle.dbl_record.specs.GroupReading.{Gives, many_at, number_at};
ghost use Rattle.dbl_offset_content.specs.Reading.{offset_column_at, offset_items_at};
ghost use Rattle.dbl_offset_content.specs.Reading.{offset_table_at};

use dbl_base::Seq;
use dbl_model_table::{Column, TableInfo, TableName};
use dbl_offset_versions::{NO_OFFSET, read_version};
use dbl_record::RecordError;
use dbl_record::fields::{read_number32, read_text};
use std::alloc::Global;

/// The fewest bytes that a column has.
const COLUMN_BYTES: usize = 8;

/// The number of bytes of a key column's index.
const PLACE_BYTES: usize = 4;

#[tactic(auto, unfolding(crate::specs::Reading::offset_column_at))]
fn read_column(alloc: Global, bytes: &[u8]) -> Result<(Column, &[u8]), RecordError>
    ensures { Gives (λ x. (x.0, x.1.now)) result (offset_column_at bytes.now) }
{
    let (name, rest) = read_text(alloc, 0, bytes)?;
    let (oid, rest) = read_number32(0, rest)?;
    let Ok(ty) = dbl_value::of(oid) else {
        return Err(NO_OFFSET);
    };
    Ok((Column { name, ty }, rest))
}

// A wrong count takes no more memory than the entry's bytes allow.
fn read_each_column(
    alloc: Global,
    count: usize,
    bytes: &[u8],
) -> Result<(Vec<Column>, &[u8]), RecordError>
    ensures { Gives (λ x. (x.0.items, x.1.now)) result (many_at offset_column_at count bytes.now) }
{
    let mut columns = Vec::with_capacity(alloc, count.min(bytes.len() / COLUMN_BYTES))?;
    let mut rest = bytes;
    for _ in 0..count {
        let (column, after) = read_column(alloc, rest)?;
        columns.push(column)?;
        rest = after;
    }
    Ok((columns, rest))
}

#[tactic(auto, unfolding(crate::specs::Reading::offset_items_at))]
fn read_columns(alloc: Global, bytes: &[u8]) -> Result<(Vec<Column>, &[u8]), RecordError>
    ensures { Gives (λ x. (x.0.items, x.1.now)) result
        (offset_items_at offset_column_at bytes.now) }
{
    let (count, rest) = read_number32(0, bytes)?;
    read_each_column(alloc, count as usize, rest)
}

fn read_each_place(
    alloc: Global,
    count: usize,
    bytes: &[u8],
) -> Result<(Vec<u32>, &[u8]), RecordError>
    ensures { Gives (λ x. (x.0.items, x.1.now)) result (many_at (number_at w32 0) count bytes.now) }
{
    let mut places = Vec::with_capacity(alloc, count.min(bytes.len() / PLACE_BYTES))?;
    let mut rest = bytes;
    for _ in 0..count {
        let (place, after) = read_number32(0, rest)?;
        places.push(place)?;
        rest = after;
    }
    Ok((places, rest))
}

#[tactic(auto, unfolding(crate::specs::Reading::offset_items_at))]
fn read_places(alloc: Global, bytes: &[u8]) -> Result<(Vec<u32>, &[u8]), RecordError>
    ensures { Gives (λ x. (x.0.items, x.1.now)) result
        (offset_items_at (number_at w32 0) bytes.now) }
{
    let (count, rest) = read_number32(0, bytes)?;
    read_each_place(alloc, count as usize, rest)
}

/// Reads a table that can be captured, and its version.
#[tactic(auto, unfolding(crate::specs::Reading::offset_table_at))]
pub(crate) fn read_table(
    alloc: Global,
    format: u8,
    bytes: &[u8],
) -> Result<(TableInfo, u64, &[u8]), RecordError>
    ensures { Gives (λ x. ((x.0, x.1), x.2.now)) result (offset_table_at format bytes.now) }
{
    let (schema, rest) = read_text(alloc, 0, bytes)?;
    let (name, rest) = read_text(alloc, 0, rest)?;
    let (version, rest) = read_version(format, rest)?;
    let (columns, rest) = read_columns(alloc, rest)?;
    let (key, rest) = read_places(alloc, rest)?;
    let name = TableName { schema, name };
    match TableInfo::of_parts(alloc, name, Seq::make(columns), Seq::make(key))? {
        Some(info) => Ok((info, version, rest)),
        None => Err(NO_OFFSET),
    }
}
