//! From an entry's bytes to its offset.

ghost use Rattle.std.specs.Prelude.{◌≡◌, ◌⊎◌, ℕ, ◌^◌, ◌<◌, ◌≤◌, Err, Ok, IfOk, length, map};
ghost use Rattle.std.specs.List.{list_any};
ghost use Rattle.dbl_record.specs.GroupReading.{Gives, many_at};
ghost use Rattle.dbl_model_table.specs.Tables.{are_distinct, same_name};
ghost use Rattle.dbl_offset_content.specs.declared.offset.Offset.{Offset};
ghost use Rattle.dbl_offset_content.specs.Offsets.{IsOffsetEntry, EncodesOffset};
ghost use Rattle.dbl_offset_content.specs.Entries.{entries_of};
ghost use Rattle.dbl_offset_content.specs.Reading.{table_cursor_at, identity_at, numbers_at};
ghost use Rattle.dbl_offset_content.specs.Reading.{format_at, offset_at, tables_at, whole};

use crate::cursors::read_entry;
use crate::entry::TableEntry;
use crate::infos::SharedInfos;
use crate::offset::Offset;
use crate::reading::byte;
use dbl_base::{Lsn, Seq};
use dbl_model_history::Cursor;
use dbl_model_table::{Identity, TableInfo};
use dbl_offset_versions::{FIRST_FORMAT, FORMAT, NO_OFFSET};
use dbl_record::RecordError;
use dbl_record::fields::{read_number32, read_number64, read_text};
use std::alloc::Global;

/// The most tables of an offset.
const TABLES: u32 = 64;

#[tactic(auto, unfolding(crate::specs::Reading::format_at))]
fn read_format(bytes: &[u8]) -> Result<(u8, &[u8]), RecordError>
    ensures { Gives (λ x. (x.0, x.1.now)) result (format_at bytes.now) }
{
    let (format, rest) = byte(bytes)?;
    if format != FIRST_FORMAT && format != FORMAT {
        return Err(NO_OFFSET);
    }
    Ok((format, rest))
}

#[tactic(auto, unfolding(crate::specs::Reading::identity_at))]
fn read_identity(alloc: Global, bytes: &[u8]) -> Result<(Identity, &[u8]), RecordError>
    ensures { Gives (λ x. (x.0, x.1.now)) result (identity_at bytes.now) }
{
    let (prefix, rest) = read_text(alloc, 0, bytes)?;
    let (db, rest) = read_text(alloc, 0, rest)?;
    let (placeholder, rest) = read_text(alloc, 0, rest)?;
    let identity = Identity {
        prefix,
        db,
        placeholder,
    };
    if !identity.is_good() {
        drop(identity);
        return Err(NO_OFFSET);
    }
    Ok((identity, rest))
}

// The incarnation, the start, the LSN and the end LSN.
#[derive(Clone, Copy)]
struct Numbers {
    incarnation: u64,
    start: u64,
    lsn: u64,
    end_lsn: u64,
}

#[tactic(auto, unfolding(crate::specs::Reading::numbers_at))]
fn read_numbers(bytes: &[u8]) -> Result<(Numbers, &[u8]), RecordError>
    ensures { Gives (λ x. ((x.0.incarnation, x.0.start, x.0.lsn, x.0.end_lsn), x.1.now)) result
        (numbers_at bytes.now) }
{
    let (incarnation, rest) = read_number64(0, bytes)?;
    let (start, rest) = read_number64(0, rest)?;
    let (lsn, rest) = read_number64(0, rest)?;
    let (end_lsn, rest) = read_number64(0, rest)?;
    if incarnation == 0 || incarnation > 1 << 63 || start > lsn {
        return Err(NO_OFFSET);
    }
    let numbers = Numbers {
        incarnation,
        start,
        lsn,
        end_lsn,
    };
    Ok((numbers, rest))
}

// The tables, each with its version and its progress at the same index.
#[derive(Drop)]
struct Tables {
    infos: SharedInfos,
    cursors: Vec<Cursor>,
    versions: Vec<u64>,
}

fn read_each_table(
    alloc: Global,
    format: u8,
    count: usize,
    bytes: &[u8],
) -> Result<(Tables, &[u8]), RecordError>
    ensures read { Gives
        (λ x. (entries_of x.0.infos x.0.versions.items x.0.cursors.items, x.1.now)) result
        (many_at (table_cursor_at format) count bytes.now) }
    ensures long { IfOk result (λ x. length x.0.cursors.items ≡ length x.0.infos) }
    ensures versions { IfOk result (λ x. length x.0.versions.items ≡ length x.0.infos) }
{
    let mut infos = Vec::new(alloc);
    let mut cursors = Vec::new(alloc);
    let mut versions = Vec::new(alloc);
    let mut rest = bytes;
    for _ in 0..count {
        let (entry, after) = read_entry(alloc, format, rest)?;
        let TableEntry {
            info,
            version,
            cursor,
        } = entry;
        infos.push(info)?;
        cursors.push(cursor)?;
        versions.push(version)?;
        rest = after;
    }
    let tables = Tables {
        infos: SharedInfos::make(alloc, infos)?,
        cursors,
        versions,
    };
    Ok((tables, rest))
}

fn is_named_again(info: &TableInfo, others: &[TableInfo]) -> bool
    ensures { result ≡ list_any (λ other. same_name info.now.name other.name) others.now }
{
    others.iter().any(|other| info.name == other.name)
}

// Each table is compared with each, as they are few.
fn have_distinct_names(infos: &[TableInfo]) -> bool
    ensures { result ≡ are_distinct same_name (map (λ info. info.name) infos.now) }
{
    for (i, info) in infos.iter().enumerate() {
        if is_named_again(info, &infos[i + 1..]) {
            return false;
        }
    }
    true
}

#[tactic(auto, unfolding(crate::specs::Reading::tables_at))]
fn read_tables(alloc: Global, format: u8, bytes: &[u8]) -> Result<(Tables, &[u8]), RecordError>
    ensures read { Gives
        (λ x. (entries_of x.0.infos x.0.versions.items x.0.cursors.items, x.1.now)) result
        (tables_at format bytes.now) }
    ensures long { IfOk result (λ x. length x.0.cursors.items ≡ length x.0.infos) }
    ensures versions { IfOk result (λ x. length x.0.versions.items ≡ length x.0.infos) }
{
    let (count, rest) = read_number32(0, bytes)?;
    if count == 0 || count > TABLES {
        return Err(NO_OFFSET);
    }
    let (tables, rest) = read_each_table(alloc, format, count as usize, rest)?;
    if !have_distinct_names(tables.infos.items()) {
        return Err(NO_OFFSET);
    }
    Ok((tables, rest))
}

#[tactic(auto, unfolding(crate::specs::Reading::offset_at))]
fn read_offset(alloc: Global, bytes: &[u8]) -> Result<(Offset, &[u8]), RecordError>
    ensures { Gives (λ x. (x.0, x.1.now)) result (offset_at bytes.now) }
{
    let (format, rest) = read_format(bytes)?;
    let (identity, rest) = read_identity(alloc, rest)?;
    let (numbers, rest) = read_numbers(rest)?;
    let (tables, rest) = read_tables(alloc, format, rest)?;
    let Tables {
        infos,
        cursors,
        versions,
    } = tables;
    let offset = Offset {
        identity,
        incarnation: numbers.incarnation,
        start: Lsn(numbers.start),
        lsn: Lsn(numbers.lsn),
        end_lsn: Lsn(numbers.end_lsn),
        infos,
        cursors: Seq::make(cursors),
        versions: Seq::make(versions),
    };
    Ok((offset, rest))
}

#[tactic(auto, unfolding(crate::specs::Reading::whole, crate::specs::Reading::ended))]
fn read_whole(alloc: Global, bytes: &[u8]) -> Result<Offset, RecordError>
    ensures { Gives (λ o. o) result (whole bytes.now) }
{
    let (offset, rest) = read_offset(alloc, bytes)?;
    if !rest.is_empty() {
        drop(offset);
        return Err(NO_OFFSET);
    }
    Ok(offset)
}

/// The offset that the bytes encode.
pub fn decode(alloc: Global, bytes: &[u8]) -> Result<Offset, RecordError>
    ensures read { IfOk result (λ offset. EncodesOffset bytes.now offset) }
    ensures refused { (at : ℕ) → result ≡ Err (RecordError.BadRecord at)
        → ¬ IsOffsetEntry bytes.now }
{
    read_whole(alloc, bytes)
}
