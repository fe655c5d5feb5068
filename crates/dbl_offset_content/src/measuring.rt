//! The length of an offset's bytes, without writing them or taking memory.

ghost use Rattle.std.specs.Prelude.{◌≡◌, ◌<◌, ◌^◌, length, FitsSigned};
ghost use Rattle.std.specs.Int.{w64};
ghost use Rattle.std.specs.List.{AllByRecursion, flat_map};
ghost use Rattle.dbl_record.specs.Fields.{IsStored, number32, text_form};
ghost use Rattle.dbl_offset_content.specs.Entries.{FitsOffset, FitsKeyCell, FitsTableColumn};
ghost use Rattle.dbl_offset_content.specs.Entries.{FitsCursor, FitsTableCursor, FitsNames};
ghost use Rattle.dbl_offset_content.specs.Entries.{FitsTable, cell, column};
ghost use Rattle.dbl_offset_content.specs.Entries.{counted, cursor, entries_of, entry, names};
ghost use Rattle.dbl_offset_content.specs.Entries.{offset_bytes_form, table};
ghost use Rattle.dbl_offset_versions.specs.Versions.{version_form};
ghost use Rattle.dbl_offset_content.specs.Measures.{Measures};
ghost use Rattle.dbl_offset_content.specs.declared.entry.TableEntry.{TableEntry as SpecEntry};

use crate::offset::Offset;
use dbl_base::Text;
use dbl_model_history::Cursor;
use dbl_model_table::{Column, Identity, TableInfo};
use dbl_value::Val;

/// The maximum length of an offset in bytes.
pub const OFFSET_LIMIT: u64 = 1 << 28;

fn add_text(before: u64, content: &Text) -> u64
    ensures { Measures before (length (text_form content.now)) (IsStored content.now) result }
{
    let content = content.as_str();
    before
        .saturating_add(4)
        .saturating_add(content.len() as u64)
}

fn add_names(before: u64, identity: &Identity) -> u64
    ensures { Measures before (length (names identity.now)) (FitsNames identity.now) result }
{
    let prefix = add_text(before, &identity.prefix);
    let db = add_text(prefix, &identity.db);
    add_text(db, &identity.placeholder)
}

fn add_oid(before: u64, oid: u32) -> u64
    ensures { Measures before 4 (oid < 2 ^ 32) result }
{
    before.saturating_add(4)
}

fn add_column(before: u64, item: &Column) -> u64
    ensures { Measures before (length (column item.now)) (FitsTableColumn item.now) result }
{
    let name = add_text(before, &item.name);
    add_oid(name, dbl_value::oid(item.ty))
}

fn add_columns(before: u64, columns: &[Column]) -> u64
    ensures { Measures before (length (flat_map column columns.now))
        (AllByRecursion FitsTableColumn columns.now) result }
{
    let mut total = before;
    for item in columns {
        total = add_column(total, item);
    }
    total
}

fn add_places(before: u64, key: &[u32]) -> u64
    ensures { Measures before (length (counted number32 key.now)) ((length key.now < 2 ^ 32) ×
        AllByRecursion (λ place. place < 2 ^ 32) key.now) result }
{
    let bytes = (key.len() as u64).saturating_mul(4);
    before.saturating_add(4).saturating_add(bytes)
}

// A version has eight bytes, whichever it is.
fn add_version(before: u64, version: u64) -> u64
    ensures { Measures before (length (version_form 2 version)) (version < 2 ^ 64) result }
{
    before.saturating_add(8)
}

fn add_table(before: u64, info: &TableInfo, version: u64) -> u64
    ensures { Measures before (length (table 2 info.now version)) (FitsTable info.now) result }
{
    let schema = add_text(before, &info.name.schema);
    let name = add_text(schema, &info.name.name);
    let number = add_version(name, version);
    let columns = add_columns(number.saturating_add(4), info.columns.items());
    add_places(columns, info.key.items())
}

fn add_integer(before: u64, number: &i64) -> u64
    ensures { Measures before 9 (FitsSigned w64 number.now) result }
{
    // For the prover alone: a number that is read is in its type's range.
    let _number = *number;
    before.saturating_add(9)
}

fn add_cell(before: u64, value: &Val) -> u64
    ensures { Measures before (length (cell value.now)) (FitsKeyCell value.now) result }
{
    match value {
        Val::Int(number) => add_integer(before, number),
        Val::Text(content) => add_text(before.saturating_add(1), content),
        _ => before,
    }
}

fn add_cells(before: u64, cells: &[Val]) -> u64
    ensures { Measures before (length (flat_map cell cells.now))
        (AllByRecursion FitsKeyCell cells.now) result }
{
    let mut total = before;
    for value in cells {
        total = add_cell(total, value);
    }
    total
}

fn add_cursor(before: u64, progress: &Cursor) -> u64
    ensures { Measures before (length (cursor progress.now)) (FitsCursor progress.now) result }
{
    let flags = before.saturating_add(2);
    match &progress.last {
        Some(key) => add_cells(flags, key.cells.items()),
        None => flags,
    }
}

fn add_entry(before: u64, info: &TableInfo, version: u64, progress: &Cursor) -> u64
    ensures { (t : SpecEntry) → t.info ≡ info.now → t.version ≡ version → t.cursor ≡ progress.now →
        Measures before (length (entry 2 t)) (FitsTableCursor t) result }
{
    let total = add_table(before, info, version);
    add_cursor(total, progress)
}

fn add_entries(before: u64, infos: &[TableInfo], versions: &[u64], cursors: &[Cursor]) -> u64
    requires cursors { length cursors.now ≡ length infos.now }
    requires versions { length versions.now ≡ length infos.now }
    ensures { Measures before
        (length (flat_map (entry 2) (entries_of infos.now versions.now cursors.now)))
        (AllByRecursion FitsTableCursor (entries_of infos.now versions.now cursors.now)) result }
{
    let mut total = before;
    for i in 0..infos.len() {
        total = add_entry(total, &infos[i], versions[i], &cursors[i]);
    }
    total
}

// The four numbers of an offset, and its number of tables. The first number is passed separately.
fn add_numbers(before: u64, start: u64, lsn: u64, end_lsn: u64) -> u64
    ensures { Measures before 36 ((start < 2 ^ 64) × (lsn < 2 ^ 64) × (end_lsn < 2 ^ 64)) result }
{
    before.saturating_add(36)
}

/// The number of bytes of the offset in the format that is stored. A length above 2^64 - 1 is
/// reported as 2^64 - 1.
pub fn measure(offset: &Offset) -> u64
    requires cursors { length offset.now.cursors ≡ length offset.now.infos }
    requires versions { length offset.now.versions ≡ length offset.now.infos }
    ensures { Measures 0 (length (offset_bytes_form offset.now)) (FitsOffset offset.now) result }
{
    let names = add_names(1, &offset.identity);
    let numbers = add_numbers(names, offset.start.0, offset.lsn.0, offset.end_lsn.0);
    add_entries(
        numbers,
        offset.infos.items(),
        offset.versions.items(),
        offset.cursors.items(),
    )
}
