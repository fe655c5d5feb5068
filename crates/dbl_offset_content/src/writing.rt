//! Encoding of an offset as a slot's content. Each writer appends to the buffer.

ghost use Rattle.std.specs.Prelude.{◌≡◌, ◌<◌, ◌≤◌, ◌^◌, length, IfOk, OnOk};
ghost use Rattle.std.specs.List.{AllByRecursion, flat_map};
ghost use Rattle.dbl_record.specs.Fields.{Extends, number32};
ghost use Rattle.dbl_offset_content.specs.Entries.{FitsOffset, FitsKeyCell, FitsTableColumn};
ghost use Rattle.dbl_offset_content.specs.Entries.{FitsCursor, FitsTableCursor, FitsNames};
ghost use Rattle.dbl_offset_content.specs.Entries.{FitsTable, bytes_in_format, cell, column};
ghost use Rattle.dbl_offset_content.specs.Entries.{counted, cursor, entries_of, entry};
ghost use Rattle.dbl_offset_content.specs.Entries.{last_key_form, names};
ghost use Rattle.dbl_offset_content.specs.Entries.{table};
ghost use Rattle.dbl_offset_content.specs.Measures.{offset_limit};
ghost use Rattle.dbl_offset_content.specs.Entries.{slot_content};
ghost use Rattle.dbl_offset_content.specs.Offsets.{HasFormat, IsOffset};
ghost use Rattle.dbl_offset_content.specs.declared.entry.TableEntry.{TableEntry as SpecEntry};

use crate::offset::Offset;
use dbl_model_history::Cursor;
use dbl_model_table::{Column, Identity, TableInfo};
use dbl_offset_versions::write_version;
use dbl_record::fields::{append_number32, append_number64, append_text, append_truth};
use dbl_value::Val;
use std::alloc::{AllocError, Global};

#[tactic(auto, unfolding(crate::specs::Entries::names))]
fn write_names(out: &mut Vec<u8>, identity: &Identity) -> Result<(), AllocError>
    requires { FitsNames identity.now }
    ensures { OnOk result (Extends out.old.items (names identity.now) out.new.items) }
{
    append_text(out, &identity.prefix)?;
    append_text(out, &identity.db)?;
    append_text(out, &identity.placeholder)
}

#[tactic(auto, unfolding(crate::specs::Entries::column))]
fn write_column(out: &mut Vec<u8>, item: &Column) -> Result<(), AllocError>
    requires { FitsTableColumn item.now }
    ensures { OnOk result (Extends out.old.items (column item.now) out.new.items) }
{
    append_text(out, &item.name)?;
    append_number32(out, dbl_value::oid(item.ty))
}

fn write_each_column(out: &mut Vec<u8>, columns: &[Column]) -> Result<(), AllocError>
    requires { AllByRecursion FitsTableColumn columns.now }
    ensures { OnOk result (Extends out.old.items (flat_map column columns.now) out.new.items) }
{
    for item in columns {
        write_column(out, item)?;
    }
    Ok(())
}

#[tactic(auto, unfolding(crate::specs::Entries::counted))]
fn write_columns(out: &mut Vec<u8>, columns: &[Column]) -> Result<(), AllocError>
    requires few { length columns.now < 2 ^ 32 }
    requires each { AllByRecursion FitsTableColumn columns.now }
    ensures { OnOk result (Extends out.old.items (counted column columns.now) out.new.items) }
{
    append_number32(out, columns.len() as u32)?;
    write_each_column(out, columns)
}

fn write_each_place(out: &mut Vec<u8>, key: &[u32]) -> Result<(), AllocError>
    ensures { OnOk result (Extends out.old.items (flat_map number32 key.now) out.new.items) }
{
    for place in key {
        append_number32(out, *place)?;
    }
    Ok(())
}

#[tactic(auto, unfolding(crate::specs::Entries::counted))]
fn write_places(out: &mut Vec<u8>, key: &[u32]) -> Result<(), AllocError>
    requires { length key.now < 2 ^ 32 }
    ensures { OnOk result (Extends out.old.items (counted number32 key.now) out.new.items) }
{
    append_number32(out, key.len() as u32)?;
    write_each_place(out, key)
}

#[tactic(auto, unfolding(crate::specs::Entries::table))]
fn write_table(
    out: &mut Vec<u8>,
    format: u8,
    info: &TableInfo,
    version: u64,
) -> Result<(), AllocError>
    requires { FitsTable info.now }
    ensures { OnOk result (Extends out.old.items (table format info.now version) out.new.items) }
{
    append_text(out, &info.name.schema)?;
    append_text(out, &info.name.name)?;
    write_version(out, format, version)?;
    write_columns(out, info.columns.items())?;
    write_places(out, info.key.items())
}

#[tactic(auto, unfolding(crate::specs::Entries::cell))]
fn write_cell(out: &mut Vec<u8>, value: &Val) -> Result<(), AllocError>
    requires { FitsKeyCell value.now }
    ensures { OnOk result (Extends out.old.items (cell value.now) out.new.items) }
{
    match value {
        Val::Int(number) => {
            out.extend_from_slice(&[1])?;
            append_number64(out, number.cast_unsigned())
        }
        Val::Text(content) => {
            out.extend_from_slice(&[2])?;
            append_text(out, content)
        }
        _ => Ok(()),
    }
}

fn write_cells(out: &mut Vec<u8>, cells: &[Val]) -> Result<(), AllocError>
    requires { AllByRecursion FitsKeyCell cells.now }
    ensures { OnOk result (Extends out.old.items (flat_map cell cells.now) out.new.items) }
{
    for value in cells {
        write_cell(out, value)?;
    }
    Ok(())
}

#[tactic(auto, unfolding(crate::specs::Entries::cursor, crate::specs::Entries::last_key_form))]
fn write_cursor(out: &mut Vec<u8>, progress: &Cursor) -> Result<(), AllocError>
    requires { FitsCursor progress.now }
    ensures { OnOk result (Extends out.old.items (cursor progress.now) out.new.items) }
{
    append_truth(out, progress.done)?;
    match &progress.last {
        Some(key) => {
            out.extend_from_slice(&[1])?;
            write_cells(out, key.cells.items())
        }
        None => out.extend_from_slice(&[0]),
    }
}

fn write_entry(
    out: &mut Vec<u8>,
    format: u8,
    info: &TableInfo,
    version: u64,
    progress: &Cursor,
) -> Result<(), AllocError>
    requires table { FitsTable info.now }
    requires progress { FitsCursor progress.now }
    ensures { (t : SpecEntry) → t.info ≡ info.now → t.version ≡ version → t.cursor ≡ progress.now →
        OnOk result (Extends out.old.items (entry format t) out.new.items) }
{
    write_table(out, format, info, version)?;
    write_cursor(out, progress)
}

fn write_entries(
    out: &mut Vec<u8>,
    format: u8,
    infos: &[TableInfo],
    versions: &[u64],
    cursors: &[Cursor],
) -> Result<(), AllocError>
    requires long { length cursors.now ≡ length infos.now }
    requires versions { length versions.now ≡ length infos.now }
    requires fit { AllByRecursion FitsTableCursor (entries_of infos.now versions.now cursors.now) }
    ensures { OnOk result (Extends out.old.items
        (flat_map (entry format) (entries_of infos.now versions.now cursors.now)) out.new.items) }
{
    for i in 0..infos.len() {
        write_entry(out, format, &infos[i], versions[i], &cursors[i])?;
    }
    Ok(())
}

#[tactic(auto, unfolding(crate::specs::Entries::bytes_in_format, crate::specs::Entries::counted))]
fn write_offset(out: &mut Vec<u8>, format: u8, offset: &Offset) -> Result<(), AllocError>
    requires long { length offset.now.cursors ≡ length offset.now.infos }
    requires versions { length offset.now.versions ≡ length offset.now.infos }
    requires few { length offset.now.infos < 2 ^ 32 }
    requires fit { FitsOffset offset.now }
    ensures { OnOk result
        (Extends out.old.items (bytes_in_format format offset.now) out.new.items) }
{
    out.push(format)?;
    write_names(out, &offset.identity)?;
    append_number64(out, offset.incarnation)?;
    append_number64(out, offset.start.0)?;
    append_number64(out, offset.lsn.0)?;
    append_number64(out, offset.end_lsn.0)?;
    append_number32(out, offset.infos.items().len() as u32)?;
    write_entries(
        out,
        format,
        offset.infos.items(),
        offset.versions.items(),
        offset.cursors.items(),
    )?;
    Ok(())
}

/// The bytes of the offset in a format: 2, or 1, which has no versions.
pub fn bytes(alloc: Global, format: u8, offset: &Offset) -> Result<Vec<u8>, AllocError>
    requires format { HasFormat format offset.now }
    requires offset { IsOffset offset.now }
    requires fit { FitsOffset offset.now }
    ensures { IfOk result (λ out. out.items ≡ bytes_in_format format offset.now) }
{
    let mut out = Vec::new(alloc);
    write_offset(&mut out, format, offset)?;
    Ok(out)
}

/// The number of bytes of an entry's length.
pub const LENGTH_BYTES: usize = 4;

/// The content of a slot with the offset's `count` bytes in a format: their number, and the bytes.
#[tactic(auto, unfolding(crate::specs::Entries::slot_content, dbl_record::specs::Fields::number32))]
pub fn encode(
    alloc: Global,
    count: usize,
    format: u8,
    offset: &Offset,
) -> Result<Vec<u8>, AllocError>
    requires count { count ≡ length (bytes_in_format format offset.now) }
    requires short { count ≤ offset_limit }
    requires long { length offset.now.cursors ≡ length offset.now.infos }
    requires versions { length offset.now.versions ≡ length offset.now.infos }
    requires few { length offset.now.infos < 2 ^ 32 }
    requires fit { FitsOffset offset.now }
    ensures { IfOk result
        (λ content. content.items ≡ slot_content (bytes_in_format format offset.now)) }
{
    let mut out = Vec::with_capacity(alloc, LENGTH_BYTES + count)?;
    append_number32(&mut out, count as u32)?;
    write_offset(&mut out, format, offset)?;
    Ok(out)
}
