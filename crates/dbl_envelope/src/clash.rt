//! Cells with a value equal to the placeholder, which every consumer would take for unsent ones.

ghost use Rattle.std.specs.Prelude.{◌≡◌, ◌≢◌, ◌==◌, ◌-◌, length, slice_get, true};
ghost use Rattle.std.specs.Prelude.{false, Some, None, IfOk, IfErr, OnOk, All, map};
ghost use Rattle.std.specs.Option.{option_or};
ghost use Rattle.base64.specs.Rfc4648.{encoded_size};
ghost use Rattle.dbl_model_table.specs.declared.change.Cell.TheVariants.{Given};
ghost use Rattle.dbl_model_table.specs.Tables.{column_names};
ghost use Rattle.dbl_model_table.specs.Rows.{changes_of};
ghost use Rattle.dbl_envelope.specs.Suits.{Suits};
ghost use Rattle.dbl_model_event.specs.Clashes.{is_clash, clash_among};
ghost use Rattle.dbl_model_event.specs.Clashes.{clash_at, old_cells, clash_of};
ghost use Rattle.dbl_envelope.specs.Clashing.{IsClash, change_clash, notices_clash};

use crate::changes::changes;
use crate::error::EnvelopeError;
use crate::writer::EventWriter;
use base64::encoded_len;
use base64::engine::general_purpose::STANDARD;
use dbl_base::{Bytes, Seq, Text};
use dbl_model_table::{Cell, Change, Column, Commit, Row, TableInfo};
use dbl_value::{Val, json_tree};
use serde_json::Value;
use std::alloc::{AllocError, Global};

// Whether the base64 of this many bytes has this length.
fn has_length(count: usize, length: usize) -> bool
    ensures { result ≡ (length == encoded_size count true) }
{
    encoded_len(count, true) == Some(length)
}

// Whether the bytes are encoded as this text; they are encoded only if the length matches.
#[tactic(auto, using(crate::proofs::WrittenLemmas::other_size))]
fn are_written_as(alloc: Global, placeholder: &Text, bytes: &Bytes) -> Result<bool, AllocError>
    ensures { IfOk result
        (λ clash. clash ≡ is_clash placeholder.now (Given (Val.Bytes bytes.now))) }
{
    let placeholder = placeholder.as_str();
    let bytes = bytes.items().as_slice();
    if !has_length(bytes.len(), placeholder.len()) {
        return Ok(false);
    }
    let text = STANDARD.encode(alloc, bytes)?;
    Ok(text.as_str() == placeholder)
}

fn ends_in_z(text: &Text) -> bool
    ensures { result ≡ false → slice_get text.now (length text.now - 1) ≢ Some 90 }
{
    matches!(text.as_str().as_bytes().last(), Some(b'Z'))
}

// Whether the instant is printed as this text, which then ends in Z.
#[tactic(auto, using(crate::proofs::WrittenLemmas::other_instant))]
fn is_written_as(alloc: Global, placeholder: &Text, instant: i64) -> Result<bool, AllocError>
    ensures { IfOk result
        (λ clash. clash ≡ is_clash placeholder.now (Given (Val.StampTz instant))) }
{
    if !ends_in_z(placeholder) {
        return Ok(false);
    }
    match json_tree(alloc, &Val::StampTz(instant))? {
        Value::String(text) => Ok(text.as_str() == placeholder.as_str()),
        _ => Ok(false),
    }
}

fn is_clash(alloc: Global, placeholder: &Text, value: &Val) -> Result<bool, AllocError>
    ensures { IfOk result (λ clash. clash ≡ is_clash placeholder.now (Given value.now)) }
{
    match value {
        Val::Null => Ok(false),
        Val::Bool(_) => Ok(false),
        Val::Int(_) => Ok(false),
        Val::Text(text) => Ok(text.as_str() == placeholder.as_str()),
        Val::Bytes(bytes) => are_written_as(alloc, placeholder, bytes),
        Val::Date(_) => Ok(false),
        Val::Time(_) => Ok(false),
        Val::Stamp(_) => Ok(false),
        Val::StampTz(instant) => is_written_as(alloc, placeholder, *instant),
    }
}

fn is_sent_clash(alloc: Global, placeholder: &Text, cell: &Cell) -> Result<bool, AllocError>
    ensures { IfOk result (λ clash. clash ≡ is_clash placeholder.now cell.now) }
{
    match cell {
        Cell::Given(value) => is_clash(alloc, placeholder, value),
        Cell::Unchanged => Ok(false),
    }
}

/// The first column of a row with a value equal to the placeholder.
pub(crate) fn row_clash(
    alloc: Global,
    placeholder: &Text,
    columns: &Seq<Column>,
    cells: &Seq<Val>,
) -> Result<Option<Text>, AllocError>
    ensures { IfOk result (λ name. name ≡ clash_among placeholder.now (column_names columns.now)
        (map Given cells.now)) }
{
    let columns = columns.items();
    let cells = cells.items();
    let count = columns.len().min(cells.len());
    for i in 0..count {
        let clash = is_clash(alloc, placeholder, &cells[i])?;
        if clash {
            let name = columns[i].name.copy(alloc)?;
            return Ok(Some(name));
        }
    }
    Ok(None)
}

fn sent_clash(
    alloc: Global,
    placeholder: &Text,
    columns: &Seq<Column>,
    cells: &Seq<Cell>,
) -> Result<Option<Text>, AllocError>
    ensures { IfOk result
        (λ name. name ≡ clash_among placeholder.now (column_names columns.now) cells.now) }
{
    let columns = columns.items();
    let cells = cells.items();
    let count = columns.len().min(cells.len());
    for i in 0..count {
        let clash = is_sent_clash(alloc, placeholder, &cells[i])?;
        if clash {
            let name = columns[i].name.copy(alloc)?;
            return Ok(Some(name));
        }
    }
    Ok(None)
}

fn old_clash(
    alloc: Global,
    placeholder: &Text,
    columns: &Seq<Column>,
    old: &Option<Row>,
) -> Result<Option<Text>, AllocError>
    ensures { IfOk result (λ name. name ≡ clash_among placeholder.now (column_names columns.now)
        (old_cells old.now)) }
{
    match old {
        Some(row) => row_clash(alloc, placeholder, columns, &row.cells),
        None => Ok(None),
    }
}

fn update_clash(
    alloc: Global,
    placeholder: &Text,
    columns: &Seq<Column>,
    old: &Option<Row>,
    cells: &Seq<Cell>,
) -> Result<Option<Text>, AllocError>
    ensures { IfOk result (λ name. name ≡ option_or
        (clash_among placeholder.now (column_names columns.now) (old_cells old.now))
        (clash_among placeholder.now (column_names columns.now) cells.now)) }
{
    match old_clash(alloc, placeholder, columns, old)? {
        Some(name) => Ok(Some(name)),
        None => sent_clash(alloc, placeholder, columns, cells),
    }
}

fn change_clash(
    alloc: Global,
    placeholder: &Text,
    info: &TableInfo,
    change: &Change,
) -> Result<Option<Text>, AllocError>
    ensures { IfOk result (λ name. name ≡ change_clash placeholder.now info.now change.now) }
{
    let columns = &info.columns;
    match change {
        Change::Insert { table: _, row } => row_clash(alloc, placeholder, columns, &row.cells),
        Change::Update {
            table: _,
            key: _,
            old,
            cells,
        } => update_clash(alloc, placeholder, columns, old, cells),
        Change::Delete {
            table: _,
            key: _,
            old,
        } => row_clash(alloc, placeholder, columns, &old.cells),
        Change::Clear { table: _ } => Ok(None),
    }
}

fn clash_error(alloc: Global, info: &TableInfo, column: Text) -> EnvelopeError
    ensures { result ≢ EnvelopeError.Memory →
        result ≡ EnvelopeError.PlaceholderClash info.now.name column }
{
    match info.name.copy(alloc) {
        Ok(table) => EnvelopeError::PlaceholderClash { table, column },
        Err(_) => EnvelopeError::Memory,
    }
}

/// The error for a value equal to the placeholder in this column, if any.
pub(crate) fn refuse(
    alloc: Global,
    info: &TableInfo,
    found: Option<Text>,
) -> Result<(), EnvelopeError>
    ensures ok { OnOk result (found ≡ None) }
    ensures err { IfErr result (IsClash (clash_at info.now found)) }
{
    match found {
        Some(column) => Err(clash_error(alloc, info, column)),
        None => Ok(()),
    }
}

/// Checks that no value in the change's records equals the placeholder; else returns the first one.
pub(crate) fn check_change(
    alloc: Global,
    writer: &EventWriter,
    change: &Change,
) -> Result<(), EnvelopeError>
    requires suits { Suits writer.now.infos change.now }
    ensures ok { OnOk result
        (notices_clash writer.now.identity.placeholder writer.now.infos change.now ≡ None) }
    ensures err { IfErr result
        (IsClash (notices_clash writer.now.identity.placeholder writer.now.infos change.now)) }
{
    let info = writer.info_of(change);
    let found = change_clash(alloc, &writer.identity().placeholder, info, change)?;
    refuse(alloc, info, found)
}

/// Checks that no value in the commit's records equals the placeholder; else returns the first one.
pub(crate) fn check(
    alloc: Global,
    writer: &EventWriter,
    commit: &Commit,
) -> Result<(), EnvelopeError>
    requires suits { All (Suits writer.now.infos) (changes_of commit.now) }
    ensures ok { OnOk result (clash_of writer.now.identity writer.now.infos commit.now ≡ None) }
    ensures err { IfErr result
        (IsClash (clash_of writer.now.identity writer.now.infos commit.now)) }
{
    for change in changes(commit) {
        match check_change(alloc, writer, change) {
            Ok(()) => {}
            Err(error) => return Err(error),
        }
    }
    Ok(())
}
