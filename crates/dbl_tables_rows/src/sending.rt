//! The messages that report changes of rows.

ghost use Rattle.std.specs.Prelude.{◌≡◌, ◌≤◌, ◌&&◌, not, nat_le, true, IfOk};
ghost use Rattle.std.specs.Prelude.{IfSome, if◌then◌else◌, length, map, bytes_eq};
ghost use Rattle.std.specs.List.{AllByRecursion};
ghost use Rattle.dbl_model_table.specs.Tables.{are_typed};
ghost use Rattle.dbl_model_table.specs.Infos.{raw_column, catalogue_of};
ghost use Rattle.dbl_value_types.specs.Types.{is_column_type};
ghost use Rattle.dbl_source_log.specs.ModelCommit.Tuples.{is_fixed};
ghost use Rattle.dbl_tables_rows.specs.Cells.{is_key_name};
ghost use Rattle.dbl_tables_rows.specs.Sending.{raw_of, sent_cell, whole_tuple, key_tuple};
ghost use Rattle.dbl_tables_rows.specs.Sending.{is_unsent_text, new_cells, old_tuple};
ghost use Rattle.dbl_tables_rows.specs.Sending.{optional_old, insert_message};
ghost use Rattle.dbl_tables_rows.specs.Sending.{update_message, delete_message, moves};
ghost use Rattle.dbl_tables_rows.specs.Given.{IsUtf8Cell, IsUtf8Change, old_tuple_cells};

use crate::columns::{is_key_name, key_in};
use crate::demo_table::DemoTable;
use dbl_base::{Seq, Text};
use dbl_model_table::{Column, RawRow, TableInfo, compare};
use dbl_pgmsg::{Message, OldTuple, Tuple, TupleCell};
use dbl_value::PgType;
use std::alloc::{AllocError, Global};

fn sent_cell(alloc: Global, text: &Option<Text>) -> Result<TupleCell, AllocError>
    ensures cell { IfOk result (λ c. c ≡ sent_cell text.now) }
    ensures utf8 { IfOk result IsUtf8Cell }
{
    match text {
        Some(text) => {
            // Reading a text shows the proof that it is UTF-8.
            let _text = text.as_str();
            Ok(TupleCell::Text(text.copy(alloc)?))
        }
        None => Ok(TupleCell::Null),
    }
}

fn whole_tuple(alloc: Global, row: &RawRow) -> Result<Tuple, AllocError>
    ensures tuple { IfOk result (λ t. t ≡ whole_tuple row.now.cells) }
    ensures utf8 { IfOk result (λ tuple. AllByRecursion IsUtf8Cell tuple.cells) }
{
    let mut cells = Vec::new(alloc);
    for text in row.cells.items() {
        cells.push(sent_cell(alloc, text)?)?;
    }
    Ok(Tuple {
        cells: Seq::make(cells),
    })
}

fn key_cell(
    alloc: Global,
    info: &TableInfo,
    column: &Column,
    text: &Option<Text>,
) -> Result<TupleCell, AllocError>
    ensures cell { IfOk result (λ c. c ≡
        (if is_key_name (catalogue_of info.now) column.now.name
        then sent_cell text.now else TupleCell.Null)) }
    ensures utf8 { IfOk result IsUtf8Cell }
{
    if is_key_name(info, &column.name) {
        sent_cell(alloc, text)
    } else {
        Ok(TupleCell::Null)
    }
}

fn key_tuple(alloc: Global, info: &TableInfo, row: &RawRow) -> Result<Tuple, AllocError>
    ensures tuple { IfOk result (λ t. t ≡ key_tuple (catalogue_of info.now) row.now.cells) }
    ensures utf8 { IfOk result (λ tuple. AllByRecursion IsUtf8Cell tuple.cells) }
{
    let mut cells = Vec::new(alloc);
    for (i, column) in info.columns.items().iter().enumerate() {
        let Some(text) = row.cells.items().get(i) else {
            break;
        };
        cells.push(key_cell(alloc, info, column, text)?)?;
    }
    Ok(Tuple {
        cells: Seq::make(cells),
    })
}

fn is_fixed(ty: PgType) -> bool
    ensures { result ≡ is_fixed ty }
{
    matches!(
        dbl_value::oid(ty),
        16 | 20 | 21 | 23 | 1082 | 1083 | 1114 | 1184 | 2950
    )
}

// Whether the text is unchanged, in a column whose values may be stored out of line.
fn stays_out(table: &DemoTable, column: &Column, before: &Text, new: &Text) -> bool
    ensures { result ≡
        (not (is_key_name (raw_of table.now) column.now.name) && not (is_fixed column.now.ty) &&
        bytes_eq before.now new.now && nat_le table.now.toast (length new.now)) }
{
    !is_key_name(&table.info, &column.name)
        && !is_fixed(column.ty)
        && *before == *new
        && table.toast as usize <= new.as_str().len()
}

fn is_unsent_text(
    table: &DemoTable,
    column: &Column,
    before: &Option<Text>,
    new: &Option<Text>,
) -> bool
    requires { is_column_type column.now.ty ≡ true }
    ensures { result ≡ is_unsent_text table.now (raw_column column.now) before.now new.now }
{
    match (before, new) {
        (Some(before), Some(new)) => stays_out(table, column, before, new),
        _ => false,
    }
}

fn new_cell(
    alloc: Global,
    table: &DemoTable,
    column: &Column,
    before: &Option<Text>,
    new: &Option<Text>,
) -> Result<TupleCell, AllocError>
    requires { is_column_type column.now.ty ≡ true }
    ensures cell { IfOk result (λ c. c ≡
        (if is_unsent_text table.now (raw_column column.now) before.now new.now
        then TupleCell.Unchanged else sent_cell new.now)) }
    ensures utf8 { IfOk result IsUtf8Cell }
{
    if is_unsent_text(table, column, before, new) {
        Ok(TupleCell::Unchanged)
    } else {
        sent_cell(alloc, new)
    }
}

fn new_cells(
    alloc: Global,
    table: &DemoTable,
    columns: &[Column],
    before: &[Option<Text>],
    row: &[Option<Text>],
) -> Result<Vec<TupleCell>, AllocError>
    requires { are_typed columns.now ≡ true }
    ensures cells { IfOk result (λ c. c.items ≡
        new_cells table.now (map raw_column columns.now) before.now row.now) }
    ensures utf8 { IfOk result (λ cells. AllByRecursion IsUtf8Cell cells.items) }
{
    let mut cells = Vec::new(alloc);
    for (i, column) in columns.iter().enumerate() {
        let Some(old) = before.get(i) else {
            break;
        };
        let Some(new) = row.get(i) else {
            break;
        };
        cells.push(new_cell(alloc, table, column, old, new)?)?;
    }
    Ok(cells)
}

fn new_tuple(
    alloc: Global,
    table: &DemoTable,
    before: &RawRow,
    row: &RawRow,
) -> Result<Tuple, AllocError>
    ensures tuple { IfOk result (λ t. t ≡ record {
      cells =
          new_cells table.now (raw_of table.now).columns before.now.cells row.now.cells;
    }) }
    ensures utf8 { IfOk result (λ tuple. AllByRecursion IsUtf8Cell tuple.cells) }
{
    let cells = new_cells(
        alloc,
        table,
        table.info.columns.items(),
        before.cells.items(),
        row.cells.items(),
    )?;
    Ok(Tuple {
        cells: Seq::make(cells),
    })
}

fn old_tuple(alloc: Global, table: &DemoTable, row: &RawRow) -> Result<OldTuple, AllocError>
    ensures old { IfOk result (λ before. before ≡ old_tuple table.now row.now.cells) }
    ensures utf8 { IfOk result (λ before. AllByRecursion IsUtf8Cell (old_tuple_cells before)) }
{
    if table.full {
        Ok(OldTuple::Whole(whole_tuple(alloc, row)?))
    } else {
        Ok(OldTuple::Key(key_tuple(alloc, &table.info, row)?))
    }
}

fn optional_old(
    alloc: Global,
    table: &DemoTable,
    moved: bool,
    row: &RawRow,
) -> Result<Option<OldTuple>, AllocError>
    ensures old { IfOk result (λ before. before ≡ optional_old table.now moved row.now.cells) }
    ensures utf8 { IfOk result (λ before.
        IfSome before (λ b. AllByRecursion IsUtf8Cell (old_tuple_cells b))) }
{
    if table.full || moved {
        Ok(Some(old_tuple(alloc, table, row)?))
    } else {
        Ok(None)
    }
}

// Whether the keys of the old and the new row differ.
fn moves(
    alloc: Global,
    table: &DemoTable,
    before: &RawRow,
    row: &RawRow,
) -> Result<bool, AllocError>
    ensures { IfOk result (λ moved. moved ≡ moves table.now before.now.cells row.now.cells) }
{
    let from = key_in(alloc, &table.info, before)?;
    let to = key_in(alloc, &table.info, row)?;
    Ok(!compare(&from, &to).is_eq())
}

/// The message of an insert.
pub fn insert_message(alloc: Global, oid: u32, row: &RawRow) -> Result<Message, AllocError>
    ensures message { IfOk result (λ m. m ≡ insert_message oid row.now.cells) }
    ensures utf8 { length row.now.cells ≤ 1600 → IfOk result IsUtf8Change }
{
    Ok(Message::Insert {
        oid,
        row: whole_tuple(alloc, row)?,
    })
}

/// The message of an update.
pub fn update_message(
    alloc: Global,
    oid: u32,
    table: &DemoTable,
    before: &RawRow,
    row: &RawRow,
) -> Result<Message, AllocError>
    ensures message { IfOk result (λ m.
        m ≡ update_message oid table.now before.now.cells row.now.cells) }
    ensures utf8 { length before.now.cells ≤ 1600 → IfOk result IsUtf8Change }
{
    let moved = moves(alloc, table, before, row)?;
    Ok(Message::Update {
        oid,
        before: optional_old(alloc, table, moved, before)?,
        row: new_tuple(alloc, table, before, row)?,
    })
}

/// The message of a delete.
pub fn delete_message(
    alloc: Global,
    oid: u32,
    table: &DemoTable,
    before: &RawRow,
) -> Result<Message, AllocError>
    ensures message { IfOk result (λ m. m ≡ delete_message oid table.now before.now.cells) }
    ensures utf8 { length before.now.cells ≤ 1600 → IfOk result IsUtf8Change }
{
    Ok(Message::Delete {
        oid,
        before: old_tuple(alloc, table, before)?,
    })
}
