//! Changes of rows, judged and planned before the store applies them.
//!
//! A message that isn't sent is dropped by name: that is one call, whereas a drop at the end of a
//! scope is proved variant by variant at each exit.

ghost use Rattle.std.specs.Prelude.{◌≡◌, ◌≤◌, ◌&&◌, not, is_some, List};
ghost use Rattle.std.specs.Prelude.{IfOk, OnOk, length, option_copied};
ghost use Rattle.std.specs.BTreeMap.{IsEmpty};
ghost use Rattle.dbl_pgmsg.specs.declared.messages.Message.{Message};
ghost use Rattle.dbl_model_table.specs.Keys.{same_key};
ghost use Rattle.dbl_tables_rows.specs.declared.demo_table.DemoTable.{DemoTable};
ghost use Rattle.dbl_tables_rows.specs.Acts.{Accepted};
ghost use Rattle.dbl_tables_rows.specs.Cells.{row_given, key_texts, key_given, key_set};
ghost use Rattle.dbl_tables_rows.specs.Cells.{is_readable_key, are_readable, has_key_texts};
ghost use Rattle.dbl_tables_rows.specs.Sending.{raw_of, entry_size, entry_limit};
ghost use Rattle.dbl_tables_rows.specs.Steps.{insert_in, update_in, delete_in};
ghost use Rattle.dbl_tables_rows.specs.Given.{HasCells, HasColumns, IsUtf8Change};
ghost use Rattle.dbl_tables_rows.specs.Holders.{other_than, lesser_if};
ghost use Rattle.dbl_tables_rows.specs.Views.{owner_at, seen_at};
ghost use Rattle.dbl_tables_changes.specs.Planned.{MeasuresEntry, ReadsIfReadable, Blocks};
ghost use Rattle.dbl_tables_changes.specs.Planned.{IsOnlyWrite, IsUpdateWritten, UpdatePlans, Plans};
ghost use Rattle.dbl_tables_changes.specs.Planned.{Judges, JudgesInsert, JudgesUpdate};
ghost use Rattle.dbl_tables_changes.specs.Planned.{IsAskedOfTable, found_here};

use crate::planned::{Planned, Write};
use crate::sessions::Session;
use dbl_base::Text;
use dbl_model_table::{Key, NamedCell, RawRow, compare};
use dbl_pgmsg::Message;
use dbl_tables_rows::{
    DemoTable, Held, Rows, StepError, are_each_readable, are_of_key, delete_message, enter_cells,
    grown_size, has_key_texts, insert_message, keep_key, key_from, key_holder, key_in, key_texts,
    key_texts_set, lesser, row_given, row_set, seen_row, update_message,
};
use std::alloc::{AllocError, Global};
use std::collections::BTreeMap;

/// The largest number of columns of a table.
const COLUMN_LIMIT: usize = 1600;

// The size of the entry with one more message of a row. Takes no memory.
pub(crate) fn measure(table: &DemoTable, size: u64, message: &Message) -> Result<u64, StepError>
    ensures { (messages : List Message) → (length table.now.info.columns ≤ 1600 →
        IsUtf8Change message.now) → size ≤ entry_limit → size ≡ entry_size messages →
        MeasuresEntry table.now messages message.now result }
{
    if table.info.columns.items().len() > COLUMN_LIMIT {
        return Err(StepError::BadRow);
    }
    match grown_size(size, message) {
        Some(grown) => Ok(grown),
        None => Err(StepError::BadRow),
    }
}

/// Refuses a step that another session blocks.
pub fn pass(alloc: Global, by: Option<&Text>) -> Result<(), StepError>
    ensures { Blocks (option_copied by.entry) result }
{
    match by {
        Some(by) => Err(StepError::RowLocked {
            by: by.copy(alloc)?,
        }),
        None => Ok(()),
    }
}

// The size of the entry with one more message of a row that no other session blocks.
fn judge(
    alloc: Global,
    table: &DemoTable,
    size: u64,
    message: &Message,
    by: Option<&Text>,
) -> Result<u64, StepError>
    ensures { (messages : List Message) → (length table.now.info.columns ≤ 1600 →
        IsUtf8Change message.now) → size ≤ entry_limit → size ≡ entry_size messages →
        Judges table.now messages message.now (option_copied by.entry) result }
{
    let size = measure(table, size, message)?;
    pass(alloc, by)?;
    Ok(size)
}

fn read_cells<'a>(
    alloc: Global,
    rows: &Rows,
    cells: &'a [NamedCell],
    places: &mut BTreeMap<&'a str, usize>,
) -> Result<(), StepError>
    requires { IsEmpty places.old }
    ensures reads { HasColumns rows.now.table.info rows.now.places →
        ReadsIfReadable (are_readable (raw_of rows.now.table) cells.now) result }
    ensures places { OnOk result (HasCells cells.now places.new) }
{
    if !are_each_readable(alloc, &rows.table.info, &rows.places, cells)? {
        return Err(StepError::BadRow);
    }
    if !enter_cells(cells, places)? {
        return Err(StepError::BadRow);
    }
    Ok(())
}

fn write_of(
    alloc: Global,
    session: &Text,
    key: Key,
    row: Option<RawRow>,
) -> Result<Write, AllocError>
    ensures key { IfOk result (λ write. write.key ≡ key) }
    ensures by { IfOk result (λ write. write.held.by ≡ session.now) }
    ensures row { IfOk result (λ write. write.held.row ≡ row) }
{
    let by = session.copy(alloc)?;
    Ok(Write {
        key,
        held: Held { by, row },
    })
}

fn one_write(
    alloc: Global,
    session: &Text,
    key: Key,
    row: Option<RawRow>,
) -> Result<Vec<Write>, AllocError>
    ensures { IfOk result (λ writes. IsOnlyWrite session.now key row writes.items) }
{
    let write = write_of(alloc, session, key, row)?;
    let mut writes = Vec::new(alloc);
    writes.push(write)?;
    Ok(writes)
}

// The row of these cells, which has no null in its key.
fn read_row(alloc: Global, rows: &Rows, cells: &[NamedCell]) -> Result<RawRow, StepError>
    ensures reads { HasColumns rows.now.table.info rows.now.places →
        ReadsIfReadable (are_readable (raw_of rows.now.table) cells.now && has_key_texts (raw_of
        rows.now.table) cells.now) result }
    ensures row { IfOk result (λ row. row.cells ≡ row_given (raw_of rows.now.table) cells.now) }
{
    let info = &rows.table.info;
    let mut places = BTreeMap::new(alloc);
    read_cells(alloc, rows, cells, &mut places)?;
    if !has_key_texts(info, cells, &places) {
        return Err(StepError::BadRow);
    }
    Ok(row_given(alloc, info, cells, &places)?)
}

// The size of the entry with the insert of a row whose cells were read.
fn judge_insert(
    alloc: Global,
    rows: &Rows,
    name: &Text,
    size: u64,
    message: &Message,
    key: &Key,
) -> Result<u64, StepError>
    ensures { (messages : List Message) → (length rows.now.table.info.columns ≤ 1600 →
        IsUtf8Change message.now) → size ≤ entry_limit → size ≡ entry_size messages →
        JudgesInsert rows.now name.now messages message.now key.now result }
{
    let by = key_holder(rows, name, key);
    let size = judge(alloc, &rows.table, size, message, by)?;
    if seen_row(rows, name, key).is_some() {
        return Err(StepError::RowExists);
    }
    Ok(size)
}

/// Plans the insert of a row with these cells.
pub fn plan_insert(
    alloc: Global,
    oid: u32,
    rows: &Rows,
    name: &Text,
    session: &Session,
    cells: &[NamedCell],
) -> Result<Planned, StepError>
    ensures { (tables : List DemoTable) (past : List Accepted) →
        IsAskedOfTable tables past name.now (found_here oid rows.now) rows.now session.now →
        Plans tables past name.now (found_here oid rows.now) (insert_in tables past name.now
        (found_here oid rows.now) cells.now (row_given (raw_of rows.now.table) cells.now)) result }
{
    let row = read_row(alloc, rows, cells)?;
    let key = key_in(alloc, &rows.table.info, &row)?;
    let message = insert_message(alloc, oid, &row)?;
    let size = match judge_insert(alloc, rows, name, session.size, &message, &key) {
        Ok(size) => size,
        Err(error) => {
            drop(message);
            return Err(error);
        }
    };
    let Ok(writes) = one_write(alloc, name, key, Some(row)) else {
        drop(message);
        return Err(StepError::Memory);
    };
    Ok(Planned {
        message,
        size,
        writes,
    })
}

fn read_key(alloc: Global, rows: &Rows, key: &[NamedCell]) -> Result<Vec<Option<Text>>, StepError>
    ensures reads { HasColumns rows.now.table.info rows.now.places →
        ReadsIfReadable (is_readable_key (raw_of rows.now.table) key.now) result }
    ensures key { IfOk result (λ texts. texts.items ≡ key_texts (raw_of rows.now.table) key.now) }
{
    let info = &rows.table.info;
    let mut places = BTreeMap::new(alloc);
    read_cells(alloc, rows, key, &mut places)?;
    if !are_of_key(info, key) {
        return Err(StepError::BadRow);
    }
    if !has_key_texts(info, key, &places) {
        return Err(StepError::BadRow);
    }
    Ok(key_texts(alloc, info, key, &places)?)
}

// The key that these cells make.
fn read_from(alloc: Global, rows: &Rows, key: &[NamedCell]) -> Result<Key, StepError>
    ensures reads { HasColumns rows.now.table.info rows.now.places →
        ReadsIfReadable (is_readable_key (raw_of rows.now.table) key.now) result }
    ensures key { IfOk result (λ from. from ≡ key_given (raw_of rows.now.table) key.now) }
{
    let texts = read_key(alloc, rows, key)?;
    Ok(key_from(alloc, &rows.table.info, texts.as_slice())?)
}

fn update_writes(
    alloc: Global,
    session: &Text,
    from: Key,
    to: Key,
    row: RawRow,
) -> Result<Vec<Write>, AllocError>
    ensures { IfOk result (λ writes. IsUpdateWritten session.now from to row writes.items) }
{
    let mut writes = Vec::new(alloc);
    if compare(&from, &to).is_eq() {
        writes.push(write_of(alloc, session, to, Some(row))?)?;
        return Ok(writes);
    }
    writes.push(write_of(alloc, session, from, None)?)?;
    writes.push(write_of(alloc, session, to, Some(row))?)?;
    Ok(writes)
}

fn in_the_way<'a>(rows: &'a Rows, name: &Text, from: &Key, to: &Key) -> Option<&'a Text>
    ensures { option_copied result ≡ lesser_if (other_than name.now (owner_at rows.now from.now))
        (other_than name.now (owner_at rows.now to.now)) }
{
    lesser(key_holder(rows, name, from), key_holder(rows, name, to))
}

// Whether the new key of an update differs and already has a row.
fn is_taken(rows: &Rows, name: &Text, from: &Key, to: &Key) -> bool
    ensures { result ≡ (not (same_key from.now to.now) && is_some (seen_at rows.now name.now
        to.now)) }
{
    if compare(from, to).is_eq() {
        return false;
    }
    seen_row(rows, name, to).is_some()
}

// The size of the entry with the update of an existing row.
fn judge_update(
    alloc: Global,
    rows: &Rows,
    name: &Text,
    size: u64,
    message: &Message,
    from: &Key,
    to: &Key,
) -> Result<u64, StepError>
    ensures { (messages : List Message) → (length rows.now.table.info.columns ≤ 1600 →
        IsUtf8Change message.now) → size ≤ entry_limit → size ≡ entry_size messages →
        JudgesUpdate rows.now name.now messages message.now from.now to.now result }
{
    let by = in_the_way(rows, name, from, to);
    let size = judge(alloc, &rows.table, size, message, by)?;
    if is_taken(rows, name, from, to) {
        return Err(StepError::RowExists);
    }
    Ok(size)
}

fn plan_update_of(
    alloc: Global,
    rows: &Rows,
    name: &Text,
    size: u64,
    message: Message,
    from: Key,
    to: Key,
    row: RawRow,
) -> Result<Planned, StepError>
    ensures { (messages : List Message) → (length rows.now.table.info.columns ≤ 1600 →
        IsUtf8Change message) → size ≤ entry_limit → size ≡ entry_size messages →
        UpdatePlans rows.now name.now messages message from to row result }
{
    let size = match judge_update(alloc, rows, name, size, &message, &from, &to) {
        Ok(size) => size,
        Err(error) => {
            drop(message);
            return Err(error);
        }
    };
    let Ok(writes) = update_writes(alloc, name, from, to, row) else {
        drop(message);
        return Err(StepError::Memory);
    };
    Ok(Planned {
        message,
        size,
        writes,
    })
}

/// Plans an update that sets some cells of the row with a key.
pub fn plan_update(
    alloc: Global,
    oid: u32,
    rows: &Rows,
    name: &Text,
    session: &Session,
    key: &[NamedCell],
    set: &[NamedCell],
) -> Result<Planned, StepError>
    ensures { (tables : List DemoTable) (past : List Accepted) →
        IsAskedOfTable tables past name.now (found_here oid rows.now) rows.now session.now →
        Plans tables past name.now (found_here oid rows.now) (update_in tables past name.now
        (found_here oid rows.now) key.now set.now (key_given (raw_of rows.now.table) key.now)
        (key_set (raw_of rows.now.table) key.now set.now)) result }
{
    let info = &rows.table.info;
    let old_key = read_key(alloc, rows, key)?;
    let mut places = BTreeMap::new(alloc);
    read_cells(alloc, rows, set, &mut places)?;
    if !keep_key(info, set) {
        return Err(StepError::BadRow);
    }
    let new_key = key_texts_set(alloc, info, set, &places, old_key.as_slice())?;
    let from = key_from(alloc, info, old_key.as_slice())?;
    let to = key_from(alloc, info, new_key.as_slice())?;
    let Some(before) = seen_row(rows, name, &from) else {
        pass(alloc, in_the_way(rows, name, &from, &to))?;
        return Err(StepError::NoRow);
    };
    let row = row_set(alloc, info, set, &places, before)?;
    let message = update_message(alloc, oid, &rows.table, before, &row)?;
    plan_update_of(alloc, rows, name, session.size, message, from, to, row)
}

/// Plans the delete of the row with a key.
pub fn plan_delete(
    alloc: Global,
    oid: u32,
    rows: &Rows,
    name: &Text,
    session: &Session,
    key: &[NamedCell],
) -> Result<Planned, StepError>
    ensures { (tables : List DemoTable) (past : List Accepted) →
        IsAskedOfTable tables past name.now (found_here oid rows.now) rows.now session.now →
        Plans tables past name.now (found_here oid rows.now) (delete_in tables past name.now
        (found_here oid rows.now) key.now (key_given (raw_of rows.now.table) key.now)) result }
{
    let from = read_from(alloc, rows, key)?;
    let Some(before) = seen_row(rows, name, &from) else {
        pass(alloc, key_holder(rows, name, &from))?;
        return Err(StepError::NoRow);
    };
    let message = delete_message(alloc, oid, &rows.table, before)?;
    let by = key_holder(rows, name, &from);
    let size = match judge(alloc, &rows.table, session.size, &message, by) {
        Ok(size) => size,
        Err(error) => {
            drop(message);
            return Err(error);
        }
    };
    let Ok(writes) = one_write(alloc, name, from, None) else {
        drop(message);
        return Err(StepError::Memory);
    };
    Ok(Planned {
        message,
        size,
        writes,
    })
}
