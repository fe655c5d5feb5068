//! First rows of a table, which are committed as they are inserted: no session has locks.

ghost use Rattle.std.specs.Prelude.{◌≡◌, ◌≤◌, ◌&&◌, List, true, None, IfErr, IfOk, OnOk, is_some};
ghost use Rattle.std.specs.Prelude.{map, option_and_then, replicate, slice_get, unwrap_or};
ghost use Rattle.std.specs.List.{list_all};
ghost use Rattle.dbl_model_table.specs.declared.named_cell.NamedCell.{NamedCell};
ghost use Rattle.dbl_model_table.specs.declared.table.TableInfo.{TableInfo};
ghost use Rattle.dbl_pgmsg.specs.declared.messages.Message.{Message};
ghost use Rattle.dbl_tables_rows.specs.Cells.{row_given, are_each_readable, are_readable};
ghost use Rattle.dbl_tables_rows.specs.Cells.{has_key_texts};
ghost use Rattle.dbl_tables_rows.specs.Given.{HasColumns};
ghost use Rattle.dbl_tables_rows.specs.Sending.{raw_of, entry_size, entry_limit};
ghost use Rattle.dbl_tables_rows.specs.Views.{committed_in};
ghost use Rattle.dbl_tables_changes.specs.First.{cells_named, AreTaken, NamesTwice, TakesCell};
ghost use Rattle.dbl_tables_changes.specs.First.{PutsRow, PlansFirst, InsertsFirst};
ghost use Rattle.dbl_tables_changes.specs.Planned.{ReadsIfReadable};

use crate::planning::measure;
use dbl_base::{Seq, Text};
use dbl_model_table::{Key, NamedCell, RawRow};
use dbl_pgmsg::Message;
use dbl_tables_rows::{Rows, Slot, Slots, StepError, are_each_readable, insert_message, key_in};
use std::alloc::{AllocError, Global};
use std::collections::BTreeMap;

/// A first row that can be inserted unless its key has a row, with its message and the size of the
/// entry with the message.
#[derive(Drop)]
pub struct FirstRow {
    pub key: Key,
    pub row: RawRow,
    pub message: Message,
    pub size: u64,
}

// The cells of a row without cells, by column.
fn unnamed(alloc: Global, count: usize) -> Result<Vec<Option<Option<Text>>>, AllocError>
    ensures { IfOk result (λ named. named.items ≡ replicate count None) }
{
    let mut named = Vec::with_capacity(alloc, count)?;
    for _column in 0..count {
        named.push(None)?;
    }
    Ok(named)
}

// Moves a cell's text to the index of its column, unless the column was named before.
fn take_cell(
    places: &BTreeMap<Text, usize>,
    named: &mut Vec<Option<Option<Text>>>,
    cell: NamedCell,
) -> Result<(), StepError>
    ensures { (info : TableInfo) (cells : List NamedCell) → HasColumns info places.now →
        named.old.items ≡ cells_named info cells →
        TakesCell info cells cell named.new.items result }
{
    let NamedCell { column, text } = cell;
    let Some(place) = places.get(&column) else {
        return Err(StepError::BadRow);
    };
    let Some(own) = named.get_mut(*place) else {
        return Err(StepError::BadRow);
    };
    if own.is_some() {
        return Err(StepError::BadRow);
    }
    *own = Some(text);
    Ok(())
}

// The texts of readable cells by column, unless a column is named twice.
fn take_cells(
    alloc: Global,
    rows: &Rows,
    cells: Vec<NamedCell>,
) -> Result<Vec<Option<Option<Text>>>, StepError>
    ensures taken { HasColumns rows.now.table.info rows.now.places →
        are_each_readable (raw_of rows.now.table) cells.items ≡ true →
        IfOk result (λ named. AreTaken rows.now.table.info cells.items named.items) }
    ensures twice { HasColumns rows.now.table.info rows.now.places →
        are_each_readable (raw_of rows.now.table) cells.items ≡ true →
        IfErr result (NamesTwice cells.items) }
{
    let mut named = unnamed(alloc, rows.table.info.columns.items().len())?;
    for cell in cells {
        take_cell(&rows.places, &mut named, cell)?;
    }
    Ok(named)
}

fn text_of(named: Option<Option<Text>>) -> Option<Text>
    ensures { result ≡ option_and_then (λ text. text) named }
{
    match named {
        Some(text) => text,
        None => None,
    }
}

// The texts of a row, null in each column without a cell.
fn row_texts(
    alloc: Global,
    cells: Vec<Option<Option<Text>>>,
) -> Result<Vec<Option<Text>>, AllocError>
    ensures { IfOk result
        (λ texts. texts.items ≡ map (option_and_then (λ text. text)) cells.items) }
{
    let mut texts = Vec::with_capacity(alloc, cells.len())?;
    for named in cells {
        texts.push(text_of(named))?;
    }
    Ok(texts)
}

fn is_text_at(texts: &[Option<Text>], place: u32) -> bool
    ensures { result ≡ is_some (unwrap_or (slice_get texts.now place) None) }
{
    match texts.get(place as usize) {
        Some(text) => text.is_some(),
        None => false,
    }
}

fn are_texts_at(texts: &[Option<Text>], places: &[u32]) -> bool
    ensures { result ≡
        list_all (λ place. is_some (unwrap_or (slice_get texts.now place) None)) places.now }
{
    places.iter().all(|place| is_text_at(texts, *place))
}

// The row of these cells, which has no null in its key. The texts are moved.
fn read_first(alloc: Global, rows: &Rows, cells: Vec<NamedCell>) -> Result<RawRow, StepError>
    ensures reads { HasColumns rows.now.table.info rows.now.places →
        ReadsIfReadable (are_readable (raw_of rows.now.table) cells.items && has_key_texts (raw_of
        rows.now.table) cells.items) result }
    ensures row { IfOk result
        (λ row. HasColumns rows.now.table.info rows.now.places →
        row.cells ≡ row_given (raw_of rows.now.table) cells.items) }
{
    let info = &rows.table.info;
    if !are_each_readable(alloc, info, &rows.places, cells.as_slice())? {
        return Err(StepError::BadRow);
    }
    let named = take_cells(alloc, rows, cells)?;
    let texts = row_texts(alloc, named)?;
    if !are_texts_at(texts.as_slice(), info.key.items().as_slice()) {
        return Err(StepError::BadRow);
    }
    Ok(RawRow {
        cells: Seq::make(texts),
    })
}

fn plan_first(
    alloc: Global,
    oid: u32,
    rows: &Rows,
    size: u64,
    cells: Vec<NamedCell>,
) -> Result<FirstRow, StepError>
    ensures { (messages : List Message) → HasColumns rows.now.table.info rows.now.places →
        size ≤ entry_limit → size ≡ entry_size messages →
        PlansFirst rows.now.table oid messages cells.items result }
{
    let row = read_first(alloc, rows, cells)?;
    let key = key_in(alloc, &rows.table.info, &row)?;
    let message = insert_message(alloc, oid, &row)?;
    let size = match measure(&rows.table, size, &message) {
        Ok(size) => size,
        Err(error) => {
            drop(message);
            return Err(error);
        }
    };
    Ok(FirstRow {
        key,
        row,
        message,
        size,
    })
}

fn has_row(slot: Option<Slot>) -> bool
    ensures { result ≡ is_some (option_and_then (λ s. s.committed) slot) }
{
    match slot {
        Some(slot) => slot.committed.is_some(),
        None => false,
    }
}

// Commits a row at a key, and returns whether the key had one.
fn put_row(slots: &mut Slots, key: Key, row: RawRow) -> Result<bool, AllocError>
    ensures had { IfOk result (λ had. had ≡ is_some (committed_in slots.old key)) }
    ensures put { OnOk result (PutsRow key row slots.old slots.new) }
{
    let slot = Slot {
        committed: Some(row),
        held: None,
    };
    let old = slots.insert(key, slot)?;
    Ok(has_row(old))
}

/// Inserts the row of these cells, and returns the size of the entry with its message. The tables
/// and messages are of no use after an error.
pub fn insert_first(
    alloc: Global,
    oid: u32,
    rows: &mut Rows,
    messages: &mut Vec<Message>,
    size: u64,
    cells: Vec<NamedCell>,
) -> Result<u64, StepError>
    ensures { HasColumns rows.old.table.info rows.old.places → size ≤ entry_limit →
        size ≡ entry_size messages.old.items → InsertsFirst oid cells.items rows.old rows.new
        messages.old.items messages.new.items result }
{
    let first = plan_first(alloc, oid, rows, size, cells)?;
    let FirstRow {
        key,
        row,
        message,
        size,
    } = first;
    messages.push(message)?;
    if put_row(&mut rows.slots, key, row)? {
        return Err(StepError::RowExists);
    }
    Ok(size)
}
