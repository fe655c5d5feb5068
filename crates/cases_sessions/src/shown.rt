//! How the answers of a source are shown: a message by its bytes, rows parted by `; `, with `~` for null, and each version but 1.

use anyhow::Result;
use cases_items::words;
use dbl_base::{Bytes, Text};
use dbl_model_table::{RawColumn, RawRow, RawTable};
use dbl_source::{Selected, Started};
use std::alloc::Global;
use std::fmt::Write;

fn column(answers: &mut String, column: &RawColumn) -> Result<()> {
    let (name, oid) = (&column.name, column.oid);
    write!(answers, " {name}:{oid}")?;
    Ok(())
}

// The table's name, its columns with their types, its key, and its version if that isn't 1.
fn table(answers: &mut String, raw: &RawTable) -> Result<()> {
    let name = &raw.name;
    write!(answers, "\n  {name},")?;
    for each in raw.columns.items() {
        column(answers, each)?;
    }
    words::add(answers, ", key")?;
    for name in raw.key.items() {
        write!(answers, " {name}")?;
    }
    if raw.version != 1 {
        write!(answers, ", version {}", raw.version)?;
    }
    Ok(())
}

/// An entry of the catalogue.
pub fn entry(answers: &mut String, entry: &Option<RawTable>) -> Result<()> {
    match entry {
        Some(raw) => table(answers, raw),
        None => words::add(answers, "\n  no table"),
    }
}

/// Whether reading begins, or the first position that it could begin after.
pub fn started(answers: &mut String, started: &Started) -> Result<()> {
    match started {
        Started::Ready => words::add(answers, "\n  ready"),
        Started::Gone { first } => {
            write!(answers, "\n  gone {first}")?;
            Ok(())
        }
    }
}

/// The bytes of a message.
pub fn message(alloc: Global, answers: &mut String, read: &Option<Bytes>) -> Result<()> {
    match read {
        Some(bytes) => {
            let digits = hex::encode(alloc, bytes.items().as_slice())?;
            write!(answers, "\n  {digits}")?;
            Ok(())
        }
        None => words::add(answers, "\n  nothing"),
    }
}

fn cell(answers: &mut String, cell: &Option<Text>) -> Result<()> {
    match cell {
        Some(text) => words::add(answers, text.as_str()),
        None => words::add(answers, "~"),
    }
}

fn row(answers: &mut String, row: &RawRow) -> Result<()> {
    for (i, each) in row.cells.items().iter().enumerate() {
        if i > 0 {
            words::add(answers, " ")?;
        }
        cell(answers, each)?;
    }
    Ok(())
}

// The rows of a select.
fn rows(answers: &mut String, rows: &Vec<RawRow>) -> Result<()> {
    if rows.is_empty() {
        return words::add(answers, "\n  no rows");
    }
    for (i, each) in rows.iter().enumerate() {
        words::add(answers, if i > 0 { "; " } else { "\n  " })?;
        row(answers, each)?;
    }
    Ok(())
}

/// The rows of a select, after their version if that isn't 1.
pub fn selected(answers: &mut String, selected: &Selected) -> Result<()> {
    if selected.version != 1 {
        write!(answers, "\n  version {}:", selected.version)?;
    }
    rows(answers, selected.rows.items())
}
