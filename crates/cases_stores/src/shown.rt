//! How messages and rows are shown.

use anyhow::Result;
use dbl_base::{Seq, Text};
use dbl_model_table::{RawRow, TableName};
use dbl_pgmsg::{Message, OldTuple, Tuple, TupleCell};
use std::fmt::Write;

fn cell(shown: &mut String, cell: &TupleCell) -> Result<()> {
    match cell {
        TupleCell::Null => shown.push_str(" ~")?,
        TupleCell::Unchanged => shown.push_str(" u")?,
        TupleCell::Text(text) => write!(shown, " {text}")?,
    }
    Ok(())
}

fn tuple(shown: &mut String, row: &Tuple) -> Result<()> {
    for each in row.cells.items() {
        cell(shown, each)?;
    }
    Ok(())
}

fn before(shown: &mut String, old: &OldTuple) -> Result<()> {
    match old {
        OldTuple::Key(row) => {
            shown.push_str(" key")?;
            tuple(shown, row)
        }
        OldTuple::Whole(row) => {
            shown.push_str(" old")?;
            tuple(shown, row)
        }
    }
}

fn update(shown: &mut String, oid: u32, old: &Option<OldTuple>, row: &Tuple) -> Result<()> {
    write!(shown, " update {oid}")?;
    if let Some(old) = old {
        before(shown, old)?;
    }
    shown.push_str(" new")?;
    tuple(shown, row)
}

fn truncate(shown: &mut String, oids: &Seq<u32>) -> Result<()> {
    shown.push_str(" truncate")?;
    for oid in oids.items() {
        write!(shown, " {oid}")?;
    }
    Ok(())
}

// A change: what it is, the table's OID, and its cells, where null is `~` and an unsent one `u`.
fn message(shown: &mut String, message: &Message) -> Result<()> {
    match message {
        Message::Insert { oid, row } => {
            write!(shown, " insert {oid}")?;
            tuple(shown, row)
        }
        Message::Update { oid, before, row } => update(shown, *oid, before, row),
        Message::Delete { oid, before: old } => {
            write!(shown, " delete {oid}")?;
            before(shown, old)
        }
        Message::Truncate { options: _, oids } => truncate(shown, oids),
        _ => Ok(()),
    }
}

/// The changes of a commit, with a comma between two.
pub fn messages(shown: &mut String, list: &Seq<Message>) -> Result<()> {
    let mut later = false;
    for each in list.items() {
        if later {
            shown.push(',')?;
        }
        later = true;
        message(shown, each)?;
    }
    Ok(())
}

fn text(shown: &mut String, cell: &Option<Text>) -> Result<()> {
    match cell {
        Some(text) => write!(shown, " {text}")?,
        None => shown.push_str(" ~")?,
    }
    Ok(())
}

// A row in parentheses.
fn row(shown: &mut String, row: &RawRow) -> Result<()> {
    shown.push_str(" (")?;
    for cell in row.cells.items() {
        text(shown, cell)?;
    }
    shown.push_str(" )")?;
    Ok(())
}

/// A table's name and its rows.
pub fn rows(shown: &mut String, name: &TableName, rows: &Seq<RawRow>) -> Result<()> {
    write!(shown, " {name}")?;
    for each in rows.items() {
        row(shown, each)?;
    }
    Ok(())
}
