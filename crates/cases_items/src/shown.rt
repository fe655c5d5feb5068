//! How cases show what calls answered.

use crate::words;
use anyhow::Result;
use dbl_base::Seq;
use dbl_model_table::{Body, Cell, Change, Commit, Key, Row};
use dbl_record::{Record, line};
use dbl_value::{Val, json};
use std::alloc::Global;
use std::fmt::Write;

// A cell after a space: null is `~`.
fn val(alloc: Global, shown: &mut String, val: &Val) -> Result<()> {
    words::add(shown, " ")?;
    match val {
        Val::Null => words::add(shown, "~"),
        Val::Int(number) => words::said(shown, number),
        Val::Text(text) => words::add(shown, text.as_str()),
        other => show_json(alloc, shown, other),
    }
}

fn show_json(alloc: Global, shown: &mut String, val: &Val) -> Result<()> {
    words::add(shown, json(alloc, val)?.as_str())
}

/// Cells, each after a space: null is `~`.
pub fn row(alloc: Global, shown: &mut String, cells: &Seq<Val>) -> Result<()> {
    for cell in cells.items() {
        val(alloc, shown, cell)?;
    }
    Ok(())
}

// Of an update: an unsent cell is `?`.
fn sent_cell(alloc: Global, shown: &mut String, cell: &Cell) -> Result<()> {
    match cell {
        Cell::Given(given) => val(alloc, shown, given),
        Cell::Unchanged => words::add(shown, " ?"),
    }
}

fn show_cells(alloc: Global, shown: &mut String, cells: &Seq<Cell>) -> Result<()> {
    for cell in cells.items() {
        sent_cell(alloc, shown, cell)?;
    }
    Ok(())
}

fn old_row(alloc: Global, shown: &mut String, key: &Key, old: Option<&Row>) -> Result<()> {
    row(alloc, shown, &key.cells)?;
    words::add(shown, ", old")?;
    match old {
        Some(old) => row(alloc, shown, &old.cells),
        None => words::add(shown, " none"),
    }
}

fn new_row(alloc: Global, shown: &mut String, cells: &Seq<Cell>) -> Result<()> {
    words::add(shown, ", new")?;
    show_cells(alloc, shown, cells)
}

fn kind(change: &Change) -> &'static str {
    match change {
        Change::Insert { .. } => "insert",
        Change::Update { .. } => "update",
        Change::Delete { .. } => "delete",
        Change::Clear { .. } => "clear",
    }
}

fn cells(alloc: Global, shown: &mut String, change: &Change) -> Result<()> {
    match change {
        Change::Insert { row: new, .. } => row(alloc, shown, &new.cells),
        Change::Update {
            key,
            old,
            cells,
            ..
        } => {
            old_row(alloc, shown, key, old.as_ref())?;
            new_row(alloc, shown, cells)
        }
        Change::Delete { key, old, .. } => old_row(alloc, shown, key, Some(old)),
        Change::Clear { .. } => Ok(()),
    }
}

fn change(alloc: Global, shown: &mut String, change: &Change) -> Result<()> {
    let kind = kind(change);
    let table = change.table();
    write!(shown, "; {kind} {table}")?;
    cells(alloc, shown, change)
}

/// Changes, each after a semicolon.
pub fn changes(alloc: Global, shown: &mut String, changes: &Seq<Change>) -> Result<()> {
    for each in changes.items() {
        change(alloc, shown, each)?;
    }
    Ok(())
}

fn head(shown: &mut String, commit: &Commit) -> Result<()> {
    let lsn = commit.lsn;
    let end = commit.end_lsn;
    let time = commit.time;
    let xid = commit.xid;
    write!(shown, "lsn {lsn}, end {end}, time {time}, xid {xid}")?;
    Ok(())
}

/// A watermark, after a semicolon.
pub fn mark(shown: &mut String, value: &str) -> Result<()> {
    write!(shown, "; mark {value}")?;
    Ok(())
}

/// A commit, by the names of its fields.
pub fn commit(alloc: Global, shown: &mut String, commit: &Commit) -> Result<()> {
    head(shown, commit)?;
    match &commit.body {
        Body::Mark(value) => mark(shown, value.as_str()),
        Body::Changes(list) => changes(alloc, shown, list),
    }
}

fn record(alloc: Global, shown: &mut String, record: &Record) -> Result<()> {
    words::line(shown)?;
    words::add(shown, line(alloc, record)?.as_str())
}

/// The lines of records.
pub fn records(alloc: Global, shown: &mut String, records: &Vec<Record>) -> Result<()> {
    if records.is_empty() {
        return words::add(shown, "no record");
    }
    for each in records {
        record(alloc, shown, each)?;
    }
    Ok(())
}
