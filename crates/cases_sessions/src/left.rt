//! What changes leave of a row, by the definition.

use anyhow::{Context, Result};
use cases_items::{items, shown, words};
use dbl_base::Seq;
use dbl_model_table::{Body, Change, Key, Row, TableInfo};
use dbl_window::plain_left;
use std::alloc::Global;

fn add_all(changes: &mut Vec<Change>, more: Vec<Change>) -> Result<()> {
    for change in more {
        changes.push(change)?;
    }
    Ok(())
}

fn add_changes(changes: &mut Vec<Change>, body: Body) -> Result<()> {
    match body {
        Body::Changes(more) => add_all(changes, more.into_items()),
        Body::Mark(_value) => Ok(()),
    }
}

fn changes(alloc: Global, case: &str) -> Result<Vec<Change>> {
    let mut changes = Vec::new(alloc);
    for commit in items::commits(alloc, case)? {
        add_changes(&mut changes, commit.body)?;
    }
    Ok(changes)
}

fn key(alloc: Global, words: &str) -> Result<Key> {
    Ok(Key {
        cells: Seq::make(words::all(alloc, words)?),
    })
}

fn row(alloc: Global, words: &str) -> Result<Row> {
    Ok(Row {
        cells: Seq::make(words::all(alloc, words)?),
    })
}

fn show(alloc: Global, row: &Option<Row>, answers: &mut String) -> Result<()> {
    words::add(answers, "\n ")?;
    match row {
        Some(row) => shown::row(alloc, answers, &row.cells),
        None => words::add(answers, " nothing"),
    }
}

fn show_left(
    alloc: Global,
    infos: &Vec<TableInfo>,
    changes: &Vec<Change>,
    fields: &str,
    answers: &mut String,
) -> Result<()> {
    let key = key(alloc, items::field(fields, 0))?;
    let row = row(alloc, items::field(fields, 1))?;
    show(
        alloc,
        &plain_left(alloc, infos, 0, &key, Some(row), changes)?,
        answers,
    )
}

/// Adds what is left. The messages are items of the case.
pub fn answer(alloc: Global, asked: &str, answers: &mut String) -> Result<()> {
    let fields = items::first_of(asked, "left/").context("no row")?;
    let infos = items::tables(alloc, asked)?;
    show_left(alloc, &infos, &changes(alloc, asked)?, fields, answers)
}
