//! Cases of captured tables, of the rows at a point in the history, and of the records of a commit,
//! by the plain functions whose contracts are the definitions.

use anyhow::Result;
use cases_ages::{image_text, plain_envelopes, row_at};
use cases_items::{items, shown, words};
use dbl_base::{Seq, Text};
use dbl_model_table::{Commit, Identity, Key, TableInfo};
use std::alloc::Global;
use std::fmt::Write;

/// Adds the rows at points in the history, or the records of each commit.
pub fn show_history(alloc: Global, shown: &mut String, call: &str, arguments: &str) -> Result<()> {
    let infos = items::tables(alloc, arguments)?;
    let commits = items::commits(alloc, arguments)?;
    match call {
        "rows" => rows(alloc, shown, &infos, &commits, arguments),
        _ => envelopes(alloc, shown, &infos, &commits, arguments),
    }
}

/// Adds the columns and the key of a table, or why it can't be captured.
pub fn show_table(alloc: Global, shown: &mut String, arguments: &str) -> Result<()> {
    let raw = items::raw_table(alloc, arguments)?;
    let made = TableInfo::make(alloc, &raw);
    drop(raw);
    match made {
        Ok(info) => {
            let end = show_info(shown, &info);
            drop(info);
            end
        }
        Err(error) => {
            let end = words::said(shown, &error);
            drop(error);
            end
        }
    }
}

fn show_info(shown: &mut String, info: &TableInfo) -> Result<()> {
    words::said(shown, &info.name)?;
    words::add(shown, ",")?;
    for column in info.columns.items() {
        let name = &column.name;
        let ty = column.ty;
        write!(shown, " {name} {ty:?},")?;
    }
    words::add(shown, " key ")?;
    words::show_debug(shown, info.key.items())
}

/// The key of these words.
pub fn key(alloc: Global, words: &str) -> Result<Key> {
    Ok(Key {
        cells: Seq::make(words::all(alloc, words)?),
    })
}

// The row and the cell at each `at/MOMENT/TABLE/KEY/COLUMN`.
fn rows(
    alloc: Global,
    shown: &mut String,
    infos: &Vec<TableInfo>,
    commits: &Vec<Commit>,
    arguments: &str,
) -> Result<()> {
    for item in arguments.split(" | ") {
        if let Some(fields) = item.strip_prefix("at/") {
            words::line(shown)?;
            write!(shown, "{fields}:")?;
            let key = key(alloc, items::field(fields, 2))?;
            show_row(alloc, shown, infos, commits, fields, &key)?;
            show_image(alloc, shown, infos, commits, fields, &key)?;
        }
    }
    Ok(())
}

fn show_row(
    alloc: Global,
    shown: &mut String,
    infos: &Vec<TableInfo>,
    commits: &Vec<Commit>,
    fields: &str,
    key: &Key,
) -> Result<()> {
    let moment = items::field(fields, 0).parse()?;
    let table = items::field(fields, 1).parse()?;
    match row_at(alloc, infos, commits, moment, table, key)? {
        Some(row) => shown::row(alloc, shown, &row.cells),
        None => words::add(shown, " no row"),
    }
}

// The JSON text of the cell, if there is a row.
fn show_image(
    alloc: Global,
    shown: &mut String,
    infos: &Vec<TableInfo>,
    commits: &Vec<Commit>,
    fields: &str,
    key: &Key,
) -> Result<()> {
    let moment = items::field(fields, 0).parse()?;
    let table = items::field(fields, 1).parse()?;
    let column = Text::of(alloc, items::field(fields, 3))?;
    match image_text(alloc, infos, commits, moment, table, key, &column)? {
        Some(text) => write!(shown, ", {text}")?,
        None => (),
    }
    Ok(())
}

/// A prefix, a database's name and a placeholder, with slashes between them.
pub fn identity_of(alloc: Global, fields: &str) -> Result<Identity> {
    let prefix = words::text(alloc, items::field(fields, 0))?;
    let db = words::text(alloc, items::field(fields, 1))?;
    let placeholder = words::text(alloc, items::field(fields, 2))?;
    Ok(Identity {
        prefix,
        db,
        placeholder,
    })
}

// The records of each commit, by the source and the time of an `as/PREFIX/DB/PLACEHOLDER/NOW`.
fn envelopes(
    alloc: Global,
    shown: &mut String,
    infos: &Vec<TableInfo>,
    commits: &Vec<Commit>,
    arguments: &str,
) -> Result<()> {
    let fields = items::first_of(arguments, "as/").unwrap_or("");
    let now_ms = items::field(fields, 3).parse()?;
    let identity = identity_of(alloc, fields)?;
    let end = show_envelopes(alloc, shown, &identity, infos, commits, now_ms);
    drop(identity);
    end
}

fn show_envelopes(
    alloc: Global,
    shown: &mut String,
    identity: &Identity,
    infos: &Vec<TableInfo>,
    commits: &Vec<Commit>,
    now_ms: i64,
) -> Result<()> {
    for commit in commits {
        let records = plain_envelopes(alloc, identity, infos, commit, now_ms)?;
        shown::records(alloc, shown, &records)?;
    }
    Ok(())
}
