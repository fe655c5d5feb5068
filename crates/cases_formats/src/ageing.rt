//! Cases of the cells that a consumer has after some records: whether the key is known, and whether
//! the cell is stale within a bound.
//!
//! The source's tables and messages are items as in the other families, the jars being the first
//! table. Beside them:
//!
//! - `start/2`: the point in the history that the log begins at, else 0.
//! - `say/1024`: the records of the commit with this LSN. `say/1024/0/1`: those from the first
//!   number on and before the second.
//! - `put/RECORD`: a record.
//! - `told/2/true`: what the progress record that is put next says: its last key, or `-`, and
//!   whether it is done.
//! - `ask/3/5/1/v`: whether the key is known at the end of a span, and whether the cell of a key
//!   and a column is stale within it.

use crate::consumers::consumer;
use crate::histories::{identity_of, key};
use crate::records::read_record;
use anyhow::{Context, Result, bail};
use cases_ages::{Log, image_text, is_aged_cell, is_known, plain_envelopes};
use cases_items::{items, words};
use dbl_base::Text;
use dbl_consume::{ConsumeError, Consumer, HeldCell};
use dbl_model_history::Cursor;
use dbl_model_table::{Commit, Identity, Key, TableInfo};
use dbl_record::Record;
use std::alloc::Global;
use std::fmt::Write;

// What the records come from.
#[derive(Clone, Copy)]
struct Source<'a> {
    identity: &'a Identity,
    infos: &'a Vec<TableInfo>,
    commits: &'a Vec<Commit>,
    start: u64,
}

/// What was delivered to a consumer.
#[derive(Drop)]
pub struct Held {
    pub consumer: Consumer,
    pub records: Vec<Record>,
    pub said: Vec<Cursor>,
}

/// Adds whether each cell that a case asks for is known, and whether it is stale within its bound.
pub fn show_cells(alloc: Global, shown: &mut String, arguments: &str) -> Result<()> {
    let infos = items::tables(alloc, arguments)?;
    let commits = items::commits(alloc, arguments)?;
    of_commits(alloc, shown, arguments, &infos, &commits)
}

fn of_commits(
    alloc: Global,
    shown: &mut String,
    arguments: &str,
    infos: &Vec<TableInfo>,
    commits: &Vec<Commit>,
) -> Result<()> {
    let start = items::first_of(arguments, "start/").unwrap_or("0").parse()?;
    let identity = identity_of(alloc, "demo/demo/__debezium_unavailable_value")?;
    let source = Source {
        identity: &identity,
        infos,
        commits,
        start,
    };
    let end = of_source(alloc, shown, source, arguments);
    drop(identity);
    end
}

fn of_source(alloc: Global, shown: &mut String, source: Source<'_>, arguments: &str) -> Result<()> {
    let mut held = nothing_held(alloc)?;
    let end = each(alloc, shown, source, &mut held, arguments);
    drop(held);
    end
}

/// Nothing delivered.
pub fn nothing_held(alloc: Global) -> Result<Held> {
    Ok(Held {
        consumer: consumer(alloc)?,
        records: Vec::new(alloc),
        said: Vec::new(alloc),
    })
}

fn each(
    alloc: Global,
    shown: &mut String,
    source: Source<'_>,
    held: &mut Held,
    arguments: &str,
) -> Result<()> {
    for item in arguments.split(" | ") {
        let (kind, fields) = words::split(item, "/");
        match kind {
            "say" => say(alloc, source, held, fields)?,
            "put" => deliver(alloc, held, read_record(alloc, fields)?)?,
            "told" => held.said.push(cursor(alloc, fields)?)?,
            "ask" => ask(alloc, shown, source, held, fields)?,
            _ => (),
        }
    }
    Ok(())
}

/// Delivers a record.
pub fn deliver(alloc: Global, held: &mut Held, record: Record) -> Result<()> {
    let applied = apply(alloc, &mut held.consumer, &record);
    held.records.push(record)?;
    applied
}

/// Delivers a record to a consumer alone. One that is refused changes nothing, and is in the log as
/// well.
pub fn apply(alloc: Global, consumer: &mut Consumer, record: &Record) -> Result<()> {
    let null = Text::of(alloc, "null")?;
    let key = record.key.as_ref().unwrap_or(&null);
    let value = record.value.as_ref().unwrap_or(&null);
    match consumer.apply(&record.topic, key, value) {
        Err(ConsumeError::Memory) => bail!("out of memory"),
        _ => Ok(()),
    }
}

fn say(alloc: Global, source: Source<'_>, held: &mut Held, fields: &str) -> Result<()> {
    let lsn: u64 = items::field(fields, 0).parse()?;
    for commit in source.commits {
        if commit.lsn.0 == lsn {
            let records = plain_envelopes(alloc, source.identity, source.infos, commit, 0)?;
            deliver_some(alloc, held, &records, fields)?;
        }
    }
    Ok(())
}

/// Delivers the records with the numbers that a `say` names.
pub fn deliver_some(
    alloc: Global,
    held: &mut Held,
    records: &Vec<Record>,
    fields: &str,
) -> Result<()> {
    let first = items::field(fields, 1).parse().unwrap_or(0);
    let end = items::field(fields, 2).parse().unwrap_or(1000);
    for (i, record) in records.iter().enumerate() {
        if first <= i && i < end {
            deliver(alloc, held, record.copy(alloc)?)?;
        }
    }
    Ok(())
}

/// The progress of the fields of a `told`.
pub fn cursor(alloc: Global, fields: &str) -> Result<Cursor> {
    let done = items::field(fields, 1).parse()?;
    match items::field(fields, 0) {
        "-" => Ok(Cursor { last: None, done }),
        id => Ok(Cursor {
            last: Some(key(alloc, id)?),
            done,
        }),
    }
}

fn ask(
    alloc: Global,
    shown: &mut String,
    source: Source<'_>,
    held: &Held,
    fields: &str,
) -> Result<()> {
    let key = key(alloc, items::field(fields, 2))?;
    let column = Text::of(alloc, items::field(fields, 3))?;
    show_cell(alloc, shown, source, held, fields, &key, &column)
}

// Whether the key is known at a point in the history.
fn is_known_at(alloc: Global, source: Source<'_>, held: &Held, to: u64, key: &Key) -> Result<bool> {
    let log = Log {
        identity: source.identity,
        infos: source.infos,
        records: &held.records,
        said: &held.said,
    };
    is_known(alloc, &log, source.commits, source.start, to, 0, key)?.context(
        "a progress record says what isn't listed",
    )
}

/// The texts of a cell at the source, up to the end of a span.
pub fn life(
    alloc: Global,
    infos: &Vec<TableInfo>,
    commits: &Vec<Commit>,
    to: u64,
    table: u32,
    key: &Key,
    column: &Text,
) -> Result<Vec<Option<Text>>> {
    let end = to.checked_add(1).context("no such moment")?;
    let mut texts = Vec::new(alloc);
    for moment in 0..end {
        texts.push(image_text(alloc, infos, commits, moment, table, key, column)?)?;
    }
    Ok(texts)
}

/// A cell that a consumer has.
pub fn shown_text(cell: Option<&HeldCell>) -> &str {
    match cell {
        Some(HeldCell::Known(text)) => text.as_str(),
        Some(HeldCell::Unknown) => "unknown",
        None => "none",
    }
}

fn cell_of<'a>(
    alloc: Global,
    consumer: &'a Consumer,
    id: &str,
    column: &Text,
) -> Result<Option<&'a HeldCell>> {
    let topic = Text::of(alloc, "demo.public.jars")?;
    let text = Text::make(format!(in alloc; "{{\"id\":{id}}}")?);
    let row = consumer
        .tables()
        .get(&topic)
        .and_then(|table| table.get(&text));
    Ok(row.and_then(|cells| cells.get(column)))
}

fn show_cell(
    alloc: Global,
    shown: &mut String,
    source: Source<'_>,
    held: &Held,
    fields: &str,
    key: &Key,
    column: &Text,
) -> Result<()> {
    let from: u64 = items::field(fields, 0).parse()?;
    let to: u64 = items::field(fields, 1).parse()?;
    let id = items::field(fields, 2);
    let known = is_known_at(alloc, source, held, to, key)?;
    let cell = cell_of(alloc, &held.consumer, id, column)?;
    let life = life(alloc, source.infos, source.commits, to, 0, key, column)?;
    if to >= life.len() as u64 {
        bail!("no such moment");
    }
    let aged = is_aged_cell(known, &life, from, to, cell);
    drop(life);
    let known = if known { "known" } else { "not known" };
    let aged = if aged { "aged" } else { "not aged" };
    let text = shown_text(cell);
    words::line(shown)?;
    write!(
        shown,
        "{id} {column} within {from} to {to}: {text}, {known}, {aged}"
    )?;
    Ok(())
}
