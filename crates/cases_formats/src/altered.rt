//! Cases of logs of tables that may be altered: the course of a table, which keys are known in it,
//! and whether what a consumer has is stale within a bound, in the columns in force.
//!
//! The tables and the messages are items as in the other families. An alteration parts them; after
//! it come the tables in their new columns and the messages from there on. Beside them:
//!
//! - `alter/768/0/1 a;2 ~`: at this LSN the table with this index is altered, and has these rows.
//! - `start/256`: the position that the log starts at, else 0.
//! - `say`, `put` and `told` as in the cases of cells.
//! - `course/768/0`: the course of a table at a position. `row/3/0/1`: the row of a table and key
//!   after so many changes.
//! - `ask/512/0/1/v`: whether the cell of a table, key and column is stale within its bound from a
//!   position on.
//! - `agree/0/1/v`: whether the cell is the source's at the last record's position.

use crate::ageing::{Held, apply, cursor, deliver, deliver_some, life, nothing_held, shown_text};
use crate::consumers::consumer;
use crate::histories::{identity_of, key};
use crate::records::read_record;
use anyhow::{Context, Result, bail};
use cases_ages::{image_text, is_aged_cell, plain_envelopes, span_end};
use cases_courses::{
    AlteredRows, TableCourse, Version, course, is_exact_cell, is_known_in, is_same_cell, point_at,
    position_moment, records_since, row_upto, version_span_end, was_there_through,
};
use cases_items::{items, shown, words};
use dbl_base::{Lsn, Seq, Text};
use dbl_consume::{Consumer, HeldCell, Row};
use dbl_model_table::{Body, Commit, Identity, Key, RawRow};
use dbl_record::Record;
use std::alloc::Global;
use std::fmt::Write;

// What a case asks of.
#[derive(Clone, Copy)]
struct Log<'a> {
    arguments: &'a str,
    identity: &'a Identity,
    versions: &'a Vec<Version>,
    start: u64,
}

// A cell of a table, and the point of the table's course that is asked of.
#[derive(Clone, Copy)]
struct Cell<'a> {
    table: u32,
    key: &'a Key,
    column: &'a Text,
    id: &'a str,
}

/// Adds what is said of the cells that a case asks for.
pub fn show(alloc: Global, shown: &mut String, arguments: &str) -> Result<()> {
    let identity = identity_of(alloc, "demo/demo/__debezium_unavailable_value")?;
    let versions = versions(alloc, arguments)?;
    let start = items::first_of(arguments, "start/").unwrap_or("0").parse()?;
    let log = Log {
        arguments,
        identity: &identity,
        versions: &versions,
        start,
    };
    let end = of_log(alloc, shown, log);
    drop(versions);
    drop(identity);
    end
}

fn of_log(alloc: Global, shown: &mut String, log: Log<'_>) -> Result<()> {
    let mut held = nothing_held(alloc)?;
    let end = each(alloc, shown, log, &mut held);
    drop(held);
    end
}

fn each(alloc: Global, shown: &mut String, log: Log<'_>, held: &mut Held) -> Result<()> {
    for item in log.arguments.split(" | ") {
        let (kind, fields) = words::split(item, "/");
        match kind {
            "say" => say(alloc, log, held, fields)?,
            "put" => deliver(alloc, held, read_record(alloc, fields)?)?,
            "told" => held.said.push(cursor(alloc, fields)?)?,
            "course" => show_course(alloc, shown, log, fields)?,
            "row" => show_row(alloc, shown, log, fields)?,
            "ask" => ask(alloc, shown, log, held, fields)?,
            "agree" => agree(alloc, shown, log, held, fields)?,
            _ => (),
        }
    }
    Ok(())
}

// ---- the history

fn versions(alloc: Global, arguments: &str) -> Result<Vec<Version>> {
    let mut versions = Vec::new(alloc);
    for (i, part) in arguments.split(" | alter/").enumerate() {
        if i > 0 {
            versions.push(alteration(alloc, part)?)?;
        }
        for commit in items::commits(alloc, part)? {
            let infos = items::tables(alloc, part)?;
            versions.push(Version {
                commit,
                infos,
                altered: None,
            })?;
        }
    }
    Ok(versions)
}

fn alteration(alloc: Global, part: &str) -> Result<Version> {
    let (fields, _) = words::split(part, " | ");
    let lsn = Lsn(items::field(fields, 0).parse()?);
    let table = items::field(fields, 1).parse()?;
    let rows = raw_rows(alloc, items::field(fields, 2))?;
    let infos = items::tables(alloc, part)?;
    Ok(Version {
        commit: Commit {
            lsn,
            end_lsn: lsn,
            time: 0,
            xid: 0,
            body: Body::Changes(Seq::make(Vec::new(alloc))),
        },
        infos,
        altered: Some(AlteredRows {
            table,
            rows: Seq::make(rows),
        }),
    })
}

fn raw_rows(alloc: Global, fields: &str) -> Result<Vec<RawRow>> {
    let mut rows = Vec::new(alloc);
    for row in fields.split(";") {
        if !row.is_empty() {
            rows.push(RawRow {
                cells: Seq::make(words::all(alloc, row)?),
            })?;
        }
    }
    Ok(rows)
}

fn say(alloc: Global, log: Log<'_>, held: &mut Held, fields: &str) -> Result<()> {
    let lsn: u64 = items::field(fields, 0).parse()?;
    for version in log.versions {
        if version.commit.lsn.0 == lsn {
            let infos = &version.infos;
            let records = plain_envelopes(alloc, log.identity, infos, &version.commit, 0)?;
            deliver_some(alloc, held, &records, fields)?;
        }
    }
    Ok(())
}

fn course_at(alloc: Global, log: Log<'_>, table: u32, position: u64) -> Result<TableCourse> {
    let (first, _) = words::split(log.arguments, " | alter/");
    let infos = items::tables(alloc, first)?;
    let versions = versions(alloc, log.arguments)?;
    Ok(course(alloc, infos, versions, log.start, table, position)?)
}

fn show_course(alloc: Global, shown: &mut String, log: Log<'_>, fields: &str) -> Result<()> {
    let position = items::field(fields, 0).parse()?;
    let table = items::field(fields, 1).parse()?;
    let course = course_at(alloc, log, table, position)?;
    let end = add_course(shown, &course, table, position);
    drop(course);
    end
}

fn add_course(shown: &mut String, course: &TableCourse, table: u32, position: u64) -> Result<()> {
    let start = course.start;
    words::line(shown)?;
    write!(shown, "{table} at {position}: from {start},")?;
    for commit in &course.commits {
        let lsn = commit.lsn.0;
        let count = match &commit.body {
            Body::Changes(changes) => changes.items().len(),
            Body::Mark(_) => 0,
        };
        write!(shown, " {lsn}: {count}")?;
    }
    Ok(())
}

fn show_row(alloc: Global, shown: &mut String, log: Log<'_>, fields: &str) -> Result<()> {
    let moment = items::field(fields, 0).parse()?;
    let table = items::field(fields, 1).parse()?;
    let key = key(alloc, items::field(fields, 2))?;
    words::line(shown)?;
    write!(shown, "{fields}:")?;
    match row_upto(alloc, log.versions, moment, table, &key)? {
        Some(row) => shown::row(alloc, shown, &row.cells),
        None => words::add(shown, " no row"),
    }
}

// ---- cells

fn topic(alloc: Global, log: Log<'_>, table: u32) -> Result<Text> {
    let version = log.versions.first().context("no commit")?;
    let info = version.infos.get(table as usize).context("no such table")?;
    let name = &info.name.name;
    Ok(Text::make(format!(in alloc; "demo.public.{name}")?))
}

// The row that a consumer has at the cell's key.
fn row_of<'a>(
    alloc: Global,
    log: Log<'_>,
    consumer: &'a Consumer,
    cell: Cell<'_>,
) -> Result<Option<&'a Row>> {
    let topic = topic(alloc, log, cell.table)?;
    let id = cell.id;
    let text = Text::make(format!(in alloc; "{{\"id\":{id}}}")?);
    Ok(
        consumer
            .tables()
            .get(&topic)
            .and_then(|table| table.get(&text)),
    )
}

// A consumer of these records.
fn consumer_of(alloc: Global, records: &Vec<Record>) -> Result<Consumer> {
    let mut made = consumer(alloc)?;
    for record in records {
        apply(alloc, &mut made, record)?;
    }
    Ok(made)
}

fn last_position(records: &Vec<Record>, position: u64) -> u64 {
    let mut last = position;
    for record in records {
        last = last.max(record.position);
    }
    last
}

fn is_known_at(
    alloc: Global,
    log: Log<'_>,
    course: &TableCourse,
    held: &Held,
    to: u64,
    cell: Cell<'_>,
) -> Result<bool> {
    let (records, said) = (&held.records, &held.said);
    is_known_in(
        alloc,
        log.identity,
        course,
        records,
        said,
        to,
        cell.table,
        cell.key,
    )?
    .context("a progress record says what isn't listed")
}

fn ask(alloc: Global, shown: &mut String, log: Log<'_>, held: &Held, fields: &str) -> Result<()> {
    let position = items::field(fields, 0).parse()?;
    let id = items::field(fields, 2);
    let key = key(alloc, id)?;
    let column = Text::of(alloc, items::field(fields, 3))?;
    let cell = Cell {
        table: items::field(fields, 1).parse()?,
        key: &key,
        column: &column,
        id,
    };
    let course = course_at(
        alloc,
        log,
        cell.table,
        last_position(&held.records, position),
    )?;
    let end = show_age(alloc, shown, log, &course, held, position, cell);
    drop(course);
    end
}

fn show_age(
    alloc: Global,
    shown: &mut String,
    log: Log<'_>,
    course: &TableCourse,
    held: &Held,
    position: u64,
    cell: Cell<'_>,
) -> Result<()> {
    let kept = records_since(alloc, &held.records, course.start)?;
    let first = point_at(&course.commits, course.start);
    let from = point_at(&course.commits, position.max(course.start));
    let to = span_end(alloc, &course.infos, &course.commits, first, &kept, from)?;
    let consumer = consumer_of(alloc, &kept)?;
    drop(kept);
    let span = (from, to);
    let end = show_own(alloc, shown, log, course, held, &consumer, span, cell);
    drop(consumer);
    end?;
    let there = is_there(alloc, log, held, position, cell)?;
    words::add(shown, if there { ", there" } else { ", never there" })
}

// Whether the consumer lacks the row, or the source had it at some point of the whole span.
fn is_there(
    alloc: Global,
    log: Log<'_>,
    held: &Held,
    position: u64,
    cell: Cell<'_>,
) -> Result<bool> {
    if row_of(alloc, log, &held.consumer, cell)?.is_none() {
        return Ok(true);
    }
    let from = position_moment(log.versions, position);
    let to = version_span_end(alloc, log.versions, &held.records, from)?;
    if to < from {
        bail!("no such moment");
    }
    Ok(was_there_through(alloc, log.versions, from, to, cell.table, cell.key)?)
}

fn show_own(
    alloc: Global,
    shown: &mut String,
    log: Log<'_>,
    course: &TableCourse,
    held: &Held,
    consumer: &Consumer,
    span: (u64, u64),
    cell: Cell<'_>,
) -> Result<()> {
    let (from, to) = span;
    let known = is_known_at(alloc, log, course, held, to, cell)?;
    let known_first = is_known_at(alloc, log, course, held, from, cell)?;
    let all = row_of(alloc, log, &held.consumer, cell)?.and_then(|cells| cells.get(cell.column));
    let own = row_of(alloc, log, consumer, cell)?.and_then(|cells| cells.get(cell.column));
    let aged = is_own_aged(alloc, course, known, span, own, cell)?;
    let same = !known_first || is_same_cell(all, own);
    show_cell(shown, cell)?;
    let (all, own) = (shown_text(all), shown_text(own));
    write!(shown, " within {from} to {to}: {all}, since {own}, ")?;
    words::add(shown, if known { "known" } else { "not known" })?;
    words::add(shown, if aged { ", aged" } else { ", not aged" })?;
    words::add(shown, if same { ", same" } else { ", not the same" })
}

fn show_cell(shown: &mut String, cell: Cell<'_>) -> Result<()> {
    let (table, id, column) = (cell.table, cell.id, cell.column);
    words::line(shown)?;
    write!(shown, "{table} {id} {column}")?;
    Ok(())
}

fn is_own_aged(
    alloc: Global,
    course: &TableCourse,
    known: bool,
    span: (u64, u64),
    own: Option<&HeldCell>,
    cell: Cell<'_>,
) -> Result<bool> {
    let (from, to) = span;
    let life = life(
        alloc,
        &course.infos,
        &course.commits,
        to,
        cell.table,
        cell.key,
        cell.column,
    )?;
    if to >= life.len() as u64 {
        bail!("no such moment");
    }
    let aged = is_aged_cell(known, &life, from, to, own);
    drop(life);
    Ok(aged)
}

fn agree(alloc: Global, shown: &mut String, log: Log<'_>, held: &Held, fields: &str) -> Result<()> {
    let position = held.records.last().context("no record")?.position;
    let id = items::field(fields, 1);
    let key = key(alloc, id)?;
    let column = Text::of(alloc, items::field(fields, 2))?;
    let cell = Cell {
        table: items::field(fields, 0).parse()?,
        key: &key,
        column: &column,
        id,
    };
    let course = course_at(alloc, log, cell.table, position)?;
    let end = show_agreement(alloc, shown, log, &course, held, position, cell);
    drop(course);
    end
}

fn show_agreement(
    alloc: Global,
    shown: &mut String,
    log: Log<'_>,
    course: &TableCourse,
    held: &Held,
    position: u64,
    cell: Cell<'_>,
) -> Result<()> {
    let to = point_at(&course.commits, u64::MAX);
    let known = is_known_at(alloc, log, course, held, to, cell)?;
    let (infos, commits) = (&course.infos, &course.commits);
    let image = image_text(alloc, infos, commits, to, cell.table, cell.key, cell.column)?;
    let all = row_of(alloc, log, &held.consumer, cell)?.and_then(|cells| cells.get(cell.column));
    let agrees = !known || is_exact_cell(all, &image);
    show_cell(shown, cell)?;
    let all = shown_text(all);
    write!(shown, " at {position}: {all}, ")?;
    words::add(shown, if known { "known" } else { "not known" })?;
    words::add(shown, if agrees { ", agrees" } else { ", differs" })
}
