//! Cases of a store of rows: the lines of a workload, with `; ` between them. A `tick` shows the
//! committed rows. After each ` | ` come an alteration by a session, as `x/public.t/add/n:23/7` or
//! `x/public.t/drop/n`, and the lines after it, with the tables as they are then.

ghost use Rattle.std.specs.Prelude.{◌≡◌, ◌≤◌, IsTrue, IfOk, length, map};
ghost use Rattle.dbl_model_table.specs.Tables.{same_name, are_distinct};

use crate::shown;
use anyhow::{Result, bail};
use cases_items::words::Spelled;
use cases_items::{items, words};
use dbl_base::{Seq, Text};
use dbl_model_table::{RawColumn, TableInfo, TableName};
use dbl_script::{Script, ScriptRow, ScriptTable, Step, parse};
use dbl_tables::{Alteration, DemoTable, StepError, Tables};
use std::alloc::Global;
use std::fmt::Write;

fn one(alloc: Global, first: DemoTable) -> Result<Vec<DemoTable>>
    ensures few { IfOk result (λ tables. length tables.items ≤ 64) }
    ensures distinct { IfOk result (λ tables. IsTrue (are_distinct same_name
        (map (λ table. table.info.name) tables.items))) }
{
    let mut list = Vec::new(alloc);
    list.push(first)?;
    Ok(list)
}

fn two(alloc: Global, first: DemoTable, other: DemoTable) -> Result<Vec<DemoTable>>
    ensures few { IfOk result (λ tables. length tables.items ≤ 64) }
    ensures distinct { IfOk result (λ tables. IsTrue (are_distinct same_name
        (map (λ table. table.info.name) tables.items))) }
{
    if first.info.name == other.info.name {
        drop(first);
        drop(other);
        bail!("no other table");
    }
    let mut list = Vec::new(alloc);
    list.push(first)?;
    list.push(other)?;
    Ok(list)
}

fn table_of(alloc: Global, table: &ScriptTable) -> Result<DemoTable> {
    Ok(DemoTable {
        info: TableInfo::make(alloc, &table.raw)?,
        full: table.full,
        toast: table.toast,
    })
}

// The tables of a script: one, or two of distinct names.
fn tables_of(alloc: Global, tables: &Vec<ScriptTable>) -> Result<Vec<DemoTable>>
    ensures few { IfOk result (λ tables. length tables.items ≤ 64) }
    ensures distinct { IfOk result (λ tables. IsTrue (are_distinct same_name
        (map (λ table. table.info.name) tables.items))) }
{
    match tables.as_slice() {
        [first] => one(alloc, table_of(alloc, first)?),
        [first, other] => two(alloc, table_of(alloc, first)?, table_of(alloc, other)?),
        _ => bail!("neither one table nor two"),
    }
}

fn store_of(alloc: Global, tables: &Vec<ScriptTable>) -> Result<Tables> {
    Ok(Tables::make(alloc, tables_of(alloc, tables)?)?)
}

fn done(shown: &mut String, answer: std::result::Result<(), StepError>) -> Result<()> {
    match answer {
        Ok(()) => shown.push_str("; ok")?,
        Err(error) => write!(shown, "; {error}")?,
    }
    Ok(())
}

fn commit(shown: &mut String, store: &mut Tables, session: &Text) -> Result<()> {
    match store.commit(session) {
        Ok(messages) => {
            shown.push_str("; commit")?;
            shown::messages(shown, &messages)
        }
        Err(error) => done(shown, Err(error)),
    }
}

fn table_rows(shown: &mut String, store: &Tables, name: &TableName) -> Result<()> {
    shown::rows(shown, name, &store.select(name, None, 1000)?)
}

// The first committed rows of each table.
fn rows(shown: &mut String, store: &Tables, tables: &Vec<ScriptTable>) -> Result<()> {
    shown.push(';')?;
    for table in tables {
        table_rows(shown, store, &table.raw.name)?;
    }
    Ok(())
}

fn truncate(
    shown: &mut String,
    store: &mut Tables,
    session: &Text,
    tables: &Seq<TableName>,
) -> Result<()> {
    if tables.items().is_empty() {
        bail!("no table");
    }
    done(shown, store.truncate(session, tables.items()))
}

fn step(
    shown: &mut String,
    store: &mut Tables,
    tables: &Vec<ScriptTable>,
    step: &Step,
) -> Result<()> {
    match step {
        Step::Begin { session } => done(shown, store.begin(session)),
        Step::Commit { session } => commit(shown, store, session),
        Step::Rollback { session } => done(shown, store.rollback(session)),
        Step::Insert {
            session,
            table,
            cells,
        } => done(shown, store.insert(session, table, cells.items())),
        Step::Update {
            session,
            table,
            key,
            set,
        } => done(
            shown,
            store.update(session, table, key.items(), set.items()),
        ),
        Step::Delete {
            session,
            table,
            key,
        } => done(shown, store.delete(session, table, key.items())),
        Step::Truncate { session, tables } => truncate(shown, store, session, tables),
        Step::Tick => rows(shown, store, tables),
    }
}

fn commit_rows(shown: &mut String, store: &mut Tables, nobody: &Text) -> Result<()> {
    shown::messages(shown, &store.commit(nobody)?)
}

fn insert_rows(
    shown: &mut String,
    store: &mut Tables,
    nobody: &Text,
    rows: &Vec<ScriptRow>,
) -> Result<()> {
    store.begin(nobody)?;
    for row in rows {
        store.insert(nobody, &row.table, row.cells.items())?;
    }
    shown.push_str("rows")?;
    commit_rows(shown, store, nobody)
}

// Rows that are there before the first step are committed by a session without a name.
fn first_rows(
    alloc: Global,
    shown: &mut String,
    store: &mut Tables,
    rows: &Vec<ScriptRow>,
) -> Result<()> {
    insert_rows(shown, store, &Text::of(alloc, "")?, rows)
}

fn steps(shown: &mut String, store: &mut Tables, script: &Script) -> Result<()> {
    for each in script.steps.items() {
        step(shown, store, script.tables.items(), each)?;
    }
    Ok(())
}

fn read_text(alloc: Global, text: &str) -> Result<Script> {
    Ok(parse(alloc, text.as_bytes())?)
}

fn read(alloc: Global, lines: &str) -> Result<Script> {
    read_text(alloc, lines.replace(alloc, "; ", "\n")?.as_str())
}

fn added(alloc: Global, column: &str, cell: &str) -> Result<Alteration> {
    let column: RawColumn = Spelled::read(alloc, column)?;
    let text: Option<Text> = Spelled::read(alloc, cell)?;
    Ok(Alteration::Add { column, text })
}

fn alteration(alloc: Global, fields: &str) -> Result<Alteration> {
    let name = items::field(fields, 3);
    match items::field(fields, 2) {
        "add" => added(alloc, name, items::field(fields, 4)),
        _ => Ok(Alteration::Remove {
            column: Text::of(alloc, name)?,
        }),
    }
}

fn alter(alloc: Global, shown: &mut String, store: &mut Tables, fields: &str) -> Result<()> {
    let session = Text::of(alloc, items::field(fields, 0))?;
    let table = items::table_name(alloc, items::field(fields, 1))?;
    let alteration = alteration(alloc, fields)?;
    done(shown, store.alter(&session, &table, &alteration))
}

// An alteration and the steps after it.
fn alter_and_play(alloc: Global, shown: &mut String, store: &mut Tables, part: &str) -> Result<()> {
    let (fields, lines) = words::split(part, "; ");
    alter(alloc, shown, store, fields)?;
    if lines.is_empty() {
        return Ok(());
    }
    steps(shown, store, &read(alloc, lines)?)
}

fn alterations(alloc: Global, shown: &mut String, store: &mut Tables, parts: &str) -> Result<()> {
    if parts.is_empty() {
        return Ok(());
    }
    for part in parts.split(" | ") {
        alter_and_play(alloc, shown, store, part)?;
    }
    Ok(())
}

fn play(
    alloc: Global,
    shown: &mut String,
    store: &mut Tables,
    script: &Script,
    parts: &str,
) -> Result<()> {
    first_rows(alloc, shown, store, script.rows.items())?;
    steps(shown, store, script)?;
    alterations(alloc, shown, store, parts)
}

fn run(alloc: Global, shown: &mut String, script: &Script, parts: &str) -> Result<()> {
    play(
        alloc,
        shown,
        &mut store_of(alloc, script.tables.items())?,
        script,
        parts,
    )
}

/// Adds what the lines answer, a step after the other.
pub fn answer(alloc: Global, shown: &mut String, arguments: &str) -> Result<()> {
    let (lines, parts) = words::split(arguments, " | ");
    run(alloc, shown, &read(alloc, lines)?, parts)
}
