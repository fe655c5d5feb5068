//! The source that plays the script of a case.
//!
//! After a call may stand what other clients commit at it, ` before ` it and ` inside ` of it: commits parted by ` + `, and their
//! messages by `, `; `nothing` is a commit without one. After these stand the ` version ` that a `select` answers, 1 if there is none,
//! and its ` rows `, parted by `; `, with `~` for null.

ghost use Rattle.std.specs.Prelude.{◌≡◌, ◌≢◌, ◌<◌, ◌^◌, [], length, map, IsTrue, IfOk, OnOk};
ghost use Rattle.std.specs.List.{AllByRecursion};
ghost use Rattle.dbl_model_table.specs.Tables.{same_name, are_distinct};

use anyhow::{Result, bail};
use cases_items::{items, messages, words};
use dbl_base::Seq;
use dbl_model_table::{RawRow, RawTable};
use dbl_pgmsg::Message;
use dbl_source::Selected;
use dbl_source_scripted::{Move, ScriptedSource};
use std::alloc::Global;

// What an item has after a word, up to the words that may follow it.
fn part<'a>(item: &'a str, word: &'a str, next: &'a str) -> &'a str {
    let (front, _) = words::split(item, next);
    let (_, part) = words::split(front, word);
    part
}

/// The call of an item.
pub fn call_of(item: &str) -> &str {
    let (item, _) = words::split(item, " rows ");
    let (item, _) = words::split(item, " version ");
    let (item, _) = words::split(item, " inside ");
    let (call, _) = words::split(item, " before ");
    call
}

fn add_message(alloc: Global, word: &str, list: &mut Vec<Message>) -> Result<()> {
    if word != "nothing" {
        list.push(messages::message(alloc, word)?)?;
    }
    Ok(())
}

fn commit(alloc: Global, words: &str) -> Result<Seq<Message>> {
    let mut list = Vec::new(alloc);
    for word in words.split(", ") {
        add_message(alloc, word, &mut list)?;
    }
    Ok(Seq::make(list))
}

fn commits(alloc: Global, words: &str) -> Result<Seq<Seq<Message>>> {
    let mut list = Vec::new(alloc);
    if !words.is_empty() {
        for word in words.split(" + ") {
            list.push(commit(alloc, word)?)?;
        }
    }
    Ok(Seq::make(list))
}

fn next_move(alloc: Global, item: &str) -> Result<Move> {
    let (without_rows, _) = words::split(item, " rows ");
    let (of_others, _) = words::split(without_rows, " version ");
    let before = commits(alloc, part(of_others, " before ", " inside "))?;
    let inside = commits(alloc, part(of_others, " inside ", " version "))?;
    Ok(Move { before, inside })
}

fn moves(alloc: Global, script: &str) -> Result<Vec<Move>> {
    let mut list = Vec::new(alloc);
    for item in script.split(" | ") {
        list.push(next_move(alloc, item)?)?;
    }
    Ok(list)
}

fn add_row(alloc: Global, words: &str, rows: &mut Vec<RawRow>) -> Result<()> {
    if !words.is_empty() {
        rows.push(RawRow {
            cells: Seq::make(words::all(alloc, words)?),
        })?;
    }
    Ok(())
}

fn rows(alloc: Global, words: &str) -> Result<Vec<RawRow>> {
    let mut list = Vec::new(alloc);
    for row in words.split("; ") {
        add_row(alloc, row, &mut list)?;
    }
    Ok(list)
}

// The version that a select answers.
fn version(item: &str) -> Result<u64> {
    match part(item, " version ", " rows ") {
        "" => Ok(1),
        word => Ok(word.parse()?),
    }
}

// The answer of each select.
fn selected_rows(alloc: Global, script: &str) -> Result<Vec<Selected>> {
    let mut list = Vec::new(alloc);
    for item in script.split(" | ") {
        if item.starts_with("select/") {
            let (_, words) = words::split(item, " rows ");
            list.push(Selected {
                version: version(item)?,
                rows: Seq::make(rows(alloc, words)?),
            })?;
        }
    }
    Ok(list)
}

/// The numbers of an item, as of the calls that fail; none without that item.
pub fn numbers(alloc: Global, asked: &str, kind: &str) -> Result<Vec<u64>> {
    let mut list = Vec::new(alloc);
    let words = items::first_of(asked, kind).unwrap_or("");
    for word in words.split_whitespace() {
        list.push(word.parse()?)?;
    }
    Ok(list)
}

// A table of the catalogue has a schema, and version 1.
fn table(alloc: Global, fields: &str) -> Result<RawTable>
    ensures schema { IfOk result (λ raw. raw.name.schema ≢ []) }
    ensures version { IfOk result (λ raw. raw.version ≡ 1) }
{
    let mut raw = items::raw_table(alloc, fields)?;
    if raw.name.schema.as_str() == "" {
        bail!("no schema");
    }
    raw.version = 1;
    Ok(raw)
}

fn one(alloc: Global, first: RawTable) -> Result<Vec<RawTable>>
    requires schema { first.name.schema ≢ [] }
    requires version { first.version ≡ 1 }
    ensures few { IfOk result (λ tables. length tables.items < 2 ^ 31) }
    ensures distinct { IfOk result (λ tables.
        IsTrue (are_distinct same_name (map (λ raw. raw.name) tables.items))) }
    ensures schemas { IfOk result (λ tables.
        AllByRecursion (λ raw. raw.name.schema ≢ []) tables.items) }
    ensures versions { IfOk result (λ tables.
        AllByRecursion (λ raw. raw.version ≡ 1) tables.items) }
{
    let mut list = Vec::new(alloc);
    list.push(first)?;
    Ok(list)
}

fn two(alloc: Global, first: RawTable, other: RawTable) -> Result<Vec<RawTable>>
    requires first { first.name.schema ≢ [] }
    requires other { other.name.schema ≢ [] }
    requires first_version { first.version ≡ 1 }
    requires other_version { other.version ≡ 1 }
    ensures few { IfOk result (λ tables. length tables.items < 2 ^ 31) }
    ensures distinct { IfOk result (λ tables.
        IsTrue (are_distinct same_name (map (λ raw. raw.name) tables.items))) }
    ensures schemas { IfOk result (λ tables.
        AllByRecursion (λ raw. raw.name.schema ≢ []) tables.items) }
    ensures versions { IfOk result (λ tables.
        AllByRecursion (λ raw. raw.version ≡ 1) tables.items) }
{
    if first.name == other.name {
        drop(first);
        drop(other);
        bail!("no other table");
    }
    let mut list = Vec::new(alloc);
    list.push(first)?;
    list.push(other)?;
    Ok(list)
}

// One or two.
fn tables(alloc: Global, asked: &str) -> Result<Vec<RawTable>>
    ensures few { IfOk result (λ tables. length tables.items < 2 ^ 31) }
    ensures distinct { IfOk result (λ tables.
        IsTrue (are_distinct same_name (map (λ raw. raw.name) tables.items))) }
    ensures schemas { IfOk result (λ tables.
        AllByRecursion (λ raw. raw.name.schema ≢ []) tables.items) }
    ensures versions { IfOk result (λ tables.
        AllByRecursion (λ raw. raw.version ≡ 1) tables.items) }
{
    let first = table(alloc, items::first_of(asked, "t/").unwrap_or(""))?;
    match items::first_of(asked, "u/") {
        Some(other) => two(alloc, first, table(alloc, other)?),
        None => one(alloc, first),
    }
}

// At the call of this number a table gets other columns.
fn alter(alloc: Global, fields: &str, source: &mut ScriptedSource) -> Result<()>
    ensures { OnOk result (source.new.live ≡ source.old.live) }
{
    let call = items::field(fields, 0).parse()?;
    let name = items::table_name(alloc, items::field(fields, 1))?;
    let columns = words::all(alloc, items::field(fields, 2))?;
    source.alter(
        call,
        RawTable {
            name,
            columns: Seq::make(columns),
            key: Seq::make(Vec::new(alloc)),
            version: 1,
        },
    )?;
    Ok(())
}

// The alterations, in their order.
fn add_alterations(alloc: Global, asked: &str, source: &mut ScriptedSource) -> Result<()>
    ensures { OnOk result (source.new.live ≡ source.old.live) }
{
    for item in asked.split(" | ") {
        if let Some(fields) = item.strip_prefix("alter/") {
            alter(alloc, fields, source)?;
        }
    }
    Ok(())
}

/// The source of a case, before its first call.
pub fn source(alloc: Global, asked: &str, script: &str) -> Result<ScriptedSource>
    ensures { IfOk result (λ source. IsTrue source.live) }
{
    let tables = tables(alloc, asked)?;
    let moves = moves(alloc, script)?;
    let rows = selected_rows(alloc, script)?;
    let fails = numbers(alloc, asked, "fails/")?;
    let mut source = ScriptedSource::make(alloc, tables, moves, rows, fails)?;
    add_alterations(alloc, asked, &mut source)?;
    Ok(source)
}
