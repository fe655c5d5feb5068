//! What a session is asked for.

ghost use Rattle.std.specs.Prelude.{◌≡◌, ◌≤◌, Some, length, map, IsTrue, IfOk, IfSome};
ghost use Rattle.std.specs.Option.{option_copied};
ghost use Rattle.dbl_model_table.specs.Configs.{IsGoodConfig};
ghost use Rattle.dbl_model_table.specs.Identities.{is_good_identity};
ghost use Rattle.dbl_model_table.specs.Tables.{are_distinct, same_name};
ghost use Rattle.dbl_offset.specs.Offsets.{IsOffset};
ghost use Rattle.dbl_capture.specs.CaptureLaws.Found.{IsOfConfig};

use anyhow::{Context, Result, bail};
use cases_items::{items, words};
use dbl_base::{Seq, Text};
use dbl_model_table::{Config, Identity, TableInfo, TableName};
use dbl_offset::Offset;
use std::alloc::Global;

// The connector of all cases.
fn identity(alloc: Global) -> Result<Identity>
    ensures { IfOk result (λ identity. IsTrue (is_good_identity identity)) }
{
    let identity = Identity {
        prefix: Text::of(alloc, "demo")?,
        db: Text::of(alloc, "demo")?,
        placeholder: Text::of(alloc, "__debezium_unavailable_value")?,
    };
    if !identity.is_good() {
        bail!("no identity");
    }
    Ok(identity)
}

fn is_same(a: &TableName, b: &TableName) -> bool
    ensures { result ≡ same_name a.now b.now }
{
    a == b
}

fn one(alloc: Global, first: TableName) -> Result<Vec<TableName>>
    ensures many { IfOk result (λ names. length names.items ≡ 1) }
    ensures distinct { IfOk result (λ names. IsTrue (are_distinct same_name names.items)) }
{
    let mut names = Vec::new(alloc);
    names.push(first)?;
    Ok(names)
}

fn two(alloc: Global, first: TableName, other: TableName) -> Result<Vec<TableName>>
    ensures many { IfOk result (λ names. length names.items ≡ 2) }
    ensures distinct { IfOk result (λ names. IsTrue (are_distinct same_name names.items)) }
{
    if is_same(&first, &other) {
        bail!("a table twice");
    }
    let mut names = Vec::new(alloc);
    names.push(first)?;
    names.push(other)?;
    Ok(names)
}

// The names of one table or two.
fn tables(alloc: Global, words: &str) -> Result<Vec<TableName>>
    ensures some { IfOk result (λ names. 1 ≤ length names.items) }
    ensures few { IfOk result (λ names. length names.items ≤ 2) }
    ensures distinct { IfOk result (λ names. IsTrue (are_distinct same_name names.items)) }
{
    let (first, other) = words::split(words, " ");
    let first = items::table_name(alloc, first)?;
    match other {
        "" => one(alloc, first),
        _ => two(alloc, first, items::table_name(alloc, other)?),
    }
}

// A number from 1 to a greatest one.
fn number(fields: &str, place: usize, most: u64) -> Result<u64>
    ensures { IfOk result (λ number. (1 ≤ number) × (number ≤ most)) }
{
    let number = items::field(fields, place).parse::<u64>()?;
    if number < 1 || number > most {
        bail!("no such number");
    }
    Ok(number)
}

// What a session is asked for that finds no offset.
fn first_config(alloc: Global, asked: &str, fields: &str) -> Result<Config>
    ensures { IfOk result IsGoodConfig }
{
    let chunk = number(fields, 0, 100_000)? as u32;
    let every = number(fields, 1, 10_000)? as u32;
    let messages = number(fields, 2, 999_999_999)?;
    let tables = tables(
        alloc,
        items::first_of(asked, "tables/").context("no tables")?,
    )?;
    Ok(Config {
        identity: identity(alloc)?,
        tables: Seq::make(tables),
        chunk,
        every,
        messages,
    })
}

// The names of an offset's tables.
fn names(alloc: Global, infos: &Vec<TableInfo>) -> Result<Vec<TableName>>
    ensures { IfOk result (λ names. names.items ≡ map (λ info. info.name) infos.now.items) }
{
    let mut names = Vec::new(alloc);
    for info in infos {
        names.push(info.name.copy(alloc)?)?;
    }
    Ok(names)
}

// The same with the connector and the tables of an offset.
fn resumed_config(alloc: Global, fields: &str, offset: &Offset) -> Result<Config>
    requires { IsOffset offset.now }
    ensures good { IfOk result IsGoodConfig }
    ensures asked { IfOk result (λ config. IsOfConfig config (Some offset.now)) }
{
    let chunk = number(fields, 0, 100_000)? as u32;
    let every = number(fields, 1, 10_000)? as u32;
    let messages = number(fields, 2, 999_999_999)?;
    let tables = names(alloc, offset.infos.items())?;
    Ok(Config {
        identity: offset.identity.copy(alloc)?,
        tables: Seq::make(tables),
        chunk,
        every,
        messages,
    })
}

/// What a session is asked for that finds this offset.
pub fn config(alloc: Global, asked: &str, fields: &str, offset: Option<&Offset>) -> Result<Config>
    requires { IfSome offset (λ offset. IsOffset offset.now) }
    ensures good { IfOk result IsGoodConfig }
    ensures asked { IfOk result (λ config. IsOfConfig config (option_copied offset.entry)) }
{
    match offset {
        Some(offset) => resumed_config(alloc, fields, offset),
        None => first_config(alloc, asked, fields),
    }
}

/// The time at which a session's records are made, in milliseconds since 1970-01-01 UTC.
pub fn now_ms(fields: &str) -> Result<i64> {
    match items::field(fields, 3) {
        "" => Ok(0),
        word => Ok(word.parse()?),
    }
}
