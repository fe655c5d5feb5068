//! What cases over a log are made of: items parted by ` | `, each a kind and its fields parted by slashes.
//!
//! - `t/public.users/id:23 name:25/id`: a captured table, its columns with the OIDs of their types, and its key's columns.
//! - `after/100`: the position that the log begins after, else 0.
//!
//! The messages of a log are told in `messages`.

use crate::words::Spelled;
use crate::{messages, words};
use anyhow::{Context, Result};
use dbl_base::{Lsn, Seq, Text};
use dbl_model_table::{Commit, RawColumn, RawTable, TableInfo, TableName};
use dbl_pgmsg::Message;
use dbl_txn::{Assembler, TxnError, take_all};
use std::alloc::Global;

/// The fields of the first item of a kind, which is told with its slash.
pub fn first_of<'a>(arguments: &'a str, kind: &str) -> Option<&'a str> {
    for item in arguments.split(" | ") {
        if let Some(fields) = item.strip_prefix(kind) {
            return Some(fields);
        }
    }
    None
}

pub fn field(fields: &str, place: usize) -> &str {
    fields.split('/').nth(place).unwrap_or("")
}

pub fn table_name(alloc: Global, word: &str) -> Result<TableName> {
    let (schema, name) = words::split(word, ".");
    Ok(TableName {
        schema: Text::of(alloc, schema)?,
        name: Text::of(alloc, name)?,
    })
}

impl Spelled for RawColumn {
    fn read(alloc: Global, word: &str) -> Result<RawColumn> {
        let (name, oid) = words::split(word, ":");
        let oid = oid.parse()?;
        Ok(RawColumn {
            name: Text::of(alloc, name)?,
            oid,
        })
    }
}

/// The table of the fields of a `t/..`.
pub fn raw_table(alloc: Global, fields: &str) -> Result<RawTable> {
    let name = table_name(alloc, field(fields, 0))?;
    let columns = words::all(alloc, field(fields, 1))?;
    let key = words::all(alloc, field(fields, 2))?;
    Ok(RawTable {
        name,
        columns: Seq::make(columns),
        key: Seq::make(key),
        version: 1,
    })
}

fn make_info(alloc: Global, raw: &RawTable) -> Result<TableInfo> {
    Ok(TableInfo::make(alloc, raw)?)
}

/// The captured table of the fields of a `t/..`.
pub fn table(alloc: Global, fields: &str) -> Result<TableInfo> {
    make_info(alloc, &raw_table(alloc, fields)?)
}

/// The captured tables.
pub fn tables(alloc: Global, arguments: &str) -> Result<Vec<TableInfo>> {
    let mut tables = Vec::new(alloc);
    for item in arguments.split(" | ") {
        if let Some(fields) = item.strip_prefix("t/") {
            tables.push(table(alloc, fields)?)?;
        }
    }
    Ok(tables)
}

/// An assembler of the tables.
pub fn assembler(alloc: Global, arguments: &str) -> Result<Assembler> {
    let after = first_of(arguments, "after/").unwrap_or("0").parse()?;
    let tables = tables(alloc, arguments)?;
    Ok(Assembler::make(alloc, tables, Lsn(after)))
}

/// The commits that messages state, or their fault.
pub fn take_messages(
    alloc: Global,
    assembler: &mut Assembler,
    messages: Vec<Message>,
) -> Result<Vec<Commit>, TxnError> {
    take_all(alloc, assembler, messages)
}

/// The commits that the messages state.
pub fn commits(alloc: Global, arguments: &str) -> Result<Vec<Commit>> {
    let mut assembler = assembler(alloc, arguments)?;
    let messages = messages::all(alloc, arguments)?;
    Ok(take_messages(alloc, &mut assembler, messages)?)
}

/// The last of them.
pub fn last_commit(alloc: Global, arguments: &str) -> Result<Commit> {
    commits(alloc, arguments)?.pop().context("no commit")
}
