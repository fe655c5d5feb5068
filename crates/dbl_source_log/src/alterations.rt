//! The tables of a log after its alterations.

ghost use Rattle.std.specs.Prelude.{◌≡◌, ◌+◌, ◌<◌, ◌^◌, IfOk, length, map};
ghost use Rattle.dbl_source_log.specs.Alterations.{altered_table, tables_after, tables_through};
ghost use Rattle.dbl_source_log.specs.Alterations.{HaveVersions};

use crate::{LogTable, Logged};
use dbl_base::Seq;
use dbl_model_table::{RawColumn, RawTable, TableName};
use std::alloc::{AllocError, Global};

fn copy_tables(alloc: Global, tables: &[LogTable]) -> Result<Vec<LogTable>, AllocError>
    ensures { IfOk result (λ copies. copies.items ≡ tables.now) }
{
    let mut copies = Vec::new(alloc);
    for table in tables {
        copies.push(LogTable {
            raw: table.raw.copy(alloc)?,
            full: table.full,
        })?;
    }
    Ok(copies)
}

fn altered_table(
    alloc: Global,
    name: &TableName,
    columns: &Seq<RawColumn>,
    table: LogTable,
) -> Result<LogTable, AllocError>
    requires { table.raw.version + 1 < 2 ^ 64 }
    ensures { IfOk result (λ altered. altered ≡ altered_table name.now columns.now table) }
{
    if table.raw.name != *name {
        return Ok(table);
    }
    let LogTable { raw, full } = table;
    Ok(LogTable {
        raw: RawTable {
            name: raw.name,
            columns: columns.copy(alloc)?,
            key: raw.key,
            version: raw.version + 1,
        },
        full,
    })
}

fn altered_tables(
    alloc: Global,
    name: &TableName,
    columns: &Seq<RawColumn>,
    tables: Vec<LogTable>,
) -> Result<Vec<LogTable>, AllocError>
    requires { HaveVersions 1 tables.items }
    ensures { IfOk result (λ altered.
        altered.items ≡ map (altered_table name.now columns.now) tables.items) }
{
    let mut altered = Vec::new(alloc);
    for table in tables {
        altered.push(altered_table(alloc, name, columns, table)?)?;
    }
    Ok(altered)
}

// The tables after a commit, each at the same index.
fn alter_tables(
    alloc: Global,
    entry: &Logged,
    tables: Vec<LogTable>,
) -> Result<Vec<LogTable>, AllocError>
    requires { HaveVersions 1 tables.items }
    ensures { IfOk result (λ after. after.items ≡ tables_after entry.now tables.items) }
{
    match entry {
        Logged::Alter { name, columns, .. } => altered_tables(alloc, name, columns, tables),
        _ => Ok(tables),
    }
}

/// Copies of the tables as they are after the commits of a log.
pub fn tables_through(
    alloc: Global,
    log: &[Logged],
    tables: &[LogTable],
) -> Result<Vec<LogTable>, AllocError>
    requires { HaveVersions (length log.now) tables.now }
    ensures { IfOk result (λ after. after.items ≡ tables_through log.now tables.now) }
{
    let mut after = copy_tables(alloc, tables)?;
    for entry in log {
        after = alter_tables(alloc, entry, after)?;
    }
    Ok(after)
}
