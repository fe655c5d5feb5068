//! The session that a command requests.

ghost use Rattle.std.specs.Prelude.{◌≡◌, ◌⊎◌, Some, IfOk, IfErr, IfSome, option_map};
ghost use Rattle.dbl_model_table.specs.Configs.{IsGoodConfig};
ghost use Rattle.dbl_cli_commands.specs.Limits.{AreGoodNames, AreGoodTables, IsGoodPace};
ghost use Rattle.dbl_offset.specs.Offsets.{IsOffset};
ghost use Rattle.dbl_demo.specs.DemoWorkload.Ready.{AreTableNames};
ghost use Rattle.dblog_connect.specs.Asked.{IsAskedWithinLimits, Refuses, asks_of};
ghost use Rattle.dblog_connect.specs.Asked.{config_again, config_of, limit_of, names_of};
ghost use Rattle.dblog_connect.specs.Asked.{rule_of, tables_or};

use crate::ConnectError;
use dbl_base::{Seq, copy_items};
use dbl_cli_commands::{CaptureOptions, ResumeOptions};
use dbl_hooks_gate::Rule;
use dbl_model_table::{Config, Identity, TableInfo, TableName};
use dbl_offset::Offset;
use std::alloc::{AllocError, Global};

/// The session that a command's arguments request.
#[derive(Drop)]
pub enum Asked {
    /// A first session, of these tables, or of all tables of the workload if none is named.
    First { options: CaptureOptions },
    /// A later session, for the connector and the tables of the stored offset.
    Again { options: ResumeOptions },
}

fn names_of(alloc: Global, infos: &Vec<TableInfo>) -> Result<Vec<TableName>, AllocError>
    ensures { IfOk result (λ names. names.items ≡ names_of infos.now.items) }
{
    let mut names = Vec::with_capacity(alloc, infos.len())?;
    for info in infos {
        names.push(info.name.copy(alloc)?)?;
    }
    Ok(names)
}

fn named_or(
    alloc: Global,
    named: Seq<TableName>,
    all: &Vec<TableName>,
) -> Result<Seq<TableName>, AllocError>
    ensures { IfOk result (λ names. names ≡ tables_or named all.now.items) }
{
    if named.items().is_empty() {
        Ok(Seq::make(copy_items(alloc, all.as_slice())?))
    } else {
        Ok(named)
    }
}

fn first_config(
    alloc: Global,
    options: CaptureOptions,
    all: &Vec<TableName>,
) -> Result<Config, AllocError>
    requires tables { AreTableNames all.now.items }
    requires names { AreGoodNames options.prefix options.db options.placeholder }
    requires pace { IsGoodPace options.chunk options.every options.messages }
    requires named { AreGoodTables options.tables }
    ensures is { IfOk result (λ config. config ≡ config_of options all.now.items) }
    ensures good { IfOk result IsGoodConfig }
{
    let CaptureOptions {
        prefix,
        db,
        placeholder,
        chunk,
        every,
        messages,
        max_value: _,
        tables,
    } = options;
    let tables = named_or(alloc, tables, all)?;
    Ok(Config {
        identity: Identity {
            prefix,
            db,
            placeholder,
        },
        tables,
        chunk,
        every,
        messages,
    })
}

fn later_config(
    alloc: Global,
    offset: &Offset,
    options: ResumeOptions,
) -> Result<Config, AllocError>
    requires offset { IsOffset offset.now }
    requires pace { IsGoodPace options.chunk options.every options.messages }
    ensures is { IfOk result (λ config. config ≡ config_again offset.now options) }
    ensures good { IfOk result IsGoodConfig }
{
    let ResumeOptions {
        chunk,
        every,
        messages,
        max_value: _,
    } = options;
    Ok(Config {
        identity: offset.identity.copy(alloc)?,
        tables: Seq::make(names_of(alloc, offset.infos.items())?),
        chunk,
        every,
        messages,
    })
}

// The maximum length in bytes of a record's value, if the arguments name one.
fn limit_of(asked: &Asked) -> Option<u64>
    ensures { result ≡ limit_of asked.now }
{
    match asked {
        Asked::First { options } => options.max_value,
        Asked::Again { options } => options.max_value,
    }
}

/// What the session's receiver accepts: any record if the arguments name no length.
pub(crate) fn rule_of(asked: &Asked) -> Rule
    ensures { result ≡ rule_of asked.now }
{
    Rule::MaxValue(limit_of(asked).unwrap_or(u64::MAX))
}

/// The configuration of a session over a store with this offset, of a source with these tables, or
/// its refusal.
pub(crate) fn config_for(
    alloc: Global,
    asked: Asked,
    stored: Option<&Offset>,
    all: &Vec<TableName>,
) -> Result<Config, ConnectError>
    requires within { IsAskedWithinLimits asked }
    requires tables { AreTableNames all.now.items }
    requires offset { IfSome stored (λ offset. IsOffset offset.now) }
    ensures asks { IfOk result (λ config.
        asks_of asked all.now.items (option_map (λ o. o.now) stored.entry) ≡ Some config) }
    ensures good { IfOk result IsGoodConfig }
    ensures refused { IfErr result (λ e. (e ≡ ConnectError.Memory)
        ⊎ Refuses asked (option_map (λ o. o.now) stored.entry) e) }
{
    match asked {
        Asked::First { options } => match stored {
            Some(_) => Err(ConnectError::AlreadyStarted),
            None => Ok(first_config(alloc, options, all)?),
        },
        Asked::Again { options } => match stored {
            Some(offset) => Ok(later_config(alloc, offset, options)?),
            None => Err(ConnectError::NotStarted),
        },
    }
}
