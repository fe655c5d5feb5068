//! The tables that `replay` captures, each at its first Relation.

ghost use Rattle.std.specs.Prelude.{◌≡◌, ◌||◌, not, IfOk, option_map};
ghost use Rattle.std.specs.List.{list_any};
ghost use Rattle.dbl_model_table.specs.declared.table.TableName.{TableName};
ghost use Rattle.dbl_model_table.specs.Tables.{same_name, is_watermark};
ghost use Rattle.dbl_model_table.specs.Infos.{IsInfoOf};
ghost use Rattle.dbl_model_table.specs.Made.{table_fault};
ghost use Rattle.dblog_replay.specs.Captures.{flagged_names, key_names_of, entry_of};
ghost use Rattle.dblog_replay.specs.Captures.{column_fault, capture_fault};
ghost use Rattle.dblog_replay.specs.Judged.{JudgesLog};

use crate::log_fault::LogFault;
use dbl_base::{Seq, Text, copy_items};
use dbl_hooks_masks::{Masking, mask_fault};
use dbl_model_table::{ModelError, RawTable, TableInfo, TableKey, TableName};
use dbl_pgmsg::RelationColumn;
use dbl_txn_shapes::{is_named, is_watermark, raw_columns};
use std::alloc::{AllocError, Global};

/// The largest number of captured tables.
pub const TABLE_LIMIT: usize = 64;

fn is_captured(infos: &Vec<TableInfo>, schema: &str, name: &str) -> bool
    ensures { result ≡ list_any (λ info. same_name info.name
        (record { schema = schema.now; name = name.now })) infos.now.items }
{
    infos.iter().any(|info| is_named(&info.name, schema, name))
}

/// Whether a table of this name isn't captured yet. Takes no memory.
pub fn is_new(infos: &Vec<TableInfo>, schema: &str, name: &str) -> bool
    ensures { let table : TableName = record { schema = schema.now; name = name.now } in
        result ≡ not
        (is_watermark table || list_any (λ info. same_name info.name table) infos.now.items) }
{
    !(is_watermark(schema, name) || is_captured(infos, schema, name))
}

fn flagged_names(alloc: Global, columns: &Vec<RelationColumn>) -> Result<Vec<Text>, AllocError>
    ensures { IfOk result (λ names. names.items ≡ flagged_names columns.now.items) }
{
    let mut names = Vec::new(alloc);
    for column in columns {
        if column.flags % 2 == 1 {
            names.push(column.name.copy(alloc)?)?;
        }
    }
    Ok(names)
}

fn key_names_of(
    alloc: Global,
    keys: &Vec<TableKey>,
    schema: &str,
    name: &str,
    columns: &Vec<RelationColumn>,
) -> Result<Vec<Text>, AllocError>
    ensures { IfOk result (λ names. names.items ≡ key_names_of keys.now.items
        (record { schema = schema.now; name = name.now }) columns.now.items) }
{
    for key in keys {
        if is_named(&key.table, schema, name) {
            return copy_items(alloc, key.columns.items().as_slice());
        }
    }
    flagged_names(alloc, columns)
}

/// The catalogue's entry that a Relation describes, with the keys of the options.
pub fn entry_of(
    alloc: Global,
    keys: &Vec<TableKey>,
    schema: &str,
    name: &str,
    columns: &Vec<RelationColumn>,
) -> Result<RawTable, AllocError>
    ensures { IfOk result (λ raw. raw ≡ entry_of keys.now.items
        (record { schema = schema.now; name = name.now }) columns.now.items) }
{
    let raw_columns = raw_columns(alloc, columns)?;
    let key = key_names_of(alloc, keys, schema, name, columns)?;
    Ok(RawTable {
        name: TableName {
            schema: Text::of(alloc, schema)?,
            name: Text::of(alloc, name)?,
        },
        columns: Seq::make(raw_columns),
        key: Seq::make(key),
        version: 1,
    })
}

fn make_info(alloc: Global, raw: &RawTable) -> Result<TableInfo, LogFault>
    ensures info { IfOk result (IsInfoOf raw.now) }
    ensures fault { JudgesLog (option_map LogFault.Table (table_fault raw.now)) result }
{
    match TableInfo::make(alloc, raw) {
        Ok(info) => Ok(info),
        Err(ModelError::Memory) => Err(LogFault::Memory),
        Err(error) => Err(LogFault::Table { error }),
    }
}

/// Checks that the table's column can be masked, if it is to be.
pub fn check_mask(alloc: Global, mask: &Option<Masking>, raw: &RawTable) -> Result<(), LogFault>
    ensures { JudgesLog (column_fault mask.now raw.now) result }
{
    let Some(masking) = mask else {
        return Ok(());
    };
    if masking.table != raw.name {
        return Ok(());
    }
    match mask_fault(raw, &masking.column) {
        None => Ok(()),
        Some(error) => Err(LogFault::Mask {
            table: masking.table.copy(alloc)?,
            column: masking.column.copy(alloc)?,
            error,
        }),
    }
}

/// What is captured of a table, after so many others.
pub fn capture_table(
    alloc: Global,
    mask: &Option<Masking>,
    count: usize,
    raw: &RawTable,
) -> Result<TableInfo, LogFault>
    ensures info { IfOk result (IsInfoOf raw.now) }
    ensures fault { JudgesLog (capture_fault mask.now count raw.now) result }
{
    let info = make_info(alloc, raw)?;
    if count >= TABLE_LIMIT {
        return Err(LogFault::TooManyTables);
    }
    check_mask(alloc, mask, raw)?;
    Ok(info)
}
