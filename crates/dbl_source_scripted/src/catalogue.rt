//! The catalogue of a source that is played from a script, by its tables.

ghost use Rattle.std.specs.Prelude.{◌≡◌, [], map, IfOk};
ghost use Rattle.std.specs.List.{position_from};
ghost use Rattle.dbl_model_table.specs.Tables.{same_name};
ghost use Rattle.dbl_source_model.specs.ModelHistory.History.{entry_of};
ghost use Rattle.dbl_source_log.specs.Histories.{history_of};
ghost use Rattle.dbl_source_scripted.specs.Played.{keyed_table};
ghost use Rattle.dbl_source.specs.LogStates.{entry_at};

use dbl_model_table::{RawTable, TableName};
use dbl_source_log::LogTable;
use std::alloc::{AllocError, Global};

/// The tables of a log, whose replica identity is their primary key.
pub(crate) fn keyed_tables(
    alloc: Global,
    tables: Vec<RawTable>,
) -> Result<Vec<LogTable>, AllocError>
    ensures { IfOk result (λ keyed. keyed.items ≡ map keyed_table tables.items) }
{
    let mut keyed = Vec::with_capacity(alloc, tables.len())?;
    for raw in tables {
        keyed.push(LogTable { raw, full: false })?;
    }
    Ok(keyed)
}

fn place_named(tables: &[LogTable], name: &TableName) -> Option<usize>
    ensures { result ≡ position_from (λ table. same_name table.raw.name name.now) 0 tables.now }
{
    tables.iter().position(|table| table.raw.name == *name)
}

/// The index of the table of this name. The watermark table isn't in the catalogue.
pub(crate) fn place_of(tables: &[LogTable], name: &TableName) -> Option<usize>
    ensures { entry_at tables.now result ≡ entry_of (history_of tables.now []) name.now }
{
    if name.is_watermark() {
        return None;
    }
    place_named(tables, name)
}

/// The catalogue's entry of the table at this index.
pub(crate) fn entry_at(
    alloc: Global,
    tables: &[LogTable],
    place: Option<usize>,
) -> Result<Option<RawTable>, AllocError>
    ensures { IfOk result (λ entry. entry ≡ entry_at tables.now place) }
{
    let Some(place) = place else {
        return Ok(None);
    };
    match tables.get(place) {
        Some(table) => Ok(Some(table.raw.copy(alloc)?)),
        None => Ok(None),
    }
}
