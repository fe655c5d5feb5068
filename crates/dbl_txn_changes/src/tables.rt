//! The table of a Relation, and the check of its columns against the captured ones.

ghost use Rattle.std.specs.Prelude.{◌≡◌, Ok, IfOk, Some};
ghost use Rattle.std.specs.List.{list_all, zip};
ghost use Rattle.dbl_model_table.specs.Infos.{number_of};
ghost use Rattle.dbl_model_commit.specs.Past.{table_named};
ghost use Rattle.dbl_model_commit.specs.Stated.{target, same_column, same_columns};
ghost use Rattle.dbl_model_commit.specs.Stated.{columns_fault, schema_fault};
ghost use Rattle.dbl_txn_changes.specs.Answers.{ReturnsAssembled, Judges};

use dbl_base::Text;
use dbl_model_commit::{Relation, Target, TxnError};
use dbl_model_table::{Column, TableInfo, TableName};
use dbl_pgmsg::RelationColumn;
use dbl_value::oid;
use std::alloc::{AllocError, Global};

/// A table's name; an empty namespace is `pg_catalog`.
pub fn table_named(alloc: Global, namespace: Text, name: Text) -> Result<TableName, AllocError>
    ensures { IfOk result (λ table. table ≡ table_named namespace name) }
{
    let schema = if namespace.as_str().is_empty() {
        Text::of(alloc, "pg_catalog")?
    } else {
        namespace
    };
    Ok(TableName { schema, name })
}

fn place_of(infos: &Vec<TableInfo>, table: &TableName) -> Option<usize>
    ensures { result ≡ number_of infos.now.items table.now }
{
    infos.iter().position(|info| info.name == *table)
}

/// Which table has this name. An index above 2^32 counts as out of memory.
pub fn target_of(infos: &Vec<TableInfo>, table: &TableName) -> Result<Target, TxnError>
    ensures { ReturnsAssembled result (Ok (target infos.now.items table.now)) }
{
    if table.is_watermark() {
        return Ok(Target::Watermark);
    }
    let Some(place) = place_of(infos, table) else {
        return Ok(Target::Passed);
    };
    match u32::try_from(place) {
        Ok(place) => Ok(Target::Captured(place)),
        Err(_) => Err(TxnError::Memory),
    }
}

/// Whether a Relation's column has the captured one's name and type.
pub fn is_same_column(column: &Column, given: &RelationColumn) -> bool
    ensures { result ≡ same_column (column.now, given.now) }
{
    column.name.as_str() == given.name.as_str() && oid(column.ty) == given.oid
}

fn are_same_in_pairs(columns: &Vec<Column>, given: &Vec<RelationColumn>) -> bool
    ensures { result ≡ list_all same_column (zip columns.now.items given.now.items) }
{
    columns
        .iter()
        .zip(given.iter())
        .all(|(column, given)| is_same_column(column, given))
}

/// Whether a Relation's columns are the captured ones in number, names and types.
pub fn are_same_columns(columns: &Vec<Column>, given: &Vec<RelationColumn>) -> bool
    ensures { result ≡ same_columns columns.now.items given.now.items }
{
    columns.len() == given.len() && are_same_in_pairs(columns, given)
}

fn check_columns(alloc: Global, info: &TableInfo, relation: &Relation) -> Result<(), TxnError>
    ensures { Judges (columns_fault (Some info.now) relation.now) result }
{
    if are_same_columns(info.columns.items(), relation.columns.items()) {
        Ok(())
    } else {
        Err(TxnError::SchemaChanged {
            table: relation.name.copy(alloc)?,
        })
    }
}

/// Checks that a Relation has the columns of its captured table, if it is of one.
pub fn check_schema(
    alloc: Global,
    infos: &Vec<TableInfo>,
    relation: &Relation,
    target: Target,
) -> Result<(), TxnError>
    ensures { Judges (schema_fault infos.now.items relation.now target) result }
{
    let Target::Captured(place) = target else {
        return Ok(());
    };
    match infos.get(place as usize) {
        Some(info) => check_columns(alloc, info, relation),
        None => Ok(()),
    }
}
