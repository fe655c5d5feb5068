//! The Relations that describe a log's tables, and the Update of a watermark.

ghost use Rattle.std.specs.Prelude.{◌≡◌, ◌&&◌, ◌==◌, negsuc, Some, IfOk, map, zip, bytes_eq};
ghost use Rattle.std.specs.List.{list_any, list_all};
ghost use Rattle.dbl_source_model.specs.ModelCommit.declared.message_parts.Relation.{Relation};
ghost use Rattle.dbl_source_log.specs.Sent.{same_raw, have_same_columns, is_present};
ghost use Rattle.dbl_source_log.specs.Relations.{is_in_identity, identity_of, relation_column};
ghost use Rattle.dbl_source_log.specs.Relations.{relation_message, watermark_columns};
ghost use Rattle.dbl_source_log.specs.Relations.{watermark_relation, mark_message, relation_at};

use crate::LogTable;
use dbl_base::{Seq, Text};
use dbl_model_table::RawColumn;
use dbl_pgmsg::{Message, RelationColumn, Tuple, TupleCell};
use std::alloc::{AllocError, Global};

/// The OID of the first table; table number i, from 0, has the OID `FIRST_OID + i`.
pub const FIRST_OID: u32 = 16384;

/// The OID of the watermark table.
pub const WATERMARK_OID: u32 = 16383;

fn is_among(name: &Text, names: &[Text]) -> bool
    ensures { result ≡ list_any (bytes_eq name.now) names.now }
{
    names.iter().any(|other| *name == *other)
}

fn has_flag(table: &LogTable, column: &RawColumn) -> bool
    ensures { result ≡ is_in_identity table.now column.now }
{
    table.full || is_among(&column.name, table.raw.key.items())
}

fn relation_columns(alloc: Global, table: &LogTable) -> Result<Seq<RelationColumn>, AllocError>
    ensures { IfOk result (λ columns.
        columns ≡ map (relation_column table.now) table.now.raw.columns) }
{
    let mut columns = Vec::new(alloc);
    for column in table.raw.columns.items() {
        let flags = if has_flag(table, column) { 1 } else { 0 };
        columns.push(RelationColumn {
            flags,
            name: column.name.copy(alloc)?,
            oid: column.oid,
            modifier: -1,
        })?;
    }
    Ok(Seq::make(columns))
}

fn relation_message(alloc: Global, oid: u32, table: &LogTable) -> Result<Message, AllocError>
    ensures { IfOk result (λ message. message ≡ relation_message oid table.now) }
{
    Ok(Message::Relation {
        oid,
        namespace: table.raw.name.schema.copy(alloc)?,
        name: table.raw.name.name.copy(alloc)?,
        identity: if table.full { b'f' } else { b'd' },
        columns: relation_columns(alloc, table)?,
    })
}

fn watermark_column(
    alloc: Global,
    flags: u8,
    name: &str,
    oid: u32,
) -> Result<RelationColumn, AllocError>
    ensures { IfOk result (λ column.
        column ≡ record { flags = flags; name = name.now; oid = oid; modifier = negsuc 0 }) }
{
    Ok(RelationColumn {
        flags,
        name: Text::of(alloc, name)?,
        oid,
        modifier: -1,
    })
}

fn watermark_relation(alloc: Global) -> Result<Message, AllocError>
    ensures { IfOk result (λ message. message ≡ watermark_relation) }
{
    let mut columns = Vec::new(alloc);
    columns.push(watermark_column(alloc, 1, "id", 23)?)?;
    columns.push(watermark_column(alloc, 0, "value", 25)?)?;
    Ok(Message::Relation {
        oid: WATERMARK_OID,
        namespace: Text::of(alloc, "public")?,
        name: Text::of(alloc, "dblog_watermark")?,
        identity: b'd',
        columns: Seq::make(columns),
    })
}

/// The Relation of the table with this OID, None if there is no such table.
pub fn relation_at(
    alloc: Global,
    tables: &[LogTable],
    oid: u32,
) -> Result<Option<Message>, AllocError>
    ensures { IfOk result (λ message. message ≡ relation_at tables.now oid) }
{
    if oid == WATERMARK_OID {
        return Ok(Some(watermark_relation(alloc)?));
    }
    if oid < FIRST_OID {
        return Ok(None);
    }
    match tables.get((oid - FIRST_OID) as usize) {
        Some(table) => Ok(Some(relation_message(alloc, oid, table)?)),
        None => Ok(None),
    }
}

fn is_same_column(name: &str, oid: u32, given: &RelationColumn) -> bool
    ensures { result ≡ (bytes_eq name.now given.now.name && oid == given.now.oid) }
{
    name == given.name.as_str() && oid == given.oid
}

fn are_watermark_columns(columns: &Vec<RelationColumn>) -> bool
    ensures { result ≡ have_same_columns watermark_columns columns.now.items }
{
    match columns.as_slice() {
        [id, value] => is_same_column("id", 23, id) && is_same_column("value", 25, value),
        _ => false,
    }
}

fn are_same_in_pairs(own: &Vec<RawColumn>, columns: &Vec<RelationColumn>) -> bool
    ensures { result ≡ list_all same_raw (zip own.now.items columns.now.items) }
{
    own.iter().zip(columns.iter()).all(|(own, given)| is_same_column(
        own.name.as_str(),
        own.oid,
        given,
    ))
}

fn are_table_columns(table: &LogTable, columns: &Vec<RelationColumn>) -> bool
    ensures { result ≡ have_same_columns
        (map (relation_column table.now) table.now.raw.columns) columns.now.items }
{
    table.raw.columns.items().len() == columns.len()
        && are_same_in_pairs(table.raw.columns.items(), columns)
}

/// Whether the Relation of the table with this OID has these columns, in number, names and types.
pub(crate) fn has_columns(tables: &[LogTable], oid: u32, columns: &Vec<RelationColumn>) -> bool
    ensures { (relation : Relation) → relation.columns ≡ columns.now.items
        → result ≡ is_present (Some relation) (relation_at tables.now oid) }
{
    if oid == WATERMARK_OID {
        return are_watermark_columns(columns);
    }
    if oid < FIRST_OID {
        return false;
    }
    match tables.get((oid - FIRST_OID) as usize) {
        Some(table) => are_table_columns(table, columns),
        None => false,
    }
}

/// The Update that sets the watermark to this value.
pub fn mark_message(alloc: Global, value: &Text) -> Result<Message, AllocError>
    ensures { IfOk result (λ message. message ≡ mark_message value.now) }
{
    let mut cells = Vec::new(alloc);
    cells.push(TupleCell::Text(Text::of(alloc, "1")?))?;
    cells.push(TupleCell::Text(value.copy(alloc)?))?;
    Ok(Message::Update {
        oid: WATERMARK_OID,
        before: None,
        row: Tuple {
            cells: Seq::make(cells),
        },
    })
}
