//! Rows, keys and values of events as JSON trees and their texts, by the definition.

ghost use Rattle.std.specs.Prelude.{◌≡◌, [], map, false, codes, IfOk, OnOk};
ghost use Rattle.serde_json.specs.Data.{object, string, put as with_member};
ghost use Rattle.serde_json.specs.View.{view, members_view};
ghost use Rattle.serde_json.specs.Written.{compact_text, has_float};
ghost use Rattle.dbl_model_table.specs.Tables.{column_names};
ghost use Rattle.dbl_model_table.specs.Infos.{key_names};
ghost use Rattle.dbl_model_history.specs.Image.{members_of, key_data, key_text};
ghost use Rattle.dbl_model_event.specs.EventJson.{sent, row_data, old_data};
ghost use Rattle.dbl_model_event.specs.EventJson.{source_data, event_data};

use dbl_base::{Seq, Text};
use dbl_model_event::milliseconds;
use dbl_model_table::{Cell, Commit, Identity, Key, Row, TableInfo, name_at};
use dbl_value::{Val, json_tree};
use serde_json::{Map, Value, json};
use std::alloc::{AllocError, Global};

/// The object of these cells under these names.
fn object_of(alloc: Global, names: &Vec<Text>, cells: &Vec<Val>) -> Result<Value, AllocError>
    ensures value { IfOk result
        (λ v. view v ≡ object (members_of names.now.items cells.now.items)) }
    ensures no_float { IfOk result (λ v. has_float (view v) ≡ false) }
{
    let mut members = Map::new(alloc);
    let count = names.len().min(cells.len());
    for i in (0..count).rev() {
        serde_json::put(
            &mut members,
            alloc,
            names[i].as_str(),
            json_tree(alloc, &cells[i])?,
        )?;
    }
    Ok(Value::Object(members))
}

fn names_of_columns(alloc: Global, info: &TableInfo) -> Result<Vec<Text>, AllocError>
    ensures { IfOk result (λ names. names.items ≡ column_names info.now.columns) }
{
    let mut names = Vec::new(alloc);
    for column in info.columns.items() {
        names.push(column.name.copy(alloc)?)?;
    }
    Ok(names)
}

fn names_of_key(alloc: Global, info: &TableInfo) -> Result<Vec<Text>, AllocError>
    ensures { IfOk result (λ names. names.items ≡ key_names info.now) }
{
    let mut names = Vec::new(alloc);
    for place in info.key.items() {
        names.push(name_at(alloc, info.columns.items().as_slice(), *place)?)?;
    }
    Ok(names)
}

fn sent_cells(alloc: Global, placeholder: &Text, cells: &Seq<Cell>) -> Result<Vec<Val>, AllocError>
    ensures { IfOk result (λ given. given.items ≡ map (sent placeholder.now) cells.now) }
{
    let mut given = Vec::new(alloc);
    for cell in cells.items() {
        given.push(match cell {
            Cell::Given(value) => value.copy(alloc)?,
            Cell::Unchanged => Val::Text(placeholder.copy(alloc)?),
        })?;
    }
    Ok(given)
}

pub(crate) fn row_value(
    alloc: Global,
    info: &TableInfo,
    cells: &Seq<Val>,
) -> Result<Value, AllocError>
    ensures value { IfOk result (λ v. view v ≡ row_data info.now cells.now) }
    ensures no_float { IfOk result (λ v. has_float (view v) ≡ false) }
{
    object_of(alloc, &names_of_columns(alloc, info)?, cells.items())
}

/// The old row, null if none was sent.
pub(crate) fn old_value(
    alloc: Global,
    info: &TableInfo,
    old: &Option<Row>,
) -> Result<Value, AllocError>
    ensures value { IfOk result (λ v. view v ≡ old_data info.now old.now) }
    ensures no_float { IfOk result (λ v. has_float (view v) ≡ false) }
{
    match old {
        Some(row) => row_value(alloc, info, &row.cells),
        None => Ok(Value::Null),
    }
}

/// The row of an update's cells, with the placeholder for each unsent one.
pub(crate) fn sent_value(
    alloc: Global,
    placeholder: &Text,
    info: &TableInfo,
    cells: &Seq<Cell>,
) -> Result<Value, AllocError>
    ensures value { IfOk result
        (λ v. view v ≡ row_data info.now (map (sent placeholder.now) cells.now)) }
    ensures no_float { IfOk result (λ v. has_float (view v) ≡ false) }
{
    let given = sent_cells(alloc, placeholder, cells)?;
    object_of(alloc, &names_of_columns(alloc, info)?, &given)
}

fn put_text(
    members: &mut Map<String, Value>,
    alloc: Global,
    key: &str,
    text: &str,
) -> Result<(), AllocError>
    ensures { OnOk result (members_view members.new.entries
        ≡ with_member key.now (string text.now) (members_view members.old.entries)) }
{
    let value = Value::try_from_str(alloc, text)?;
    serde_json::put(members, alloc, key, value)
}

/// Puts the members of a source into an object that has none, each before those added earlier.
#[tactic(auto, unfolding(dbl_model_event::specs::EventJson::source_data))]
fn put_source(
    members: &mut Map<String, Value>,
    alloc: Global,
    identity: &Identity,
    info: &TableInfo,
    commit: &Commit,
) -> Result<(), AllocError>
    requires { members.old.entries ≡ [] }
    ensures { OnOk result (object (members_view members.new.entries)
        ≡ source_data identity.now info.now.name commit.now (codes "false")) }
{
    serde_json::put(members, alloc, "xmin", Value::Null)?;
    put_text(members, alloc, "version", "1.0")?;
    serde_json::put(members, alloc, "txId", Value::from(commit.xid))?;
    serde_json::put(
        members,
        alloc,
        "ts_ms",
        Value::from(milliseconds(commit.time)),
    )?;
    put_text(members, alloc, "table", info.name.name.as_str())?;
    put_text(members, alloc, "snapshot", "false")?;
    put_text(members, alloc, "schema", info.name.schema.as_str())?;
    put_text(members, alloc, "name", identity.prefix.as_str())?;
    serde_json::put(members, alloc, "lsn", Value::from(commit.lsn.0))?;
    put_text(members, alloc, "db", identity.db.as_str())?;
    put_text(members, alloc, "connector", "postgresql")
}

pub(crate) fn source_value(
    alloc: Global,
    identity: &Identity,
    info: &TableInfo,
    commit: &Commit,
) -> Result<Value, AllocError>
    ensures { IfOk result
        (λ v. view v ≡ source_data identity.now info.now.name commit.now (codes "false")) }
{
    let mut members = Map::new(alloc);
    put_source(&mut members, alloc, identity, info, commit)?;
    Ok(Value::Object(members))
}

#[tactic(auto, unfolding(dbl_model_event::specs::EventJson::event_data))]
pub(crate) fn event_value(
    alloc: Global,
    source: Value,
    now_ms: &i64,
    before: Value,
    op: &str,
    after: Value,
) -> Result<Value, AllocError>
    ensures { IfOk result
        (λ v. view v ≡ event_data (view source) now_ms.now (view before) op.now (view after)) }
{
    json!(in alloc; {
        "after": after,
        "before": before,
        "op": op,
        "source": source,
        "transaction": null,
        "ts_ms": *now_ms
    })
}

/// A value's compact text.
pub(crate) fn text_of(alloc: Global, value: &Value) -> Result<Text, AllocError>
    requires { has_float (view value.now) ≡ false }
    ensures { IfOk result (λ text. text ≡ compact_text (view value.now)) }
{
    Ok(Text::make(value.to_string(alloc)?))
}

/// A key's JSON text.
pub(crate) fn key_text(alloc: Global, info: &TableInfo, key: &Key) -> Result<Text, AllocError>
    ensures { IfOk result (λ text. text ≡ key_text info.now key.now) }
{
    let value = object_of(alloc, &names_of_key(alloc, info)?, key.cells.items())?;
    text_of(alloc, &value)
}
