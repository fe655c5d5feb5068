//! The records of a commit by the definition, by way of JSON trees.

ghost use Rattle.std.specs.Prelude.{◌≡◌, ◌++◌, ℕ, map, false, IfOk, IfErr, OnOk};
ghost use Rattle.std.specs.Prelude.{Option, Some, None, [], ◌∷◌, flat_map};
ghost use Rattle.serde_json.specs.View.{view};
ghost use Rattle.serde_json.specs.Written.{compact_text, has_float};
ghost use Rattle.dbl_model_table.specs.Infos.{topic_of};
ghost use Rattle.dbl_model_history.specs.Image.{key_text};
ghost use Rattle.dbl_model_table.specs.declared.change.Change.TheVariants.{Insert, Update};
ghost use Rattle.dbl_model_table.specs.declared.change.Change.TheVariants.{Delete, Clear};
ghost use Rattle.dbl_model_event.specs.Events.{Content, notices};
ghost use Rattle.dbl_model_event.specs.EventJson.{envelopes};
ghost use Rattle.cases_ages.specs.PlainEvents.{event_of, content_text, plain_texts};
ghost use Rattle.cases_ages.specs.PlainEvents.{event_texts, AppendsEventTexts};
ghost use Rattle.cases_ages.specs.PlainEvents.{notice_texts, placed_records};

use crate::plain_json::{
    event_value, key_text, old_value, row_value, sent_value, source_value, text_of,
};
use dbl_base::{Seq, Text};
use dbl_model_history::{given_or_nulls, is_same, key_at};
use dbl_model_table::{Body, Cell, Change, Commit, Identity, Key, ModelError, Row, TableInfo};
use dbl_record::Record;
use dbl_value::Val;
use serde_json::Value;
use std::alloc::{AllocError, Global};

/// The texts of a record, without its position in the log.
#[derive(Drop)]
struct Texts {
    topic: Text,
    key: Option<Text>,
    value: Option<Text>,
    newkey: Option<Text>,
    oldkey: Option<Text>,
}

/// What the events of one change have in common.
#[derive(Clone, Copy)]
struct Frame<'a> {
    identity: &'a Identity,
    info: &'a TableInfo,
    commit: &'a Commit,
    now_ms: &'a i64,
}

/// The value of an event with these parts.
fn event_text(
    alloc: Global,
    frame: &Frame<'_>,
    before: Value,
    op: &str,
    after: Value,
) -> Result<Text, AllocError>
    requires before { has_float (view before) ≡ false }
    requires after { has_float (view after) ≡ false }
    ensures { IfOk result
        (λ text. text ≡ compact_text (event_of frame.now (view before) op.now (view after))) }
{
    let source = source_value(alloc, frame.identity, frame.info, frame.commit)?;
    let value = event_value(alloc, source, frame.now_ms, before, op, after)?;
    text_of(alloc, &value)
}

fn created_text(alloc: Global, frame: &Frame<'_>, row: &Row) -> Result<Text, AllocError>
    ensures { IfOk result (λ text. content_text frame.now (Content.Created row.now) ≡ Some text) }
{
    let after = row_value(alloc, frame.info, &row.cells)?;
    event_text(alloc, frame, Value::Null, "c", after)
}

fn updated_text(
    alloc: Global,
    frame: &Frame<'_>,
    old: &Option<Row>,
    cells: &Seq<Cell>,
) -> Result<Text, AllocError>
    ensures { IfOk result
        (λ text. content_text frame.now (Content.Updated old.now cells.now) ≡ Some text) }
{
    let before = old_value(alloc, frame.info, old)?;
    let after = sent_value(alloc, &frame.identity.placeholder, frame.info, cells)?;
    event_text(alloc, frame, before, "u", after)
}

fn truncated_text(alloc: Global, frame: &Frame<'_>) -> Result<Text, AllocError>
    ensures { IfOk result (λ text. content_text frame.now Content.Truncated ≡ Some text) }
{
    event_text(alloc, frame, Value::Null, "t", Value::Null)
}

fn topic_text(alloc: Global, frame: &Frame<'_>) -> Result<Text, AllocError>
    ensures { IfOk result (λ topic. topic ≡ topic_of frame.now.identity.now frame.now.info.now) }
{
    let prefix = frame.identity.prefix.as_str();
    let schema = frame.info.name.schema.as_str();
    let name = frame.info.name.name.as_str();
    Ok(Text::make(format!(in alloc; "{prefix}.{schema}.{name}")?))
}

/// The texts of a record that isn't part of a moved key.
fn texts_at(
    alloc: Global,
    frame: &Frame<'_>,
    key: Option<Text>,
    value: Option<Text>,
) -> Result<Texts, AllocError>
    ensures { IfOk result (λ t. t ≡ plain_texts frame.now key value) }
{
    Ok(Texts {
        topic: topic_text(alloc, frame)?,
        key,
        value,
        newkey: None,
        oldkey: None,
    })
}

/// Adds a record at a key.
fn tell(
    out: &mut Vec<Texts>,
    alloc: Global,
    frame: &Frame<'_>,
    key: &Key,
    value: Option<Text>,
) -> Result<(), AllocError>
    ensures { OnOk result (out.new.items ≡ out.old.items ++ plain_texts frame.now
        (Some (key_text frame.now.info.now key.now)) value ∷ []) }
{
    let key = key_text(alloc, frame.info, key)?;
    out.push(texts_at(alloc, frame, Some(key), value)?)?;
    Ok(())
}

fn tell_insert(
    out: &mut Vec<Texts>,
    alloc: Global,
    frame: &Frame<'_>,
    row: &Row,
) -> Result<(), AllocError>
    ensures { OnOk result
        (AppendsEventTexts frame.now (Insert 0 row.now) out.old.items out.new.items) }
{
    let key = key_at(alloc, frame.info.key.items().as_slice(), &row.cells)?;
    let value = created_text(alloc, frame, row)?;
    tell(out, alloc, frame, &key, Some(value))
}

/// The delete of a row at the key that it moves from.
fn left_texts(
    alloc: Global,
    frame: &Frame<'_>,
    from: &Key,
    to: &Key,
    old: &Option<Row>,
) -> Result<Texts, AllocError>
    ensures { IfOk result (λ t. t ≡ record (event_texts frame.now (Some from.now)
        (Content.Deleted old.now)) { newkey = Some (key_text frame.now.info.now to.now) }) }
{
    let before = old_value(alloc, frame.info, old)?;
    let value = event_text(alloc, frame, before, "d", Value::Null)?;
    let key = key_text(alloc, frame.info, from)?;
    Ok(Texts {
        newkey: Some(key_text(alloc, frame.info, to)?),
        ..texts_at(alloc, frame, Some(key), Some(value))?
    })
}

/// The create of a row at the key that it moves to.
fn moved_texts(
    alloc: Global,
    frame: &Frame<'_>,
    from: &Key,
    to: &Key,
    row: &Row,
) -> Result<Texts, AllocError>
    ensures { IfOk result (λ t. t ≡ record (event_texts frame.now (Some to.now)
        (Content.Created row.now)) { oldkey = Some (key_text frame.now.info.now from.now) }) }
{
    let value = created_text(alloc, frame, row)?;
    let key = key_text(alloc, frame.info, to)?;
    Ok(Texts {
        oldkey: Some(key_text(alloc, frame.info, from)?),
        ..texts_at(alloc, frame, Some(key), Some(value))?
    })
}

/// Adds the records of a row that moves to another key.
fn tell_moved(
    out: &mut Vec<Texts>,
    alloc: Global,
    frame: &Frame<'_>,
    from: &Key,
    to: &Key,
    old: &Option<Row>,
    row: &Row,
) -> Result<(), AllocError>
    ensures { OnOk result (out.new.items ≡ out.old.items
        ++ record (event_texts frame.now (Some from.now) (Content.Deleted old.now))
        { newkey = Some (key_text frame.now.info.now to.now) }
        ∷ plain_texts frame.now (Some (key_text frame.now.info.now from.now)) None
        ∷ record (event_texts frame.now (Some to.now) (Content.Created row.now))
        { oldkey = Some (key_text frame.now.info.now from.now) } ∷ []) }
{
    out.push(left_texts(alloc, frame, from, to, old)?)?;
    tell(out, alloc, frame, from, None)?;
    out.push(moved_texts(alloc, frame, from, to, row)?)?;
    Ok(())
}

fn tell_update(
    out: &mut Vec<Texts>,
    alloc: Global,
    frame: &Frame<'_>,
    from: &Key,
    old: &Option<Row>,
    cells: &Seq<Cell>,
) -> Result<(), AllocError>
    ensures { OnOk result
        (AppendsEventTexts frame.now (Update 0 from.now old.now cells.now) out.old.items
        out.new.items) }
{
    let given = given_or_nulls(alloc, cells)?;
    let row = Row { cells: given };
    let to = key_at(alloc, frame.info.key.items().as_slice(), &row.cells)?;
    if is_same(from, &to) {
        let value = updated_text(alloc, frame, old, cells)?;
        return tell(out, alloc, frame, from, Some(value));
    }
    tell_moved(out, alloc, frame, from, &to, old, &row)
}

fn tell_delete(
    out: &mut Vec<Texts>,
    alloc: Global,
    frame: &Frame<'_>,
    key: &Key,
    old: &Row,
) -> Result<(), AllocError>
    ensures { OnOk result
        (AppendsEventTexts frame.now (Delete 0 key.now old.now) out.old.items out.new.items) }
{
    let before = row_value(alloc, frame.info, &old.cells)?;
    let value = event_text(alloc, frame, before, "d", Value::Null)?;
    tell(out, alloc, frame, key, Some(value))?;
    tell(out, alloc, frame, key, None)
}

fn tell_clear(out: &mut Vec<Texts>, alloc: Global, frame: &Frame<'_>) -> Result<(), AllocError>
    ensures { OnOk result (AppendsEventTexts frame.now (Clear 0) out.old.items out.new.items) }
{
    let value = truncated_text(alloc, frame)?;
    out.push(texts_at(alloc, frame, None, Some(value))?)?;
    Ok(())
}

/// Adds the records of a change of the frame's table.
fn tell_change(
    out: &mut Vec<Texts>,
    alloc: Global,
    frame: &Frame<'_>,
    change: &Change,
) -> Result<(), AllocError>
    ensures { OnOk result (AppendsEventTexts frame.now change.now out.old.items out.new.items) }
{
    match change {
        Change::Insert { table: _, row } => tell_insert(out, alloc, frame, row),
        Change::Update {
            table: _,
            key,
            old,
            cells,
        } => tell_update(out, alloc, frame, key, old, cells),
        Change::Delete { table: _, key, old } => tell_delete(out, alloc, frame, key, old),
        Change::Clear { table: _ } => tell_clear(out, alloc, frame),
    }
}

/// Adds the records of a change, none if no table is captured at its index.
fn tell_if_captured(
    out: &mut Vec<Texts>,
    alloc: Global,
    identity: &Identity,
    infos: &Vec<TableInfo>,
    commit: &Commit,
    change: &Change,
    now_ms: &i64,
) -> Result<(), AllocError>
    ensures { OnOk result (out.new.items ≡ out.old.items ++ map
        (notice_texts identity.now commit.now now_ms.now) (notices infos.now.items change.now)) }
{
    match infos.get(change.table() as usize) {
        Some(info) => {
            let frame = Frame {
                identity,
                info,
                commit,
                now_ms,
            };
            tell_change(out, alloc, &frame, change)
        }
        None => Ok(()),
    }
}

/// The texts of the records of a commit's changes, in order.
fn told_texts(
    alloc: Global,
    identity: &Identity,
    infos: &Vec<TableInfo>,
    commit: &Commit,
    changes: &Seq<Change>,
    now_ms: &i64,
) -> Result<Vec<Texts>, AllocError>
    ensures { IfOk result (λ told. told.items ≡ map
        (notice_texts identity.now commit.now now_ms.now)
        (flat_map (notices infos.now.items) changes.now)) }
{
    let mut out = Vec::new(alloc);
    for change in changes.items() {
        tell_if_captured(&mut out, alloc, identity, infos, commit, change, now_ms)?;
    }
    Ok(out)
}

/// The records of these texts at a position, in order.
fn placed_records(alloc: Global, position: u64, told: Vec<Texts>) -> Result<Vec<Record>, AllocError>
    ensures { IfOk result (λ made. made.items ≡ placed_records position 0 told.items) }
{
    let count = told.len();
    let mut records = Vec::new(alloc);
    for texts in told {
        let ordinal = records.len();
        records.push(Record {
            topic: texts.topic,
            key: texts.key,
            value: texts.value,
            position,
            ordinal: ordinal as u64,
            last: ordinal + 1 == count,
            newkey: texts.newkey,
            oldkey: texts.oldkey,
        })?;
    }
    Ok(records)
}

fn records_of(
    alloc: Global,
    identity: &Identity,
    infos: &Vec<TableInfo>,
    commit: &Commit,
    now_ms: &i64,
) -> Result<Vec<Record>, AllocError>
    ensures { IfOk result
        (λ made. made.items ≡ envelopes identity.now infos.now.items commit.now now_ms.now) }
{
    match &commit.body {
        Body::Changes(changes) => {
            let told = told_texts(alloc, identity, infos, commit, changes, now_ms)?;
            placed_records(alloc, commit.lsn.0, told)
        }
        Body::Mark(_) => Ok(Vec::new(alloc)),
    }
}

/// The records of a commit, made at `now_ms`, in milliseconds since 1970-01-01 UTC. Built by way of
/// JSON trees.
pub fn plain_envelopes(
    alloc: Global,
    identity: &Identity,
    infos: &Vec<TableInfo>,
    commit: &Commit,
    now_ms: i64,
) -> Result<Vec<Record>, ModelError>
    ensures ok { IfOk result
        (λ made. made.items ≡ envelopes identity.now infos.now.items commit.now now_ms) }
    ensures err { IfErr result (λ e. e ≡ ModelError.Memory) }
{
    Ok(records_of(alloc, identity, infos, commit, &now_ms)?)
}
