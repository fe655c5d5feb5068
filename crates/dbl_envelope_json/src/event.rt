//! The record of each kind of event.

ghost use Rattle.std.specs.Prelude.{◌≡◌, Some, None, IfOk, IfSome, IsSome, length, map};
ghost use Rattle.dbl_model_table.specs.Infos.{width};
ghost use Rattle.dbl_model_table.specs.Keys.{key_of, new_key_of, given_or_null};
ghost use Rattle.dbl_model_table.specs.Rows.{all_given};
ghost use Rattle.dbl_model_event.specs.Events.{Content, notice};
ghost use Rattle.dbl_envelope_json.specs.Frames.{Framed, IsWide, side_row};
ghost use Rattle.dbl_envelope_json.specs.Frames.{plain_record, deleted_record, printed};
ghost use Rattle.dbl_model_event.specs.EventJson.{old_data};

use crate::frame::Frame;
use crate::keys::{key_json, row_key, sent_key};
use crate::side::Side;
use crate::stamp::Stamp;
use crate::value::value_json;
use dbl_base::{Seq, Text};
use dbl_model_table::{Cell, Key, Row};
use dbl_record::Record;
use std::alloc::{AllocError, Global};

/// A record of these texts that isn't part of a key update.
pub fn plain_record(
    alloc: Global,
    frame: &Frame<'_>,
    stamp: &Stamp,
    key: Option<Text>,
    value: Option<Text>,
) -> Result<Record, AllocError>
    requires framed { Framed frame.now }
    ensures { IfOk result (λ made. made ≡ plain_record frame.now stamp.now key value) }
{
    Ok(Record {
        topic: frame.layout.topic.copy(alloc)?,
        key,
        value,
        position: frame.commit.lsn.0,
        ordinal: stamp.ordinal,
        last: stamp.last,
        newkey: None,
        oldkey: None,
    })
}

/// The record of a created row: the Debezium PostgreSQL connector's "create events", `op` of `c`.
pub fn created_record(
    alloc: Global,
    frame: &Frame<'_>,
    stamp: &Stamp,
    row: &Row,
) -> Result<Record, AllocError>
    requires framed { Framed frame.now }
    requires wide { length row.now.cells ≡ width frame.now.info.now }
    ensures { IfOk result (λ made. made ≡ printed frame.now stamp.now
        (notice 0 frame.now.info.now (Some (key_of frame.now.info.now row.now.cells))
        (Content.Created row.now))) }
{
    let after = Side::Row(&row.cells);
    let value = value_json(alloc, frame, &after, &Side::Nothing, "c")?;
    let key = row_key(alloc, frame, &row.cells)?;
    plain_record(alloc, frame, stamp, Some(key), Some(value))
}

fn old_side(old: &Option<Row>) -> Side<'_>
    ensures row { (identity : _) (info : _) →
        side_row identity info result ≡ old_data info old.now }
    ensures wide { (info : _) → IfSome old.now (λ row. length row.cells ≡ width info) →
        IsWide info result }
{
    match old {
        Some(row) => Side::Row(&row.cells),
        None => Side::Nothing,
    }
}

/// The record of an update that keeps the key: the connector's "update events", `op` of `u`.
pub fn updated_record(
    alloc: Global,
    frame: &Frame<'_>,
    stamp: &Stamp,
    key: &Key,
    old: &Option<Row>,
    cells: &Seq<Cell>,
) -> Result<Record, AllocError>
    requires framed { Framed frame.now }
    requires long { length key.now.cells ≡ length frame.now.info.now.key }
    requires old_wide { IfSome old.now (λ row. length row.cells ≡ width frame.now.info.now) }
    requires wide { length cells.now ≡ width frame.now.info.now }
    ensures { IfOk result (λ made. made ≡ printed frame.now stamp.now
        (notice 0 frame.now.info.now (Some key.now) (Content.Updated old.now cells.now))) }
{
    let before = old_side(old);
    let value = value_json(alloc, frame, &Side::Sent(cells), &before, "u")?;
    let key = key_json(alloc, frame, key)?;
    plain_record(alloc, frame, stamp, Some(key), Some(value))
}

/// The record of a delete, with this old row in its value: the connector's "delete events", `op` of
/// `d`.
pub fn deleted_record(
    alloc: Global,
    frame: &Frame<'_>,
    stamp: &Stamp,
    key: &Key,
    before: &Side<'_>,
) -> Result<Record, AllocError>
    requires framed { Framed frame.now }
    requires long { length key.now.cells ≡ length frame.now.info.now.key }
    requires wide { IsWide frame.now.info.now before.now }
    ensures { IfOk result (λ made. made ≡ deleted_record frame.now stamp.now key.now
        (side_row frame.now.identity.now frame.now.info.now before.now)) }
{
    let value = value_json(alloc, frame, &Side::Nothing, before, "d")?;
    let key = key_json(alloc, frame, key)?;
    plain_record(alloc, frame, stamp, Some(key), Some(value))
}

/// The record without a value that follows a delete at its key: the connector's "tombstone events".
pub fn tombstone(
    alloc: Global,
    frame: &Frame<'_>,
    stamp: &Stamp,
    key: &Key,
) -> Result<Record, AllocError>
    requires framed { Framed frame.now }
    requires long { length key.now.cells ≡ length frame.now.info.now.key }
    ensures { IfOk result (λ made. made ≡ printed frame.now stamp.now
        (notice 0 frame.now.info.now (Some key.now) Content.Tombstone)) }
{
    let key = key_json(alloc, frame, key)?;
    plain_record(alloc, frame, stamp, Some(key), None)
}

/// The record of a truncated table: the connector's "truncate events", `op` of `t`.
pub fn truncated_record(
    alloc: Global,
    frame: &Frame<'_>,
    stamp: &Stamp,
) -> Result<Record, AllocError>
    requires framed { Framed frame.now }
    ensures { IfOk result (λ made. made ≡ printed frame.now stamp.now
        (notice 0 frame.now.info.now None Content.Truncated)) }
{
    let value = value_json(alloc, frame, &Side::Nothing, &Side::Nothing, "t")?;
    plain_record(alloc, frame, stamp, None, Some(value))
}

/// The delete at the old key of a key update: the connector's "primary key updates".
pub fn moved_from(
    alloc: Global,
    frame: &Frame<'_>,
    stamp: &Stamp,
    key: &Key,
    old: &Option<Row>,
    cells: &Seq<Cell>,
) -> Result<Record, AllocError>
    requires framed { Framed frame.now }
    requires long { length key.now.cells ≡ length frame.now.info.now.key }
    requires old_wide { IfSome old.now (λ row. length row.cells ≡ width frame.now.info.now) }
    requires wide { length cells.now ≡ width frame.now.info.now }
    requires given { IsSome (all_given cells.now) }
    ensures { IfOk result (λ made. made ≡ printed frame.now stamp.now
        (record (notice 0 frame.now.info.now (Some key.now) (Content.Deleted old.now))
        { newkey = Some (new_key_of frame.now.info.now cells.now) })) }
{
    let newkey = sent_key(alloc, frame, cells)?;
    Ok(Record {
        newkey: Some(newkey),
        ..deleted_record(alloc, frame, stamp, key, &old_side(old))?
    })
}

/// The create at the new key of a key update: the connector's "primary key updates".
pub fn moved_to(
    alloc: Global,
    frame: &Frame<'_>,
    stamp: &Stamp,
    key: &Key,
    cells: &Seq<Cell>,
) -> Result<Record, AllocError>
    requires framed { Framed frame.now }
    requires long { length key.now.cells ≡ length frame.now.info.now.key }
    requires wide { length cells.now ≡ width frame.now.info.now }
    requires given { IsSome (all_given cells.now) }
    ensures { IfOk result (λ made. made ≡ printed frame.now stamp.now
        (record (notice 0 frame.now.info.now (Some (new_key_of frame.now.info.now cells.now))
        (Content.Created
        (record { cells = map given_or_null cells.now }))) { oldkey = Some key.now })) }
{
    let after = Side::Sent(cells);
    let value = value_json(alloc, frame, &after, &Side::Nothing, "c")?;
    let to = sent_key(alloc, frame, cells)?;
    let oldkey = key_json(alloc, frame, key)?;
    Ok(Record {
        oldkey: Some(oldkey),
        ..plain_record(alloc, frame, stamp, Some(to), Some(value))?
    })
}
