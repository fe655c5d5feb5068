//! Which messages can be encoded, checked without writing; `room` is the number of bytes that the
//! encoding may still take.

ghost use Rattle.std.specs.Prelude.{◌≡◌, ◌<◌, ◌≤◌, ◌↔◌, ◌+◌, ◌*◌, ◌^◌};
ghost use Rattle.std.specs.Prelude.{List, IsTrue, length, flat_map};
ghost use Rattle.std.specs.List.{AllByRecursion};
ghost use Rattle.std.specs.Option.{SomeIff};
ghost use Rattle.dbl_pgmsg.specs.Grammar.{string, cell, tuple, old_tuple, optional_tuple, column};
ghost use Rattle.dbl_pgmsg.specs.Grammar.{spelling, is_identity, IsString, FitsCell, FitsTuple};
ghost use Rattle.dbl_pgmsg.specs.Grammar.{FitsOld, FitsOptional, FitsColumn, FitsFields, Fits};
ghost use Rattle.dbl_pgmsg.specs.Room.{Leaves};

use crate::decoding::LIMIT;
use crate::reading::COLUMNS;
use crate::{Message, OldTuple, RelationColumn, Tuple, TupleCell};
use dbl_base::{Lsn, Text};
use memchr::memchr;

/// The bound on a 32-bit length or number of items.
const ITEMS: usize = 1 << 31;

/// A zero-terminated text.
#[tactic(auto, unfolding(crate::specs::Grammar::string))]
fn string_room(room: usize, text: &Text) -> Option<usize>
    ensures { Leaves room (length (string text.now)) (IsString text.now) result }
{
    let bytes = text.as_str().as_bytes();
    if memchr(0, bytes).is_some() {
        return None;
    }
    let Some(left) = room.checked_sub(1) else {
        return None;
    };
    left.checked_sub(bytes.len())
}

#[tactic(auto, using(crate::proofs::Sizes::text_size), unfolding(crate::specs::Grammar::cell))]
fn cell_room(room: usize, item: &TupleCell) -> Option<usize>
    ensures { Leaves room (length (cell item.now)) (FitsCell item.now) result }
{
    match item {
        TupleCell::Null | TupleCell::Unchanged => room.checked_sub(1),
        TupleCell::Text(text) => {
            let text = text.as_str();
            if text.len() >= ITEMS {
                return None;
            }
            room.checked_sub(5 + text.len())
        }
    }
}

fn cells_room(room: usize, cells: &[TupleCell]) -> Option<usize>
    ensures { Leaves room (length (flat_map cell cells.now))
        (AllByRecursion FitsCell cells.now) result }
{
    let mut left = room;
    for item in cells {
        match cell_room(left, item) {
            Some(next) => left = next,
            None => return None,
        }
    }
    Some(left)
}

#[tactic(auto, using(crate::proofs::Sizes::tuple_size))]
fn tuple_room(room: usize, row: &Tuple) -> Option<usize>
    ensures { Leaves room (length (tuple row.now)) (FitsTuple row.now) result }
{
    let cells = row.cells.items();
    if cells.len() > COLUMNS as usize {
        return None;
    }
    let Some(left) = room.checked_sub(2) else {
        return None;
    };
    cells_room(left, cells)
}

/// A row and its tag.
fn row_room(room: usize, row: &Tuple) -> Option<usize>
    ensures { Leaves room (1 + length (tuple row.now)) (FitsTuple row.now) result }
{
    match room.checked_sub(1) {
        Some(left) => tuple_room(left, row),
        None => None,
    }
}

#[tactic(auto, using(crate::proofs::Sizes::key_size, crate::proofs::Sizes::whole_size))]
fn old_room(room: usize, old: &OldTuple) -> Option<usize>
    ensures { Leaves room (length (old_tuple old.now)) (FitsOld old.now) result }
{
    match old {
        OldTuple::Key(row) => row_room(room, row),
        OldTuple::Whole(row) => row_room(room, row),
    }
}

fn optional_room(room: usize, before: &Option<OldTuple>) -> Option<usize>
    ensures { Leaves room (length (optional_tuple before.now)) (FitsOptional before.now) result }
{
    match before {
        None => Some(room),
        Some(old) => old_room(room, old),
    }
}

fn column_room(room: usize, item: &RelationColumn) -> Option<usize>
    ensures { Leaves room (length (column item.now)) (FitsColumn item.now) result }
{
    // For the prover alone: a number that is read is in its type's range.
    let _flags = item.flags;
    let _oid = item.oid;
    let _modifier = item.modifier;
    let Some(left) = room.checked_sub(9) else {
        return None;
    };
    string_room(left, &item.name)
}

fn columns_room(room: usize, columns: &[RelationColumn]) -> Option<usize>
    ensures { Leaves room (length (flat_map column columns.now))
        (AllByRecursion FitsColumn columns.now) result }
{
    let mut left = room;
    for item in columns {
        match column_room(left, item) {
            Some(next) => left = next,
            None => return None,
        }
    }
    Some(left)
}

/// The replica identity, and the columns of a Relation.
fn relation_room(room: usize, identity: u8, columns: &[RelationColumn]) -> Option<usize>
    ensures { Leaves room (3 + length (flat_map column columns.now))
        (IsTrue (is_identity identity) × (length columns.now ≤ 1600) ×
        AllByRecursion FitsColumn columns.now) result }
{
    if !matches!(identity, b'd' | b'n' | b'f' | b'i') || columns.len() > COLUMNS as usize {
        return None;
    }
    match room.checked_sub(3) {
        Some(left) => columns_room(left, columns),
        None => None,
    }
}

fn names_room(room: usize, namespace: &Text, name: &Text) -> Option<usize>
    ensures { Leaves room (length (string namespace.now) + length (string name.now))
        (IsString namespace.now × IsString name.now) result }
{
    match string_room(room, namespace) {
        Some(left) => string_room(left, name),
        None => None,
    }
}

fn begin_room(room: usize, lsn: Lsn, time: &i64, xid: u32) -> Option<usize>
    ensures { Leaves room 21 (FitsFields (Message.Begin lsn time.now xid)) result }
{
    // For the prover alone: a number that is read is in its type's range.
    let _time = *time;
    room.checked_sub(21)
}

fn commit_room(room: usize, flags: u8, lsn: Lsn, end_lsn: Lsn, time: &i64) -> Option<usize>
    ensures { Leaves room 26
        (FitsFields (Message.Commit flags lsn end_lsn time.now)) result }
{
    // For the prover alone: a number that is read is in its type's range.
    let _time = *time;
    room.checked_sub(26)
}

fn origin_room(room: usize, lsn: Lsn, name: &Text) -> Option<usize>
    ensures { Leaves room (9 + length (string name.now))
        (FitsFields (Message.Origin lsn name.now)) result }
{
    match room.checked_sub(9) {
        Some(left) => string_room(left, name),
        None => None,
    }
}

fn type_room(room: usize, oid: u32, namespace: &Text, name: &Text) -> Option<usize>
    ensures { Leaves room (5 + (length (string namespace.now) + length (string name.now)))
        (FitsFields (Message.TypeName oid namespace.now name.now)) result }
{
    match room.checked_sub(5) {
        Some(left) => names_room(left, namespace, name),
        None => None,
    }
}

fn insert_room(room: usize, oid: u32, row: &Tuple) -> Option<usize>
    ensures { Leaves room (6 + length (tuple row.now))
        (FitsFields (Message.Insert oid row.now)) result }
{
    match room.checked_sub(6) {
        Some(left) => tuple_room(left, row),
        None => None,
    }
}

fn update_room(room: usize, oid: u32, before: &Option<OldTuple>, row: &Tuple) -> Option<usize>
    ensures { Leaves room (length (optional_tuple before.now) + (6 + length (tuple row.now)))
        (FitsFields (Message.Update oid before.now row.now)) result }
{
    match optional_room(room, before) {
        Some(left) => insert_room(left, oid, row),
        None => None,
    }
}

fn delete_room(room: usize, oid: u32, before: &OldTuple) -> Option<usize>
    ensures { Leaves room (5 + length (old_tuple before.now))
        (FitsFields (Message.Delete oid before.now)) result }
{
    match room.checked_sub(5) {
        Some(left) => old_room(left, before),
        None => None,
    }
}

fn truncate_room(room: usize, options: u8, oids: &Vec<u32>) -> Option<usize>
    ensures { Leaves room (6 + 4 * length oids.now.items)
        (FitsFields (Message.Truncate options oids.now.items)) result }
{
    if oids.len() >= ITEMS {
        return None;
    }
    room.checked_sub(6 + 4 * oids.len())
}

fn content_room(room: usize, content: &Vec<u8>) -> Option<usize>
    ensures { Leaves room (4 + length content.now.items) ((length content.now.items < 2 ^ 31) ×
        AllByRecursion (λ b. b < 2 ^ 8) content.now.items) result }
{
    if content.len() >= ITEMS {
        return None;
    }
    room.checked_sub(4 + content.len())
}

fn logical_room(room: usize, flags: u8, lsn: Lsn, prefix: &Text, content: &Vec<u8>) -> Option<usize>
    ensures { Leaves room (10 + (length (string prefix.now) + (4 + length content.now.items)))
        (FitsFields (Message.Logical flags lsn prefix.now content.now.items)) result }
{
    let Some(left) = room.checked_sub(10) else {
        return None;
    };
    match string_room(left, prefix) {
        Some(left) => content_room(left, content),
        None => None,
    }
}

fn table_room(
    room: usize,
    oid: u32,
    namespace: &Text,
    name: &Text,
    identity: u8,
    columns: &Vec<RelationColumn>,
) -> Option<usize>
    ensures { Leaves room (5 + (length (string namespace.now) + length (string name.now)) +
        (3 + length (flat_map column columns.now.items))) (FitsFields
        (Message.Relation oid namespace.now name.now identity columns.now.items)) result }
{
    match type_room(room, oid, namespace, name) {
        Some(left) => relation_room(left, identity, columns),
        None => None,
    }
}

/// The room left after the message.
pub fn message_room(room: usize, message: &Message) -> Option<usize>
    ensures { Leaves room (length (spelling message.now)) (FitsFields message.now) result }
{
    match message {
        Message::Begin { lsn, time, xid } => begin_room(room, *lsn, time, *xid),
        Message::Commit {
            flags,
            lsn,
            end_lsn,
            time,
        } => commit_room(room, *flags, *lsn, *end_lsn, time),
        Message::Origin { lsn, name } => origin_room(room, *lsn, name),
        Message::TypeName {
            oid,
            namespace,
            name,
        } => type_room(room, *oid, namespace, name),
        Message::Relation {
            oid,
            namespace,
            name,
            identity,
            columns,
        } => table_room(room, *oid, namespace, name, *identity, columns.items()),
        Message::Insert { oid, row } => insert_room(room, *oid, row),
        Message::Update { oid, before, row } => update_room(room, *oid, before, row),
        Message::Delete { oid, before } => delete_room(room, *oid, before),
        Message::Truncate { options, oids } => truncate_room(room, *options, oids.items()),
        Message::Logical {
            flags,
            lsn,
            prefix,
            content,
        } => logical_room(room, *flags, *lsn, prefix, content.items()),
    }
}

impl Message {
    /// Whether the message can be encoded: its zero-terminated texts contain no zero byte, the
    /// replica identity is one of the four, it has at most 1,600 columns or cells, and the encoding
    /// at most 16,777,216 bytes.
    pub fn fits(&self) -> bool
        ensures { IsTrue result ↔ Fits self.now }
    {
        message_room(LIMIT, self).is_some()
    }

    /// The length of the message's encoding, if it can be encoded.
    pub fn length(&self) -> Option<usize>
        ensures { SomeIff result (Fits self.now) (length (spelling self.now)) }
    {
        match message_room(LIMIT, self) {
            Some(left) => Some(LIMIT.saturating_sub(left)),
            None => None,
        }
    }
}
