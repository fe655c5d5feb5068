//! Readers of the kinds of message, each after its tag.

ghost use Rattle.std.specs.Prelude.{◌≡◌, length};
ghost use Rattle.std.specs.Int.{w32};
ghost use Rattle.dbl_pgmsg.specs.declared.messages.Message.{Message};
ghost use Rattle.dbl_pgmsg.specs.Reading.{Gives, begin_at, commit_at, origin_at, type_name_at};
ghost use Rattle.dbl_pgmsg.specs.Reading.{identity_at, relation_at, insert_at, update_at};
ghost use Rattle.dbl_pgmsg.specs.Reading.{delete_at, number_at, many_at, truncate_at, logical_at};

use crate::reading::{content, int8, int32, int64, signed64, size, string};
use crate::rows::{read_before, read_columns, read_new, read_old};
use crate::{Message, MsgError};
use dbl_base::{Lsn, Seq};
use std::alloc::Global;

/// Reads the fields of a Begin message.
#[tactic(auto, unfolding(crate::specs::Reading::begin_at))]
pub fn read_begin(total: usize, bytes: &[u8]) -> Result<(Message, &[u8]), MsgError>
    ensures { Gives (λ x. (x.0, x.1.now)) result (begin_at total bytes.now) }
{
    let (lsn, rest) = int64(total, bytes)?;
    let (time, rest) = signed64(total, rest)?;
    let (xid, rest) = int32(total, rest)?;
    Ok((
        Message::Begin {
            lsn: Lsn(lsn),
            time,
            xid,
        },
        rest,
    ))
}

/// Reads the fields of a Commit message.
#[tactic(auto, unfolding(crate::specs::Reading::commit_at))]
pub fn read_commit(total: usize, bytes: &[u8]) -> Result<(Message, &[u8]), MsgError>
    ensures { Gives (λ x. (x.0, x.1.now)) result (commit_at total bytes.now) }
{
    let (flags, rest) = int8(total, bytes)?;
    let (lsn, rest) = int64(total, rest)?;
    let (end_lsn, rest) = int64(total, rest)?;
    let (time, rest) = signed64(total, rest)?;
    Ok((
        Message::Commit {
            flags,
            lsn: Lsn(lsn),
            end_lsn: Lsn(end_lsn),
            time,
        },
        rest,
    ))
}

#[tactic(auto, unfolding(crate::specs::Reading::identity_at))]
fn read_identity(total: usize, bytes: &[u8]) -> Result<(u8, &[u8]), MsgError>
    ensures { Gives (λ x. (x.0, x.1.now)) result (identity_at total bytes.now) }
{
    let (byte, rest) = int8(total, bytes)?;
    match byte {
        b'd' | b'n' | b'f' | b'i' => Ok((byte, rest)),
        _ => Err(MsgError::BadIdentity { byte }),
    }
}

/// Reads the fields of a Relation message.
#[tactic(auto, unfolding(crate::specs::Reading::relation_at))]
pub fn read_relation(
    alloc: Global,
    total: usize,
    bytes: &[u8],
) -> Result<(Message, &[u8]), MsgError>
    ensures { Gives (λ x. (x.0, x.1.now)) result (relation_at total bytes.now) }
{
    let (oid, rest) = int32(total, bytes)?;
    let (namespace, rest) = string(alloc, total, rest)?;
    let (name, rest) = string(alloc, total, rest)?;
    let (identity, rest) = read_identity(total, rest)?;
    let (columns, rest) = read_columns(alloc, total, rest)?;
    Ok((
        Message::Relation {
            oid,
            namespace,
            name,
            identity,
            columns,
        },
        rest,
    ))
}

/// Reads the fields of an Insert message.
#[tactic(auto, unfolding(crate::specs::Reading::insert_at))]
pub fn read_insert(alloc: Global, total: usize, bytes: &[u8]) -> Result<(Message, &[u8]), MsgError>
    ensures { Gives (λ x. (x.0, x.1.now)) result (insert_at total bytes.now) }
{
    let (oid, rest) = int32(total, bytes)?;
    let (row, rest) = read_new(alloc, total, rest)?;
    Ok((Message::Insert { oid, row }, rest))
}

/// Reads the fields of an Origin message.
#[tactic(auto, unfolding(crate::specs::Reading::origin_at))]
pub fn read_origin(alloc: Global, total: usize, bytes: &[u8]) -> Result<(Message, &[u8]), MsgError>
    ensures { Gives (λ x. (x.0, x.1.now)) result (origin_at total bytes.now) }
{
    let (lsn, rest) = int64(total, bytes)?;
    let (name, rest) = string(alloc, total, rest)?;
    Ok((
        Message::Origin {
            lsn: Lsn(lsn),
            name,
        },
        rest,
    ))
}

/// Reads the fields of a Type message.
#[tactic(auto, unfolding(crate::specs::Reading::type_name_at))]
pub fn read_type_name(
    alloc: Global,
    total: usize,
    bytes: &[u8],
) -> Result<(Message, &[u8]), MsgError>
    ensures { Gives (λ x. (x.0, x.1.now)) result (type_name_at total bytes.now) }
{
    let (oid, rest) = int32(total, bytes)?;
    let (namespace, rest) = string(alloc, total, rest)?;
    let (name, rest) = string(alloc, total, rest)?;
    Ok((
        Message::TypeName {
            oid,
            namespace,
            name,
        },
        rest,
    ))
}

/// Reads the fields of an Update message.
#[tactic(auto, unfolding(crate::specs::Reading::update_at))]
pub fn read_update(alloc: Global, total: usize, bytes: &[u8]) -> Result<(Message, &[u8]), MsgError>
    ensures { Gives (λ x. (x.0, x.1.now)) result (update_at total bytes.now) }
{
    let (oid, rest) = int32(total, bytes)?;
    let (before, rest) = read_before(alloc, total, rest)?;
    let (row, rest) = read_new(alloc, total, rest)?;
    Ok((Message::Update { oid, before, row }, rest))
}

/// Reads the fields of a Delete message.
#[tactic(auto, unfolding(crate::specs::Reading::delete_at))]
pub fn read_delete(alloc: Global, total: usize, bytes: &[u8]) -> Result<(Message, &[u8]), MsgError>
    ensures { Gives (λ x. (x.0, x.1.now)) result (delete_at total bytes.now) }
{
    let (oid, rest) = int32(total, bytes)?;
    let (before, rest) = read_old(alloc, total, rest)?;
    Ok((Message::Delete { oid, before }, rest))
}

// Each OID has four bytes, so a wrong count takes no more memory than the message has bytes.
fn read_oids(
    alloc: Global,
    total: usize,
    count: usize,
    bytes: &[u8],
) -> Result<(Vec<u32>, &[u8]), MsgError>
    ensures { Gives (λ x. (x.0.items, x.1.now)) result
        (many_at (number_at w32 total) count bytes.now) }
{
    let mut oids = Vec::with_capacity(alloc, count.min(bytes.len() / 4))?;
    let mut rest = bytes;
    for _ in 0..count {
        let (oid, after) = int32(total, rest)?;
        oids.push(oid)?;
        rest = after;
    }
    Ok((oids, rest))
}

/// Reads the fields of a Truncate message.
#[tactic(auto, unfolding(crate::specs::Reading::truncate_at))]
pub fn read_truncate(
    alloc: Global,
    total: usize,
    bytes: &[u8],
) -> Result<(Message, &[u8]), MsgError>
    ensures { Gives (λ x. (x.0, x.1.now)) result (truncate_at total bytes.now) }
{
    let (count, rest) = size(total, bytes)?;
    let (options, rest) = int8(total, rest)?;
    let (oids, rest) = read_oids(alloc, total, count as usize, rest)?;
    Ok((
        Message::Truncate {
            options,
            oids: Seq::make(oids),
        },
        rest,
    ))
}

/// Reads the fields of a logical decoding message, of kind Message.
#[tactic(auto, unfolding(crate::specs::Reading::logical_at))]
pub fn read_logical(alloc: Global, total: usize, bytes: &[u8]) -> Result<(Message, &[u8]), MsgError>
    ensures { Gives (λ x. (x.0, x.1.now)) result (logical_at total bytes.now) }
{
    let (flags, rest) = int8(total, bytes)?;
    let (lsn, rest) = int64(total, rest)?;
    let (prefix, rest) = string(alloc, total, rest)?;
    let (content, rest) = content(alloc, total, rest)?;
    Ok((
        Message::Logical {
            flags,
            lsn: Lsn(lsn),
            prefix,
            content,
        },
        rest,
    ))
}
