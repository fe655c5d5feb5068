//! Encoding of messages.

ghost use Rattle.std.specs.Prelude.{◌≡◌, ◌++◌, List, OnOk, OnErr, IfOk, IfErr};
ghost use Rattle.dbl_pgmsg.specs.Grammar.{int32, string, spelling, FitsFields, Fits, Spells};
ghost use Rattle.dbl_pgmsg.specs.Room.{Appends, Begins};

use crate::writing::{
    int16, int32, int64, signed64, string, write_before, write_columns, write_oids, write_old,
    write_tuple,
};
use crate::{Message, MsgError, OldTuple, RelationColumn, Tuple};
use dbl_base::{Bytes, Lsn, Text};
use std::alloc::{AllocError, Global};

fn write_begin(out: &mut Vec<u8>, lsn: Lsn, time: &i64, xid: u32) -> Result<(), AllocError>
    requires { FitsFields (Message.Begin lsn time.now xid) }
    ensures written { OnOk result
        (Appends out.old.items (spelling (Message.Begin lsn time.now xid)) out.new.items) }
    ensures kept { OnErr result (Begins out.old.items out.new.items) }
{
    out.extend_from_slice(b"B")?;
    int64(out, lsn.0)?;
    signed64(out, time)?;
    int32(out, xid)
}

fn write_commit(
    out: &mut Vec<u8>,
    flags: u8,
    lsn: Lsn,
    end_lsn: Lsn,
    time: &i64,
) -> Result<(), AllocError>
    requires { FitsFields (Message.Commit flags lsn end_lsn time.now) }
    ensures written { OnOk result (Appends out.old.items
        (spelling (Message.Commit flags lsn end_lsn time.now)) out.new.items) }
    ensures kept { OnErr result (Begins out.old.items out.new.items) }
{
    out.extend_from_slice(&[b'C', flags])?;
    int64(out, lsn.0)?;
    int64(out, end_lsn.0)?;
    signed64(out, time)
}

fn write_origin(out: &mut Vec<u8>, lsn: Lsn, name: &Text) -> Result<(), AllocError>
    requires { FitsFields (Message.Origin lsn name.now) }
    ensures written { OnOk result
        (Appends out.old.items (spelling (Message.Origin lsn name.now)) out.new.items) }
    ensures kept { OnErr result (Begins out.old.items out.new.items) }
{
    out.extend_from_slice(b"O")?;
    int64(out, lsn.0)?;
    string(out, name)
}

/// The OID of a table or a type, and its name.
fn write_name(out: &mut Vec<u8>, oid: u32, namespace: &Text, name: &Text) -> Result<(), AllocError>
    ensures written { OnOk result (Appends out.old.items
        (int32 oid ++ string namespace.now ++ string name.now) out.new.items) }
    ensures kept { OnErr result (Begins out.old.items out.new.items) }
{
    int32(out, oid)?;
    string(out, namespace)?;
    string(out, name)
}

fn write_type(out: &mut Vec<u8>, oid: u32, namespace: &Text, name: &Text) -> Result<(), AllocError>
    requires { FitsFields (Message.TypeName oid namespace.now name.now) }
    ensures written { OnOk result (Appends out.old.items
        (spelling (Message.TypeName oid namespace.now name.now)) out.new.items) }
    ensures kept { OnErr result (Begins out.old.items out.new.items) }
{
    out.extend_from_slice(b"Y")?;
    write_name(out, oid, namespace, name)
}

fn write_relation(
    out: &mut Vec<u8>,
    oid: u32,
    namespace: &Text,
    name: &Text,
    identity: u8,
    columns: &Vec<RelationColumn>,
) -> Result<(), AllocError>
    requires { FitsFields
        (Message.Relation oid namespace.now name.now identity columns.now.items) }
    ensures written { OnOk result (Appends out.old.items
        (spelling (Message.Relation oid namespace.now name.now identity columns.now.items))
        out.new.items) }
    ensures kept { OnErr result (Begins out.old.items out.new.items) }
{
    out.extend_from_slice(b"R")?;
    write_name(out, oid, namespace, name)?;
    out.extend_from_slice(&[identity])?;
    int16(out, columns.len() as u16)?;
    write_columns(out, columns)
}

fn write_insert(out: &mut Vec<u8>, oid: u32, row: &Tuple) -> Result<(), AllocError>
    requires { FitsFields (Message.Insert oid row.now) }
    ensures written { OnOk result
        (Appends out.old.items (spelling (Message.Insert oid row.now)) out.new.items) }
    ensures kept { OnErr result (Begins out.old.items out.new.items) }
{
    out.extend_from_slice(b"I")?;
    int32(out, oid)?;
    out.extend_from_slice(b"N")?;
    write_tuple(out, row)
}

fn write_update(
    out: &mut Vec<u8>,
    oid: u32,
    before: &Option<OldTuple>,
    row: &Tuple,
) -> Result<(), AllocError>
    requires { FitsFields (Message.Update oid before.now row.now) }
    ensures written { OnOk result (Appends out.old.items
        (spelling (Message.Update oid before.now row.now)) out.new.items) }
    ensures kept { OnErr result (Begins out.old.items out.new.items) }
{
    out.extend_from_slice(b"U")?;
    int32(out, oid)?;
    write_before(out, before)?;
    out.extend_from_slice(b"N")?;
    write_tuple(out, row)
}

fn write_delete(out: &mut Vec<u8>, oid: u32, before: &OldTuple) -> Result<(), AllocError>
    requires { FitsFields (Message.Delete oid before.now) }
    ensures written { OnOk result
        (Appends out.old.items (spelling (Message.Delete oid before.now)) out.new.items) }
    ensures kept { OnErr result (Begins out.old.items out.new.items) }
{
    out.extend_from_slice(b"D")?;
    int32(out, oid)?;
    write_old(out, before)
}

fn write_truncate(out: &mut Vec<u8>, options: u8, oids: &Vec<u32>) -> Result<(), AllocError>
    requires { FitsFields (Message.Truncate options oids.now.items) }
    ensures written { OnOk result (Appends out.old.items
        (spelling (Message.Truncate options oids.now.items)) out.new.items) }
    ensures kept { OnErr result (Begins out.old.items out.new.items) }
{
    out.extend_from_slice(b"T")?;
    int32(out, oids.len() as u32)?;
    out.extend_from_slice(&[options])?;
    write_oids(out, oids)
}

#[tactic(auto, using(crate::proofs::Fronts::begins_same, crate::proofs::Fronts::begins_front), unfolding(crate::specs::Grammar::spelling))]
fn write_logical(
    out: &mut Vec<u8>,
    flags: u8,
    lsn: Lsn,
    prefix: &Text,
    content: &Vec<u8>,
) -> Result<(), AllocError>
    requires { FitsFields (Message.Logical flags lsn prefix.now content.now.items) }
    ensures written { OnOk result (Appends out.old.items
        (spelling (Message.Logical flags lsn prefix.now content.now.items)) out.new.items) }
    ensures kept { OnErr result (Begins out.old.items out.new.items) }
{
    out.extend_from_slice(&[b'M', flags])?;
    int64(out, lsn.0)?;
    string(out, prefix)?;
    int32(out, content.len() as u32)?;
    out.extend_from_slice(content)
}

fn write_message(out: &mut Vec<u8>, message: &Message) -> Result<(), AllocError>
    requires { FitsFields message.now }
    ensures written { OnOk result (Appends out.old.items (spelling message.now) out.new.items) }
    ensures kept { OnErr result (Begins out.old.items out.new.items) }
{
    match message {
        Message::Begin { lsn, time, xid } => write_begin(out, *lsn, time, *xid),
        Message::Commit {
            flags,
            lsn,
            end_lsn,
            time,
        } => write_commit(out, *flags, *lsn, *end_lsn, time),
        Message::Origin { lsn, name } => write_origin(out, *lsn, name),
        Message::TypeName {
            oid,
            namespace,
            name,
        } => write_type(out, *oid, namespace, name),
        Message::Relation {
            oid,
            namespace,
            name,
            identity,
            columns,
        } => write_relation(out, *oid, namespace, name, *identity, columns.items()),
        Message::Insert { oid, row } => write_insert(out, *oid, row),
        Message::Update { oid, before, row } => write_update(out, *oid, before, row),
        Message::Delete { oid, before } => write_delete(out, *oid, before),
        Message::Truncate { options, oids } => write_truncate(out, *options, oids.items()),
        Message::Logical {
            flags,
            lsn,
            prefix,
            content,
        } => write_logical(out, *flags, *lsn, prefix, content.items()),
    }
}

#[tactic(auto, using(crate::proofs::Fronts::begins_cut))]
/// Appends the encoding of a message that passes `Message::fits`. If memory runs out, the buffer is
/// unchanged.
pub fn append_message(out: &mut Vec<u8>, message: &Message) -> Result<(), MsgError>
    requires { Fits message.now }
    ensures spelled { OnOk result (Appends out.old.items (spelling message.now) out.new.items) }
    ensures kept { OnErr result (out.new.items ≡ out.old.items) }
    ensures memory { IfErr result (λ error. error ≡ MsgError.Memory) }
{
    let before = out.len();
    if write_message(out, message).is_err() {
        out.truncate(before);
        return Err(MsgError::Memory);
    }
    Ok(())
}

/// Encodes a message that passes `Message::fits` ("Logical Replication Message Formats", protocol
/// version 1), into one buffer of the encoding's length.
pub fn encode(alloc: Global, message: &Message) -> Result<Bytes, MsgError>
    requires { Fits message.now }
    ensures spelled { IfOk result (λ bytes. Spells bytes message.now) }
    ensures memory { IfErr result (λ error. error ≡ MsgError.Memory) }
{
    let mut out = Vec::with_capacity(alloc, message.length().unwrap_or(0))?;
    append_message(&mut out, message)?;
    Ok(Bytes::make(out))
}
