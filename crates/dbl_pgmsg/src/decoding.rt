//! Decoding of messages.

ghost use Rattle.std.specs.Prelude.{◌≡◌, ◌⊎◌, ◌∷◌, length, IfOk, IfErr};
ghost use Rattle.dbl_pgmsg.specs.declared.messages.Message.{Message};
ghost use Rattle.dbl_pgmsg.specs.Grammar.{Spells};
ghost use Rattle.dbl_pgmsg.specs.Faults.{IsFault};
ghost use Rattle.dbl_pgmsg.specs.Reading.{Gives, message_at, whole};

use crate::kinds::{
    read_begin, read_commit, read_delete, read_insert, read_logical, read_origin, read_relation,
    read_truncate, read_type_name, read_update,
};
use crate::reading::place;
use crate::{Message, MsgError};
use dbl_pgmsg_tags::is_end;
use std::alloc::Global;

/// The maximum length of a message in bytes.
pub const LIMIT: usize = 16_777_216;

#[tactic(auto, unfolding(crate::specs::Reading::message_at))]
fn read_message(
    alloc: Global,
    total: usize,
    tag: u8,
    fields: &[u8],
) -> Result<(Message, &[u8]), MsgError>
    ensures { Gives (λ x. (x.0, x.1.now)) result (message_at total (tag ∷ fields.now)) }
{
    match tag {
        b'B' => read_begin(total, fields),
        b'C' => read_commit(total, fields),
        b'O' => read_origin(alloc, total, fields),
        b'Y' => read_type_name(alloc, total, fields),
        b'R' => read_relation(alloc, total, fields),
        b'I' => read_insert(alloc, total, fields),
        b'U' => read_update(alloc, total, fields),
        b'D' => read_delete(alloc, total, fields),
        b'T' => read_truncate(alloc, total, fields),
        b'M' => read_logical(alloc, total, fields),
        byte => Err(MsgError::UnknownTag { byte }),
    }
}

#[tactic(auto, unfolding(crate::specs::Reading::whole, crate::specs::Reading::ended))]
fn read_fields(alloc: Global, tag: u8, fields: &[u8]) -> Result<Message, MsgError>
    ensures { Gives (λ m. m) result (whole (tag ∷ fields.now)) }
{
    let total = fields.len() + 1;
    if total > LIMIT {
        return Err(MsgError::TooLong { len: total as u64 });
    }
    let (message, rest) = read_message(alloc, total, tag, fields)?;
    if !is_end(rest) {
        return Err(MsgError::TrailingBytes {
            at: place(total, rest),
        });
    }
    Ok(message)
}

#[tactic(auto, unfolding(crate::specs::Reading::whole, crate::specs::Reading::message_at))]
fn read_whole(alloc: Global, bytes: &[u8]) -> Result<Message, MsgError>
    ensures { Gives (λ m. m) result (whole bytes.now) }
{
    match bytes {
        [] => Err(MsgError::Truncated { at: 0 }),
        [tag, fields @ ..] => read_fields(alloc, *tag, fields),
    }
}

/// Decodes the message that the bytes encode, or returns their first fault ("Logical Replication
/// Message Formats", protocol version 1).
pub fn decode(alloc: Global, bytes: &[u8]) -> Result<Message, MsgError>
    ensures read { IfOk result (λ message. Spells bytes.now message) }
    ensures spelled { (message : Message) → Spells bytes.now message → (result ≡ Ok message) ⊎
        (result ≡ Err MsgError.Memory) }
    ensures refused { IfErr result (λ error. (error ≡ MsgError.Memory) ⊎ IsFault bytes.now error) }
    ensures faulty { (error : MsgError) → IsFault bytes.now error → (result ≡ Err error) ⊎
        (result ≡ Err MsgError.Memory) }
{
    read_whole(alloc, bytes)
}

/// Decodes the message with this tag and these bytes after it, as `decode` does, without a copy of
/// them.
pub fn decode_fields(alloc: Global, tag: u8, fields: &[u8]) -> Result<Message, MsgError>
    ensures read { IfOk result (λ message. Spells (tag ∷ fields.now) message) }
    ensures spelled { (message : Message) → Spells (tag ∷ fields.now) message →
        (result ≡ Ok message) ⊎ (result ≡ Err MsgError.Memory) }
    ensures refused { IfErr result
        (λ error. (error ≡ MsgError.Memory) ⊎ IsFault (tag ∷ fields.now) error) }
    ensures faulty { (error : MsgError) → IsFault (tag ∷ fields.now) error →
        (result ≡ Err error) ⊎ (result ≡ Err MsgError.Memory) }
{
    read_fields(alloc, tag, fields)
}
