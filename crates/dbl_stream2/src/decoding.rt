//! Decoding of the messages of protocol version 2.

ghost use Rattle.std.specs.Prelude.{◌≡◌, ◌⊎◌, ◌+◌, ◌<◌, ◌≤◌, ◌^◌, ◌∷◌, length};
ghost use Rattle.std.specs.Prelude.{get_or, Ok, Err, MatchResult, IfOk, IfErr};
ghost use Rattle.std.specs.Int.{w32, w64, from_be_bytes, cast_signed};
ghost use Rattle.dbl_pgmsg.specs.Reading.{Gives, whole};
ghost use Rattle.dbl_stream2.specs.declared.messages.StreamMessage.TheVariants as kinds;
ghost use Rattle.dbl_stream2.specs.Wire.{Encodes, IsBytesFault, has_xid, shift_fault, width_of};
ghost use Rattle.dbl_stream2.specs.Reading.{number4, number8, fixed, with_width};
ghost use Rattle.dbl_stream2.specs.Reading.{carried_at, by_width, read, fault_offset};

use crate::StreamMessage;
use dbl_base::Lsn;
use dbl_pgmsg::{Message, MsgError, decode, decode_fields};
use std::alloc::Global;

// The maximum length of a message in bytes.
const LIMIT: usize = 16_777_216;

fn int32(bytes: &[u8]) -> u32
    requires { length bytes.now ≡ 4 }
    ensures { result ≡ from_be_bytes w32 bytes.now }
{
    u32::from_be_bytes([bytes[0], bytes[1], bytes[2], bytes[3]])
}

fn int64(bytes: &[u8]) -> u64
    requires { length bytes.now ≡ 8 }
    ensures { result ≡ from_be_bytes w64 bytes.now }
{
    u64::from_be_bytes([
        bytes[0], bytes[1], bytes[2], bytes[3], bytes[4], bytes[5], bytes[6], bytes[7],
    ])
}

fn read_start(bytes: &[u8]) -> StreamMessage
    requires { length bytes.now ≡ 6 }
    ensures { result ≡ kinds.Start (number4 1 bytes.now) (get_or bytes.now 5 0) }
{
    StreamMessage::Start {
        xid: int32(&bytes[1..5]),
        first: bytes[5],
    }
}

fn read_commit(bytes: &[u8]) -> StreamMessage
    requires { length bytes.now ≡ 30 }
    ensures { result ≡ kinds.Commit (number4 1 bytes.now) (get_or bytes.now 5 0)
        (record { 0 = number8 6 bytes.now }) (record { 0 = number8 14 bytes.now })
        (cast_signed w64 (number8 22 bytes.now)) }
{
    StreamMessage::Commit {
        xid: int32(&bytes[1..5]),
        flags: bytes[5],
        lsn: Lsn(int64(&bytes[6..14])),
        end_lsn: Lsn(int64(&bytes[14..22])),
        time: int64(&bytes[22..30]).cast_signed(),
    }
}

fn read_abort(bytes: &[u8]) -> StreamMessage
    requires { length bytes.now ≡ 9 }
    ensures { result ≡ kinds.Abort (number4 1 bytes.now) (number4 5 bytes.now) }
{
    StreamMessage::Abort {
        xid: int32(&bytes[1..5]),
        subxid: int32(&bytes[5..9]),
    }
}

#[tactic(auto, unfolding(crate::specs::Reading::with_width))]
fn check_width(bytes: &[u8], width: usize) -> Result<(), MsgError>
    ensures { MatchResult result (λ _. (length bytes.now ≡ width) ×
        (with_width width bytes.now ≡ Ok (fixed bytes.now)))
        (λ e. with_width width bytes.now ≡ Err e) }
{
    let at = bytes.len();
    if at < width {
        return Err(MsgError::Truncated { at: at as u64 });
    }
    if at > width {
        return Err(MsgError::TrailingBytes { at: width as u64 });
    }
    Ok(())
}

fn has_xid(tag: u8) -> bool
    ensures { result ≡ has_xid tag }
{
    matches!(tag, b'R' | b'Y' | b'I' | b'U' | b'D' | b'T' | b'M')
}

fn read_plain(alloc: Global, bytes: &[u8]) -> Result<Message, MsgError>
    ensures { Gives (λ m. m) result (whole bytes.now) }
{
    decode(alloc, bytes)
}

fn read_fields(alloc: Global, tag: u8, fields: &[u8]) -> Result<Message, MsgError>
    ensures gives { Gives (λ m. m) result (whole (tag ∷ fields.now)) }
    ensures offset { IfErr result (λ e. fault_offset e ≤ length (tag ∷ fields.now)) }
{
    decode_fields(alloc, tag, fields)
}

// The fault of a message without its xid, at its offset in the bytes with it.
fn shift_fault(error: MsgError) -> MsgError
    requires { fault_offset error < 2 ^ 32 }
    ensures { result ≡ shift_fault error }
{
    match error {
        MsgError::Truncated { at } => MsgError::Truncated { at: at + 4 },
        MsgError::TrailingBytes { at } => MsgError::TrailingBytes { at: at + 4 },
        MsgError::BadTupleTag { at, byte } => MsgError::BadTupleTag { at: at + 4, byte },
        MsgError::BadNewTag { at, byte } => MsgError::BadNewTag { at: at + 4, byte },
        MsgError::NotUtf8 { at } => MsgError::NotUtf8 { at: at + 4 },
        MsgError::NegativeLength { at } => MsgError::NegativeLength { at: at + 4 },
        MsgError::BinaryColumn { at } => MsgError::BinaryColumn { at: at + 4 },
        MsgError::TooManyColumns { at } => MsgError::TooManyColumns { at: at + 4 },
        error => error,
    }
}

#[tactic(auto, unfolding(crate::specs::Reading::carried_at))]
fn read_carried(alloc: Global, tag: u8, rest: &[u8]) -> Result<StreamMessage, MsgError>
    requires { length rest.now < LIMIT }
    ensures { Gives (λ m. m) result (carried_at (tag ∷ rest.now)) }
{
    if rest.len() < 4 {
        return Err(MsgError::Truncated {
            at: rest.len() as u64 + 1,
        });
    }
    let (xid, fields) = rest.split_at(4);
    match read_fields(alloc, tag, fields) {
        Ok(message) => Ok(StreamMessage::Carried {
            xid: int32(xid),
            message,
        }),
        Err(error) => Err(shift_fault(error)),
    }
}

fn read_short(alloc: Global, inside: bool, bytes: &[u8]) -> Result<StreamMessage, MsgError>
    requires { length bytes.now ≤ LIMIT }
    ensures { Gives (λ m. m) result (by_width inside bytes.now (width_of bytes.now)) }
{
    match bytes {
        [b'S', ..] => match check_width(bytes, 6) {
            Ok(()) => Ok(read_start(bytes)),
            Err(error) => Err(error),
        },
        [b'E', ..] => match check_width(bytes, 1) {
            Ok(()) => Ok(StreamMessage::Stop),
            Err(error) => Err(error),
        },
        [b'c', ..] => match check_width(bytes, 30) {
            Ok(()) => Ok(read_commit(bytes)),
            Err(error) => Err(error),
        },
        [b'A', ..] => match check_width(bytes, 9) {
            Ok(()) => Ok(read_abort(bytes)),
            Err(error) => Err(error),
        },
        [tag, rest @ ..] if inside && has_xid(*tag) => read_carried(alloc, *tag, rest),
        _ => match read_plain(alloc, bytes) {
            Ok(message) => Ok(StreamMessage::Plain(message)),
            Err(error) => Err(error),
        },
    }
}

#[tactic(auto, unfolding(crate::specs::Reading::read))]
fn read_any(alloc: Global, inside: bool, bytes: &[u8]) -> Result<StreamMessage, MsgError>
    ensures { Gives (λ m. m) result (read inside bytes.now) }
{
    if bytes.len() > LIMIT {
        return Err(MsgError::TooLong {
            len: bytes.len() as u64,
        });
    }
    read_short(alloc, inside, bytes)
}

/// Decodes the message that the bytes encode, inside a block or outside, or returns their fault.
pub fn decode_message(alloc: Global, inside: bool, bytes: &[u8]) -> Result<StreamMessage, MsgError>
    ensures encoded { IfOk result (λ message. Encodes inside bytes.now message) }
    ensures refused { IfErr result (λ error. (error ≡ MsgError.Memory) ⊎
        IsBytesFault inside bytes.now error) }
{
    read_any(alloc, inside, bytes)
}
