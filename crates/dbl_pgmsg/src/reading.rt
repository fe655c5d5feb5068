//! Readers of the fields. Each takes the total length of the message and the bytes left, which
//! locate a fault.

ghost use Rattle.std.specs.Prelude.{◌≡◌, ◌-◌, length, option_map};
ghost use Rattle.std.specs.Int.{w16, w32, w64};
ghost use Rattle.dbl_pgmsg.specs.Reading.{Gives, byte_at, number_at, signed_at, size_at, count_at};
ghost use Rattle.dbl_pgmsg.specs.Reading.{utf8_of, before_zero, string_at, text_at, content_at};

use crate::MsgError;
use dbl_base::{Bytes, Text};
use memchr::memchr;
use std::alloc::Global;

/// The maximum number of columns of a PostgreSQL table.
pub const COLUMNS: u16 = 1600;

/// The offset of the first of the bytes left.
pub fn place(total: usize, bytes: &[u8]) -> u64
    ensures { result ≡ total - length bytes.now }
{
    total.saturating_sub(bytes.len()) as u64
}

/// Reads a byte.
#[tactic(auto, unfolding(crate::specs::Reading::byte_at))]
pub fn int8(total: usize, bytes: &[u8]) -> Result<(u8, &[u8]), MsgError>
    ensures { Gives (λ x. (x.0, x.1.now)) result (byte_at total bytes.now) }
{
    match bytes {
        [] => Err(MsgError::Truncated { at: total as u64 }),
        [byte, rest @ ..] => Ok((*byte, rest)),
    }
}

/// Reads a big-endian 16-bit number.
#[tactic(auto, unfolding(crate::specs::Reading::number_at))]
pub fn int16(total: usize, bytes: &[u8]) -> Result<(u16, &[u8]), MsgError>
    ensures { Gives (λ x. (x.0, x.1.now)) result (number_at w16 total bytes.now) }
{
    if bytes.len() < 2 {
        return Err(MsgError::Truncated { at: total as u64 });
    }
    let (front, rest) = bytes.split_at(2);
    Ok((u16::from_be_bytes([front[0], front[1]]), rest))
}

/// Reads a big-endian 32-bit number.
#[tactic(auto, unfolding(crate::specs::Reading::number_at))]
pub fn int32(total: usize, bytes: &[u8]) -> Result<(u32, &[u8]), MsgError>
    ensures { Gives (λ x. (x.0, x.1.now)) result (number_at w32 total bytes.now) }
{
    if bytes.len() < 4 {
        return Err(MsgError::Truncated { at: total as u64 });
    }
    let (front, rest) = bytes.split_at(4);
    let number = u32::from_be_bytes([front[0], front[1], front[2], front[3]]);
    Ok((number, rest))
}

/// Reads a big-endian 64-bit number.
#[tactic(auto, unfolding(crate::specs::Reading::number_at))]
pub fn int64(total: usize, bytes: &[u8]) -> Result<(u64, &[u8]), MsgError>
    ensures { Gives (λ x. (x.0, x.1.now)) result (number_at w64 total bytes.now) }
{
    if bytes.len() < 8 {
        return Err(MsgError::Truncated { at: total as u64 });
    }
    let (front, rest) = bytes.split_at(8);
    let number = u64::from_be_bytes([
        front[0], front[1], front[2], front[3], front[4], front[5], front[6], front[7],
    ]);
    Ok((number, rest))
}

/// Reads a signed 32-bit number in two's complement.
#[tactic(auto, unfolding(crate::specs::Reading::signed_at))]
pub fn signed32(total: usize, bytes: &[u8]) -> Result<(i32, &[u8]), MsgError>
    ensures { Gives (λ x. (x.0, x.1.now)) result (signed_at w32 total bytes.now) }
{
    let (number, rest) = int32(total, bytes)?;
    Ok((number.cast_signed(), rest))
}

/// Reads a signed 64-bit number in two's complement.
#[tactic(auto, unfolding(crate::specs::Reading::signed_at))]
pub fn signed64(total: usize, bytes: &[u8]) -> Result<(i64, &[u8]), MsgError>
    ensures { Gives (λ x. (x.0, x.1.now)) result (signed_at w64 total bytes.now) }
{
    let (number, rest) = int64(total, bytes)?;
    Ok((number.cast_signed(), rest))
}

/// Reads the length of a text or a content, or the number of relations of a Truncate.
#[tactic(auto, unfolding(crate::specs::Reading::size_at))]
pub fn size(total: usize, bytes: &[u8]) -> Result<(u32, &[u8]), MsgError>
    ensures { Gives (λ x. (x.0, x.1.now)) result (size_at total bytes.now) }
{
    let (size, rest) = int32(total, bytes)?;
    if size >= 1 << 31 {
        return Err(MsgError::NegativeLength {
            at: place(total, bytes),
        });
    }
    Ok((size, rest))
}

/// Reads the number of columns of a row or a relation.
#[tactic(auto, unfolding(crate::specs::Reading::count_at))]
pub fn count(total: usize, bytes: &[u8]) -> Result<(u16, &[u8]), MsgError>
    ensures { Gives (λ x. (x.0, x.1.now)) result (count_at total bytes.now) }
{
    let (count, rest) = int16(total, bytes)?;
    if count >= 1 << 15 {
        return Err(MsgError::NegativeLength {
            at: place(total, bytes),
        });
    }
    if count > COLUMNS {
        return Err(MsgError::TooManyColumns {
            at: place(total, bytes),
        });
    }
    Ok((count, rest))
}

#[tactic(auto, unfolding(crate::specs::Reading::utf8_of))]
fn utf8(alloc: Global, at: u64, bytes: &[u8]) -> Result<Text, MsgError>
    ensures { Gives (λ t. t) result (utf8_of at bytes.now) }
{
    let Ok(text) = str::from_utf8(bytes) else {
        return Err(MsgError::NotUtf8 { at });
    };
    Ok(Text::of(alloc, text)?)
}

/// The bytes before the first zero byte, and those after it.
fn split_at_zero(bytes: &[u8]) -> Option<(&[u8], &[u8])>
    ensures { option_map (λ x. (x.0.now, x.1.now)) result ≡ before_zero bytes.now }
{
    let end = memchr(0, bytes)?;
    Some((&bytes[..end], &bytes[end + 1..]))
}

/// Reads a zero-terminated text.
#[tactic(auto, unfolding(crate::specs::Reading::string_at, crate::specs::Reading::string_in))]
pub fn string(alloc: Global, total: usize, bytes: &[u8]) -> Result<(Text, &[u8]), MsgError>
    ensures { Gives (λ x. (x.0, x.1.now)) result (string_at total bytes.now) }
{
    let Some((front, rest)) = split_at_zero(bytes) else {
        return Err(MsgError::Truncated { at: total as u64 });
    };
    let text = utf8(alloc, place(total, bytes), front)?;
    Ok((text, rest))
}

/// Reads a text preceded by its length.
#[tactic(auto, unfolding(crate::specs::Reading::text_at))]
pub fn text(alloc: Global, total: usize, bytes: &[u8]) -> Result<(Text, &[u8]), MsgError>
    ensures { Gives (λ x. (x.0, x.1.now)) result (text_at total bytes.now) }
{
    let (size, rest) = size(total, bytes)?;
    let size = size as usize;
    if rest.len() < size {
        return Err(MsgError::Truncated { at: total as u64 });
    }
    let (front, after) = rest.split_at(size);
    let text = utf8(alloc, place(total, rest), front)?;
    Ok((text, after))
}

/// Reads the content of a Message, preceded by its length.
#[tactic(auto, unfolding(crate::specs::Reading::content_at))]
pub fn content(alloc: Global, total: usize, bytes: &[u8]) -> Result<(Bytes, &[u8]), MsgError>
    ensures { Gives (λ x. (x.0, x.1.now)) result (content_at total bytes.now) }
{
    let (size, rest) = size(total, bytes)?;
    let size = size as usize;
    if rest.len() < size {
        return Err(MsgError::Truncated { at: total as u64 });
    }
    let (front, after) = rest.split_at(size);
    Ok((Bytes::make(front.to_vec(alloc)?), after))
}
