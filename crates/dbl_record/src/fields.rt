//! Fields of the stored formats. Writers append to the buffer; readers take the total length and
//! the bytes left, which locate a fault.

ghost use Rattle.std.specs.Prelude.{◌≡◌, ◌≢◌, ◌-◌, length, Err, OnOk};
ghost use Rattle.std.specs.Int.{w32, w64};
ghost use Rattle.dbl_record.specs.Fields.{Extends, IsShort, IsShortOrAbsent, IsStored};
ghost use Rattle.dbl_record.specs.Fields.{IsStoredOrAbsent, number32, number64};
ghost use Rattle.dbl_record.specs.Fields.{optional_form, text_form, truth_form};
ghost use Rattle.dbl_record.specs.GroupReading.{Gives, number_at, optional_at};
ghost use Rattle.dbl_record.specs.GroupReading.{text_at, truth_at, utf8_of};

use crate::RecordError;
use dbl_base::Text;
use std::alloc::{AllocError, Global};

/// Appends four bytes, big-endian.
#[tactic(auto, unfolding(crate::specs::Fields::number32))]
pub fn append_number32(out: &mut Vec<u8>, number: u32) -> Result<(), AllocError>
    ensures { OnOk result (Extends out.old.items (number32 number) out.new.items) }
{
    out.extend_from_slice(&number.to_be_bytes())
}

/// Appends eight bytes, big-endian.
#[tactic(auto, unfolding(crate::specs::Fields::number64))]
pub fn append_number64(out: &mut Vec<u8>, number: u64) -> Result<(), AllocError>
    ensures { OnOk result (Extends out.old.items (number64 number) out.new.items) }
{
    out.extend_from_slice(&number.to_be_bytes())
}

/// Appends a byte, 1 or 0.
pub fn append_truth(out: &mut Vec<u8>, truth: bool) -> Result<(), AllocError>
    ensures { OnOk result (Extends out.old.items (truth_form truth) out.new.items) }
{
    if truth {
        out.extend_from_slice(&[1])
    } else {
        out.extend_from_slice(&[0])
    }
}

/// Appends a text, preceded by its length in four bytes.
#[tactic(auto, unfolding(crate::specs::Fields::text_form))]
pub fn append_text(out: &mut Vec<u8>, text: &Text) -> Result<(), AllocError>
    requires { IsShort text.now }
    ensures appended { OnOk result (Extends out.old.items (text_form text.now) out.new.items) }
    ensures stored { OnOk result (IsStored text.now) }
{
    let text = text.as_str();
    append_number32(out, text.len() as u32)?;
    out.extend_from_slice(text.as_bytes())
}

/// Appends a byte 0, or 1 and the text.
#[tactic(auto, unfolding(crate::specs::Fields::optional_form))]
pub fn append_optional(out: &mut Vec<u8>, text: &Option<Text>) -> Result<(), AllocError>
    requires { IsShortOrAbsent text.now }
    ensures appended { OnOk result (Extends out.old.items (optional_form text.now) out.new.items) }
    ensures stored { OnOk result (IsStoredOrAbsent text.now) }
{
    match text {
        None => out.extend_from_slice(&[0]),
        Some(text) => {
            out.extend_from_slice(&[1])?;
            append_text(out, text)
        }
    }
}

/// The offset of the first of the bytes left.
pub fn place(total: usize, bytes: &[u8]) -> u64
    ensures { result ≡ total - length bytes.now }
{
    total.saturating_sub(bytes.len()) as u64
}

/// Reads four bytes, big-endian; takes no memory.
#[tactic(auto, unfolding(crate::specs::GroupReading::number_at))]
pub fn read_number32(total: usize, bytes: &[u8]) -> Result<(u32, &[u8]), RecordError>
    ensures read { Gives (λ x. (x.0, x.1.now)) result (number_at w32 total bytes.now) }
    ensures no_memory { result ≢ Err RecordError.Memory }
{
    if bytes.len() < 4 {
        return Err(RecordError::BadRecord { at: total as u64 });
    }
    let (front, rest) = bytes.split_at(4);
    let number = u32::from_be_bytes([front[0], front[1], front[2], front[3]]);
    Ok((number, rest))
}

/// Reads eight bytes, big-endian; takes no memory.
#[tactic(auto, unfolding(crate::specs::GroupReading::number_at))]
pub fn read_number64(total: usize, bytes: &[u8]) -> Result<(u64, &[u8]), RecordError>
    ensures read { Gives (λ x. (x.0, x.1.now)) result (number_at w64 total bytes.now) }
    ensures no_memory { result ≢ Err RecordError.Memory }
{
    if bytes.len() < 8 {
        return Err(RecordError::BadRecord { at: total as u64 });
    }
    let (front, rest) = bytes.split_at(8);
    let number = u64::from_be_bytes([
        front[0], front[1], front[2], front[3], front[4], front[5], front[6], front[7],
    ]);
    Ok((number, rest))
}

/// Reads a byte, 1 or 0; takes no memory.
#[tactic(auto, unfolding(crate::specs::GroupReading::truth_at))]
pub fn read_truth(total: usize, bytes: &[u8]) -> Result<(bool, &[u8]), RecordError>
    ensures read { Gives (λ x. (x.0, x.1.now)) result (truth_at total bytes.now) }
    ensures no_memory { result ≢ Err RecordError.Memory }
{
    match bytes {
        [] => Err(RecordError::BadRecord { at: total as u64 }),
        [0, rest @ ..] => Ok((false, rest)),
        [1, rest @ ..] => Ok((true, rest)),
        [_, ..] => Err(RecordError::BadRecord {
            at: place(total, bytes),
        }),
    }
}

#[tactic(auto, unfolding(crate::specs::GroupReading::utf8_of))]
fn utf8(alloc: Global, at: u64, bytes: &[u8]) -> Result<Text, RecordError>
    ensures { Gives (λ t. t) result (utf8_of at bytes.now) }
{
    let Ok(text) = str::from_utf8(bytes) else {
        return Err(RecordError::BadRecord { at });
    };
    Ok(Text::of(alloc, text)?)
}

/// Reads a text preceded by its length.
#[tactic(auto, unfolding(crate::specs::GroupReading::text_at))]
pub fn read_text(alloc: Global, total: usize, bytes: &[u8]) -> Result<(Text, &[u8]), RecordError>
    ensures { Gives (λ x. (x.0, x.1.now)) result (text_at total bytes.now) }
{
    let (size, rest) = read_number32(total, bytes)?;
    let size = size as usize;
    if rest.len() < size {
        return Err(RecordError::BadRecord { at: total as u64 });
    }
    let (front, after) = rest.split_at(size);
    let text = utf8(alloc, place(total, rest), front)?;
    Ok((text, after))
}

/// Reads an optional text.
#[tactic(auto, unfolding(crate::specs::GroupReading::optional_at))]
pub fn read_optional(
    alloc: Global,
    total: usize,
    bytes: &[u8],
) -> Result<(Option<Text>, &[u8]), RecordError>
    ensures { Gives (λ x. (x.0, x.1.now)) result (optional_at total bytes.now) }
{
    match bytes {
        [] => Err(RecordError::BadRecord { at: total as u64 }),
        [0, rest @ ..] => Ok((None, rest)),
        [1, rest @ ..] => {
            let (text, rest) = read_text(alloc, total, rest)?;
            Ok((Some(text), rest))
        }
        [_, ..] => Err(RecordError::BadRecord {
            at: place(total, bytes),
        }),
    }
}
