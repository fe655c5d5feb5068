ghost use Rattle.std.specs.Prelude.{◌≡◌, ◌<◌, ◌++◌, ◌∷◌, ℕ, true, false};
ghost use Rattle.std.specs.Prelude.{length, Some, None, Err, IfOk, OnOk};
ghost use Rattle.std.specs.Option.{option_to_list};
ghost use Rattle.std.specs.Result.{result_ok};
ghost use Rattle.dbl_base.specs.Lines.{is_passed_over, lines_of};
ghost use Rattle.hex.specs.Hex.{decode_of};
ghost use Rattle.dblog_replay.specs.Lines.{without_spaces, bytes_in, message_in};
ghost use Rattle.dblog_replay.specs.Lines.{is_bad, message_bytes_in, first_bad_line};

use dbl_base::{Bytes, is_blank_or_comment, next_line};
use hex::FromHexError;
use memchr::memchr;
use std::alloc::{AllocError, AllocFailed, Global};
use thiserror::Error;

/// Why lines are no messages.
#[derive(Clone, Copy, Debug, Error)]
pub enum LineError {
    /// The line's number, counted from 1.
    #[error("line {number}: bad line")]
    BadLine { number: u64 },
    #[error("out of memory")]
    Memory,
}

impl From<AllocError> for LineError {
    ghost use Rattle.std.specs.Prelude.{◌≡◌};
    ghost use Rattle.dblog_replay.specs.declared.lines.LineError.TheVariants.{Memory};

    ghost from_gives = { λ _ e. e ≡ Memory };

    fn from(_error: AllocError) -> LineError {
        LineError::Memory
    }
}

impl<T: Drop> From<AllocFailed<T>> for LineError {
    ghost use Rattle.std.specs.Prelude.{◌≡◌};
    ghost use Rattle.dblog_replay.specs.declared.lines.LineError.TheVariants.{Memory};

    ghost from_gives = { λ _ e. e ≡ Memory };

    fn from(_error: AllocFailed<T>) -> LineError {
        LineError::Memory
    }
}

fn decode_digits(alloc: Global, digits: &[u8]) -> Result<Option<Bytes>, AllocError>
    ensures { IfOk result (λ found. found ≡ result_ok (decode_of digits.now)) }
{
    match hex::decode(alloc, digits) {
        Ok(bytes) => Ok(Some(Bytes::make(bytes))),
        Err(FromHexError::OutOfMemory) => Err(AllocError),
        Err(_) => Ok(None),
    }
}

fn without_spaces(alloc: Global, line: &[u8]) -> Result<Vec<u8>, AllocError>
    ensures { IfOk result (λ digits. digits.items ≡ without_spaces line.now) }
{
    line.iter().copied().filter(|c| *c != b' ').collect(alloc)
}

fn bytes_of(alloc: Global, line: &[u8]) -> Result<Option<Bytes>, AllocError>
    ensures { IfOk result (λ found. found ≡ bytes_in line.now) }
{
    match memchr(b' ', line) {
        None => decode_digits(alloc, line),
        Some(_) => {
            let digits = without_spaces(alloc, line)?;
            decode_digits(alloc, digits.as_slice())
        }
    }
}

fn take_line(
    alloc: Global,
    line: &[u8],
    number: u64,
    messages: &mut Vec<Bytes>,
) -> Result<(), LineError>
    ensures good { OnOk result (is_bad line.now ≡ false) }
    ensures taken { OnOk result
        (messages.new.items ≡ messages.old.items ++ option_to_list (message_in line.now)) }
    ensures bad { (n : ℕ) → result ≡ Err (LineError.BadLine n) → (n ≡ number) ×
        (is_bad line.now ≡ true) }
{
    if is_blank_or_comment(line) {
        return Ok(());
    }
    match bytes_of(alloc, line)? {
        Some(bytes) => {
            messages.push(bytes)?;
            Ok(())
        }
        None => Err(LineError::BadLine { number }),
    }
}

/// The bytes of the messages that the lines of the text encode, in order, or the first bad line.
pub fn messages(alloc: Global, text: &[u8]) -> Result<Vec<Bytes>, LineError>
    ensures ok { IfOk result (λ found. found.items ≡ message_bytes_in (lines_of text.now)) }
    ensures good { OnOk result (first_bad_line (lines_of text.now) ≡ None) }
    ensures bad { (n : ℕ) → result ≡ Err (LineError.BadLine n) →
        first_bad_line (lines_of text.now) ≡ Some n }
{
    let mut found = Vec::new(alloc);
    let mut rest = text;
    let mut number = 0u64;
    'lines: while !rest.is_empty() {
        let (line, subsequent) = next_line(rest);
        rest = subsequent;
        number += 1;
        take_line(alloc, line, number, &mut found)?;
    }
    Ok(found)
}
