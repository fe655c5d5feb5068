ghost use Rattle.std.specs.Prelude.{◌≡◌, ◌≢◌, ℕ, ◌+◌, ◌<◌, ◌≤◌, ◌++◌, List, [], length, take};
ghost use Rattle.std.specs.Prelude.{drop, Option, Some, Ok, Err, IfOk, OnOk, OnErr, IsErr};
ghost use Rattle.dbl_base.specs.Streams.{FailsOnlyIfCounted, MovesToStart};
ghost use Rattle.dbl_base.specs.Streams.{incremented, input_limit};

use crate::{Bytes, Failed};
use std::alloc::{AllocError, AllocFailed, Global};
use thiserror::Error;

/// The most bytes that one run reads from its input.
pub const INPUT_LIMIT: usize = 67_108_864;

const BUFFER_LENGTH: usize = 65_536;

/// A byte stream that is read.
pub trait Input {
    /// The unread bytes, if known.
    ghost left: { Self → Option (List ℕ) };

    /// The number of faults; it saturates at 2^64 - 1.
    ghost faults: { Self → ℕ };

    /// Reads at most a buffer of unread bytes and returns their number; 0 for a nonempty buffer
    /// means end of input. After `Failed` the buffer's contents are unspecified.
    ///
    /// Only an input with unknown contents may count more than one fault, and retry.
    fn read(&mut self, buffer: &mut [u8]) -> Result<usize, Failed>
        ensures bound { IfOk result (λ n. n ≤ length buffer.old) }
        ensures moves { (bytes : List ℕ) → left self.old ≡ Some bytes →
            IfOk result (λ n. MovesToStart n bytes buffer.new (left self.new)) }
        ensures end { (bytes : List ℕ) → left self.old ≡ Some bytes → 0 < length buffer.old →
            result ≡ Ok 0 → bytes ≡ [] }
        ensures kept { (bytes : List ℕ) → left self.old ≡ Some bytes →
            OnErr result (left self.new ≡ Some bytes) }
        ensures cause { FailsOnlyIfCounted (IsErr result) (faults self.old) (faults self.new) }
        ensures steady { (bytes : List ℕ) → left self.old ≡ Some bytes →
            OnOk result (faults self.new ≡ faults self.old) }
        ensures once { (bytes : List ℕ) → left self.old ≡ Some bytes →
            OnErr result (faults self.new ≡ incremented (faults self.old)) };
}

/// Why an input couldn't be read.
#[derive(Clone, Copy, Debug, Error)]
pub enum InputError {
    #[error("input failed")]
    Failed,
    #[error("input too long")]
    TooLong,
    #[error("out of memory")]
    Memory,
}

impl From<Failed> for InputError {
    ghost use Rattle.std.specs.Prelude.{◌≡◌};
    ghost use Rattle.dbl_base.specs.declared.input.InputError.TheVariants as error;

    ghost from_gives = { λ _ e. e ≡ error.Failed };

    fn from(_failed: Failed) -> InputError {
        InputError::Failed
    }
}

impl From<AllocError> for InputError {
    ghost use Rattle.std.specs.Prelude.{◌≡◌};
    ghost use Rattle.dbl_base.specs.declared.input.InputError.TheVariants.{Memory};

    ghost from_gives = { λ _ e. e ≡ Memory };

    fn from(_error: AllocError) -> InputError {
        InputError::Memory
    }
}

// Reads the next piece and appends it to the bytes read so far.
fn read_piece<I: Input>(
    input: &mut I,
    buffer: &mut [u8],
    bytes: &mut Vec<u8>,
) -> Result<usize, InputError>
    requires { 0 < length buffer.old }
    ensures left { (rest : List ℕ) → I.left input.old ≡ Some rest →
        IfOk result (λ n. I.left input.new ≡ Some (drop n rest)) }
    ensures moved { (rest : List ℕ) → I.left input.old ≡ Some rest →
        IfOk result (λ n. bytes.new.items ≡ bytes.old.items ++ take n rest) }
    ensures end { (rest : List ℕ) → I.left input.old ≡ Some rest → result ≡ Ok 0 → rest ≡ [] }
    ensures longer { IfOk result (λ n. length bytes.new.items ≡ length bytes.old.items + n) }
    ensures cause { FailsOnlyIfCounted (result ≡ Err InputError.Failed)
        (I.faults input.old) (I.faults input.new) }
    ensures short { result ≢ Err InputError.TooLong }
    ensures steady { (rest : List ℕ) → I.left input.old ≡ Some rest →
        result ≢ Err InputError.Failed → I.faults input.new ≡ I.faults input.old }
    ensures once { (rest : List ℕ) → I.left input.old ≡ Some rest → result ≡ Err InputError.Failed →
        I.faults input.new ≡ incremented (I.faults input.old) }
{
    let count = input.read(buffer)?;
    bytes.extend_from_slice(&buffer[..count])?;
    Ok(count)
}

/// Reads all remaining bytes. It stops at the first failed read; after an error the bytes read so
/// far are lost.
pub fn read_all<I: Input>(alloc: Global, input: &mut I) -> Result<Bytes, InputError>
    ensures all { (bytes : List ℕ) → I.left input.old ≡ Some bytes →
        IfOk result (λ read. read ≡ bytes) }
    ensures end { (bytes : List ℕ) → I.left input.old ≡ Some bytes →
        OnOk result (I.left input.new ≡ Some []) }
    ensures within { IfOk result (λ read. length read ≤ input_limit) }
    ensures too_long { (bytes : List ℕ) → I.left input.old ≡ Some bytes →
        result ≡ Err InputError.TooLong → input_limit < length bytes }
    ensures cause { FailsOnlyIfCounted (result ≡ Err InputError.Failed)
        (I.faults input.old) (I.faults input.new) }
    ensures steady { (bytes : List ℕ) → I.left input.old ≡ Some bytes →
        result ≢ Err InputError.Failed → I.faults input.new ≡ I.faults input.old }
    ensures once { (bytes : List ℕ) → I.left input.old ≡ Some bytes →
        result ≡ Err InputError.Failed → I.faults input.new ≡ incremented (I.faults input.old) }
{
    let mut buffer = [0u8; BUFFER_LENGTH];
    let mut bytes = Vec::new(alloc);
    'pieces: while bytes.len() <= INPUT_LIMIT {
        let count = read_piece(input, &mut buffer, &mut bytes)?;
        if count == 0 {
            return Ok(Bytes::make(bytes));
        }
    }
    Err(InputError::TooLong)
}
