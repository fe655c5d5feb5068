//! Reading a long text in blocks.
ghost use Rattle.std.specs.Prelude.{◌≡◌, ◌≢◌, ℕ, ◌+◌, ◌<◌, ◌≤◌, ◌++◌, List, [], Some, Ok, Err};
ghost use Rattle.std.specs.Prelude.{length, take, drop, IfOk, OnOk};
ghost use Rattle.dbl_base.specs.Streams.{FailsOnlyIfCounted, incremented, input_limit};
ghost use Rattle.dbl_lines.specs.LongTexts.{text_in};

use crate::long_text::{BLOCK_LENGTH, LongText, add_bytes};
use dbl_base::{Bytes, INPUT_LIMIT, Input, InputError};
use std::alloc::Global;
use std::collections::VecDeque;

// Reads the next piece and appends it to the blocks.
fn read_part<I: Input>(
    alloc: Global,
    input: &mut I,
    buffer: &mut [u8],
    blocks: &mut VecDeque<Bytes>,
    last: &mut Vec<u8>,
) -> Result<usize, InputError>
    requires { 0 < length buffer.old }
    ensures left { (rest : List ℕ) → I.left input.old ≡ Some rest →
        IfOk result (λ n. I.left input.new ≡ Some (drop n rest)) }
    ensures moved { (rest : List ℕ) → I.left input.old ≡ Some rest →
        IfOk result (λ n. text_in blocks.new.items ++ last.new.items
        ≡ (text_in blocks.old.items ++ last.old.items) ++ take n rest) }
    ensures end { (rest : List ℕ) → I.left input.old ≡ Some rest → result ≡ Ok 0 → rest ≡ [] }
    ensures longer { IfOk result (λ n. length (text_in blocks.new.items ++ last.new.items)
        ≡ length (text_in blocks.old.items ++ last.old.items) + n) }
    ensures few { IfOk result (λ n. n ≤ length buffer.old) }
    ensures cause { FailsOnlyIfCounted (result ≡ Err InputError.Failed)
        (I.faults input.old) (I.faults input.new) }
    ensures short { result ≢ Err InputError.TooLong }
    ensures steady { (rest : List ℕ) → I.left input.old ≡ Some rest →
        result ≢ Err InputError.Failed → I.faults input.new ≡ I.faults input.old }
    ensures once { (rest : List ℕ) → I.left input.old ≡ Some rest → result ≡ Err InputError.Failed →
        I.faults input.new ≡ incremented (I.faults input.old) }
{
    let count = input.read(buffer)?;
    add_bytes(alloc, blocks, last, &buffer[..count])?;
    Ok(count)
}

/// Reads all remaining bytes, in blocks. It stops at the first failed read; after an error the
/// bytes read so far are lost.
pub fn read_long_text<I: Input>(alloc: Global, input: &mut I) -> Result<LongText, InputError>
    ensures all { (bytes : List ℕ) → I.left input.old ≡ Some bytes →
        IfOk result (λ read. read ≡ bytes) }
    ensures end { (bytes : List ℕ) → I.left input.old ≡ Some bytes →
        OnOk result (I.left input.new ≡ Some []) }
    ensures within { IfOk result (λ read. length read ≤ input_limit) }
    ensures too_long { (bytes : List ℕ) → I.left input.old ≡ Some bytes →
        result ≡ Err InputError.TooLong → input_limit < length bytes }
    ensures cause { FailsOnlyIfCounted (result ≡ Err InputError.Failed)
        (I.faults input.old) (I.faults input.new) }
    ensures steady { (bytes : List ℕ) → I.left input.old ≡ Some bytes →
        result ≢ Err InputError.Failed → I.faults input.new ≡ I.faults input.old }
    ensures once { (bytes : List ℕ) → I.left input.old ≡ Some bytes →
        result ≡ Err InputError.Failed → I.faults input.new ≡ incremented (I.faults input.old) }
{
    let mut buffer = [0u8; BLOCK_LENGTH];
    let mut blocks = VecDeque::new(alloc);
    let mut last = Vec::with_capacity(alloc, BLOCK_LENGTH)?;
    let mut length = 0usize;
    'reads: while length <= INPUT_LIMIT {
        let count = read_part(alloc, input, &mut buffer, &mut blocks, &mut last)?;
        if count == 0 {
            return Ok(LongText::make(alloc, blocks, last)?);
        }
        length += count;
    }
    Err(InputError::TooLong)
}
