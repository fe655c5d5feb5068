//! A long text in blocks, which are freed as its lines are taken.
ghost use Rattle.std.specs.Prelude.{◌≡◌, ◌≤◌, ◌++◌, length, drop, IfOk, OnOk};
ghost use Rattle.dbl_lines.specs.LongTexts.{TakesLine, TakesPart, text_in};

use dbl_base::Bytes;
use memchr::memchr;
use std::alloc::{AllocError, Global};
use std::collections::VecDeque;
use std::marker::Model;
use std::mem;

/// The most bytes of a block.
pub(crate) const BLOCK_LENGTH: usize = 65_536;

/// A text in blocks, which contracts see as the bytes that aren't taken yet.
#[derive(Drop)]
pub struct LongText {
    current: Vec<u8>,
    // The bytes of the current block that are taken.
    taken: usize,
    later: VecDeque<Bytes>,
}

impl Model for LongText {
    ghost use Rattle.std.specs.Prelude.{List, ℕ, ◌≤◌, ◌++◌, length, drop};
    ghost use Rattle.dbl_lines.specs.LongTexts.{text_in};

    ghost Value = { List ℕ };

    ghost view = { λ p. drop p.taken p.current.items ++ text_in p.later.items };

    ghost invariant = { λ p. p.taken ≤ length p.current.items };
}

// Appends bytes to a line up to the newline, and returns its index; or all, and returns none.
fn take_part(line: &mut Vec<u8>, bytes: &[u8]) -> Result<Option<usize>, AllocError>
    ensures { IfOk result (λ end. TakesPart end line.old.items line.new.items bytes.now) }
{
    match memchr(b'\n', bytes) {
        Some(end) => {
            line.extend_from_slice(&bytes[..end])?;
            Ok(Some(end))
        }
        None => {
            line.extend_from_slice(bytes)?;
            Ok(None)
        }
    }
}

// Takes the first line of a text whose current block is taken up to this index.
fn take_line(
    line: &mut Vec<u8>,
    current: &mut Vec<u8>,
    taken: &mut usize,
    later: &mut VecDeque<Bytes>,
) -> Result<bool, AllocError>
    requires { taken.old ≤ length current.old.items }
    ensures takes { IfOk result (λ more. TakesLine more line.new.items
        (drop taken.old current.old.items ++ text_in later.old.items)
        (drop taken.new current.new.items ++ text_in later.new.items)) }
    ensures within { taken.new ≤ length current.new.items }
{
    line.clear();
    'parts: loop {
        if let Some(end) = take_part(line, &current[*taken..])? {
            *taken += end + 1;
            return Ok(true);
        }
        let Some(block) = later.pop_front() else {
            *taken = current.len();
            return Ok(!line.is_empty());
        };
        *current = block.into_items();
        *taken = 0;
    }
}

/// Appends bytes to the last block, or to a new one if it has no room.
pub(crate) fn add_bytes(
    alloc: Global,
    blocks: &mut VecDeque<Bytes>,
    last: &mut Vec<u8>,
    bytes: &[u8],
) -> Result<(), AllocError>
    ensures { OnOk result (text_in blocks.new.items ++ last.new.items
        ≡ (text_in blocks.old.items ++ last.old.items) ++ bytes.now) }
{
    if last.len().saturating_add(bytes.len()) > BLOCK_LENGTH {
        let full = mem::replace(last, Vec::with_capacity(alloc, BLOCK_LENGTH)?);
        blocks.push_back(Bytes::make(full))?;
    }
    last.extend_from_slice(bytes)?;
    Ok(())
}

impl LongText {
    /// Makes a text of its blocks, the last one apart.
    pub(crate) fn make(
        alloc: Global,
        mut blocks: VecDeque<Bytes>,
        last: Vec<u8>,
    ) -> Result<LongText, AllocError>
        ensures { IfOk result (λ made. made ≡ text_in blocks.items ++ last.items) }
    {
        blocks.push_back(Bytes::make(last))?;
        Ok(LongText {
            current: Vec::new(alloc),
            taken: 0,
            later: blocks,
        })
    }

    /// Takes the first line, without its newline, into the buffer, which is emptied first; returns
    /// whether there was one. After an error the bytes taken so far are lost.
    pub fn next_line(&mut self, line: &mut Vec<u8>) -> Result<bool, AllocError>
        ensures { IfOk result (λ more. TakesLine more line.new.items self.old self.new) }
    {
        take_line(line, &mut self.current, &mut self.taken, &mut self.later)
    }
}
