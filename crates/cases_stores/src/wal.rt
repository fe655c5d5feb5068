//! Cases of the entries of a source's log: what bytes are read as, and whether that is written as
//! these bytes again.

ghost use Rattle.std.specs.Prelude.{◌<◌, length};
ghost use Rattle.dbl_demo_wal.specs.Entries.{FitsWalEntry};
ghost use Rattle.dbl_journal.specs.Form.{entry_limit};

use crate::steps::show_digits;
use anyhow::{Result, bail};
use cases_items::words;
use dbl_demo_wal::{
    Entry, EntryError, commit_entry, commit_steps, confirm_entry, decode, mark_entry,
    workload_entry, workload_in,
};
use dbl_journal::ENTRY_ROOM;
use std::alloc::Global;
use std::fmt::Write;

/// Adds the entry that the bytes encode, the steps that they state as a commit's, and the workload
/// in them.
pub fn answer(alloc: Global, shown: &mut String, bytes: &[u8]) -> Result<()> {
    match decode(alloc, bytes) {
        Ok(entry) => show_entry(alloc, shown, bytes, &entry)?,
        Err(EntryError::Bad) => words::add(shown, "bad")?,
        Err(EntryError::Memory) => bail!("out of memory"),
    }
    match commit_steps(bytes) {
        Some(steps) => write!(shown, "; steps {steps}")?,
        None => words::add(shown, "; no steps")?,
    }
    match workload_in(bytes) {
        Some(workload) => show_workload(alloc, shown, bytes, workload),
        None => words::add(shown, "; no workload"),
    }
}

fn show_entry(alloc: Global, shown: &mut String, bytes: &[u8], entry: &Entry) -> Result<()>
    requires { FitsWalEntry entry.now }
{
    words::show_debug(shown, entry)?;
    check(bytes, &written(alloc, entry)?)
}

fn show_workload(alloc: Global, shown: &mut String, bytes: &[u8], workload: &[u8]) -> Result<()> {
    if workload.len() > 1_000_000 {
        bail!("too long");
    }
    words::add(shown, "; workload \"")?;
    show_digits(alloc, shown, workload)?;
    words::add(shown, "\"")?;
    check(bytes, &workload_entry(alloc, workload)?)
}

fn written(alloc: Global, entry: &Entry) -> Result<Vec<u8>>
    requires { FitsWalEntry entry.now }
{
    match entry {
        Entry::Commits { steps, messages } => {
            Ok(commit_entry(alloc, *steps, messages.items().as_slice())?)
        }
        Entry::Marks { steps, value } => Ok(mark_entry(alloc, *steps, value)?),
        Entry::Confirms { upto } => Ok(confirm_entry(alloc, *upto)?),
    }
}

// Whether a buffer has these bytes after room for their length.
fn check(bytes: &[u8], buffer: &Vec<u8>) -> Result<()> {
    if buffer.len() < ENTRY_ROOM || &buffer[ENTRY_ROOM..] != bytes {
        bail!("written as others");
    }
    Ok(())
}
