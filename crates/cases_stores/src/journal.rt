//! Steps of journals, each of which opens the journal on the disk.

ghost use Rattle.std.specs.Prelude.{IsTrue};

use crate::steps::{self, Device};
use anyhow::{Result, bail};
use cases_items::words;
use dbl_disk::{FuseDisk, MemDisk};
use dbl_journal::{ENTRY_ROOM, Journal};
use std::alloc::Global;
use std::fmt::Write;

/// Takes a step: `make`, `built HEX` and `entries`.
pub fn step(
    alloc: Global,
    shown: &mut String,
    disk: &mut Device,
    word: &str,
    rest: &str,
) -> Result<()> {
    match word {
        "make" => make(alloc, shown, disk),
        "built" => built(alloc, shown, disk, &hex::decode(alloc, rest)?),
        "entries" => entries(alloc, shown, disk),
        _ => steps::call(alloc, shown, disk, word, rest),
    }
}

/// Makes a journal on an empty disk.
pub fn make(alloc: Global, shown: &mut String, disk: &mut Device) -> Result<()> {
    match Journal::make(
        alloc,
        FuseDisk::make(MemDisk::make(alloc, Vec::new(alloc)), u64::MAX),
    ) {
        Ok(journal) => {
            *disk = journal.into_disk();
            words::add(shown, "ok")
        }
        Err(refused) => steps::show_refused(shown, disk, refused),
    }
}

/// Appends an entry.
pub fn append(alloc: Global, shown: &mut String, disk: &mut Device, entry: &[u8]) -> Result<()> {
    match Journal::open(alloc, steps::take(alloc, disk)) {
        Ok(mut journal) => {
            let appended = journal.append(alloc, entry);
            *disk = journal.into_disk();
            steps::show_outcome(shown, appended)
        }
        Err(refused) => steps::show_refused(shown, disk, refused),
    }
}

// Appends an entry that is built after room for its length.
fn built(alloc: Global, shown: &mut String, disk: &mut Device, entry: &[u8]) -> Result<()> {
    let mut bytes = vec![in alloc; 7u8; ENTRY_ROOM]?;
    bytes.extend_from_slice(entry)?;
    if bytes.len() < ENTRY_ROOM {
        bail!("no room");
    }
    match Journal::open(alloc, steps::take(alloc, disk)) {
        Ok(mut journal) => {
            let appended = journal.append_built(bytes);
            *disk = journal.into_disk();
            steps::show_outcome(shown, appended)
        }
        Err(refused) => steps::show_refused(shown, disk, refused),
    }
}

/// Adds the entries of the journal.
pub fn entries(alloc: Global, shown: &mut String, disk: &mut Device) -> Result<()> {
    match Journal::open(alloc, steps::take(alloc, disk)) {
        Ok(mut journal) => {
            let answer = show_entries(alloc, shown, &mut journal);
            *disk = journal.into_disk();
            answer
        }
        Err(refused) => steps::show_refused(shown, disk, refused),
    }
}

fn show_entries(alloc: Global, shown: &mut String, journal: &mut Journal<Device>) -> Result<()>
    requires { IsTrue journal.old.live }
{
    words::add(shown, "entries")?;
    for number in 0..journal.count() {
        show_entry(alloc, shown, journal, number)?;
    }
    Ok(())
}

fn show_entry(
    alloc: Global,
    shown: &mut String,
    journal: &mut Journal<Device>,
    number: u64,
) -> Result<()> {
    if !journal.is_live() || number >= journal.count() {
        bail!("no such entry");
    }
    match journal.entry(alloc, number) {
        Ok(bytes) => write!(shown, " {:?}", hex::encode(alloc, bytes.items())?.as_str())?,
        Err(error) => write!(shown, " {error}")?,
    }
    Ok(())
}
