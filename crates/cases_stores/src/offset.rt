//! Steps of offset stores, each of which opens the store on the disk.

ghost use Rattle.dbl_offset.specs.Offsets.{IsOffset};
ghost use Rattle.dbl_offset.specs.Stores.{IsLive};

use crate::steps::{self, Device};
use anyhow::{Result, bail};
use cases_items::words;
use dbl_disk::{Choice, Disk, FuseDisk, MemDisk};
use dbl_offset::{Offset, OffsetStore};
use dbl_offset_content::decode;
use std::alloc::Global;
use std::fmt::Write;

/// Takes a step: `make`, `store HEX`, of the offset in another store with these bytes, `stops HEX`,
/// the same on disks that fail, `selectors`, `load`, and `entry HEX`, which shows in format 2 the
/// offset of an entry.
pub fn step(
    alloc: Global,
    shown: &mut String,
    disk: &mut Device,
    word: &str,
    rest: &str,
) -> Result<()> {
    match word {
        "make" => make(alloc, shown, disk),
        "store" => store(alloc, shown, disk, &hex::decode(alloc, rest)?),
        "stops" => stops(alloc, shown, disk, &hex::decode(alloc, rest)?),
        "selectors" => selectors(alloc, shown, disk),
        "load" => load(alloc, shown, disk),
        "entry" => entry(alloc, shown, &hex::decode(alloc, rest)?),
        _ => steps::call(alloc, shown, disk, word, rest),
    }
}

fn make(alloc: Global, shown: &mut String, disk: &mut Device) -> Result<()> {
    match OffsetStore::make(FuseDisk::make(MemDisk::make(alloc, Vec::new(alloc)), u64::MAX)) {
        Ok(store) => {
            *disk = store.into_disk();
            words::add(shown, "ok")
        }
        Err(refused) => steps::show_refused(shown, disk, refused),
    }
}

// Stores the offset of another store, of which these are the disk's bytes.
fn store(alloc: Global, shown: &mut String, disk: &mut Device, bytes: &[u8]) -> Result<()> {
    let mut other = steps::empty(alloc);
    steps::write_bytes(shown, &mut other, 0, bytes)?;
    words::add(shown, " ")?;
    store_from(alloc, shown, disk, other)
}

fn store_from(alloc: Global, shown: &mut String, disk: &mut Device, other: Device) -> Result<()> {
    match OffsetStore::open(alloc, other) {
        Ok(source) => {
            let stored = store_of(alloc, shown, disk, &source);
            drop(source);
            stored
        }
        Err(refused) => words::said(shown, &refused.error),
    }
}

fn store_of(
    alloc: Global,
    shown: &mut String,
    disk: &mut Device,
    source: &OffsetStore<Device>,
) -> Result<()>
    requires { IsLive source.now }
{
    match source.load() {
        Some(offset) => store_offset(alloc, shown, disk, offset.copy(alloc)?),
        None => bail!("no offset"),
    }
}

fn store_offset(alloc: Global, shown: &mut String, disk: &mut Device, offset: Offset) -> Result<()>
    requires { IsOffset offset }
{
    match OffsetStore::open(alloc, steps::take(alloc, disk)) {
        Ok(mut store) => {
            let stored = store.store(alloc, offset);
            *disk = store.into_disk();
            steps::show_outcome(shown, stored)
        }
        Err(refused) => steps::show_refused(shown, disk, refused),
    }
}

// Adds the bytes in format 2 of the offset that is encoded.
fn entry(alloc: Global, shown: &mut String, encoded: &[u8]) -> Result<()> {
    let offset = decode(alloc, encoded)?;
    let again = dbl_offset::bytes(alloc, 2, &offset)?;
    steps::show_digits(alloc, shown, again.items())
}

// A disk with the same contents that fails after so many calls.
fn copy_of(alloc: Global, disk: &mut Device, calls: u64) -> Result<Device> {
    let inner = steps::take(alloc, disk).into_inner();
    let copy = inner.crash(Choice::New);
    *disk = FuseDisk::make(inner, u64::MAX);
    Ok(FuseDisk::make(copy?, calls))
}

// Stores the offset of another store on disks that pass 0 calls, 1 call and so on, up to the first
// that passes all, and adds what a crash leaves of each.
fn stops(alloc: Global, shown: &mut String, disk: &mut Device, bytes: &[u8]) -> Result<()> {
    for calls in 0..100 {
        let mut copy = copy_of(alloc, disk, calls)?;
        write!(shown, "{calls}: ")?;
        store(alloc, shown, &mut copy, bytes)?;
        let ended = shown.as_str().ends_with("ok ok");
        steps::show_positions(alloc, shown, &copy.into_inner())?;
        if ended {
            return Ok(());
        }
        words::add(shown, ", ")?;
    }
    Ok(())
}

// Adds the LSN of the store's offset with each selector.
fn selectors(alloc: Global, shown: &mut String, disk: &mut Device) -> Result<()> {
    for selector in 0..256u16 {
        let mut copy = copy_of(alloc, disk, u64::MAX)?;
        if copy.write_at(8, &[selector as u8]).is_err() {
            bail!("no selector");
        }
        if selector > 0 {
            words::add(shown, " ")?;
        }
        position(alloc, shown, &mut copy)?;
    }
    Ok(())
}

/// Adds the LSN of the store's offset.
pub fn position(alloc: Global, shown: &mut String, disk: &mut Device) -> Result<()> {
    match OffsetStore::open(alloc, steps::take(alloc, disk)) {
        Ok(store) => {
            let answer = match store.load() {
                Some(offset) => words::said(shown, &offset.lsn.0),
                None => words::add(shown, "none"),
            };
            *disk = store.into_disk();
            answer
        }
        Err(refused) => steps::show_refused(shown, disk, refused),
    }
}

/// Adds the store's offset.
pub fn load(alloc: Global, shown: &mut String, disk: &mut Device) -> Result<()> {
    match OffsetStore::open(alloc, steps::take(alloc, disk)) {
        Ok(store) => {
            let answer = show_offset(shown, store.load());
            *disk = store.into_disk();
            answer
        }
        Err(refused) => steps::show_refused(shown, disk, refused),
    }
}

fn show_offset(shown: &mut String, offset: Option<&Offset>) -> Result<()> {
    match offset {
        Some(offset) => write!(shown, "{offset:?}")?,
        None => words::add(shown, "no offset")?,
    }
    Ok(())
}
