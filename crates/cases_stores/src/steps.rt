//! Steps over a disk in memory after a fuse, and what a crash leaves of it.
//!
//! The arguments of such a case are steps parted by `; `. Each step finds the disk as the last one
//! left it.

use crate::{journal, offset, topic};
use anyhow::{Result, bail};
use cases_items::words;
use dbl_disk::{Choice, Disk, FuseDisk, MemDisk, Refused};
use std::alloc::Global;
use std::fmt::{Display, Write};
use std::mem;

/// The disk of a case.
pub type Device = FuseDisk<MemDisk>;

/// An empty disk with a fuse that no call burns.
pub fn empty(alloc: Global) -> Device {
    FuseDisk::make(MemDisk::make(alloc, Vec::new(alloc)), u64::MAX)
}

/// Takes the disk, and leaves an empty one until another is put there.
pub fn take(alloc: Global, disk: &mut Device) -> Device {
    mem::replace(disk, empty(alloc))
}

/// Puts the disk of a refusal back, and adds the fault.
pub fn show_refused<E: Display + Drop>(
    shown: &mut String,
    disk: &mut Device,
    refused: Refused<Device, E>,
) -> Result<()> {
    *disk = refused.disk;
    words::said(shown, &refused.error)
}

/// Adds `ok`, or the fault.
pub fn show_outcome<E: Display + Drop>(
    shown: &mut String,
    answered: std::result::Result<(), E>,
) -> Result<()> {
    match answered {
        Ok(()) => words::add(shown, "ok"),
        Err(error) => words::said(shown, &error),
    }
}

/// Adds the hexadecimal digits of bytes.
pub fn show_digits(alloc: Global, shown: &mut String, bytes: &[u8]) -> Result<()> {
    words::add(shown, hex::encode(alloc, bytes)?.as_str())
}

fn size(text: &str) -> Result<usize> {
    let size = text.parse::<usize>()?;
    if size > 1_000_000 {
        bail!("too large");
    }
    Ok(size)
}

// Writes the bytes of hexadecimal digits at a position.
fn write<D: Disk>(alloc: Global, shown: &mut String, disk: &mut D, rest: &str) -> Result<()> {
    let (at, digits) = words::split(rest, " ");
    write_bytes(shown, disk, size(at)?, &hex::decode(alloc, digits)?)
}

/// Writes bytes at a position, and adds the outcome.
pub fn write_bytes<D: Disk>(
    shown: &mut String,
    disk: &mut D,
    at: usize,
    bytes: &[u8],
) -> Result<()> {
    if at > 1_000_000 || bytes.len() > 1_000_000 {
        bail!("too far");
    }
    show_outcome(shown, disk.write_at(at as u64, bytes))
}

// Reads at a position into a buffer of so many sevens: how many bytes were moved, and the buffer.
fn read<D: Disk>(alloc: Global, shown: &mut String, disk: &mut D, rest: &str) -> Result<()> {
    let (at, count) = words::split(rest, " ");
    let at = at.parse()?;
    let mut buffer = vec![in alloc; 7u8; size(count)?]?;
    match disk.read_at(at, &mut buffer) {
        Ok(count) => write!(shown, "{count} of ")?,
        Err(failed) => return words::said(shown, &failed),
    }
    show_digits(alloc, shown, &buffer)
}

/// Adds what a call of the disk answers.
pub fn call<D: Disk>(
    alloc: Global,
    shown: &mut String,
    disk: &mut D,
    word: &str,
    rest: &str,
) -> Result<()> {
    match word {
        "write" => write(alloc, shown, disk, rest),
        "read" => read(alloc, shown, disk, rest),
        "sync" => show_outcome(shown, disk.sync()),
        "len" => match disk.len() {
            Ok(length) => words::said(shown, &length),
            Err(failed) => words::said(shown, &failed),
        },
        _ => bail!("no such step"),
    }
}

fn choice(word: &str) -> Result<Choice> {
    match word {
        "old" => Ok(Choice::Old),
        "new" => Ok(Choice::New),
        _ => Ok(Choice::Fill(word.parse()?)),
    }
}

// What a family finds after a crash.
fn found(
    alloc: Global,
    shown: &mut String,
    family: &str,
    disk: &MemDisk,
    word: &str,
) -> Result<()> {
    let mut left = FuseDisk::make(disk.crash(choice(word)?)?, u64::MAX);
    match family {
        "journal" => journal::entries(alloc, shown, &mut left),
        "topic" => topic::groups(alloc, shown, &mut left),
        "offset" => offset::load(alloc, shown, &mut left),
        "position" => offset::position(alloc, shown, &mut left),
        _ => show_digits(alloc, shown, left.into_inner().bytes()),
    }
}

// The same for the old bytes, the new ones, and 165 and 1 where any byte may be left.
fn left(alloc: Global, shown: &mut String, family: &str, disk: &MemDisk) -> Result<()> {
    for word in ["old", "new", "165", "1"] {
        write!(shown, "({word}: ")?;
        found(alloc, shown, family, disk, word)?;
        words::add(shown, ")")?;
    }
    Ok(())
}

/// Adds the position of the offset in what a crash leaves: the old bytes, the new ones, and an odd
/// byte and an even one where any byte may be left.
pub fn show_positions(alloc: Global, shown: &mut String, disk: &MemDisk) -> Result<()> {
    for word in ["old", "new", "165", "164"] {
        words::add(shown, " ")?;
        found(alloc, shown, "position", disk, word)?;
    }
    Ok(())
}

// The disk as a crash leaves it.
fn crashed(disk: MemDisk, word: &str) -> Result<Device> {
    Ok(FuseDisk::make(disk.crash(choice(word)?)?, u64::MAX))
}

// Takes a step that looks through the fuse.
fn look(
    alloc: Global,
    shown: &mut String,
    family: &str,
    disk: &mut Device,
    word: &str,
) -> Result<()> {
    let inner = take(alloc, disk).into_inner();
    let answer = match word {
        "told" => found(alloc, shown, family, &inner, "new"),
        _ => left(alloc, shown, family, &inner),
    };
    *disk = FuseDisk::make(inner, u64::MAX);
    answer
}

/// Separates an answer from the one before it.
pub fn separate(shown: &mut String) -> Result<()> {
    if !shown.is_empty() {
        words::add(shown, "; ")?;
    }
    Ok(())
}

// Takes a step that answers something.
fn answer_step(
    alloc: Global,
    shown: &mut String,
    family: &str,
    disk: &mut Device,
    word: &str,
    rest: &str,
) -> Result<()> {
    separate(shown)?;
    match word {
        "told" | "left" => look(alloc, shown, family, disk, word),
        "journal" => journal::make(alloc, shown, disk),
        "append" => journal::append(alloc, shown, disk, &hex::decode(alloc, rest)?),
        _ => match family {
            "journal" => journal::step(alloc, shown, disk, word, rest),
            "topic" => topic::step(alloc, shown, disk, word, rest),
            "offset" => offset::step(alloc, shown, disk, word, rest),
            _ => call(alloc, shown, disk, word, rest),
        },
    }
}

// Takes a step.
fn step(
    alloc: Global,
    shown: &mut String,
    family: &str,
    disk: &mut Device,
    text: &str,
) -> Result<()> {
    let (word, rest) = words::split(text, " ");
    match word {
        "fuse" => {
            let calls = rest.parse()?;
            *disk = FuseDisk::make(take(alloc, disk).into_inner(), calls);
            Ok(())
        }
        "crash" => {
            *disk = crashed(take(alloc, disk).into_inner(), rest)?;
            Ok(())
        }
        _ => answer_step(alloc, shown, family, disk, word, rest),
    }
}

/// Adds what the steps answer, from an empty disk on.
pub fn answer(alloc: Global, shown: &mut String, family: &str, steps: &str) -> Result<()> {
    let mut disk = empty(alloc);
    for text in steps.split("; ") {
        step(alloc, shown, family, &mut disk, text)?;
    }
    Ok(())
}
