//! Cases of the disk over a file and of the streams of the standard library, which have no known
//! contents: over a file of the system, and over one that moves a few bytes a call.

use crate::pieces::{PieceFile, PieceFiles};
use crate::steps;
use anyhow::{Result, bail};
use cases_items::words;
use dbl_base::{Output, StdInput, StdOutput, read_all};
use dbl_disk::{Disk, FileDisk};
use std::alloc::Global;
use std::fs;
use std::io::{Seek, SeekFrom};
use std::rt::Files;

const PATH: &str = "a_file_keeps_its_bytes.disk";

/// Adds what a case answers: `system`, steps over a file of the system; `gone`, whether it is
/// removed; `pieces N`, steps over a file that moves at most N bytes a call; and `streams N`, a
/// text that is written to such a file and read again.
pub fn answer<R: Files>(
    alloc: Global,
    shown: &mut String,
    files: &R,
    call: &str,
    arguments: &str,
) -> Result<()> {
    let (most, rest) = words::split(arguments, " ");
    match call {
        "system" => take_steps(alloc, shown, files, arguments),
        "gone" => steps::show_outcome(shown, fs::remove_file(files, PATH)),
        "pieces" => take_steps(alloc, shown, &PieceFiles::make(most.parse()?), rest),
        "streams" => streams(alloc, shown, &mut PieceFile::make(most.parse()?), rest),
        _ => bail!("no such call"),
    }
}

// The disk is dropped by name: that is one call, whereas a drop at the end of a scope is proved
// part by part at each exit.
fn take_steps<R: Files>(alloc: Global, shown: &mut String, files: &R, text: &str) -> Result<()> {
    let mut disk = FileDisk::make(files, PATH);
    let taken = take_each(alloc, shown, &mut disk, text);
    drop(disk);
    taken
}

fn take_each<D: Disk>(alloc: Global, shown: &mut String, disk: &mut D, text: &str) -> Result<()> {
    for step in text.split("; ") {
        let (word, rest) = words::split(step, " ");
        steps::separate(shown)?;
        steps::call(alloc, shown, disk, word, rest)?;
    }
    Ok(())
}

fn streams(alloc: Global, shown: &mut String, file: &mut PieceFile, text: &str) -> Result<()> {
    steps::show_outcome(shown, StdOutput::make(&mut *file).write(text.as_bytes()))?;
    file.seek(SeekFrom::Start(0))?;
    match read_all(alloc, &mut StdInput::make(file)) {
        Ok(bytes) => show_text(shown, bytes.items()),
        Err(error) => words::said(shown, &error),
    }
}

fn show_text(shown: &mut String, bytes: &[u8]) -> Result<()> {
    words::add(shown, "; ")?;
    words::add(shown, str::from_utf8(bytes)?)
}
