ghost use Rattle.std.specs.Prelude.{◌≡◌, ◌+◌, ◌^◌, ◌<◌, ◌≤◌, length, IfOk, OnOk, IsErr};
ghost use Rattle.dbl_base.specs.Streams.{FailsOnlyIfCounted, incremented};

use crate::{DISK_LIMIT, Disk};
use dbl_base::Failed;
use std::fs::{OpenFile, OpenOptions};
use std::io;
use std::io::{ErrorKind, Read, Seek, SeekFrom, Write};
use std::marker::Model;
use std::rt::Files;

/// A disk over a file, which is opened, or created if absent, at the first call; contracts don't
/// know its contents. An error, or a write that accepts no byte, counts as a fault; a read or a
/// write that a signal interrupts is retried after it was counted.
#[derive(Drop)]
pub struct FileDisk<'a, R: Files> {
    files: &'a R,
    path: &'a str,
    file: Option<R::File>,
    faults: u64,
}

impl<'a, R: Files> Model for FileDisk<'a, R> {
    ghost use Rattle.std.specs.Prelude.{ℕ};

    ghost Value = { ℕ };

    ghost view = { λ d. d.faults };
}

fn count(faults: &mut u64) -> Failed
    ensures counted { faults.new ≡ incremented faults.old }
    ensures later { faults.old ≤ faults.new }
{
    *faults = faults.saturating_add(1);
    Failed
}

fn count_fault<T: Drop>(outcome: io::Result<T>, faults: &mut u64) -> Result<T, Failed>
    ensures cause { FailsOnlyIfCounted (IsErr result) faults.old faults.new }
{
    match outcome {
        Ok(value) => Ok(value),
        Err(_) => Err(count(faults)),
    }
}

fn open<R: Files>(files: &R, path: &str) -> io::Result<R::File> {
    let mut options = OpenOptions::new();
    options.read(true);
    options.write(true);
    options.create(true);
    options.open(files, path)
}

// Reads until the buffer is full or the file ends, and returns the number of bytes read.
fn read_all<F: Read>(file: &mut F, faults: &mut u64, buffer: &mut [u8]) -> Result<usize, Failed>
    ensures bound { IfOk result (λ n. n ≤ length buffer.old) }
    ensures cause { FailsOnlyIfCounted (IsErr result) faults.old faults.new }
{
    let mut done = 0;
    'pieces: for _ in 0..u64::MAX {
        if done == buffer.len() {
            return Ok(done);
        }
        match file.read(&mut buffer[done..]) {
            Ok(0) => return Ok(done),
            Ok(more) => done += more,
            Err(error) => {
                let failed = count(faults);
                if error.kind() != ErrorKind::Interrupted {
                    return Err(failed);
                }
            }
        }
    }
    Err(count(faults))
}

fn write_all<F: Write>(file: &mut F, faults: &mut u64, bytes: &[u8]) -> Result<(), Failed>
    ensures cause { FailsOnlyIfCounted (IsErr result) faults.old faults.new }
{
    let mut done = 0;
    'pieces: for _ in 0..u64::MAX {
        if done == bytes.len() {
            return Ok(());
        }
        match file.write(&bytes[done..]) {
            Ok(0) => return Err(count(faults)),
            Ok(more) => done += more,
            Err(error) => {
                let failed = count(faults);
                if error.kind() != ErrorKind::Interrupted {
                    return Err(failed);
                }
            }
        }
    }
    Err(count(faults))
}

fn read_from<F: Read + Seek>(
    file: &mut F,
    faults: &mut u64,
    at: u64,
    buffer: &mut [u8],
) -> Result<usize, Failed>
    ensures bound { IfOk result (λ n. n ≤ length buffer.old) }
    ensures cause { FailsOnlyIfCounted (IsErr result) faults.old faults.new }
{
    count_fault(file.seek(SeekFrom::Start(at)), faults)?;
    read_all(file, faults, buffer)
}

fn write_from<F: Write + Seek>(
    file: &mut F,
    faults: &mut u64,
    at: u64,
    bytes: &[u8],
) -> Result<(), Failed>
    ensures cause { FailsOnlyIfCounted (IsErr result) faults.old faults.new }
{
    count_fault(file.seek(SeekFrom::Start(at)), faults)?;
    write_all(file, faults, bytes)
}

impl<'a, R: Files> FileDisk<'a, R> {
    /// Makes a disk over the file at this path. The disk's value in contracts is its fault count.
    pub fn make(files: &'a R, path: &'a str) -> FileDisk<'a, R>
        ensures { result ≡ 0 }
    {
        FileDisk {
            files,
            path,
            file: None,
            faults: 0,
        }
    }

    // Opens the file, unless it is open.
    fn open(&mut self) -> Result<(), Failed>
        ensures cause { FailsOnlyIfCounted (IsErr result) self.old self.new }
    {
        if self.file.is_none() {
            self.file = Some(count_fault(open(self.files, self.path), &mut self.faults)?);
        }
        Ok(())
    }
}

impl<'a, R: Files> Disk for FileDisk<'a, R> {
    ghost use Rattle.std.specs.Prelude.{None};

    ghost seen = { λ _. None };

    ghost may_leave = { λ _ _. Unit {0} };

    ghost faults = { λ d. d };

    ghost calls = { λ _. None };

    ghost seen_may_be_left = { λ d bytes told. tt };

    fn len(&mut self) -> Result<u64, Failed> {
        self.open()?;
        let length = match &self.file {
            Some(file) => count_fault(file.metadata(), &mut self.faults)?.len(),
            None => return Err(count(&mut self.faults)),
        };
        if length >= DISK_LIMIT {
            return Err(count(&mut self.faults));
        }
        Ok(length)
    }

    fn read_at(&mut self, at: u64, buffer: &mut [u8]) -> Result<usize, Failed> {
        self.open()?;
        match &mut self.file {
            Some(file) => read_from(file, &mut self.faults, at, buffer),
            None => Err(count(&mut self.faults)),
        }
    }

    fn write_at(&mut self, at: u64, bytes: &[u8]) -> Result<(), Failed> {
        if at >= DISK_LIMIT || bytes.len() as u64 >= DISK_LIMIT - at {
            return Err(count(&mut self.faults));
        }
        self.open()?;
        match &mut self.file {
            Some(file) => write_from(file, &mut self.faults, at, bytes),
            None => Err(count(&mut self.faults)),
        }
    }

    fn sync(&mut self) -> Result<(), Failed> {
        self.open()?;
        match &self.file {
            Some(file) => count_fault(file.sync_all(), &mut self.faults),
            None => Err(count(&mut self.faults)),
        }
    }
}
