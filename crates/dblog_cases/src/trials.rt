//! Runs on the disks of a case with one thing changed at a time.

use crate::disks::MemDisks;
use crate::fuses::Fuses;
use crate::run::Run;
use crate::statuses;
use crate::stops::tell_stops;
use crate::sweep::Sweep;
use dbl_disk::Choice;
use dblog_run::Status;
use std::alloc::{AllocError, Global};
use std::io::{self, Write};

// More reads or writes than a case's run makes.
const CALLS: u64 = 10_000;

// How many runs there are at most.
fn count(sweep: Sweep, disks: &MemDisks) -> u64 {
    match sweep {
        Sweep::Cut { place }
        | Sweep::Byte { place }
        | Sweep::Bit { place }
        | Sweep::Fill { place, .. } => disks.bytes(place).len() as u64,
        Sweep::Fuse { place: _, most } => most.saturating_add(1),
        Sweep::Read | Sweep::Write => CALLS,
        Sweep::Stop { .. } => 0,
    }
}

// Leaves only the first bytes of a disk, turns the lowest bit of one, or puts another in its place.
fn change(bytes: &mut Vec<u8>, sweep: Sweep, number: u64) {
    if let Sweep::Cut { .. } = sweep {
        return bytes.truncate(number as usize);
    }
    for (index, old) in bytes.iter_mut().enumerate() {
        if index as u64 == number {
            *old = match sweep {
                Sweep::Fill { place: _, byte } => byte,
                _ => *old ^ 1,
            };
        }
    }
}

// Makes the disks those that the run with this number finds.
fn find(
    alloc: Global,
    found: &mut MemDisks,
    disks: &MemDisks,
    sweep: Sweep,
    number: u64,
) -> Result<(), AllocError> {
    found.find(disks, Choice::New)?;
    match sweep {
        Sweep::Cut { place }
        | Sweep::Byte { place }
        | Sweep::Bit { place }
        | Sweep::Fill { place, .. } => {
            let mut bytes = disks.bytes(place).clone()?;
            change(&mut bytes, sweep, number);
            found.put(alloc, place, bytes.as_slice())
        }
        Sweep::Fuse { .. } | Sweep::Stop { .. } | Sweep::Read | Sweep::Write => Ok(()),
    }
}

// What fails in the run with this number.
fn fuses_of(run: &Run, sweep: Sweep, number: u64) -> Fuses {
    let mut fuses = run.fuses;
    match sweep {
        Sweep::Fuse { place, most: _ } => fuses.set(place, number),
        Sweep::Read => fuses.read = number.saturating_add(1),
        Sweep::Write => fuses.write = number.saturating_add(1),
        _ => {}
    }
    fuses
}

/// Makes the runs, each on the disks as they are, and writes what they answer: of turned bits, other
/// bytes, reads and writes how often each status came; of stopped sessions how they end; and else
/// each answer that isn't that of the run before.
pub fn tell_each<W: Write>(
    alloc: Global,
    run: &Run,
    disks: &MemDisks,
    sweep: Sweep,
    writer: &mut W,
) -> io::Result<()> {
    match sweep {
        Sweep::Bit { .. } | Sweep::Fill { .. } | Sweep::Read | Sweep::Write => {
            tell_statuses(alloc, run, disks, sweep, writer)
        }
        Sweep::Stop { place } => tell_stops(alloc, run, disks, place, writer),
        _ => tell_answers(alloc, run, disks, sweep, writer),
    }
}

// The read or the write that was to fail wasn't made.
fn is_last(sweep: Sweep, status: Status) -> bool {
    match sweep {
        Sweep::Read => status != Status::StdinFailed,
        Sweep::Write => status != Status::StdoutFailed,
        _ => false,
    }
}

fn tell_statuses<W: Write>(
    alloc: Global,
    run: &Run,
    disks: &MemDisks,
    sweep: Sweep,
    writer: &mut W,
) -> io::Result<()> {
    let mut seen = Vec::new(alloc);
    for number in 0..count(sweep, disks) {
        let mut told = Vec::new(alloc);
        let status = tell(alloc, run, disks, sweep, number, &mut told)?;
        statuses::add(&mut seen, status)?;
        if is_last(sweep, status) {
            break;
        }
    }
    statuses::tell(&seen, writer)
}

// Doesn't write an answer that is the one that was written last.
fn tell_answers<W: Write>(
    alloc: Global,
    run: &Run,
    disks: &MemDisks,
    sweep: Sweep,
    writer: &mut W,
) -> io::Result<()> {
    let mut last = Vec::new(alloc);
    for number in 0..count(sweep, disks) {
        let mut told = Vec::new(alloc);
        tell(alloc, run, disks, sweep, number, &mut told)?;
        if told != last {
            writer.write_all(told.as_slice())?;
            last = told;
        }
    }
    Ok(())
}

// Writes what the run with this number answers, and returns its status. The disks are dropped by
// name: that is one call, whereas a drop at the end of a scope is proved part by part.
fn tell(
    alloc: Global,
    run: &Run,
    disks: &MemDisks,
    sweep: Sweep,
    number: u64,
    told: &mut Vec<u8>,
) -> io::Result<Status> {
    let mut found = MemDisks::empty(alloc);
    let status = tell_on(alloc, run, disks, sweep, number, &mut found, told);
    drop(found);
    status
}

// Writes what it answers on the disks that it finds, and after a fuse what a run without one then
// does.
fn tell_on(
    alloc: Global,
    run: &Run,
    disks: &MemDisks,
    sweep: Sweep,
    number: u64,
    found: &mut MemDisks,
    told: &mut Vec<u8>,
) -> io::Result<Status> {
    find(alloc, found, disks, sweep, number)?;
    let status = run.tell(alloc, fuses_of(run, sweep, number), found, told)?;
    if let Sweep::Fuse { .. } = sweep {
        told.write_all(b"again\n")?;
        run.tell(alloc, run.fuses, found, told)?;
    }
    Ok(status)
}
