//! Runs of a session that a failing disk stops, each at another call of the disk, and the runs that
//! end its work.

use crate::disks::{MemDisks, Place};
use crate::run::Run;
use crate::statuses::{self, Count};
use dbl_disk::Choice;
use dblog_run::Status;
use std::alloc::{AllocError, Global};
use std::io::{self, Write};

// More calls than a case's session makes of a disk.
const CALLS: u64 = 10_000;

// More runs than it takes to end the work.
const RUNS: u64 = 10;

// What was applied in the end, and after how many crashes.
#[derive(Drop)]
struct Rows {
    text: Vec<u8>,
    crashes: u64,
}

// The statuses of the runs that a fuse stopped or didn't, and what was applied after each crash.
#[derive(Drop)]
struct Trace {
    statuses: Vec<Count>,
    rows: Vec<Rows>,
    // What the last crash left, and what was applied after it.
    crashed: MemDisks,
    text: Vec<u8>,
}

/// Makes the run with a fuse of no call, of one and so on, up to the one that stops nothing. After
/// each, for each choice of what a crash leaves, the work is ended by further runs. Writes how often
/// each status came, and each answer of `apply` with the number of crashes after which it came.
pub fn tell_stops<W: Write>(
    alloc: Global,
    run: &Run,
    disks: &MemDisks,
    place: Place,
    writer: &mut W,
) -> io::Result<()> {
    let mut told = Trace {
        statuses: Vec::new(alloc),
        rows: Vec::new(alloc),
        crashed: MemDisks::empty(alloc),
        text: Vec::new(alloc),
    };
    let stopped = stop_each(alloc, run, disks, place, &mut told);
    let end = match stopped {
        Ok(()) => tell(&told, writer),
        Err(error) => Err(error),
    };
    drop(told);
    end
}

fn stop_each(
    alloc: Global,
    run: &Run,
    disks: &MemDisks,
    place: Place,
    told: &mut Trace,
) -> io::Result<()> {
    told.text = end_work(alloc, &mut told.crashed)?;
    for calls in 0..CALLS {
        if stop(alloc, run, disks, place, calls, told)? == Status::Done {
            break;
        }
    }
    Ok(())
}

fn tell<W: Write>(told: &Trace, writer: &mut W) -> io::Result<()> {
    statuses::tell(&told.statuses, writer)?;
    for Rows { text, crashes } in &told.rows {
        writeln!(writer, "after {crashes} crashes")?;
        writer.write_all(text.as_slice())?;
    }
    Ok(())
}

// Makes the run on a disk that passes so many calls, and ends the work. Answers its status. The
// disks are dropped by name: that is one call, whereas a drop at the end of a scope is proved part
// by part.
fn stop(
    alloc: Global,
    run: &Run,
    disks: &MemDisks,
    place: Place,
    calls: u64,
    told: &mut Trace,
) -> io::Result<Status> {
    let mut left = MemDisks::empty(alloc);
    let status = stop_on(alloc, run, disks, place, calls, &mut left, told);
    drop(left);
    status
}

fn stop_on(
    alloc: Global,
    run: &Run,
    disks: &MemDisks,
    place: Place,
    calls: u64,
    left: &mut MemDisks,
    told: &mut Trace,
) -> io::Result<Status> {
    left.find(disks, Choice::New)?;
    let mut fuses = run.fuses;
    fuses.set(place, calls);
    let status = run.perform(alloc, fuses, left, &mut Vec::new(alloc))?;
    statuses::add(&mut told.statuses, status)?;
    end_each(alloc, left, place, told)?;
    Ok(status)
}

// Ends the work for each choice of what a crash leaves of the disks.
fn end_each(alloc: Global, left: &MemDisks, place: Place, told: &mut Trace) -> io::Result<()> {
    let [one, other] = fills(place);
    for choice in [
        Choice::Old,
        Choice::Fill(one),
        Choice::Fill(other),
        Choice::New,
    ] {
        end_one(alloc, left, choice, told)?;
    }
    Ok(())
}

// What a crash leaves where any byte may be: 1 opens a journal's gate, and of 164 and 165 each
// selects another slot of an offset.
fn fills(place: Place) -> [u8; 2] {
    match place {
        Place::Wal | Place::Topics => [165, 1],
        Place::Offsets => [164, 165],
    }
}

// Ends the work after a crash, and counts what `apply` then answers.
fn end_one(alloc: Global, left: &MemDisks, choice: Choice, told: &mut Trace) -> io::Result<()> {
    let mut disks = MemDisks::empty(alloc);
    let ended = end_on(alloc, left, choice, &mut disks, told);
    drop(disks);
    ended?;
    add(&mut told.rows, &told.text)?;
    Ok(())
}

// Ends the work on these disks. Where the last crash left the same ones, what was applied then is
// what would be applied now.
fn end_on(
    alloc: Global,
    left: &MemDisks,
    choice: Choice,
    disks: &mut MemDisks,
    told: &mut Trace,
) -> io::Result<()> {
    disks.find(left, choice)?;
    if !disks.read_as(&told.crashed) {
        told.crashed.find(disks, Choice::New)?;
        told.text = end_work(alloc, disks)?;
    }
    Ok(())
}

// Runs until the work has ended, and returns what `apply` then answers.
fn end_work(alloc: Global, disks: &mut MemDisks) -> io::Result<Vec<u8>> {
    for _ in 0..RUNS {
        if go_on(alloc, disks)? == Status::Done {
            break;
        }
    }
    let mut text = Vec::new(alloc);
    perform(alloc, "apply", disks, &mut text)?;
    Ok(text)
}

fn add(all: &mut Vec<Rows>, text: &Vec<u8>) -> Result<(), AllocError> {
    for rows in &mut *all {
        if rows.text == *text {
            rows.crashes = rows.crashes.saturating_add(1);
            return Ok(());
        }
    }
    let text = text.clone()?;
    all.push(Rows { text, crashes: 1 })?;
    Ok(())
}

// The status of one run more, which resumes, or captures where no session has begun yet.
fn go_on(alloc: Global, disks: &mut MemDisks) -> io::Result<Status> {
    let mut told = Vec::new(alloc);
    let status = perform(alloc, "resume", disks, &mut told)?;
    if status == Status::StartMismatch {
        return perform(alloc, "capture", disks, &mut told);
    }
    Ok(status)
}

// Adds what a run with these words answers, and returns its status.
fn perform(
    alloc: Global,
    words: &str,
    disks: &mut MemDisks,
    told: &mut Vec<u8>,
) -> io::Result<Status> {
    let run = Run::make(alloc, words, Vec::new(alloc))?;
    let status = run.tell(alloc, run.fuses, disks, told);
    drop(run);
    status
}
