//! How many of some runs ended with each status.

use dblog_run::Status;
use std::alloc::AllocError;
use std::io::{self, Write};

/// A status, and how many runs ended with it.
#[derive(Clone, Copy)]
pub struct Count {
    status: Status,
    runs: u64,
}

/// Counts the status of one run more.
pub fn add(counts: &mut Vec<Count>, status: Status) -> Result<(), AllocError> {
    for count in &mut *counts {
        if count.status == status {
            count.runs = count.runs.saturating_add(1);
            return Ok(());
        }
    }
    counts.push(Count { status, runs: 1 })?;
    Ok(())
}

/// Writes a line of them, in the order in which they first came.
pub fn tell<W: Write>(counts: &Vec<Count>, writer: &mut W) -> io::Result<()> {
    write!(writer, "statuses")?;
    for Count { status, runs } in counts {
        let code = status.code();
        write!(writer, " {code}*{runs}")?;
    }
    writer.write_all(b"\n")
}
