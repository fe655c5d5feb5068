//! The demo source: its answers over a log that was recorded, and how many calls of its disk it takes.

ghost use Rattle.std.specs.Prelude.{IsTrue, IfOk};

use crate::calls;
use anyhow::{Result, bail};
use cases_items::words;
use dbl_demo::DemoSource;
use dbl_disk::{Choice, Disk, FuseDisk, MemDisk};
use dbl_source::Source;
use std::alloc::Global;
use std::fmt::Write;

// So many groups are left for the calls that are counted.
const GROUPS_LEFT: u64 = 40;

// No case takes more calls of the disk than all of these together, and one.
const STEPS: [u64; 10] = [512, 256, 128, 64, 32, 16, 8, 4, 2, 1];

/// A disk with these bytes, in hexadecimal digits.
pub fn disk_of(alloc: Global, digits: &str) -> Result<MemDisk> {
    let bytes = hex::decode(alloc, digits)?;
    if bytes.len() > 1_000_000 {
        bail!("too long");
    }
    let mut disk = MemDisk::make(alloc, Vec::new(alloc));
    if disk.write_at(0, &bytes).is_err() {
        bail!("no disk");
    }
    Ok(disk)
}

// Opens the source on a disk, and makes the calls.
fn play(alloc: Global, disk: FuseDisk<MemDisk>, calls: &str, answers: &mut String) -> Result<()> {
    match DemoSource::open(alloc, disk) {
        Ok(mut source) => {
            let played = calls::play(alloc, &mut source, calls, answers);
            drop(source);
            played
        }
        Err(refused) => bail!("{}", refused.error),
    }
}

/// Adds what the calls of the source answer that is opened on these bytes.
pub fn play_wal(alloc: Global, digits: &str, calls: &str, answers: &mut String) -> Result<()> {
    let disk = disk_of(alloc, digits)?;
    play(alloc, FuseDisk::make(disk, u64::MAX), calls, answers)
}

// A workload of one row, and of so many groups, each of which commits another.
fn workload(alloc: Global, groups: u64) -> Result<String> {
    let mut text = String::new(alloc);
    words::add(
        &mut text,
        "table public.users default toast 8 id:int4:key name:text\nrow public.users id=1 name=Ann\n",
    )?;
    for number in 0..groups {
        write!(
            text,
            "a begin\na insert public.users id=2{number} name=Bo\na commit\ntick\n"
        )?;
    }
    Ok(text)
}

// A source with a workload of so many groups.
fn made(alloc: Global, groups: u64) -> Result<DemoSource<MemDisk>>
    ensures { IfOk result (λ source. IsTrue source.live) }
{
    let text = workload(alloc, groups)?;
    if text.len() > 1_000_000 {
        bail!("too long");
    }
    let disk = MemDisk::make(alloc, Vec::new(alloc));
    match DemoSource::make(alloc, disk, text.as_bytes()) {
        Ok(source) => Ok(source),
        Err(refused) => bail!("{}", refused.error),
    }
}

// Each `head` runs a group.
fn run_groups(source: &mut DemoSource<MemDisk>, groups: u64) -> Result<()>
    requires { IsTrue source.old.live }
{
    for _group in 0..groups {
        source.head()?;
    }
    Ok(())
}

// Whether all is answered if the disk passes so many calls.
fn is_enough(alloc: Global, disk: &MemDisk, calls: &str, passes: u64) -> Result<bool> {
    let mut unseen = String::new(alloc);
    let disk = FuseDisk::make(disk.crash(Choice::Old)?, passes);
    Ok(play(alloc, disk, calls, &mut unseen).is_ok())
}

// How many calls of the disk the opening and the calls take: one more than the greatest number that isn't enough.
fn count(alloc: Global, disk: &MemDisk, calls: &str) -> Result<u64> {
    let mut short = 0u64;
    for step in STEPS {
        let more = short.saturating_add(step);
        if !is_enough(alloc, disk, calls, more)? {
            short = more;
        }
    }
    let count = short.saturating_add(1);
    if !is_enough(alloc, disk, calls, count)? {
        bail!("too many calls of the disk");
    }
    Ok(count)
}

// Adds how many calls of the disk each call takes after those before it.
fn count_each(alloc: Global, disk: &MemDisk, calls: &str, answers: &mut String) -> Result<()> {
    let mut made = String::new(alloc);
    let mut last = count(alloc, disk, "")?;
    write!(answers, "\n  open {last}")?;
    for call in calls.split(" | ") {
        write!(made, "{call} | ")?;
        let next = count(alloc, disk, made.as_str())?;
        write!(answers, ", {call} {}", next.saturating_sub(last))?;
        last = next;
    }
    Ok(())
}

/// Adds how many calls of the disk the source takes that has run so many groups.
pub fn count_calls(alloc: Global, word: &str, calls: &str, answers: &mut String) -> Result<()> {
    let groups = word.parse::<u64>()?;
    let mut source = made(alloc, groups.saturating_add(GROUPS_LEFT))?;
    let ran = run_groups(&mut source, groups);
    let disk = source.into_disk();
    ran?;
    count_each(alloc, &disk, calls, answers)
}
