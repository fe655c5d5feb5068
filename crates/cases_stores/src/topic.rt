//! Steps of topic logs, each of which opens the log on the disk. A group is so many tombstones of a
//! topic.

ghost use Rattle.std.specs.Prelude.{IsTrue};

use crate::steps::{self, Device};
use anyhow::{Result, bail};
use cases_items::words;
use dbl_base::Text;
use dbl_disk::{FuseDisk, MemDisk};
use dbl_record::{Record, group_length};
use dbl_topic::{Sink, TopicLog};
use std::alloc::Global;
use std::fmt::Write;

/// Takes a step: `make`, `put TOPIC COUNT` and `groups`.
pub fn step(
    alloc: Global,
    shown: &mut String,
    disk: &mut Device,
    word: &str,
    rest: &str,
) -> Result<()> {
    match word {
        "make" => make(alloc, shown, disk),
        "put" => put(alloc, shown, disk, &group(alloc, rest)?),
        "groups" => groups(alloc, shown, disk),
        _ => steps::call(alloc, shown, disk, word, rest),
    }
}

fn group(alloc: Global, arguments: &str) -> Result<Vec<Record>> {
    let (topic, count) = words::split(arguments, " ");
    let mut group = Vec::new(alloc);
    for _ in 0..count.parse::<u16>()? {
        group.push(Record {
            topic: Text::of(alloc, topic)?,
            key: None,
            value: None,
            position: 256,
            ordinal: 0,
            last: true,
            newkey: None,
            oldkey: None,
        })?;
    }
    Ok(group)
}

// The topic of the first record, and how many there are.
fn show_group(shown: &mut String, group: &Vec<Record>) -> Result<()> {
    match group.first() {
        Some(first) => write!(shown, " {} {}", first.topic, group.len())?,
        None => words::add(shown, " no record")?,
    }
    Ok(())
}

fn make(alloc: Global, shown: &mut String, disk: &mut Device) -> Result<()> {
    match TopicLog::make(
        alloc,
        FuseDisk::make(MemDisk::make(alloc, Vec::new(alloc)), u64::MAX),
    ) {
        Ok(log) => {
            *disk = log.into_disk();
            words::add(shown, "ok")
        }
        Err(refused) => steps::show_refused(shown, disk, refused),
    }
}

fn put(alloc: Global, shown: &mut String, disk: &mut Device, group: &Vec<Record>) -> Result<()> {
    if group.is_empty() || group.len() > 1000 || group_length(group) > 16_777_216 {
        bail!("no group that a log takes");
    }
    match TopicLog::open(alloc, steps::take(alloc, disk)) {
        Ok(mut log) => {
            let answered = log.put(group);
            *disk = log.into_disk();
            steps::show_outcome(shown, answered)
        }
        Err(refused) => steps::show_refused(shown, disk, refused),
    }
}

/// Adds the groups of the log.
pub fn groups(alloc: Global, shown: &mut String, disk: &mut Device) -> Result<()> {
    match TopicLog::open(alloc, steps::take(alloc, disk)) {
        Ok(mut log) => {
            let answer = show_groups(shown, &mut log);
            *disk = log.into_disk();
            answer
        }
        Err(refused) => steps::show_refused(shown, disk, refused),
    }
}

// How many groups a log has, and the last one.
fn show_groups(shown: &mut String, log: &mut TopicLog<Device>) -> Result<()>
    requires { IsTrue log.old.live }
{
    let count = log.groups();
    if count == 0 {
        return words::add(shown, "no group");
    }
    write!(shown, "{count} groups, last")?;
    match log.group(count - 1) {
        Ok(group) => show_group(shown, &group),
        Err(error) => words::said(shown, &error),
    }
}
