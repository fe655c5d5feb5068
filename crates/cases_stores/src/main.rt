//! Reads cases of stores from standard input, a line each, makes the calls of the libraries that
//! they name, and prints what these answer.
//!
//! A case is `FAMILY CALL what it shows: ARGUMENTS`, and its answer follows its name. Empty lines,
//! and lines that begin with `#`, are comments.
#![tactic(auto)]

mod files;
mod journal;
mod offset;
mod pieces;
mod shown;
mod steps;
mod tables;
mod topic;
mod wal;

use anyhow::Result;
use cases_items::words;
use std::alloc::Global;
use std::rt::Files;

// Adds what the case of this name answers.
fn answer<R: Files>(
    alloc: Global,
    shown: &mut String,
    files: &R,
    name: &str,
    arguments: &str,
) -> Result<()> {
    let (family, rest) = words::split(name, " ");
    let (call, _) = words::split(rest, " ");
    match family {
        "file" => files::answer(alloc, shown, files, call, arguments),
        "tables" => tables::answer(alloc, shown, arguments),
        "wal" => wal::answer(alloc, shown, &hex::decode(alloc, arguments)?),
        _ => steps::answer(alloc, shown, family, arguments),
    }
}

fn text<R: Files>(alloc: Global, files: &R, name: &str, arguments: &str) -> Result<String> {
    let mut shown = String::new(alloc);
    answer(alloc, &mut shown, files, name, arguments)?;
    Ok(shown)
}

fn main(rt: HostRuntime) -> Result<()> {
    for line in rt.lines(rt.alloc()) {
        let line = line?;
        if line.is_empty() || line.starts_with('#') {
            continue;
        }
        let (name, arguments) = words::split(line.as_str(), ": ");
        match text(rt.alloc(), &rt, name, arguments) {
            Ok(text) => println!(rt; "{name}: {text}")?,
            Err(error) => println!(rt; "{name}: no answer: {error}")?,
        }
    }
    Ok(())
}
