//! Reads cases of formats and events from standard input, a line each, makes the calls of the
//! libraries that they name, and prints what these answer.
//!
//! A case is `FAMILY CALL what it shows: ARGUMENTS`, and its answer follows its name; further lines
//! of an answer are indented. Empty lines, and lines that begin with `#`, are comments.
#![tactic(auto)]

mod ageing;
mod altered;
mod commits;
mod compactions;
mod consumers;
mod frames;
mod histories;
mod masks;
mod messages;
mod records;
mod scripts;
mod streams;
mod values;

use anyhow::{Result, bail};
use cases_items::words;
use std::alloc::Global;

// Adds what the case of this name answers.
fn answer(alloc: Global, shown: &mut String, name: &str, arguments: &str) -> Result<()> {
    let (family, rest) = words::split(name, " ");
    let (call, _) = words::split(rest, " ");
    match (family, call) {
        ("ageing", "altered") => altered::show(alloc, shown, arguments),
        ("ageing", "cells") => ageing::show_cells(alloc, shown, arguments),
        ("compact", "kinds") => compactions::show_kinds(alloc, shown, arguments),
        ("compact", "keeps") => compactions::show_kept(alloc, shown, arguments),
        ("consume", "texts") => consumers::show_rows(alloc, shown, arguments),
        ("envelope", "records") => histories::show_history(alloc, shown, call, arguments),
        ("frames", "status") => frames::show_status(alloc, shown, arguments),
        ("frames", "prefixes") => frames::show_prefixes(alloc, shown, arguments),
        ("frames", _) => frames::show_stream(alloc, shown, call, arguments),
        ("masks", "text") => masks::show_text(alloc, shown, arguments),
        ("masks", "messages") => masks::show_messages(alloc, shown, arguments),
        ("model", "table") => histories::show_table(alloc, shown, arguments),
        ("model", "rows") => histories::show_history(alloc, shown, call, arguments),
        ("pgmsg", _) => messages::show(alloc, shown, call, arguments),
        ("record", "read") => records::show_read(alloc, shown, arguments),
        ("record", "group") => records::show_group(alloc, shown, arguments),
        ("record", _) => records::show_record(alloc, shown, call, arguments),
        ("script", "text") => scripts::show(alloc, shown, arguments),
        ("stream", "take") => streams::show(alloc, shown, arguments),
        ("txn", "commits") => commits::show_commits(alloc, shown, arguments),
        ("txn", "steps") => commits::show_steps(alloc, shown, arguments),
        ("txn", "pieces") => commits::show_pieces(alloc, shown, arguments),
        ("value", "read") => values::show_read(alloc, shown, arguments),
        _ => bail!("no such call"),
    }
}

// The answer as a text whose further lines are indented.
fn text(alloc: Global, name: &str, arguments: &str) -> Result<String> {
    let mut shown = String::new(alloc);
    answer(alloc, &mut shown, name, arguments)?;
    Ok(shown.replace(alloc, "\n", "\n  ")?)
}

fn main(rt: HostRuntime) -> Result<()> {
    for line in rt.lines(rt.alloc()) {
        let line = line?;
        if line.is_empty() || line.starts_with('#') {
            continue;
        }
        let (name, arguments) = words::split(line.as_str(), ": ");
        match text(rt.alloc(), name, arguments) {
            Ok(text) => println!(rt; "{name}: {text}")?,
            Err(error) => println!(rt; "{name}: no answer: {error}")?,
        }
    }
    Ok(())
}
