//! The calls of a source, and what each answers.

ghost use Rattle.std.specs.Prelude.{◌≡◌, true, IsTrue, OnOk};
ghost use Rattle.dbl_source.specs.SourceModel.Trace.{is_ready};

use crate::{script, shown};
use anyhow::{Result, bail};
use cases_items::{items, words};
use dbl_base::{Lsn, Seq, Text};
use dbl_model_table::Key;
use dbl_source::{Source, Started};
use std::alloc::Global;
use std::fmt::Write;

fn describe<S: Source>(
    alloc: Global,
    source: &mut S,
    word: &str,
    answers: &mut String,
) -> Result<()>
    requires { IsTrue (S.is_live source.old) }
    ensures live { OnOk result (IsTrue (S.is_live source.new)) }
    ensures reading { S.is_reading source.new ≡ S.is_reading source.old }
{
    let name = items::table_name(alloc, word)?;
    shown::entry(answers, &source.describe(&name)?)
}

fn head<S: Source>(source: &mut S, answers: &mut String) -> Result<()>
    requires { IsTrue (S.is_live source.old) }
    ensures live { OnOk result (IsTrue (S.is_live source.new)) }
    ensures reading { S.is_reading source.new ≡ S.is_reading source.old }
{
    let lsn = source.head()?;
    write!(answers, "\n  {lsn}")?;
    Ok(())
}

/// Whether reading begins.
pub fn begins(started: &Started) -> bool
    ensures { result ≡ is_ready started.now }
{
    match started {
        Started::Ready => true,
        Started::Gone { .. } => false,
    }
}

fn start<S: Source>(
    source: &mut S,
    reading: &mut bool,
    word: &str,
    answers: &mut String,
) -> Result<()>
    requires { IsTrue (S.is_live source.old) }
    ensures live { OnOk result (IsTrue (S.is_live source.new)) }
    ensures reading { OnOk result (S.is_reading source.new ≡ reading.new) }
{
    let started = source.start(Lsn(word.parse()?))?;
    *reading = begins(&started);
    shown::started(answers, &started)
}

fn read<S: Source>(alloc: Global, source: &mut S, reading: bool, answers: &mut String) -> Result<()>
    requires live { IsTrue (S.is_live source.old) }
    requires reading { reading ≡ true → IsTrue (S.is_reading source.old) }
    ensures live { OnOk result (IsTrue (S.is_live source.new)) }
    ensures reading { S.is_reading source.new ≡ S.is_reading source.old }
{
    if !reading {
        bail!("not reading");
    }
    shown::message(alloc, answers, &source.read()?)
}

fn above(alloc: Global, words: &str) -> Result<Option<Key>> {
    match words {
        "" => Ok(None),
        _ => Ok(Some(Key {
            cells: Seq::make(words::all(alloc, words)?),
        })),
    }
}

fn select<S: Source>(
    alloc: Global,
    source: &mut S,
    fields: &str,
    answers: &mut String,
) -> Result<()>
    requires { IsTrue (S.is_live source.old) }
    ensures live { OnOk result (IsTrue (S.is_live source.new)) }
    ensures reading { S.is_reading source.new ≡ S.is_reading source.old }
{
    let limit: u32 = items::field(fields, 2).parse()?;
    if limit == 0 {
        bail!("no limit");
    }
    let table = items::table_name(alloc, items::field(fields, 0))?;
    let above = above(alloc, items::field(fields, 1))?;
    let selected = source.select(&table, above.as_ref(), limit)?;
    shown::selected(answers, &selected)
}

fn mark<S: Source>(alloc: Global, source: &mut S, word: &str, answers: &mut String) -> Result<()>
    requires { IsTrue (S.is_live source.old) }
    ensures live { OnOk result (IsTrue (S.is_live source.new)) }
    ensures reading { S.is_reading source.new ≡ S.is_reading source.old }
{
    let value = Text::of(alloc, word)?;
    if value.as_str().len() > 64 {
        bail!("too long");
    }
    source.mark(&value)?;
    words::add(answers, "\n  ok")
}

fn confirm<S: Source>(source: &mut S, word: &str, answers: &mut String) -> Result<()>
    requires { IsTrue (S.is_live source.old) }
    ensures live { OnOk result (IsTrue (S.is_live source.new)) }
    ensures reading { S.is_reading source.new ≡ S.is_reading source.old }
{
    source.confirm(Lsn(word.parse()?))?;
    words::add(answers, "\n  ok")
}

// Makes a call, and adds its answer.
fn ask<S: Source>(
    alloc: Global,
    source: &mut S,
    reading: &mut bool,
    call: &str,
    answers: &mut String,
) -> Result<()>
    requires live { IsTrue (S.is_live source.old) }
    requires reading { reading.old ≡ true → IsTrue (S.is_reading source.old) }
    ensures live { OnOk result (IsTrue (S.is_live source.new)) }
    ensures reading { OnOk result (reading.new ≡ true → IsTrue (S.is_reading source.new)) }
{
    let (word, rest) = words::split(call, "/");
    match word {
        "describe" => describe(alloc, source, rest, answers),
        "head" => head(source, answers),
        "start" => start(source, reading, rest, answers),
        "read" => read(alloc, source, *reading, answers),
        "select" => select(alloc, source, rest, answers),
        "mark" => mark(alloc, source, rest, answers),
        "confirm" => confirm(source, rest, answers),
        _ => bail!("no such call"),
    }
}

/// Makes the calls, and adds a line for each. It begins as nothing was read.
pub fn play<S: Source>(
    alloc: Global,
    source: &mut S,
    calls: &str,
    answers: &mut String,
) -> Result<()>
    requires { IsTrue (S.is_live source.old) }
{
    let mut reading = false;
    for item in calls.split(" | ") {
        if !item.is_empty() {
            ask(alloc, source, &mut reading, script::call_of(item), answers)?;
        }
    }
    Ok(())
}

/// Adds what the calls of a source that plays a script answer.
pub fn answer(alloc: Global, asked: &str, script: &str, answers: &mut String) -> Result<()> {
    let mut source = script::source(alloc, asked, script)?;
    play(alloc, &mut source, script, answers)
}
