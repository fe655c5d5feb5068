//! A session, and what it leaves.

ghost use Rattle.std.specs.Prelude.{◌≡◌, ◌&&◌, is_none, IsTrue, IfOk, OnOk};
ghost use Rattle.dbl_model_table.specs.Configs.{IsGoodConfig};
ghost use Rattle.dbl_offset.specs.Stores.{IsLive};
ghost use Rattle.dbl_capture.specs.CaptureLaws.Found.{IsOfConfig};

use crate::{asked, demo, script};
use anyhow::{Result, bail};
use cases_items::{items, shown, words};
use dbl_base::Lsn;
use dbl_capture::{Ending, Halt, Report};
use dbl_capture_gated::gated_session;
use dbl_disk::{Choice, MemDisk};
use dbl_hooks_gate::{Gate, Rule};
use dbl_model_history::Cursor;
use dbl_model_table::{Config, Key, TableInfo};
use dbl_offset::{Offset, OffsetStore};
use dbl_record::{Record, line};
use dbl_source::{Source, Started};
use dbl_source_scripted::ScriptedSource;
use dbl_topic::MemSink;
use std::alloc::Global;
use std::fmt::Write;

// A store without an offset, on a disk whose listed calls are to fail, or the one that is found.
fn store(alloc: Global, asked: &str) -> Result<OffsetStore<MemDisk>>
    ensures { IfOk result IsLive }
{
    let opened = match items::first_of(asked, "found/") {
        Some(digits) => OffsetStore::open(alloc, demo::disk_of(alloc, digits)?),
        None => OffsetStore::make(MemDisk::make(alloc, script::numbers(alloc, asked, "disk/")?)),
    };
    match opened {
        Ok(store) => Ok(store),
        Err(refused) => bail!("{}", refused.error),
    }
}

fn unset_report() -> Report {
    Report {
        messages: 0,
        commits: 0,
        records: 0,
        chunks: 0,
        snapshot_rows: 0,
        position: 0,
    }
}

// A halt, with what it keeps beside its text.
fn show_halt(answers: &mut String, halt: &Halt) -> Result<()> {
    write!(answers, "\n  {halt}")?;
    match halt {
        Halt::Gone { asked, first: _ } => write!(answers, ", asked for {asked}")?,
        Halt::WatermarkMissing { value: _, position } => write!(answers, " at {position}")?,
        Halt::Exhausted { incarnation } => write!(answers, " at {incarnation}")?,
        _ => {}
    }
    Ok(())
}

// The first position that reading can still begin after: the one that was confirmed.
fn show_confirmed(source: &mut ScriptedSource, answers: &mut String) -> Result<()>
    requires { IsTrue source.old.live }
{
    let confirmed = match source.start(Lsn(0))? {
        Started::Ready => 0,
        Started::Gone { first } => first.0,
    };
    write!(answers, ", confirmed {confirmed}")?;
    Ok(())
}

fn show_report(answers: &mut String, report: &Report) -> Result<()> {
    let (messages, commits, records) = (report.messages, report.commits, report.records);
    let (chunks, rows, position) = (report.chunks, report.snapshot_rows, report.position);
    write!(
        answers,
        "\n  messages {messages}, commits {commits}, records {records}"
    )?;
    write!(
        answers,
        ", chunks {chunks}, snapshot rows {rows}, position {position}"
    )?;
    Ok(())
}

// How it ended, its report, and after an ending the position to which the source was confirmed.
fn show_end(
    source: &mut ScriptedSource,
    end: &std::result::Result<Ending, Halt>,
    report: &Report,
    answers: &mut String,
) -> Result<()>
    requires { OnOk end.now (IsTrue source.old.live) }
{
    match end {
        Ok(ending) => {
            words::add(
                answers,
                match ending {
                    Ending::Complete => "\n  complete",
                    Ending::Budget => "\n  budget",
                },
            )?;
            show_report(answers, report)?;
            show_confirmed(source, answers)
        }
        Err(halt) => {
            show_halt(answers, halt)?;
            show_report(answers, report)
        }
    }
}

fn show_last(alloc: Global, answers: &mut String, key: &Option<Key>) -> Result<()> {
    match key {
        Some(key) => shown::row(alloc, answers, &key.cells),
        None => words::add(answers, " nothing"),
    }
}

fn show_cursor(
    alloc: Global,
    answers: &mut String,
    info: &TableInfo,
    cursor: &Cursor,
) -> Result<()> {
    let name = &info.name;
    write!(answers, "\n  {name} read to")?;
    show_last(alloc, answers, &cursor.last)?;
    if cursor.done {
        words::add(answers, ", done")?;
    }
    Ok(())
}

// An offset, and how far each table was read.
fn show_offset(alloc: Global, answers: &mut String, offset: &Offset) -> Result<()> {
    let (incarnation, start) = (offset.incarnation, offset.start);
    let (lsn, end) = (offset.lsn, offset.end_lsn);
    write!(
        answers,
        "\n  incarnation {incarnation}, start {start}, lsn {lsn}, end {end}"
    )?;
    let (infos, cursors) = (offset.infos.items(), offset.cursors.items());
    for (info, cursor) in infos.iter().zip(cursors.iter()) {
        show_cursor(alloc, answers, info, cursor)?;
    }
    Ok(())
}

// The offset that a crash leaves of the disk.
fn show_stored(alloc: Global, disk: &MemDisk, answers: &mut String) -> Result<()> {
    match OffsetStore::open(alloc, disk.crash(Choice::New)?) {
        Ok(store) => {
            let shown = match store.load() {
                Some(offset) => show_offset(alloc, answers, offset),
                None => words::add(answers, "\n  no offset"),
            };
            drop(store);
            shown
        }
        Err(refused) => bail!("{}", refused.error),
    }
}

fn show_records(alloc: Global, answers: &mut String, records: &Vec<Record>) -> Result<()> {
    for each in records {
        words::add(answers, "\n  ")?;
        words::add(answers, line(alloc, each)?.as_str())?;
    }
    Ok(())
}

// A session over a gate, of which the cases need no more than that the source is live if it ended without a halt.
fn run(
    alloc: Global,
    config: &Config,
    now_ms: i64,
    source: &mut ScriptedSource,
    gate: &mut Gate<MemSink>,
    store: &mut OffsetStore<MemDisk>,
    report: &mut Report,
) -> std::result::Result<Ending, Halt>
    requires config { IsGoodConfig config.now }
    requires source { IsTrue source.old.live }
    requires gate { IsTrue (gate.old.sink.live && is_none gate.old.refused) }
    requires store { IsLive store.old }
    requires asked { IsOfConfig config.now store.old.offset }
    ensures { OnOk result (IsTrue source.new.live) }
{
    gated_session(alloc, config, now_ms, source, gate, store, report)
}

// Runs a session and adds how it ended. The configuration and the end are dropped by name: that is
// one call each, whereas a drop at the end of a scope is proved variant by variant at each exit.
fn show_run(
    alloc: Global,
    asked: &str,
    source: &mut ScriptedSource,
    gate: &mut Gate<MemSink>,
    store: &mut OffsetStore<MemDisk>,
    answers: &mut String,
) -> Result<()>
    requires source { IsTrue source.old.live }
    requires gate { IsTrue (gate.old.sink.live && is_none gate.old.refused) }
    requires store { IsLive store.old }
{
    let fields = items::first_of(asked, "session/").unwrap_or("");
    let now_ms = asked::now_ms(fields)?;
    let config = asked::config(alloc, asked, fields, store.load())?;
    let mut report = unset_report();
    let end = run(alloc, &config, now_ms, source, gate, store, &mut report);
    drop(config);
    let shown = show_end(source, &end, &report, answers);
    drop(end);
    shown
}

// Runs a session over its store, and adds the offset that is left there.
fn run_on_store(
    alloc: Global,
    asked: &str,
    source: &mut ScriptedSource,
    gate: &mut Gate<MemSink>,
    answers: &mut String,
) -> Result<()>
    requires source { IsTrue source.old.live }
    requires gate { IsTrue (gate.old.sink.live && is_none gate.old.refused) }
{
    let mut store = store(alloc, asked)?;
    let shown = show_run(alloc, asked, source, gate, &mut store, answers);
    let disk = store.into_disk();
    shown?;
    show_stored(alloc, &disk, answers)
}

// What the receiver of a case accepts.
fn rule(asked: &str) -> Result<Rule> {
    match items::first_of(asked, "gate/") {
        Some(most) => Ok(Rule::MaxValue(most.parse()?)),
        None => Ok(Rule::MaxValue(u64::MAX)),
    }
}

// Runs a session over a gate, and adds the record that it refused, and those that its sink has.
fn run_on_sink(
    alloc: Global,
    asked: &str,
    source: &mut ScriptedSource,
    answers: &mut String,
) -> Result<()>
    requires { IsTrue source.old.live }
{
    let sink = MemSink::make(alloc, script::numbers(alloc, asked, "puts/")?);
    let rule = rule(asked)?;
    let handler = Box::new(alloc, move |item: &Record| rule.allows(item))?;
    let mut gate = Gate::make(alloc, sink, rule, handler);
    run_on_store(alloc, asked, source, &mut gate, answers)?;
    if let Some((position, ordinal)) = gate.refused() {
        write!(answers, "\n  refused {ordinal} at {position}")?;
    }
    show_records(alloc, answers, gate.into_inner().records())
}

/// Adds what the session of a case answers.
pub fn answer(alloc: Global, asked: &str, script: &str, answers: &mut String) -> Result<()> {
    let mut source = script::source(alloc, asked, script)?;
    run_on_sink(alloc, asked, &mut source, answers)
}
