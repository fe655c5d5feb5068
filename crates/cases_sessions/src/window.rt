//! The steps of a window.

ghost use Rattle.std.specs.Prelude.{◌≡◌, ◌≤◌, IsTrue, IfOk, IfSome};
ghost use Rattle.dbl_model_history.specs.Fit.{IsKeyOf};

use crate::script;
use anyhow::{Context, Result, bail};
use cases_items::{items, words};
use dbl_base::Seq;
use dbl_model_event::Closed;
use dbl_model_history::key_fits;
use dbl_model_table::{Key, TableInfo};
use dbl_source_scripted::ScriptedSource;
use dbl_window::{Armed, Idle, Seen, new};
use std::alloc::Global;
use std::fmt::Write;

fn above(alloc: Global, info: &TableInfo, words: &str) -> Result<Option<Key>>
    ensures { IfOk result (λ above. IfSome above (IsKeyOf info.now)) }
{
    if words.is_empty() {
        return Ok(None);
    }
    let key = Key {
        cells: Seq::make(words::all(alloc, words)?),
    };
    if !key_fits(info, &key) {
        bail!("no key of the table");
    }
    Ok(Some(key))
}

// A number from 1 to a limit.
fn limit(word: &str) -> Result<u32>
    ensures { IfOk result (λ limit. (1 ≤ limit) × (limit ≤ 100000)) }
{
    let limit = word.parse::<u32>()?;
    if limit < 1 || limit > 100_000 {
        bail!("no limit");
    }
    Ok(limit)
}

// The window of the first table, before its first step.
fn window(alloc: Global, info: TableInfo, asked: &str) -> Result<Idle> {
    let fields = items::first_of(asked, "window/").unwrap_or("");
    let limit = limit(items::field(fields, 1))?;
    let above = above(alloc, &info, items::field(fields, 0))?;
    Ok(new(alloc, info, 0, above, limit, 1, 1, 1))
}

// The window with its rows, between its marks.
fn arm(source: &mut ScriptedSource, window: Idle) -> Result<Armed>
    requires { IsTrue source.old.live }
{
    Ok(window.low(source)?.select(source)?.high(source)?)
}

fn show(answers: &mut String, closed: &Closed) -> Result<()> {
    let (count, done) = (closed.rows.rows().len(), closed.done);
    write!(answers, "\n  {count} rows, done {done}")?;
    Ok(())
}

// Opens the window at its low mark, clears it, and closes it. Each state is dropped by name: that
// is one call, whereas a drop at the end of a scope is proved part by part at each exit.
fn clear(alloc: Global, armed: Armed, answers: &mut String) -> Result<()> {
    let low = match armed.awaited_mark().copy(alloc) {
        Ok(low) => low,
        Err(error) => {
            drop(armed);
            bail!("{error}");
        }
    };
    match armed.see(&low) {
        Seen::Opened(mut opened) => {
            opened.clear();
            let closed = opened.finish();
            let shown = show(answers, &closed);
            drop(closed);
            shown
        }
        Seen::Waiting(armed) => {
            drop(armed);
            bail!("it waits")
        }
    }
}

fn run(alloc: Global, asked: &str, source: &mut ScriptedSource, answers: &mut String) -> Result<()>
    requires { IsTrue source.old.live }
{
    let info = items::table(alloc, items::first_of(asked, "t/").context("no table")?)?;
    let window = window(alloc, info, asked)?;
    clear(alloc, arm(source, window)?, answers)
}

/// Adds what becomes of a window.
pub fn answer(alloc: Global, asked: &str, script: &str, answers: &mut String) -> Result<()> {
    let mut source = script::source(alloc, asked, script)?;
    run(alloc, asked, &mut source, answers)
}
