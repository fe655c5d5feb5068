//! Reads cases of sources, windows and sessions from standard input, a line each, and prints what the calls answer.
//!
//! A case is `NAME: ITEM | ITEM | .. || CALL | CALL | ..`. Its answers follow its name, a line each; an error is the last of them, and
//! no call is made after it. Empty lines, and lines that begin with `#`, are skipped.
//!
//! The items say what is made, and the calls are those of a source, in their order:
//!
//! - `t/public.users/id:23 name:25/id`: a table of the source, its columns with the OIDs of their types, and the columns of its key.
//!   `u/..`: a second one. `fails/3`: the numbers of the calls that fail, counted from 1. `alter/2/public.users/id:23 age:23`: before
//!   what other clients commit at the second call the table gets these columns; several are made in their order.
//! - With these alone each call is made of a source that plays a script, and each is answered in a line: `describe/public.users`,
//!   `head`, `start/0`, `read`, `select/public.users/1/10` (`select/public.users//10` with no key to begin above), `mark/1-1-L` and
//!   `confirm/256`. What other clients commit at a call is written after it (see `script`).
//! - `wal/` and bytes in hexadecimal digits: the same calls of the demo source, which is opened on a disk of these bytes.
//! - `counted/10`: how many calls of its disk the demo source takes while it is opened, and for each of its calls. Its workload is
//!   one row and groups of one commit each, of which it has run so many.
//! - `window/1/10`: a window over the first table, by the key above which it begins (none if empty) and its limit. Its low mark is
//!   written, its rows are read, and its high mark is written. Then it is opened, cleared and closed.
//! - `left/2/2 Bo`: a key and a row, and among the items messages: what their changes leave of the row.
//! - `session/1000/100/40`: a session, by the most rows of a window, after how many commits the offset is stored, and the most messages
//!   that it reads. A fourth number is the time at which its records are made, else 0. `tables/public.users public.docs` are the
//!   tables that it captures, one or two; `puts/1` and `disk/3` are the puts of its sink and the calls of its store's disk that fail;
//!   `gate/300` is the greatest length in bytes of a value that its receiver accepts, else any;
//!   `found/` and bytes in hexadecimal digits are the store that it finds. It is answered by how it ended, its report, the offset
//!   that it stored and how far each table was read, the record that was refused, and the lines of its records.
#![tactic(auto)]

mod asked;
mod calls;
mod demo;
mod left;
mod script;
mod session;
mod shown;
mod window;

use anyhow::Result;
use cases_items::{items, words};
use std::alloc::Global;

// The part of a case that is made a source of, by its first item.
fn answer(alloc: Global, case: &str, answers: &mut String) -> Result<()> {
    let (asked, script) = words::split(case, " || ");
    let (kind, fields) = words::split(asked, "/");
    match kind {
        "wal" => demo::play_wal(alloc, fields, script, answers),
        "counted" => demo::count_calls(alloc, fields, script, answers),
        "window" => window::answer(alloc, asked, script, answers),
        "left" => left::answer(alloc, asked, answers),
        "session" => session::answer(alloc, asked, script, answers),
        _ => calls::answer(alloc, asked, script, answers),
    }
}

fn main(rt: HostRuntime) -> Result<()> {
    for line in rt.lines(rt.alloc()) {
        let line = line?;
        if line.is_empty() || line.starts_with('#') {
            continue;
        }
        let (name, case) = words::split(line.as_str(), ": ");
        let mut answers = String::new(rt.alloc());
        match answer(rt.alloc(), case, &mut answers) {
            Ok(()) => println!(rt; "{name}:{answers}")?,
            Err(error) => println!(rt; "{name}:{answers}\n  {error}")?,
        }
    }
    Ok(())
}
