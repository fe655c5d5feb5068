//! Cases of the commits that messages state, and of the messages' faults.

use anyhow::{Result, bail};
use cases_items::{items, messages, shown, words};
use dbl_base::Lsn;
use dbl_model_table::Commit;
use dbl_txn::{Assembler, Ended, Head, Piece};
use std::alloc::Global;
use std::fmt::Write;

/// Adds each commit, on a line.
pub fn show_commits(alloc: Global, shown: &mut String, arguments: &str) -> Result<()> {
    let commits = items::commits(alloc, arguments)?;
    if commits.is_empty() {
        words::add(shown, "no commit")?;
    }
    for commit in &commits {
        words::line(shown)?;
        shown::commit(alloc, shown, commit)?;
    }
    Ok(())
}

/// Adds what an assembler answers to each item, from the first on. The assembler is dropped by
/// name: that is one call, whereas a drop at the end of a scope is proved part by part.
pub fn show_steps(alloc: Global, shown: &mut String, arguments: &str) -> Result<()> {
    let mut assembler = Assembler::make(alloc, Vec::new(alloc), Lsn(0));
    let end = steps(alloc, shown, &mut assembler, arguments);
    drop(assembler);
    end
}

/// Adds what an assembler answers to each message in pieces, and the Begin that it knows after it.
pub fn show_pieces(alloc: Global, shown: &mut String, arguments: &str) -> Result<()> {
    let mut assembler = items::assembler(alloc, arguments)?;
    let end = pieces(alloc, shown, &mut assembler, arguments);
    drop(assembler);
    end
}

fn steps(
    alloc: Global,
    shown: &mut String,
    assembler: &mut Assembler,
    arguments: &str,
) -> Result<()> {
    for item in arguments.split(" | ") {
        words::line(shown)?;
        step(alloc, shown, assembler, item)?;
    }
    Ok(())
}

// Learns the table of a `t/..`, or takes a message.
fn step(alloc: Global, shown: &mut String, assembler: &mut Assembler, item: &str) -> Result<()> {
    match item.strip_prefix("t/") {
        Some(fields) => {
            assembler.learn(items::table(alloc, fields)?)?;
            show_state(alloc, shown, assembler, None)
        }
        None => take(alloc, shown, assembler, item),
    }
}

fn take(alloc: Global, shown: &mut String, assembler: &mut Assembler, item: &str) -> Result<()> {
    let commit = assembler.take(alloc, messages::message(alloc, item)?)?;
    let end = show_state(alloc, shown, assembler, commit.as_ref());
    drop(commit);
    end
}

fn show_state(
    alloc: Global,
    shown: &mut String,
    assembler: &Assembler,
    commit: Option<&Commit>,
) -> Result<()> {
    let tables = assembler.infos().len();
    let inside = assembler.inside();
    write!(shown, "tables {tables}, inside {inside}, ")?;
    match commit {
        Some(commit) => shown::commit(alloc, shown, commit),
        None => words::add(shown, "no commit"),
    }
}

fn pieces(
    alloc: Global,
    shown: &mut String,
    assembler: &mut Assembler,
    arguments: &str,
) -> Result<()> {
    for message in messages::all(alloc, arguments)? {
        let piece = assembler.piece(alloc, message)?;
        let end = show_piece(alloc, shown, assembler.head(), &piece);
        drop(piece);
        end?;
    }
    Ok(())
}

fn show_head(shown: &mut String, head: Option<Head>) -> Result<()> {
    let Some(head) = head else {
        return words::add(shown, "no head, ");
    };
    let lsn = head.lsn;
    let time = head.time;
    let xid = head.xid;
    write!(shown, "lsn {lsn}, time {time}, xid {xid}, ")?;
    Ok(())
}

fn show_piece(alloc: Global, shown: &mut String, head: Option<Head>, piece: &Piece) -> Result<()> {
    words::line(shown)?;
    show_head(shown, head)?;
    match piece {
        Piece::Nothing => words::add(shown, "nothing"),
        Piece::Changed(changes) => {
            words::add(shown, "changed")?;
            shown::changes(alloc, shown, changes)
        }
        Piece::Ended(ended) => show_end(shown, ended),
    }
}

fn show_end(shown: &mut String, ended: &Ended) -> Result<()> {
    let lsn = ended.head.lsn;
    let end = ended.end_lsn;
    write!(shown, "ended, lsn {lsn}, end {end}")?;
    match &ended.mark {
        Some(value) => shown::mark(shown, value.as_str()),
        None => Ok(()),
    }
}
