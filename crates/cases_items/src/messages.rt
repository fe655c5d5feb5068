//! The messages of a log, each an item of one capital letter and its fields.
//!
//! - `B/256/7/5`: a Begin with its LSN, transaction and time. `C/256/296`: a Commit with its LSN and the one after it.
//! - `R/1/public/users/d/id:23:1 name:25:0`: a Relation with its identity, each column's type and flags (`:m` after them for a
//!   type modifier). `I/1/1 Ann`: an Insert. `U/1/K/1 ~/2 Ann`: an Update (`U/1/-//2 Ann` with no old row). `D/1/O/1 Ann`: a
//!   Delete. `T/1 2`: a Truncate. `O`, `Y` and `M`: an Origin, a Type and a Logical.
//!
//! A cell is null (`~`), unchanged (`?`), so many control characters (`*15200000`), or its text, which is written as a JSON
//! string where it holds a space or a slash.

use crate::items::field;
use crate::words::{self, Spelled};
use anyhow::{Result, bail};
use dbl_base::{Lsn, Seq, Text};
use dbl_pgmsg::{Message, OldTuple, RelationColumn, Tuple, TupleCell};
use std::alloc::Global;

// A text that is so many times U+0001, which JSON writes as six bytes, or that is written as it is.
fn text(alloc: Global, word: &str) -> Result<Text> {
    match word.strip_prefix("*") {
        Some(count) => Ok(Text::of(alloc, "\u{1}".repeat(alloc, count.parse()?)?.as_str())?),
        None => words::text(alloc, word),
    }
}

impl Spelled for TupleCell {
    fn read(alloc: Global, word: &str) -> Result<TupleCell> {
        match word {
            "~" => Ok(TupleCell::Null),
            "?" => Ok(TupleCell::Unchanged),
            _ => Ok(TupleCell::Text(text(alloc, word)?)),
        }
    }
}

fn tuple(alloc: Global, words: &str) -> Result<Tuple> {
    Ok(Tuple {
        cells: Seq::make(words::all(alloc, words)?),
    })
}

impl Spelled for RelationColumn {
    fn read(alloc: Global, word: &str) -> Result<RelationColumn> {
        let (name, rest) = words::split(word, ":");
        let (oid, rest) = words::split(rest, ":");
        let (flags, modifier) = words::split(rest, ":");
        let oid = oid.parse()?;
        let flags = flags.parse()?;
        let modifier = if modifier == "m" { 12 } else { -1 };
        Ok(RelationColumn {
            name: Text::of(alloc, name)?,
            oid,
            flags,
            modifier,
        })
    }
}

fn relation(alloc: Global, fields: &str) -> Result<Message> {
    let oid = field(fields, 0).parse()?;
    let identity = if field(fields, 3) == "f" { b'f' } else { b'd' };
    let namespace = Text::of(alloc, field(fields, 1))?;
    let name = Text::of(alloc, field(fields, 2))?;
    let columns = words::all(alloc, field(fields, 4))?;
    Ok(Message::Relation {
        oid,
        namespace,
        name,
        identity,
        columns: Seq::make(columns),
    })
}

fn insert(alloc: Global, fields: &str) -> Result<Message> {
    let oid = field(fields, 0).parse()?;
    let row = tuple(alloc, field(fields, 1))?;
    Ok(Message::Insert { oid, row })
}

fn old_tuple(alloc: Global, kind: &str, words: &str) -> Result<OldTuple> {
    match kind {
        "K" => Ok(OldTuple::Key(tuple(alloc, words)?)),
        "O" => Ok(OldTuple::Whole(tuple(alloc, words)?)),
        _ => bail!("neither a whole old row nor a key"),
    }
}

fn before(alloc: Global, kind: &str, words: &str) -> Result<Option<OldTuple>> {
    match kind {
        "-" => Ok(None),
        _ => Ok(Some(old_tuple(alloc, kind, words)?)),
    }
}

fn update(alloc: Global, fields: &str) -> Result<Message> {
    let oid = field(fields, 0).parse()?;
    let before = before(alloc, field(fields, 1), field(fields, 2))?;
    let row = tuple(alloc, field(fields, 3))?;
    Ok(Message::Update { oid, before, row })
}

fn delete(alloc: Global, fields: &str) -> Result<Message> {
    let oid = field(fields, 0).parse()?;
    let before = old_tuple(alloc, field(fields, 1), field(fields, 2))?;
    Ok(Message::Delete { oid, before })
}

fn truncate(alloc: Global, words: &str) -> Result<Message> {
    let oids = words::all(alloc, words)?;
    Ok(Message::Truncate {
        options: 0,
        oids: Seq::make(oids),
    })
}

fn begin(fields: &str) -> Result<Message> {
    let lsn = Lsn(field(fields, 0).parse()?);
    let xid = field(fields, 1).parse()?;
    let time = field(fields, 2).parse()?;
    Ok(Message::Begin { lsn, xid, time })
}

fn commit(fields: &str) -> Result<Message> {
    let lsn = Lsn(field(fields, 0).parse()?);
    let end_lsn = Lsn(field(fields, 1).parse()?);
    Ok(Message::Commit {
        flags: 0,
        lsn,
        end_lsn,
        time: 6,
    })
}

fn origin(alloc: Global) -> Result<Message> {
    let name = Text::of(alloc, "o")?;
    Ok(Message::Origin { lsn: Lsn(1), name })
}

fn type_name(alloc: Global) -> Result<Message> {
    let name = Text::of(alloc, "mood")?;
    Ok(Message::TypeName {
        oid: 99,
        namespace: Text::make(String::new(alloc)),
        name,
    })
}

fn logical(alloc: Global) -> Result<Message> {
    let prefix = Text::of(alloc, "p")?;
    Ok(Message::Logical {
        flags: 0,
        lsn: Lsn(1),
        prefix,
        content: Seq::make(Vec::new(alloc)),
    })
}

/// The message of an item.
pub fn message(alloc: Global, item: &str) -> Result<Message> {
    let (kind, fields) = words::split(item, "/");
    match kind {
        "B" => begin(fields),
        "C" => commit(fields),
        "R" => relation(alloc, fields),
        "I" => insert(alloc, fields),
        "U" => update(alloc, fields),
        "D" => delete(alloc, fields),
        "T" => truncate(alloc, fields),
        "O" => origin(alloc),
        "Y" => type_name(alloc),
        "M" => logical(alloc),
        _ => bail!("no such item"),
    }
}

fn is_message(item: &str) -> bool {
    match item.as_bytes().first() {
        Some(first) => first.is_ascii_uppercase(),
        None => false,
    }
}

/// The messages of a case.
pub fn all(alloc: Global, arguments: &str) -> Result<Vec<Message>> {
    let mut messages = Vec::new(alloc);
    for item in arguments.split(" | ") {
        if is_message(item) {
            messages.push(message(alloc, item)?)?;
        }
    }
    Ok(messages)
}
