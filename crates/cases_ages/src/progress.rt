//! Which keys progress records tell of, by the definition.

ghost use Rattle.std.specs.Prelude.{◌≡◌, ◌↔◌, IfOk, IfSome, IsTrue, Some, length};
ghost use Rattle.std.specs.Bool.{Decides};
ghost use Rattle.serde_json.specs.Written.{compact_text};
ghost use Rattle.dbl_model_history.specs.Fit.{IsKeyOf};
ghost use Rattle.dbl_model_event.specs.Snapshots.{progress_topic, progress_key, progress_data};
ghost use Rattle.dbl_consume_laws.specs.Prints.{ReportsProgress};
ghost use Rattle.dbl_consume_laws.specs.KnownKeys.{IsTold};
ghost use Rattle.cases_ages.specs.Trace.{Tests, IsProgress, IsBeside, IsAlike, IsProgressOfTable, IsToldBy, IsUnlisted, IsToldIn};
ghost use Rattle.cases_ages.specs.Trace.{AreUnlisted, AreUnlistedOf};

use crate::plain_ages::covers;
use dbl_base::{Lsn, Text};
use dbl_envelope_json::{Frame, Layout, progress_record, tail_text};
use dbl_model_history::{Cursor, key_fits};
use dbl_model_table::{Body, Commit, Identity, Key, TableInfo};
use dbl_record::Record;
use std::alloc::{AllocError, Global};

/// Records, what they are made by, and what their progress records say, as far as that was listed: a key can't be read back from
/// its text here.
#[derive(Clone, Copy)]
pub struct Log<'a> {
    pub identity: &'a Identity,
    pub infos: &'a Vec<TableInfo>,
    pub records: &'a Vec<Record>,
    /// What may be said of a table. It is looked at for each table, in any order.
    pub said: &'a Vec<Cursor>,
}

fn is_text(text: &Option<Text>, other: &Option<Text>) -> bool
    ensures { Decides result (text.now ≡ other.now) }
{
    match text {
        Some(text) => match other {
            Some(other) => text.as_str() == other.as_str(),
            None => false,
        },
        None => other.is_none(),
    }
}

// Whether two records are in one topic and under one key.
fn is_beside(item: &Record, other: &Record) -> bool
    ensures { Decides result (IsBeside item.now other.now) }
{
    item.topic.as_str() == other.topic.as_str() && is_text(&item.key, &other.key)
}

fn is_key_of(info: &TableInfo, last: &Option<Key>) -> bool
    ensures is { Decides result (IfSome last.now (IsKeyOf info.now)) }
    ensures long { IsTrue result → IfSome last.now (λ key. length key.cells ≡ length info.now.key) }
{
    match last {
        Some(key) => key_fits(info, key),
        None => true,
    }
}

// Any commit: nothing is said of it.
fn some_commit(alloc: Global) -> Result<Commit, AllocError> {
    Ok(Commit {
        lsn: Lsn(0),
        end_lsn: Lsn(0),
        time: 0,
        xid: 0,
        body: Body::Mark(Text::of(alloc, "")?),
    })
}

// A progress record that says this of a table, at some place.
fn progress_of(
    alloc: Global,
    identity: &Identity,
    info: &TableInfo,
    last: &Option<Key>,
    done: bool,
) -> Result<Record, AllocError>
    requires { IfSome last.now (λ key. length key.cells ≡ length info.now.key) }
    ensures { IfOk result (λ made. IsProgress identity.now info.now last.now done made) }
{
    let commit = some_commit(alloc)?;
    let layout = Layout::make(alloc, identity, info)?;
    let now_ms = 0;
    let tail = tail_text(alloc, identity, &info.name, &commit, "", &now_ms)?;
    let frame = Frame {
        identity,
        info,
        layout: &layout,
        commit: &commit,
        now_ms: &now_ms,
        snapshot: "",
        tail: &tail,
    };
    progress_record(alloc, &frame, 0, last, done)
}

// Whether two records have one message.
fn is_alike(item: &Record, other: &Record) -> bool
    ensures { Decides result (IsAlike item.now other.now) }
{
    item.topic.as_str() == other.topic.as_str()
        && is_text(&item.key, &other.key)
        && is_text(&item.value, &other.value)
}

/// Whether a record says that a table's snapshot has come so far.
pub fn tells(
    alloc: Global,
    identity: &Identity,
    info: &TableInfo,
    item: &Record,
    cursor: &Cursor,
) -> Result<bool, AllocError>
    ensures { IfOk result (λ told. Decides told
        (ReportsProgress identity.now info.now item.now cursor.now.last cursor.now.done)) }
{
    if !is_key_of(info, &cursor.last) {
        return Ok(false);
    }
    let made = progress_of(alloc, identity, info, &cursor.last, cursor.done)?;
    Ok(is_alike(item, &made))
}

// Whether a record is a progress record of a table, whatever it says.
fn is_of_table(
    alloc: Global,
    identity: &Identity,
    info: &TableInfo,
    item: &Record,
) -> Result<bool, AllocError>
    ensures { IfOk result (λ of. Decides of (IsProgressOfTable identity.now info.now item.now)) }
{
    let made = progress_of(alloc, identity, info, &None, false)?;
    Ok(is_beside(item, &made))
}

fn is_told_by(
    alloc: Global,
    log: &Log<'_>,
    info: &TableInfo,
    item: &Record,
    key: &Key,
) -> Result<Option<bool>, AllocError>
    ensures { IfOk result (λ told. Tests told
        (IsToldBy log.now.identity.now info.now item.now key.now)
        (IsUnlisted log.now.identity.now info.now item.now log.now.said.now.items)) }
{
    for cursor in log.said {
        let says = tells(alloc, log.identity, info, item, cursor)?;
        if says {
            return Ok(Some(covers(&cursor.last, cursor.done, key)));
        }
    }
    let of = is_of_table(alloc, log.identity, info, item)?;
    if of {
        return Ok(None);
    }
    Ok(Some(false))
}

fn is_told_in(
    alloc: Global,
    log: &Log<'_>,
    info: &TableInfo,
    key: &Key,
) -> Result<Option<bool>, AllocError>
    ensures { IfOk result (λ told. Tests told
        (IsToldIn log.now.identity.now info.now log.now.records.now.items key.now)
        (AreUnlistedOf log.now.identity.now info.now log.now.records.now.items
        log.now.said.now.items)) }
{
    for item in log.records {
        let Some(told) = is_told_by(alloc, log, info, item, key)? else {
            return Ok(None);
        };
        if told {
            return Ok(Some(true));
        }
    }
    Ok(Some(false))
}

/// Whether a progress record of the log tells of a key. There may be no answer, only where one says of the table what isn't listed.
pub fn is_told(
    alloc: Global,
    log: &Log<'_>,
    table: u32,
    key: &Key,
) -> Result<Option<bool>, AllocError>
    ensures { IfOk result (λ told. Tests told
        (IsTold log.now.identity.now log.now.infos.now.items log.now.records.now.items table
        key.now)
        (AreUnlisted log.now.identity.now log.now.infos.now.items log.now.records.now.items
        log.now.said.now.items table)) }
{
    match log.infos.get(table as usize) {
        Some(info) => is_told_in(alloc, log, info, key),
        None => Ok(Some(false)),
    }
}
