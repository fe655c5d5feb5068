//! Which moments records stand for and how far they reach, by the definition.

ghost use Rattle.std.specs.Prelude.{◌≡◌, ◌^◌, ◌-◌, IfOk, max, min, length, if◌then◌else◌};
ghost use Rattle.dbl_model_table.specs.Keys.{same_key, new_key_of};
ghost use Rattle.dbl_model_table.specs.Rows.{table_of, changes_of};
ghost use Rattle.dbl_model_event.specs.Events.{change_notices, notices};
ghost use Rattle.dbl_consume_laws.specs.Moments.{changes_through, place_moment, record_moment, last_moment, span_end};

use dbl_base::Seq;
use dbl_model_history::{given_or_nulls, is_same, key_at};
use dbl_model_table::{Body, Cell, Change, Commit, Key, TableInfo};
use dbl_record::Record;
use std::alloc::{AllocError, Global};

fn update_count(
    alloc: Global,
    info: &TableInfo,
    from: &Key,
    cells: &Seq<Cell>,
) -> Result<u64, AllocError>
    ensures { IfOk result (λ count. count
        ≡ (if same_key from.now (new_key_of info.now cells.now) then 1 else 3)) }
{
    let row = given_or_nulls(alloc, cells)?;
    let to = key_at(alloc, info.key.items().as_slice(), &row)?;
    if is_same(from, &to) {
        return Ok(1);
    }
    Ok(3)
}

// How many events a change of a table tells.
fn count_of(alloc: Global, info: &TableInfo, change: &Change) -> Result<u64, AllocError>
    ensures { IfOk result (λ count. count
        ≡ length (change_notices (table_of change.now) info.now change.now)) }
{
    match change {
        Change::Insert { table: _, row: _ } => Ok(1),
        Change::Update {
            table: _,
            key,
            old: _,
            cells,
        } => update_count(alloc, info, key, cells),
        Change::Delete {
            table: _,
            key: _,
            old: _,
        } => Ok(2),
        Change::Clear { table: _ } => Ok(1),
    }
}

/// How many events a change tells, which is none where its table isn't captured.
pub fn event_count(
    alloc: Global,
    infos: &Vec<TableInfo>,
    change: &Change,
) -> Result<u64, AllocError>
    ensures { IfOk result (λ count. count ≡ length (notices infos.now.items change.now)) }
{
    match infos.get(change.table() as usize) {
        Some(info) => count_of(alloc, info, change),
        None => Ok(0),
    }
}

fn changes_through(
    alloc: Global,
    infos: &Vec<TableInfo>,
    changes: &Seq<Change>,
    ordinal: u64,
) -> Result<u64, AllocError>
    ensures { IfOk result (λ count. count ≡ changes_through infos.now.items changes.now ordinal) }
{
    let mut left = ordinal;
    for (i, change) in changes.items().iter().enumerate() {
        let count = event_count(alloc, infos, change)?;
        if left < count {
            return Ok(i as u64 + 1);
        }
        left -= count;
    }
    Ok(changes.items().len() as u64)
}

/// How many changes of a commit there are up to the one whose event has an ordinal, all if none.
pub fn commit_through(
    alloc: Global,
    infos: &Vec<TableInfo>,
    commit: &Commit,
    ordinal: u64,
) -> Result<u64, AllocError>
    ensures { IfOk result (λ count. count
        ≡ changes_through infos.now.items (changes_of commit.now) ordinal) }
{
    match &commit.body {
        Body::Changes(changes) => changes_through(alloc, infos, changes, ordinal),
        Body::Mark(_) => Ok(0),
    }
}

/// How many changes a commit has.
pub fn change_count(commit: &Commit) -> u64
    ensures { result ≡ length (changes_of commit.now) }
{
    match &commit.body {
        Body::Changes(changes) => changes.items().len() as u64,
        Body::Mark(_) => 0,
    }
}

/// The moment that a record stands for, as far as 64 bits tell. It looks at each change before it.
pub fn record_moment(
    alloc: Global,
    infos: &Vec<TableInfo>,
    commits: &Vec<Commit>,
    item: &Record,
) -> Result<u64, AllocError>
    ensures { IfOk result (λ moment. moment
        ≡ min (record_moment infos.now.items commits.now.items item.now) (2 ^ 64 - 1)) }
{
    let mut moment: u64 = 0;
    for commit in commits {
        if item.position < commit.lsn.0 {
            return Ok(moment);
        }
        if item.position == commit.lsn.0 {
            let through = commit_through(alloc, infos, commit, item.ordinal)?;
            return Ok(moment.saturating_add(through));
        }
        moment = moment.saturating_add(change_count(commit));
    }
    Ok(moment)
}

/// How far records reach, as far as 64 bits tell.
pub fn last_moment(
    alloc: Global,
    infos: &Vec<TableInfo>,
    commits: &Vec<Commit>,
    start: u64,
    records: &Vec<Record>,
) -> Result<u64, AllocError>
    ensures { IfOk result (λ far. far
        ≡ min (last_moment infos.now.items commits.now.items start records.now.items) (2 ^ 64 - 1)) }
{
    let mut far = start;
    for item in records {
        let moment = record_moment(alloc, infos, commits, item)?;
        far = far.max(moment);
    }
    Ok(far)
}

/// Where the span from a moment on ends, as far as 64 bits tell.
pub fn span_end(
    alloc: Global,
    infos: &Vec<TableInfo>,
    commits: &Vec<Commit>,
    start: u64,
    records: &Vec<Record>,
    from: u64,
) -> Result<u64, AllocError>
    ensures { IfOk result (λ end. end
        ≡ min (span_end infos.now.items commits.now.items start records.now.items from)
        (2 ^ 64 - 1)) }
{
    let far = last_moment(alloc, infos, commits, start, records)?;
    Ok(from.max(far))
}
