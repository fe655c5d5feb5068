//! The courses of tables that may be altered, and which keys are known in them, by the definitions.

ghost use Rattle.std.specs.Prelude.{◌≡◌, ◌++◌, [], ◌∷◌, max, IfOk, OnOk, Some, option_map};
ghost use Rattle.std.specs.Prelude.{flat_map, replicate};
ghost use Rattle.std.specs.Bool.{Decides};
ghost use Rattle.std.specs.Option.{option_copied};
ghost use Rattle.dbl_record.specs.declared.acts.HeldCell.TheVariants.{Known};
ghost use Rattle.dbl_model_table.specs.declared.change.Change.TheVariants.{Clear};
ghost use Rattle.dbl_model_table.specs.declared.change.Body.TheVariants.{Changes};
ghost use Rattle.dbl_model_history.specs.VersionRows.{inserts};
ghost use Rattle.dbl_consume_courses.specs.Courses.{ticked, ticked_body, course_after, course};
ghost use Rattle.dbl_consume_courses.specs.Since.{since_after, since};
ghost use Rattle.dbl_consume_courses.specs.AlteredTables.{IsKnownIn};
ghost use Rattle.cases_ages.specs.Trace.{Tests, AreUnlisted};
ghost use Rattle.cases_courses.specs.AlteredHistories.{versioned_of, all_versioned};
ghost use Rattle.cases_courses.specs.AlteredHistories.{course_with, course_upto};

use crate::version_moments::point_at;
use crate::versions::{Version, inserts};
use cases_ages::{Log, event_count, is_known};
use dbl_base::{Seq, Text};
use dbl_model_history::Cursor;
use dbl_model_table::{Body, Change, Commit, Identity, Key, RawRow, TableInfo};
use dbl_record::{HeldCell, Record};
use std::alloc::{AllocError, Global};

/// What is left of a history at the last alteration of one of its tables.
#[derive(Drop)]
pub struct TableCourse {
    /// The captured tables at its end.
    pub infos: Vec<TableInfo>,
    pub commits: Vec<Commit>,
    /// The position from which changes count as delivered.
    pub start: u64,
}

// Goes on with the records since a position by one record more.
fn keep_since(
    kept: &mut Vec<Record>,
    alloc: Global,
    start: u64,
    item: &Record,
) -> Result<(), AllocError>
    ensures { OnOk result (kept.new.items ≡ since_after start kept.old.items item.now) }
{
    if item.position < start {
        kept.clear();
        return Ok(());
    }
    kept.push(item.copy(alloc)?)?;
    Ok(())
}

/// The records of a log after the last one that lies before a position.
pub fn records_since(
    alloc: Global,
    records: &Vec<Record>,
    start: u64,
) -> Result<Vec<Record>, AllocError>
    ensures { IfOk result (λ kept. kept.items ≡ since start records.now.items) }
{
    let mut kept = Vec::new(alloc);
    for item in records {
        keep_since(&mut kept, alloc, start, item)?;
    }
    Ok(kept)
}

// Adds so many truncations of a table.
fn push_clears(out: &mut Vec<Change>, table: u32, count: u64) -> Result<(), AllocError>
    ensures { OnOk result (out.new.items ≡ out.old.items ++ replicate count (Clear table)) }
{
    for _number in 0..count {
        out.push(Change::Clear { table })?;
    }
    Ok(())
}

// Adds a change as the course of a table has it.
fn tick(
    out: &mut Vec<Change>,
    alloc: Global,
    infos: &Vec<TableInfo>,
    table: u32,
    change: Change,
) -> Result<(), AllocError>
    ensures { OnOk result (out.new.items ≡ out.old.items ++ ticked infos.now.items table change) }
{
    let own = change.table();
    if own == table {
        out.push(change)?;
        return Ok(());
    }
    let count = event_count(alloc, infos, &change)?;
    push_clears(out, own, count)
}

fn ticked_changes(
    alloc: Global,
    infos: &Vec<TableInfo>,
    table: u32,
    changes: Seq<Change>,
) -> Result<Seq<Change>, AllocError>
    ensures { IfOk result (λ made. made ≡ flat_map (ticked infos.now.items table) changes) }
{
    let mut made = Vec::new(alloc);
    for change in changes.into_items() {
        tick(&mut made, alloc, infos, table, change)?;
    }
    Ok(Seq::make(made))
}

fn ticked_body(
    alloc: Global,
    infos: &Vec<TableInfo>,
    table: u32,
    body: Body,
) -> Result<Body, AllocError>
    ensures { IfOk result (λ made. made ≡ ticked_body infos.now.items table body) }
{
    match body {
        Body::Changes(changes) => {
            Ok(Body::Changes(ticked_changes(alloc, infos, table, changes)?))
        }
        Body::Mark(value) => Ok(Body::Mark(value)),
    }
}

fn ticked_commit(
    alloc: Global,
    infos: &Vec<TableInfo>,
    table: u32,
    commit: Commit,
) -> Result<Commit, AllocError>
    ensures { IfOk result (λ made. made
        ≡ record commit { body = ticked_body infos.now.items table commit.body }) }
{
    Ok(Commit {
        lsn: commit.lsn,
        end_lsn: commit.end_lsn,
        time: commit.time,
        xid: commit.xid,
        body: ticked_body(alloc, infos, table, commit.body)?,
    })
}

// The course after a commit that doesn't alter its table.
fn go_on(
    alloc: Global,
    table: u32,
    course: TableCourse,
    commit: Commit,
    infos: Vec<TableInfo>,
) -> Result<TableCourse, AllocError>
    ensures { IfOk result (λ made. course_with made ≡ record {
      infos = infos.items;
      commits = course.commits.items
          ++ record commit { body = ticked_body infos.items table commit.body } ∷ [];
      start = course.start;
    }) }
{
    let start = course.start;
    let mut commits = course.commits;
    commits.push(ticked_commit(alloc, &infos, table, commit)?)?;
    Ok(TableCourse {
        infos,
        commits,
        start,
    })
}

// The course after a commit that alters its table: it begins anew, at the commit.
fn begin_anew(
    alloc: Global,
    table: u32,
    start: u64,
    commit: Commit,
    infos: Vec<TableInfo>,
    rows: &Seq<RawRow>,
) -> Result<TableCourse, AllocError>
    ensures { IfOk result (λ made. course_with made ≡ record {
      infos = infos.items;
      commits = record commit { body = Changes (inserts infos.items table rows.now) } ∷ [];
      start = max start commit.lsn.0;
    }) }
{
    let changes = inserts(alloc, &infos, table, rows)?;
    let start = start.max(commit.lsn.0);
    let mut commits = Vec::new(alloc);
    commits.push(Commit {
        lsn: commit.lsn,
        end_lsn: commit.end_lsn,
        time: commit.time,
        xid: commit.xid,
        body: Body::Changes(changes),
    })?;
    Ok(TableCourse {
        infos,
        commits,
        start,
    })
}

fn next_course(
    alloc: Global,
    table: u32,
    course: TableCourse,
    version: Version,
) -> Result<TableCourse, AllocError>
    ensures { IfOk result (λ made. course_with made
        ≡ course_after table (course_with course) (versioned_of version)) }
{
    let Version {
        commit,
        infos,
        altered,
    } = version;
    let Some(altered) = altered else {
        return go_on(alloc, table, course, commit, infos);
    };
    if altered.table != table {
        return go_on(alloc, table, course, commit, infos);
    }
    begin_anew(alloc, table, course.start, commit, infos, &altered.rows)
}

// The course after a commit, if that isn't after the position.
fn course_upto(
    alloc: Global,
    table: u32,
    position: u64,
    course: TableCourse,
    version: Version,
) -> Result<TableCourse, AllocError>
    ensures { IfOk result (λ made. course_with made
        ≡ course_upto table position (course_with course) (versioned_of version)) }
{
    if version.commit.lsn.0 > position {
        return Ok(course);
    }
    next_course(alloc, table, course, version)
}

/// The course of a table at a position, for a log that starts at `start`, where `infos` are
/// captured before all commits. Changes of other tables are replaced by truncations, one for each
/// of their events.
pub fn course(
    alloc: Global,
    infos: Vec<TableInfo>,
    versions: Vec<Version>,
    start: u64,
    table: u32,
    position: u64,
) -> Result<TableCourse, AllocError>
    ensures { IfOk result (λ made. course_with made
        ≡ course infos.items (all_versioned versions.items) start table position) }
{
    let mut course = TableCourse {
        infos,
        commits: Vec::new(alloc),
        start,
    };
    for version in versions {
        course = course_upto(alloc, table, position, course, version)?;
    }
    Ok(course)
}

/// Whether a key is known in a table's course, at one of its points, by the records of a whole log
/// and the changes of the course. There may be no answer, only where a progress record of the log
/// since the course's start says of the table what isn't listed.
pub fn is_known_in(
    alloc: Global,
    identity: &Identity,
    course: &TableCourse,
    records: &Vec<Record>,
    said: &Vec<Cursor>,
    to: u64,
    table: u32,
    key: &Key,
) -> Result<Option<bool>, AllocError>
    ensures { IfOk result (λ known. Tests known
        (IsKnownIn identity.now (course_with course.now) records.now.items to table key.now)
        (AreUnlisted identity.now course.now.infos.items
        (since course.now.start records.now.items) said.now.items table)) }
{
    let kept = records_since(alloc, records, course.start)?;
    let log = Log {
        identity,
        infos: &course.infos,
        records: &kept,
        said,
    };
    let start = point_at(&course.commits, course.start);
    let known = is_known(alloc, &log, &course.commits, start, to, table, key);
    drop(kept);
    known
}

/// Whether two cells of consumers are the same.
pub fn is_same_cell(cell: Option<&HeldCell>, other: Option<&HeldCell>) -> bool
    ensures { Decides result (option_copied cell.entry ≡ option_copied other.entry) }
{
    match cell {
        Some(HeldCell::Known(text)) => is_known_text(other, text),
        Some(HeldCell::Unknown) => matches!(other, Some(HeldCell::Unknown)),
        None => other.is_none(),
    }
}

fn is_known_text(cell: Option<&HeldCell>, wanted: &Text) -> bool
    ensures { Decides result (option_copied cell.entry ≡ Some (Known wanted.now)) }
{
    match cell {
        Some(HeldCell::Known(text)) => text.as_str() == wanted.as_str(),
        Some(HeldCell::Unknown) => false,
        None => false,
    }
}

/// Whether a consumer's cell is exactly the image's: a known text, or none if the image has none.
pub fn is_exact_cell(cell: Option<&HeldCell>, text: &Option<Text>) -> bool
    ensures { Decides result (option_copied cell.entry ≡ option_map Known text.now) }
{
    match text {
        Some(text) => is_known_text(cell, text),
        None => cell.is_none(),
    }
}
