ghost use Rattle.std.specs.Prelude.{◌≡◌, ◌≤◌, ◌<◌, ◌+◌, ◌*◌, ◌^◌, ◌++◌, ℕ, [], None, Some, length};
ghost use Rattle.std.specs.Prelude.{replicate, slice_get, All, IfOk, IfErr, OnOk, OnErr, codes};
ghost use Rattle.dbl_model_table.specs.Rows.{changes_of, table_of};
ghost use Rattle.dbl_model_event.specs.EventJson.{envelopes};
ghost use Rattle.dbl_envelope.specs.Suits.{Suits, SuitsTable};
ghost use Rattle.dbl_envelope_json.specs.Frames.{Framed};
ghost use Rattle.dbl_model_event.specs.Clashes.{clash_of};
ghost use Rattle.dbl_envelope.specs.Clashing.{IsClash};
ghost use Rattle.dbl_envelope.specs.Writers.{records_from, change_records, tail_at, AreTails};
ghost use Rattle.dbl_envelope.specs.declared.left.TheConstants.{CHANGES_AT_ONCE};

use crate::changes::changes;
use crate::clash::check;
use crate::error::EnvelopeError;
use crate::tell::append_change_records;
use crate::writer::EventWriter;
use dbl_base::Text;
use dbl_envelope_json::{Frame, Stamp, tail_text};
use dbl_model_table::{Change, Commit};
use dbl_record::Record;
use std::alloc::{AllocError, Global};
use std::marker::Model;

/// The number of changes whose records are made in one batch; it is small, so that memory is reused
/// from batch to batch.
pub const CHANGES_AT_ONCE: usize = 6;

/// An iterator over the records of a commit; contracts see the list of those that are left.
#[derive(Drop)]
pub struct RecordsLeft<'a> {
    writer: &'a EventWriter,
    commit: &'a Commit,
    now_ms: i64,
    // the tails of the tables that needed one so far
    tails: Vec<Option<Text>>,
    // the number of changes whose records are made
    change: usize,
    // the number of records made
    ordinal: u64,
}

impl<'a> Model for RecordsLeft<'a> {
    ghost use Rattle.std.specs.Prelude.{◌≡◌, ◌≤◌, ◌*◌, List, All, length};
    ghost use Rattle.dbl_record.specs.declared.record.Record.{Record as SpecRecord};

    ghost Value = { List SpecRecord };

    ghost use Rattle.dbl_model_table.specs.Rows.{changes_of};
    ghost use Rattle.dbl_envelope.specs.Suits.{Suits};
    ghost use Rattle.dbl_envelope.specs.Writers.{records_from, AreTails};

    ghost view = { λ l. records_from l.writer.now l.commit.now l.now_ms l.change l.ordinal };

    ghost invariant = { λ l. (All (Suits l.writer.now.infos) (changes_of l.commit.now))
        × ((l.change ≤ length (changes_of l.commit.now)) × ((l.ordinal ≤ 3 * l.change)
        × ((length l.tails.items ≡ length l.writer.now.infos)
        × AreTails l.writer.now l.commit.now l.now_ms l.tails.items))) };
}

/// Makes the tail of a table unless it exists.
fn make_tail(
    alloc: Global,
    writer: &EventWriter,
    commit: &Commit,
    now_ms: &i64,
    tails: &mut Vec<Option<Text>>,
    table: usize,
) -> Result<(), AllocError>
    requires captured { table < length writer.now.infos }
    requires long { length tails.old.items ≡ length writer.now.infos }
    requires tails { AreTails writer.now commit.now now_ms.now tails.old.items }
    ensures made { OnOk result (slice_get tails.new.items table ≡ Some
        (Some (tail_at writer.now commit.now now_ms.now table))) }
    ensures long { length tails.new.items ≡ length writer.now.infos }
    ensures tails { AreTails writer.now commit.now now_ms.now tails.new.items }
{
    if tails[table].is_some() {
        return Ok(());
    }
    let info = writer.info_at(table);
    let tail = tail_text(
        alloc,
        writer.identity(),
        &info.name,
        commit,
        "false",
        now_ms,
    )?;
    tails[table] = Some(tail);
    Ok(())
}

/// The frame of the records of a change's table, whose tail exists.
fn frame_of<'a>(
    writer: &'a EventWriter,
    commit: &'a Commit,
    now_ms: &'a i64,
    tail: &'a Text,
    change: &Change,
) -> Frame<'a>
    requires suits { Suits writer.now.infos change.now }
    requires tail { tail.now ≡ tail_at writer.now commit.now now_ms.now (table_of change.now) }
    ensures identity { result.identity.now ≡ writer.now.identity }
    ensures info { slice_get writer.now.infos (table_of change.now) ≡ Some result.info.now }
    ensures commit { result.commit.now ≡ commit.now }
    ensures now { result.now_ms.now ≡ now_ms.now }
    ensures snapshot { result.snapshot.now ≡ codes "false" }
    ensures framed { Framed result }
    ensures suits { SuitsTable result.info.now change.now }
{
    Frame {
        identity: writer.identity(),
        info: writer.info_of(change),
        layout: writer.layout_at(change.table() as usize),
        commit,
        now_ms,
        snapshot: "false",
        tail,
    }
}

/// Appends the records of a change, whose table's tail exists.
fn tell_change(
    out: &mut Vec<Record>,
    alloc: Global,
    writer: &EventWriter,
    commit: &Commit,
    now_ms: &i64,
    tail: &Text,
    stamp: &Stamp,
    change: &Change,
) -> Result<(), AllocError>
    requires suits { Suits writer.now.infos change.now }
    requires room { stamp.now.ordinal + 2 < 2 ^ 64 }
    requires tail { tail.now ≡ tail_at writer.now commit.now now_ms.now (table_of change.now) }
    ensures { OnOk result (out.new.items ≡ out.old.items ++
        change_records writer.now commit.now now_ms.now stamp.now change.now) }
{
    let frame = frame_of(writer, commit, now_ms, tail, change);
    append_change_records(out, alloc, &frame, stamp, change)
}

/// Appends the records of a change.
pub(crate) fn add_change(
    out: &mut Vec<Record>,
    alloc: Global,
    writer: &EventWriter,
    commit: &Commit,
    now_ms: &i64,
    tails: &mut Vec<Option<Text>>,
    stamp: &Stamp,
    change: &Change,
) -> Result<(), AllocError>
    requires suits { Suits writer.now.infos change.now }
    requires room { stamp.now.ordinal + 2 < 2 ^ 64 }
    requires long { length tails.old.items ≡ length writer.now.infos }
    requires tails { AreTails writer.now commit.now now_ms.now tails.old.items }
    ensures told { OnOk result (out.new.items ≡ out.old.items ++
        change_records writer.now commit.now now_ms.now stamp.now change.now) }
    ensures long { length tails.new.items ≡ length writer.now.infos }
    ensures tails { AreTails writer.now commit.now now_ms.now tails.new.items }
{
    let table = change.table() as usize;
    make_tail(alloc, writer, commit, now_ms, tails, table)?;
    match &tails[table] {
        Some(tail) => tell_change(out, alloc, writer, commit, now_ms, tail, stamp, change),
        None => unreachable!(),
    }
}

// The records of the changes in a range of indices, numbered from this ordinal on.
fn some_records(
    alloc: Global,
    writer: &EventWriter,
    commit: &Commit,
    now_ms: &i64,
    tails: &mut Vec<Option<Text>>,
    from: usize,
    upto: usize,
    ordinal: u64,
) -> Result<Vec<Record>, AllocError>
    requires suits { All (Suits writer.now.infos) (changes_of commit.now) }
    requires place { from ≤ upto }
    requires within { upto ≤ length (changes_of commit.now) }
    requires ordinal { ordinal ≤ 3 * from }
    requires long { length tails.old.items ≡ length writer.now.infos }
    requires tails { AreTails writer.now commit.now now_ms.now tails.old.items }
    ensures ok { IfOk result (λ made. made.items ++
        records_from writer.now commit.now now_ms.now upto (ordinal + length made.items)
        ≡ records_from writer.now commit.now now_ms.now from ordinal) }
    ensures most { IfOk result (λ made. ordinal + length made.items ≤ 3 * upto) }
    ensures some { IfOk result (λ made. upto ≤ from + length made.items) }
    ensures few { IfOk result (λ made. 3 * from + length made.items ≤ 3 * upto) }
    ensures long { length tails.new.items ≡ length writer.now.infos }
    ensures tails { AreTails writer.now commit.now now_ms.now tails.new.items }
{
    let changes = changes(commit);
    let mut made = Vec::with_capacity(alloc, upto - from)?;
    for change in from..upto {
        let stamp = Stamp {
            ordinal: ordinal + made.len() as u64,
            last: change + 1 == changes.len(),
        };
        add_change(
            &mut made,
            alloc,
            writer,
            commit,
            now_ms,
            tails,
            &stamp,
            &changes[change],
        )?;
    }
    Ok(made)
}

// The index after the next batch of changes.
fn next_place(change: usize, count: usize) -> usize
    requires { change ≤ count }
    ensures within { result ≤ count }
    ensures more { result ≡ change → change ≡ count }
    ensures not_before { change ≤ result }
    ensures few { result ≤ change + CHANGES_AT_ONCE }
{
    if count - change < CHANGES_AT_ONCE {
        count
    } else {
        change + CHANGES_AT_ONCE
    }
}

/// An absent tail for each table.
pub(crate) fn no_tails(alloc: Global, count: usize) -> Result<Vec<Option<Text>>, AllocError>
    ensures { IfOk result (λ tails. tails.items ≡ replicate count None) }
{
    let mut tails = Vec::with_capacity(alloc, count)?;
    for _table in 0..count {
        tails.push(None)?;
    }
    Ok(tails)
}

impl<'a> RecordsLeft<'a> {
    /// Makes the next batch of records, those of up to 6 changes of up to 3 records each. It is
    /// empty if and only if none is left. After an error the same records are left.
    pub fn next(&mut self, alloc: Global) -> Result<Vec<Record>, AllocError>
        ensures ok { IfOk result (λ made. self.old ≡ made.items ++ self.new) }
        ensures few { IfOk result (λ made. length made.items ≤ 18) }
        ensures end { IfOk result (λ made. made.items ≡ [] → self.old ≡ []) }
        ensures kept { OnErr result (self.new ≡ self.old) }
    {
        let upto = next_place(self.change, changes(self.commit).len());
        let made = some_records(
            alloc,
            self.writer,
            self.commit,
            &self.now_ms,
            &mut self.tails,
            self.change,
            upto,
            self.ordinal,
        )?;
        self.change = upto;
        self.ordinal += made.len() as u64;
        Ok(made)
    }
}

impl EventWriter {
    /// Starts making the records of a commit, batch by batch; `now_ms` is in milliseconds since
    /// 1970-01-01 UTC. A commit with a value equal to the placeholder is refused.
    pub fn records_left<'a>(
        &'a self,
        alloc: Global,
        commit: &'a Commit,
        now_ms: i64,
    ) -> Result<RecordsLeft<'a>, EnvelopeError>
        requires suits { All (Suits self.now.infos) (changes_of commit.now) }
        ensures ok { IfOk result
            (λ left. left ≡ envelopes self.now.identity self.now.infos commit.now now_ms) }
        ensures no_clash { OnOk result
            (clash_of self.now.identity self.now.infos commit.now ≡ None) }
        ensures err { IfErr result
            (IsClash (clash_of self.now.identity self.now.infos commit.now)) }
    {
        check(alloc, self, commit)?;
        Ok(RecordsLeft {
            writer: self,
            commit,
            now_ms,
            tails: no_tails(alloc, self.count())?,
            change: 0,
            ordinal: 0,
        })
    }

    /// Makes the records of a commit; `now_ms` is in milliseconds since 1970-01-01 UTC.
    pub fn records(
        &self,
        alloc: Global,
        commit: &Commit,
        now_ms: i64,
    ) -> Result<Vec<Record>, EnvelopeError>
        requires suits { All (Suits self.now.infos) (changes_of commit.now) }
        ensures ok { IfOk result
            (λ made. made.items ≡ envelopes self.now.identity self.now.infos commit.now now_ms) }
        ensures no_clash { OnOk result
            (clash_of self.now.identity self.now.infos commit.now ≡ None) }
        ensures err { IfErr result
            (IsClash (clash_of self.now.identity self.now.infos commit.now)) }
    {
        let mut left = self.records_left(alloc, commit, now_ms)?;
        let mut made = Vec::new(alloc);
        'left: loop {
            let mut more = left.next(alloc)?;
            if more.is_empty() {
                return Ok(made);
            }
            made.append(&mut more)?;
        }
    }
}
