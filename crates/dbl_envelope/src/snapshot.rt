//! The records of a snapshot's closed window.

ghost use Rattle.std.specs.Prelude.{◌≡◌, None, IfOk, IfErr, IfSome, OnOk, length, codes};
ghost use Rattle.dbl_model_table.specs.Infos.{width};
ghost use Rattle.dbl_model_event.specs.Clashes.{clash_at, rows_clash, snapshot_clash};
ghost use Rattle.dbl_model_event.specs.Snapshots.{AreInKeyOrder, read_record, read_records};
ghost use Rattle.dbl_model_event.specs.Snapshots.{chunk_records, snapshot};
ghost use Rattle.dbl_envelope.specs.Clashing.{IsClash, row_clash};
ghost use Rattle.dbl_envelope_json.specs.Frames.{Framed};
ghost use Rattle.dbl_envelope.specs.Suits.{SuitsRows, SuitsSnapshot};

use crate::clash::{refuse, row_clash};
use crate::error::EnvelopeError;
use crate::writer::EventWriter;
use dbl_base::Text;
use dbl_envelope_json::{
    Frame, Side, Stamp, key_json, plain_record, progress_record, tail_text, value_json,
};
use dbl_model_event::{Closed, KeyedRows};
use dbl_model_table::{Commit, Key, Row, TableInfo};
use dbl_record::Record;
use std::alloc::{AllocError, Global};

/// Checks that no value of the row equals the placeholder; else returns the first one.
fn check_row(
    alloc: Global,
    placeholder: &Text,
    info: &TableInfo,
    row: &Row,
) -> Result<(), EnvelopeError>
    ensures ok { OnOk result (row_clash placeholder.now info.now row.now ≡ None) }
    ensures err { IfErr result
        (IsClash (clash_at info.now (row_clash placeholder.now info.now row.now))) }
{
    let found = row_clash(alloc, placeholder, &info.columns, &row.cells)?;
    refuse(alloc, info, found)
}

/// Checks that no value of the rows equals the placeholder; else returns the first one.
fn check_rows(
    alloc: Global,
    placeholder: &Text,
    info: &TableInfo,
    rows: &KeyedRows,
) -> Result<(), EnvelopeError>
    ensures ok { OnOk result (rows_clash placeholder.now info.now rows.now ≡ None) }
    ensures err { IfErr result (IsClash (rows_clash placeholder.now info.now rows.now)) }
    ensures ordered { AreInKeyOrder rows.now }
{
    for (_, row) in rows.rows().iter() {
        match check_row(alloc, placeholder, info, row) {
            Ok(()) => {}
            Err(error) => return Err(error),
        }
    }
    Ok(())
}

/// The snapshot record of a row.
fn read_record(
    alloc: Global,
    frame: &Frame<'_>,
    ordinal: u64,
    key: &Key,
    row: &Row,
) -> Result<Record, AllocError>
    requires framed { Framed frame.now }
    requires snapshot { frame.now.snapshot.now ≡ codes "incremental" }
    requires long { length key.now.cells ≡ length frame.now.info.now.key }
    requires wide { length row.now.cells ≡ width frame.now.info.now }
    ensures { IfOk result (λ made. made ≡ read_record frame.now.identity.now frame.now.info.now
        frame.now.commit.now frame.now.now_ms.now ordinal
        (key.now, row.now)) }
{
    let after = Side::Row(&row.cells);
    let value = value_json(alloc, frame, &after, &Side::Nothing, "r")?;
    let key = key_json(alloc, frame, key)?;
    let stamp = Stamp {
        ordinal,
        last: false,
    };
    plain_record(alloc, frame, &stamp, Some(key), Some(value))
}

fn read_records(
    alloc: Global,
    frame: &Frame<'_>,
    rows: &KeyedRows,
) -> Result<Vec<Record>, AllocError>
    requires framed { Framed frame.now }
    requires snapshot { frame.now.snapshot.now ≡ codes "incremental" }
    requires suits { SuitsRows frame.now.info.now rows.now }
    ensures { IfOk result (λ made. made.items
        ≡ read_records frame.now.identity.now frame.now.info.now frame.now.commit.now
        frame.now.now_ms.now 0 rows.now) }
{
    let rows = rows.rows();
    let mut made = Vec::with_capacity(alloc, rows.len() + 1)?;
    for (key, row) in rows.iter() {
        let ordinal = made.len() as u64;
        made.push(read_record(alloc, frame, ordinal, key, row)?)?;
    }
    Ok(made)
}

fn chunk_records(
    alloc: Global,
    frame: &Frame<'_>,
    rows: &KeyedRows,
    through: &Option<Key>,
    done: bool,
) -> Result<Vec<Record>, AllocError>
    requires framed { Framed frame.now }
    requires snapshot { frame.now.snapshot.now ≡ codes "incremental" }
    requires suits { SuitsRows frame.now.info.now rows.now }
    requires long { IfSome through.now (λ key. length key.cells ≡ length frame.now.info.now.key) }
    ensures { IfOk result (λ made. made.items
        ≡ chunk_records frame.now.identity.now frame.now.info.now rows.now through.now done
        frame.now.commit.now frame.now.now_ms.now) }
{
    let mut made = read_records(alloc, frame, rows)?;
    let ordinal = made.len() as u64;
    made.push(progress_record(alloc, frame, ordinal, through, done)?)?;
    Ok(made)
}

impl EventWriter {
    /// Makes the snapshot records of a closed window in key order, then the progress record.
    /// `commit` is that of the window's high watermark, and `now_ms` is in milliseconds since
    /// 1970-01-01 UTC.
    pub fn snapshot(
        &self,
        alloc: Global,
        closed: &Closed,
        commit: &Commit,
        now_ms: i64,
    ) -> Result<Vec<Record>, EnvelopeError>
        requires suits { SuitsSnapshot self.now.infos closed.now }
        ensures ok { IfOk result (λ made.
            made.items ≡ snapshot self.now.identity self.now.infos closed.now commit.now now_ms) }
        ensures ordered { AreInKeyOrder closed.now.rows }
        ensures no_clash { OnOk result
            (snapshot_clash self.now.identity self.now.infos closed.now ≡ None) }
        ensures err { IfErr result
            (IsClash (snapshot_clash self.now.identity self.now.infos closed.now)) }
    {
        let table = closed.table as usize;
        let info = self.info_at(table);
        check_rows(alloc, &self.identity().placeholder, info, &closed.rows)?;
        let tail = tail_text(
            alloc,
            self.identity(),
            &info.name,
            commit,
            "incremental",
            &now_ms,
        )?;
        let frame = Frame {
            identity: self.identity(),
            info,
            layout: self.layout_at(table),
            commit,
            now_ms: &now_ms,
            snapshot: "incremental",
            tail: &tail,
        };
        Ok(chunk_records(alloc, &frame, &closed.rows, &closed.through, closed.done)?)
    }
}
