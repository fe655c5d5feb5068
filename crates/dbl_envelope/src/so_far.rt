//! The records of a transaction that is still open.

ghost use Rattle.std.specs.Prelude.{◌≡◌, ◌<◌, ℕ, ℤ, [], None, IfOk, IfErr, OnOk, length};
ghost use Rattle.dbl_model_table.specs.declared.change.Head.{Head as SpecHead};
ghost use Rattle.dbl_model_table.specs.Heads.{commit_so_far};
ghost use Rattle.dbl_envelope.specs.Clashing.{IsClash, notices_clash};
ghost use Rattle.dbl_envelope.specs.SoFar.{HasMadeRecords, HasTails, AppendsRecords};
ghost use Rattle.dbl_envelope.specs.Suits.{Suits};

use crate::clash::check_change;
use crate::error::EnvelopeError;
use crate::left::{add_change, no_tails};
use crate::writer::EventWriter;
use dbl_base::{Seq, Text};
use dbl_envelope_json::Stamp;
use dbl_model_table::{Body, Change, Commit, Head};
use dbl_record::Record;
use std::alloc::{AllocError, Global};

/// The records of a transaction that is still open, made change by change. It numbers them, and
/// keeps the text that all records of a table share.
#[derive(Drop)]
pub struct OpenRecords {
    // the transaction's Begin as a commit without changes, of which the records show no more
    commit: Commit,
    now_ms: i64,
    // the tails of the tables that needed one so far
    tails: Vec<Option<Text>>,
    // the number of records made
    ordinal: u64,
}

fn commit_so_far(alloc: Global, head: &Head) -> Commit
    ensures { result ≡ commit_so_far head.now [] }
{
    Commit {
        lsn: head.lsn,
        end_lsn: head.lsn,
        time: head.time,
        xid: head.xid,
        body: Body::Changes(Seq::make(Vec::new(alloc))),
    }
}

impl OpenRecords {
    /// Begins the records of a transaction; `now_ms` is in milliseconds since 1970-01-01 UTC.
    pub fn make(
        alloc: Global,
        writer: &EventWriter,
        head: &Head,
        now_ms: i64,
    ) -> Result<OpenRecords, AllocError>
        ensures { IfOk result (HasMadeRecords writer.now head.now now_ms 0) }
    {
        Ok(OpenRecords {
            commit: commit_so_far(alloc, head),
            now_ms,
            tails: no_tails(alloc, writer.count())?,
            ordinal: 0,
        })
    }

    /// Appends the records of the next change, the last of them marked as the last of its commit. A
    /// change with a value equal to the placeholder is refused. More than 2^64 - 4 records count as
    /// out of memory. After an error it must not be used any more.
    pub fn append(
        &mut self,
        alloc: Global,
        writer: &EventWriter,
        change: &Change,
        out: &mut Vec<Record>,
    ) -> Result<(), EnvelopeError>
        requires suits { Suits writer.now.infos change.now }
        requires tails { HasTails writer.now self.old }
        ensures made { (head : SpecHead) (now : ℤ) (made : ℕ) →
            HasMadeRecords writer.now head now made self.old →
            OnOk result (AppendsRecords writer.now head now made change.now out.old.items
            out.new.items self.new) }
        ensures some { OnOk result (length out.old.items < length out.new.items) }
        ensures no_clash { OnOk result
            (notices_clash writer.now.identity.placeholder writer.now.infos change.now ≡ None) }
        ensures err { IfErr result
            (IsClash (notices_clash writer.now.identity.placeholder writer.now.infos change.now)) }
    {
        check_change(alloc, writer, change)?;
        if self.ordinal > u64::MAX - 3 {
            return Err(EnvelopeError::Memory);
        }
        let stamp = Stamp {
            ordinal: self.ordinal,
            last: true,
        };
        let before = out.len();
        add_change(
            out,
            alloc,
            writer,
            &self.commit,
            &self.now_ms,
            &mut self.tails,
            &stamp,
            change,
        )?;
        self.ordinal += (out.len() - before) as u64;
        Ok(())
    }
}
