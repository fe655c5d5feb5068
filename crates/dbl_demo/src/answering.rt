//! The part of a call after its group of steps. The source is live again only once the call
//! answers.

ghost use Rattle.std.specs.Prelude.{◌≡◌, ◌<◌, [], length, None, false, option_map, option_and_then};
ghost use Rattle.std.specs.Prelude.{slice_get, IsTrue, IfSome, IfOk, IfErr};
ghost use Rattle.std.specs.List.{position_from};
ghost use Rattle.dbl_model_table.specs.Tables.{same_name};
ghost use Rattle.dbl_source_model.specs.ModelHistory.History.{entry_of};
ghost use Rattle.dbl_source_log.specs.Histories.{history_of};
ghost use Rattle.dbl_demo_laws.specs.Answers.{RunsStepsAndWrites, AddsRead};
ghost use Rattle.dbl_demo_laws.specs.Answers.{AnswersEntry, AnswersHead, AnswersStart};
ghost use Rattle.dbl_demo_laws.specs.Calls.{next_end};

use crate::DemoSource;
use dbl_base::{Bytes, Lsn};
use dbl_disk::Disk;
use dbl_model_table::{RawTable, TableName};
use dbl_source::SourceError;
use dbl_source_log::{LogTable, ReaderPosition, lsn_of};
use dbl_source_model::Started;

fn place_named(tables: &[LogTable], name: &TableName) -> Option<usize>
    ensures place { result
        ≡ position_from (λ table. same_name table.raw.name name.now) 0 tables.now }
    ensures within { IfSome result (λ place. place < length tables.now) }
{
    tables.iter().position(|table| table.raw.name == *name)
}

impl<D: Disk> DemoSource<D> {
    // The index of the table of this name. The table of the watermarks has none.
    fn place_of(&self, name: &TableName) -> Option<usize>
        ensures entry { option_map (λ table. table.raw)
            (option_and_then (slice_get self.now.tables) result) ≡
            entry_of (history_of self.now.tables []) name.now }
        ensures within { IfSome result (λ place. place < length self.now.tables) }
    {
        if name.is_watermark() {
            return None;
        }
        place_named(self.tables.as_slice(), name)
    }

    fn entry_at(&self, name: &TableName) -> Result<Option<RawTable>, SourceError>
        ensures entry { IfOk result (λ entry. entry ≡
            entry_of (history_of self.now.tables []) name.now) }
        ensures memory { IfErr result (λ e. e ≡ SourceError.Memory) }
    {
        let Some(place) = self.place_of(name) else {
            return Ok(None);
        };
        let entry = self.tables[place].raw.copy(self.alloc)?;
        Ok(Some(entry))
    }

    /// Describes the table of this name.
    pub(crate) fn answer_describe(
        &mut self,
        name: &TableName,
    ) -> Result<Option<RawTable>, SourceError>
        requires { IsTrue self.old.live }
        ensures { RunsStepsAndWrites D.Disk (next_end self.old) []
            (AnswersEntry name.now self.old) self.old self.new result }
    {
        self.live = false;
        self.run_to_tick()?;
        let entry = self.entry_at(name)?;
        self.live = true;
        Ok(entry)
    }

    /// The position of the last commit after the group.
    pub(crate) fn answer_head(&mut self) -> Result<Lsn, SourceError>
        requires { IsTrue self.old.live }
        ensures { RunsStepsAndWrites D.Disk (next_end self.old) []
            (AnswersHead self.old) self.old self.new result }
    {
        self.live = false;
        self.run_to_tick()?;
        // For the prover alone: a journal has fewer than 2^40 entries, and its log no more commits.
        let _entries = self.journal.count();
        self.live = true;
        Ok(lsn_of(self.commits.len() as u64))
    }

    // Clears the tables that were described to an earlier reader, and the commit that it was
    // reading.
    fn forget_reader(&mut self)
        ensures undescribed { self.new.described ≡ [] }
        ensures same { self.new ≡ record self.old {
          described = self.new.described;
          held = None;
          ended = false;
        } }
    {
        self.held = None;
        self.described.clear();
        self.ended = false;
    }

    /// Starts a reader. The log is gone if and only if the LSN is below the confirmed position.
    pub(crate) fn answer_start(&mut self, after: Lsn) -> Result<Started, SourceError>
        requires { IsTrue self.old.live }
        ensures { RunsStepsAndWrites D.Disk (next_end self.old) []
            (AnswersStart after self.old) self.old self.new result }
    {
        self.live = false;
        self.run_to_tick()?;
        self.forget_reader();
        self.live = true;
        if after.0 < self.confirmed.0 {
            self.place = None;
            return Ok(Started::Gone {
                first: self.confirmed,
            });
        }
        self.place = Some(ReaderPosition {
            after,
            commits: 0,
            begun: false,
            change: 0,
            table: 0,
        });
        Ok(Started::Ready)
    }

    /// The next message, after running groups until there is one or no step is left.
    pub(crate) fn answer_read(&mut self) -> Result<Option<Bytes>, SourceError>
        requires { IsTrue self.old.live }
        ensures { AddsRead D.Disk self.old self.new result }
    {
        self.live = false;
        self.run_to_unread_commit()?;
        let read = self.next_bytes()?;
        self.ended = read.is_none();
        self.live = true;
        Ok(read)
    }
}
