//! The next message of the log. The entry of a commit is read once from the disk.

ghost use Rattle.std.specs.Prelude.{◌≡◌, ◌⊎◌, ◌<◌, ℕ, List, None, Some, Err, IfOk, IsTrue};
ghost use Rattle.std.specs.Prelude.{slice_get, IfErr, OnOk, IsSome, is_some, false, length};
ghost use Rattle.dbl_base.specs.Streams.{FailsOnlyIfCounted};
ghost use Rattle.dbl_source_log.specs.declared.reader_position.ReaderPosition.{ReaderPosition};
ghost use Rattle.dbl_source_log.specs.Sent.{index_of};
ghost use Rattle.dbl_journal.specs.Growth.{ExtendsJournal};
ghost use Rattle.dbl_journal.specs.Stored.{count_of};
ghost use Rattle.dbl_demo_wal.specs.declared.entry.Entry.{Entry};
ghost use Rattle.dbl_demo_wal.specs.Entries.{EncodesEntry};
ghost use Rattle.dbl_demo_wal.specs.Sound.{logged_by, logged_in};
ghost use Rattle.dbl_demo_wal.specs.Wals.{Wal};
ghost use Rattle.dbl_demo_laws.specs.Demo.{IsRunning};
ghost use Rattle.dbl_demo_laws.specs.Reading.{CachesCommit, ReadsNext, has_unread};
ghost use Rattle.dbl_demo_laws.specs.Running.{StaysKnown};
ghost use Rattle.dbl_disk.specs.Disks.{disk_limit};

use crate::DemoSource;
use dbl_base::Bytes;
use dbl_demo_journal::entry;
use dbl_demo_wal::{Entry, EntryError, decode};
use dbl_disk::Disk;
use dbl_source::{SourceError, next_step, remember};
use dbl_source_log::{Logged, ReaderPosition, commits_upto};
use std::alloc::Global;

// 2^40: a journal has fewer entries, and its log no more commits.
const MOST_COMMITS: usize = 1_099_511_627_776;

// The commit that these bytes encode, or none if they are another entry.
fn commit_in(alloc: Global, bytes: &[u8]) -> Result<Option<Logged>, SourceError>
    ensures commit { IfOk result (λ read. (entry : Entry)
        → EncodesEntry bytes.now entry → read ≡ logged_by entry) }
    ensures memory { IfErr result (λ e. e ≡ SourceError.Memory) }
{
    match decode(alloc, bytes) {
        Ok(Entry::Commits { steps: _, messages }) => Ok(Some(Logged::Changes(messages))),
        Ok(Entry::Marks { steps: _, value }) => Ok(Some(Logged::Mark(value))),
        Ok(Entry::Confirms { upto: _ }) => Ok(None),
        Err(EntryError::Bad) => Ok(None),
        Err(EntryError::Memory) => Err(SourceError::Memory),
    }
}

// Drops the cached commit once it was read whole.
fn keep_held(held: &mut Option<Logged>, whole: bool)
    ensures { (held.new ≡ None) ⊎ ((held.new ≡ held.old) × (whole ≡ false)) }
{
    if whole {
        *held = None;
    }
}

impl<D: Disk> DemoSource<D> {
    // Reads the commit of the entry with this number, unless it is cached. From a disk that changes
    // its contents, bytes that are no commit are returned as they are.
    fn cache_commit(&mut self, number: u64) -> Result<Option<Bytes>, SourceError>
        requires live { IsTrue self.old.journal.live }
        requires within { number < count_of self.old.journal }
        ensures held { (wal : Wal) (place : ReaderPosition) → IsRunning D.Disk wal self.old
            → self.old.place ≡ Some place
            → slice_get self.old.commits (index_of place) ≡ Some number
            → IfOk result (λ other. (other ≡ None) × IsRunning D.Disk wal self.new
            × (self.new.held ≡ slice_get (logged_in wal.entries) (index_of place))) }
        ensures some { IfOk result (λ other. other ≡ None → IsSome self.new.held) }
        ensures same { CachesCommit self.old self.new }
        ensures live { self.new.journal.live ≡ self.old.journal.live }
        ensures count { count_of self.new.journal ≡ count_of self.old.journal }
        ensures crash { (crashed : List ℕ) → D.may_leave self.new.journal.disk crashed
            → D.may_leave self.old.journal.disk crashed }
        ensures comes { ExtendsJournal D.Disk self.old.journal self.new.journal }
        ensures cause { FailsOnlyIfCounted (result ≡ Err SourceError.Failed)
            (D.faults self.old.journal.disk) (D.faults self.new.journal.disk) }
        ensures steady { OnOk result
            (StaysKnown D.Disk self.old.journal.disk self.new.journal.disk) }
    {
        if self.held.is_some() {
            return Ok(None);
        }
        let bytes = entry(&mut self.journal, self.alloc, number)?;
        let Some(logged) = commit_in(self.alloc, bytes.items().as_slice())? else {
            return Ok(Some(bytes));
        };
        self.held = Some(logged);
        Ok(None)
    }

    // The next message of the cached commit, after which the reader is then. Each one can be
    // encoded, so only memory can run out.
    fn step_on(&mut self, place: ReaderPosition, index: usize) -> Result<Option<Bytes>, SourceError>
        requires index { index ≡ index_of place }
        requires small { index < disk_limit }
        ensures read { (wal : Wal) → IsRunning D.Disk wal self.old → self.old.place ≡ Some place
            → self.old.held ≡ slice_get (logged_in wal.entries) index → IsSome self.old.held
            → IfOk result (ReadsNext D.Disk wal place self.new) }
        ensures some { IsSome self.old.held → IfOk result IsSome }
        ensures reading { IsSome self.old.place → IsSome self.new.place }
        ensures same { self.new ≡ record self.old {
          place = self.new.place;
          described = self.new.described;
          held = self.new.held;
        } }
        ensures memory { IfErr result (λ e. e ≡ SourceError.Memory) }
    {
        let Some(held) = &self.held else {
            return Ok(None);
        };
        let Ok(next) = next_step(
            self.alloc,
            &self.tables,
            held,
            &self.described,
            place,
            index as u64 + 1,
        ) else {
            return Err(SourceError::Memory);
        };
        // No reader of a log has passed so many commits.
        if next.place.commits > MOST_COMMITS {
            return Ok(Some(next.bytes));
        }
        remember(&mut self.described, next.described)?;
        keep_held(&mut self.held, next.place.commits != place.commits);
        self.place = Some(next.place);
        Ok(Some(next.bytes))
    }

    /// The next message of the log, after which the reader is then; none if nothing is left.
    pub(crate) fn next_bytes(&mut self) -> Result<Option<Bytes>, SourceError>
        requires { IsTrue self.old.journal.live }
        ensures read { (wal : Wal) (place : ReaderPosition) → IsRunning D.Disk wal self.old
            → self.old.place ≡ Some place
            → IfOk result (ReadsNext D.Disk wal place self.new) }
        ensures reading { is_some self.new.place ≡ is_some self.old.place }
        // None is returned only if the reader has read each commit whole.
        ensures none { IfOk result (λ read. read ≡ None
            → has_unread self.old.place (length self.old.commits) ≡ false) }
        ensures same { self.new ≡ record self.old {
          journal = self.new.journal;
          place = self.new.place;
          described = self.new.described;
          held = self.new.held;
        } }
        ensures live { self.new.journal.live ≡ self.old.journal.live }
        ensures crash { (crashed : List ℕ) → D.may_leave self.new.journal.disk crashed
            → D.may_leave self.old.journal.disk crashed }
        ensures comes { ExtendsJournal D.Disk self.old.journal self.new.journal }
        ensures cause { FailsOnlyIfCounted (result ≡ Err SourceError.Failed)
            (D.faults self.old.journal.disk) (D.faults self.new.journal.disk) }
        ensures steady { OnOk result
            (StaysKnown D.Disk self.old.journal.disk self.new.journal.disk) }
    {
        let Some(place) = self.place else {
            return Ok(None);
        };
        // For the prover alone: a journal has fewer than 2^40 entries, and its log no more commits.
        let _entries = self.journal.count();
        let index = commits_upto(place.after) + place.commits;
        let Some(number) = self.commits.get(index).copied() else {
            return Ok(None);
        };
        if let Some(other) = self.cache_commit(number)? {
            return Ok(Some(other));
        }
        self.step_on(place, index)
    }
}
