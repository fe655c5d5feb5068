//! Groups of steps that a call runs, and the commits that they add to the log.

ghost use Rattle.std.specs.Prelude.{◌≡◌, ◌<◌, ◌≤◌, ◌+◌, Err, [], false, length};
ghost use Rattle.std.specs.Prelude.{IfOk, OnOk, IsTrue, slice_get, Some, ◌⊎◌, true};
ghost use Rattle.dbl_base.specs.Streams.{FailsOnlyIfCounted};
ghost use Rattle.dbl_journal.specs.Growth.{ExtendsJournal};
ghost use Rattle.dbl_journal.specs.Stored.{count_of};
ghost use Rattle.dbl_source_log.specs.declared.reader_position.ReaderPosition.{ReaderPosition};
ghost use Rattle.dbl_demo_wal.specs.declared.entry.Entry.TheVariants.{Commits};
ghost use Rattle.dbl_demo_wal.specs.Entries.{FitsWalEntry};
ghost use Rattle.dbl_script.specs.declared.script.Step.{Step};
ghost use Rattle.dbl_demo_wal.specs.Wals.{Wal};
ghost use Rattle.dbl_demo_laws.specs.Calls.{next_end};
ghost use Rattle.dbl_demo_laws.specs.Demo.{IsRunning};
ghost use Rattle.dbl_demo_laws.specs.Reading.{has_unread, IsLogged, LeavesLogged};
ghost use Rattle.dbl_demo_laws.specs.Reading.{LeavesReadRun, RanOn};
ghost use Rattle.dbl_demo_laws.specs.Running.{IsRunOf, LeavesRun, Ran, StaysKnown};
ghost use Rattle.dbl_demo_workload.specs.Steps.{FitAnEntry, is_tick};
ghost use Rattle.dbl_disk.specs.Disks.{disk_limit};

use crate::DemoSource;
use dbl_base::Seq;
use dbl_demo_journal::append;
use dbl_demo_wal::commit_entry;
use dbl_demo_workload::{is_tick, run_next};
use dbl_disk::Disk;
use dbl_pgmsg::Message;
use dbl_source::SourceError;
use dbl_source_log::commits_upto;

impl<D: Disk> DemoSource<D> {
    fn log_commit(&mut self, messages: Seq<Message>) -> Result<(), SourceError>
        requires live { IsTrue self.old.journal.live }
        requires dead { self.old.live ≡ false }
        requires fits { FitAnEntry messages }
        ensures logged { OnOk result (IsLogged D.Disk messages self.old self.new) }
        ensures left { LeavesLogged D.Disk messages self.old self.new }
        ensures entry { FitsWalEntry (Commits self.old.done messages) }
        ensures small { count_of self.old.journal < disk_limit }
        ensures live { OnOk result (IsTrue self.new.journal.live) }
        ensures same { IsRunOf self.old self.new }
        ensures stays { (self.new.done ≡ self.old.done) × (self.new.store ≡ self.old.store) }
        ensures comes { ExtendsJournal D.Disk self.old.journal self.new.journal }
        ensures cause { FailsOnlyIfCounted (result ≡ Err SourceError.Failed)
            (D.faults self.old.journal.disk) (D.faults self.new.journal.disk) }
        ensures steady { OnOk result
            (StaysKnown D.Disk self.old.journal.disk self.new.journal.disk) }
    {
        let number = self.journal.count();
        let entry = commit_entry(self.alloc, self.done as u64, messages.items().as_slice())?;
        append(&mut self.journal, entry)?;
        self.commits.push(number)?;
        Ok(())
    }

    // Runs the next step. Returns whether it ends a group.
    fn run_one(&mut self) -> Result<bool, SourceError>
        requires live { IsTrue self.old.journal.live }
        requires dead { self.old.live ≡ false }
        requires left { self.old.done < length self.old.steps }
        ensures ran { (wal : Wal) → IsRunning D.Disk wal self.old
            → OnOk result (Ran D.Disk wal (self.old.done + 1) [] self.old self.new) }
        ensures crash { (wal : Wal) → IsRunning D.Disk wal self.old
            → LeavesRun D.Disk wal (self.old.done + 1) [] self.old self.new }
        ensures ends { IfOk result (λ ends. (step : Step)
            → slice_get self.old.steps self.old.done ≡ Some step → ends ≡ is_tick step) }
        ensures one { OnOk result (self.new.done ≡ self.old.done + 1) }
        ensures live { OnOk result (IsTrue self.new.journal.live) }
        ensures same { IsRunOf self.old self.new }
        ensures comes { ExtendsJournal D.Disk self.old.journal self.new.journal }
        ensures cause { FailsOnlyIfCounted (result ≡ Err SourceError.Failed)
            (D.faults self.old.journal.disk) (D.faults self.new.journal.disk) }
        ensures steady { OnOk result
            (StaysKnown D.Disk self.old.journal.disk self.new.journal.disk) }
    {
        let ends = is_tick(&self.steps[self.done]);
        let committed = run_next(&mut self.store, self.steps.as_slice(), self.done)?;
        self.done += 1;
        if let Some(messages) = committed {
            self.log_commit(messages)?;
        }
        Ok(ends)
    }

    /// Runs the steps up to and with the next `tick`, or up to the end.
    pub(crate) fn run_to_tick(&mut self) -> Result<(), SourceError>
        requires live { IsTrue self.old.journal.live }
        requires dead { self.old.live ≡ false }
        ensures ran { (wal : Wal) → IsRunning D.Disk wal self.old
            → OnOk result (Ran D.Disk wal (next_end self.old) [] self.old self.new) }
        ensures crash { (wal : Wal) → IsRunning D.Disk wal self.old
            → LeavesRun D.Disk wal (next_end self.old) [] self.old self.new }
        ensures end { OnOk result (self.new.done ≡ next_end self.old) }
        ensures live { OnOk result (IsTrue self.new.journal.live) }
        ensures same { IsRunOf self.old self.new }
        ensures comes { ExtendsJournal D.Disk self.old.journal self.new.journal }
        ensures cause { FailsOnlyIfCounted (result ≡ Err SourceError.Failed)
            (D.faults self.old.journal.disk) (D.faults self.new.journal.disk) }
        ensures steady { OnOk result
            (StaysKnown D.Disk self.old.journal.disk self.new.journal.disk) }
    {
        'steps: while self.done < self.steps.len() {
            if self.run_one()? {
                return Ok(());
            }
        }
        Ok(())
    }

    fn has_unread(&self) -> bool
        ensures { result ≡ has_unread self.now.place (length self.now.commits) }
    {
        match self.place {
            Some(place) => commits_upto(place.after) + place.commits < self.commits.len(),
            None => false,
        }
    }

    /// Runs at least one group of steps, and more until there is a commit to be read or no step is
    /// left.
    pub(crate) fn run_to_unread_commit(&mut self) -> Result<(), SourceError>
        requires live { IsTrue self.old.journal.live }
        requires dead { self.old.live ≡ false }
        ensures ran { (wal : Wal) (place : ReaderPosition) → IsRunning D.Disk wal self.old
            → self.old.place ≡ Some place
            → OnOk result (RanOn D.Disk wal place self.old self.new) }
        ensures crash { (wal : Wal) (place : ReaderPosition) → IsRunning D.Disk wal self.old
            → self.old.place ≡ Some place
            → LeavesReadRun D.Disk wal place self.old self.new }
        ensures end { OnOk result
            ((has_unread self.new.place (length self.new.commits) ≡ true)
            ⊎ (length self.new.steps ≤ self.new.done)) }
        ensures live { OnOk result (IsTrue self.new.journal.live) }
        ensures same { IsRunOf self.old self.new }
        ensures comes { ExtendsJournal D.Disk self.old.journal self.new.journal }
        ensures cause { FailsOnlyIfCounted (result ≡ Err SourceError.Failed)
            (D.faults self.old.journal.disk) (D.faults self.new.journal.disk) }
        ensures steady { OnOk result
            (StaysKnown D.Disk self.old.journal.disk self.new.journal.disk) }
    {
        self.run_to_tick()?;
        'groups: while self.done < self.steps.len() {
            if self.has_unread() {
                return Ok(());
            }
            self.run_to_tick()?;
        }
        Ok(())
    }
}
