//! A confirmed position, which is written if it rises.

ghost use Rattle.std.specs.Prelude.{◌≡◌, ◌⊎◌, ◌<◌, ◌≤◌, ◌++◌, ◌∷◌, [], ℕ, List, length};
ghost use Rattle.std.specs.Prelude.{drop, false, Err, IsTrue, OnOk};
ghost use Rattle.dbl_base.specs.Streams.{FailsOnlyIfCounted};
ghost use Rattle.dbl_journal.specs.Growth.{ExtendsJournal};
ghost use Rattle.dbl_journal.specs.Stored.{LeavesEntries, Lists, count_of};
ghost use Rattle.dbl_demo_laws.specs.Answers.{RunsStepsAndWrites, AnswersNothing};
ghost use Rattle.dbl_demo_laws.specs.Calls.{LeavesFirst, confirm_of, next_end};
ghost use Rattle.dbl_demo_laws.specs.Running.{StaysKnown};
ghost use Rattle.dbl_disk.specs.Disks.{disk_limit};

use crate::DemoSource;
use dbl_base::Lsn;
use dbl_demo_journal::append;
use dbl_demo_wal::confirm_entry;
use dbl_disk::Disk;
use dbl_source::SourceError;

impl<D: Disk> DemoSource<D> {
    fn log_confirm(&mut self, entry: Vec<u8>, upto: Lsn) -> Result<(), SourceError>
        requires live { IsTrue self.old.journal.live }
        requires dead { self.old.live ≡ false }
        requires room { 4 ≤ length entry.items }
        ensures added { (forms : List (List ℕ)) → Lists D.Disk self.old.journal forms
            → OnOk result (Lists D.Disk self.new.journal (forms ++ drop 4 entry.items ∷ [])) }
        ensures left { (forms : List (List ℕ)) → Lists D.Disk self.old.journal forms
            → LeavesEntries D.Disk self.new.journal.disk
            (λ left. (left ≡ forms) ⊎ (left ≡ forms ++ drop 4 entry.items ∷ [])) }
        ensures kept { (forms : List (List ℕ)) → Lists D.Disk self.old.journal forms
            → result ≡ Err SourceError.Memory → Lists D.Disk self.new.journal forms }
        ensures small { count_of self.old.journal < disk_limit }
        ensures confirmed { OnOk result (self.new.confirmed ≡ upto) }
        ensures same { self.new ≡ record self.old {
          journal = self.new.journal;
          confirmed = self.new.confirmed;
        } }
        ensures live { OnOk result (IsTrue self.new.journal.live) }
        ensures comes { ExtendsJournal D.Disk self.old.journal self.new.journal }
        ensures cause { FailsOnlyIfCounted (result ≡ Err SourceError.Failed)
            (D.faults self.old.journal.disk) (D.faults self.new.journal.disk) }
        ensures steady { OnOk result
            (StaysKnown D.Disk self.old.journal.disk self.new.journal.disk) }
    {
        // For the prover alone: a journal has fewer than 2^40 entries.
        let _entries = self.journal.count();
        append(&mut self.journal, entry)?;
        self.confirmed = upto;
        Ok(())
    }

    /// Confirms a position. One that doesn't rise isn't appended.
    pub(crate) fn answer_confirm(&mut self, upto: Lsn) -> Result<(), SourceError>
        requires { IsTrue self.old.live }
        ensures added { RunsStepsAndWrites D.Disk
            (next_end self.old) (confirm_of self.old.confirmed upto)
            (AnswersNothing self.old) self.old self.new result }
        ensures starved { result ≡ Err SourceError.Memory
            → LeavesFirst D.Disk (next_end self.old) [] self.old self.new }
    {
        self.live = false;
        self.run_to_tick()?;
        if upto.0 <= self.confirmed.0 {
            self.live = true;
            return Ok(());
        }
        let entry = confirm_entry(self.alloc, upto)?;
        self.log_confirm(entry, upto)?;
        self.live = true;
        Ok(())
    }
}
