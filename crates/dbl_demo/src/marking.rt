//! A watermark: a commit of its own after a group of steps.

ghost use Rattle.std.specs.Prelude.{◌≡◌, ◌⊎◌, ◌<◌, ◌≤◌, ◌++◌, ◌∷◌, [], ℕ, List, length};
ghost use Rattle.std.specs.Prelude.{drop, false, Err, IsTrue, OnOk};
ghost use Rattle.dbl_base.specs.Streams.{FailsOnlyIfCounted};
ghost use Rattle.dbl_journal.specs.Growth.{ExtendsJournal};
ghost use Rattle.dbl_journal.specs.Stored.{LeavesEntries, Lists, count_of};
ghost use Rattle.dbl_demo_laws.specs.Answers.{RunsStepsAndWrites, AnswersNothing};
ghost use Rattle.dbl_demo_laws.specs.Calls.{LeavesFirst, mark_entries, next_end};
ghost use Rattle.dbl_demo_laws.specs.Running.{StaysKnown};
ghost use Rattle.dbl_disk.specs.Disks.{disk_limit};

use crate::DemoSource;
use dbl_base::Text;
use dbl_demo_journal::append;
use dbl_demo_wal::mark_entry;
use dbl_disk::Disk;
use dbl_source::SourceError;

impl<D: Disk> DemoSource<D> {
    // Appends the entry of a watermark. If it isn't appended no commit has its number.
    fn log_mark(&mut self, entry: Vec<u8>) -> Result<(), SourceError>
        requires live { IsTrue self.old.journal.live }
        requires dead { self.old.live ≡ false }
        requires room { 4 ≤ length entry.items }
        ensures added { (forms : List (List ℕ)) → Lists D.Disk self.old.journal forms
            → OnOk result (Lists D.Disk self.new.journal (forms ++ drop 4 entry.items ∷ [])) }
        ensures left { (forms : List (List ℕ)) → Lists D.Disk self.old.journal forms
            → LeavesEntries D.Disk self.new.journal.disk
            (λ left. (left ≡ forms) ⊎ (left ≡ forms ++ drop 4 entry.items ∷ [])) }
        ensures kept { (forms : List (List ℕ)) → Lists D.Disk self.old.journal forms
            → result ≡ Err SourceError.Memory → Lists D.Disk self.new.journal forms }
        ensures small { count_of self.old.journal < disk_limit }
        ensures commits { OnOk result
            (self.new.commits ≡ self.old.commits ++ count_of self.old.journal ∷ []) }
        ensures same { self.new ≡ record self.old {
          journal = self.new.journal;
          commits = self.new.commits;
        } }
        ensures live { OnOk result (IsTrue self.new.journal.live) }
        ensures comes { ExtendsJournal D.Disk self.old.journal self.new.journal }
        ensures cause { FailsOnlyIfCounted (result ≡ Err SourceError.Failed)
            (D.faults self.old.journal.disk) (D.faults self.new.journal.disk) }
        ensures steady { OnOk result
            (StaysKnown D.Disk self.old.journal.disk self.new.journal.disk) }
    {
        let number = self.journal.count();
        self.commits.push(number)?;
        if let Err(error) = append(&mut self.journal, entry) {
            self.commits.pop();
            return Err(error);
        }
        Ok(())
    }

    /// Writes a watermark in a commit of its own after the group.
    pub(crate) fn answer_mark(&mut self, value: &Text) -> Result<(), SourceError>
        requires live { IsTrue self.old.live }
        requires short { length value.now ≤ 64 }
        ensures added { RunsStepsAndWrites D.Disk
            (next_end self.old) (mark_entries value.now (next_end self.old))
            (AnswersNothing self.old) self.old self.new result }
        ensures starved { result ≡ Err SourceError.Memory
            → LeavesFirst D.Disk (next_end self.old) [] self.old self.new }
    {
        self.live = false;
        self.run_to_tick()?;
        let entry = mark_entry(self.alloc, self.done as u64, value)?;
        self.log_mark(entry)?;
        self.live = true;
        Ok(())
    }
}
