//! The entries of a log that is opened, compared with what the workload's steps commit.

ghost use Rattle.std.specs.Prelude.{◌≡◌, ◌↔◌, ◌+◌, ◌⊎◌, Err, IfOk};
ghost use Rattle.std.specs.Prelude.{IfErr, IfSome, OnOk, OnErr, IsTrue};
ghost use Rattle.dbl_demo_wal.specs.declared.entry.Entry.TheVariants.{Commits};
ghost use Rattle.dbl_demo_wal.specs.Entries.{entry_form};
ghost use Rattle.dbl_demo_workload.specs.Checking.{CanGoOn, Checks, ChecksAt};
ghost use Rattle.dbl_demo_workload.specs.Checking.{ChecksCommit, NextCommit, RanAlone};
ghost use Rattle.dbl_demo_workload.specs.Checking.{RunsTo, TakesConfirm, TakesMark};
ghost use Rattle.dbl_demo_workload.specs.Logs.{HasReadParts};
ghost use Rattle.dbl_demo_workload.specs.Steps.{FitAnEntry};

use crate::DemoError;
use crate::preparing::Prepared;
use crate::running::run_next;
use dbl_base::{Lsn, Seq};
use dbl_demo_wal::{Entry, EntryError, commit_entry, commit_steps, decode};
use dbl_journal::ENTRY_ROOM;
use dbl_pgmsg::Message;
use std::alloc::{AllocError, AllocFailed, Global};

/// The state after the entries so far: the workload, whose rows are `None` once their commit was
/// found, the number of its steps that were run, that of each commit's entry, and the confirmed
/// position.
#[derive(Drop)]
pub struct Checked {
    pub prepared: Prepared,
    pub done: usize,
    pub commits: Vec<u64>,
    pub confirmed: Lsn,
}

/// Why an entry isn't accepted.
#[derive(Clone, Copy)]
enum Doubt {
    /// The entry isn't what the workload commits.
    Bad,
    Memory,
}

impl From<AllocError> for Doubt {
    ghost use Rattle.std.specs.Prelude.{◌≡◌};
    ghost use Rattle.dbl_demo_workload.specs.declared.checking.Doubt.TheVariants.{Memory};

    ghost from_gives = { λ _ e. e ≡ Memory };

    fn from(_error: AllocError) -> Doubt {
        Doubt::Memory
    }
}

impl<T: Drop> From<AllocFailed<T>> for Doubt {
    ghost use Rattle.std.specs.Prelude.{◌≡◌};
    ghost use Rattle.dbl_demo_workload.specs.declared.checking.Doubt.TheVariants.{Memory};

    ghost from_gives = { λ _ e. e ≡ Memory };

    fn from(_error: AllocFailed<T>) -> Doubt {
        Doubt::Memory
    }
}

// Whether the entry is this commit's, byte for byte.
fn is_commit(alloc: Global, entry: &[u8], steps: u64, messages: &[Message]) -> Result<bool, Doubt>
    requires { FitAnEntry messages.now }
    ensures same { IfOk result (λ same.
        IsTrue same ↔ (entry.now ≡ entry_form (Commits steps messages.now))) }
    ensures memory { OnErr result (result ≡ Err Doubt.Memory) }
{
    let expected = commit_entry(alloc, steps, messages)?;
    Ok(&expected[ENTRY_ROOM..] == entry)
}

impl Checked {
    // Runs the steps up to the first so many, and returns what the last of them commits. If an
    // earlier one commits, the entry is bad, since the log doesn't have that commit.
    fn run_to(&mut self, steps: u64) -> Result<Option<Seq<Message>>, Doubt>
        requires { CanGoOn self.old }
        ensures runs { RunsTo steps self.old self.new result }
        ensures fits { IfOk result (λ committed. IfSome committed FitAnEntry) }
        ensures same { RanAlone self.old self.new }
        ensures goes { CanGoOn self.new }
    {
        let last = steps as usize;
        let all = self.prepared.steps.len();
        if last < self.done {
            return Err(Doubt::Bad);
        }
        if last > all {
            return Err(Doubt::Bad);
        }
        for number in self.done..last {
            let steps = self.prepared.steps.as_slice();
            let committed = run_next(&mut self.prepared.store, steps, number)?;
            self.done = number + 1;
            let is_last = number + 1 == last;
            if is_last {
                return Ok(committed);
            }
            if committed.is_some() {
                return Err(Doubt::Bad);
            }
        }
        Ok(None)
    }

    // The commit that the entry has to be, if it reports that so many steps were done with it.
    fn next_commit(&mut self, steps: u64) -> Result<Option<Seq<Message>>, Doubt>
        requires { CanGoOn self.old }
        ensures next { NextCommit steps self.old self.new result }
        ensures fits { IfOk result (λ committed. IfSome committed FitAnEntry) }
        ensures same { self.new.commits.items ≡ self.old.commits.items }
        ensures goes { CanGoOn self.new }
    {
        if self.prepared.rows.is_none() {
            return self.run_to(steps);
        }
        if steps > 0 {
            return Err(Doubt::Bad);
        }
        Ok(self.prepared.rows.take())
    }

    fn take_commit(
        &mut self,
        alloc: Global,
        number: u64,
        steps: u64,
        entry: &[u8],
    ) -> Result<(), Doubt>
        requires { HasReadParts number self.old }
        ensures checks { ChecksCommit number steps entry.now self.old self.new result }
        ensures parts { OnOk result (HasReadParts (number + 1) self.new) }
    {
        let Some(messages) = self.next_commit(steps)? else {
            return Err(Doubt::Bad);
        };
        if !is_commit(alloc, entry, steps, messages.items().as_slice())? {
            return Err(Doubt::Bad);
        }
        self.commits.push(number)?;
        Ok(())
    }

    fn take_mark(&mut self, number: u64, steps: u64) -> Result<(), Doubt>
        requires { HasReadParts number self.old }
        ensures takes { TakesMark number steps self.old self.new result }
        ensures parts { OnOk result (HasReadParts (number + 1) self.new) }
    {
        if self.prepared.rows.is_some() {
            return Err(Doubt::Bad);
        }
        if self.run_to(steps)?.is_some() {
            return Err(Doubt::Bad);
        }
        self.commits.push(number)?;
        Ok(())
    }

    // An equal position doesn't fall.
    fn take_confirm(&mut self, upto: Lsn) -> Result<(), Doubt>
        ensures takes { TakesConfirm upto self.old self.new result }
        ensures same { self.new ≡ record self.old { confirmed = self.new.confirmed } }
    {
        if self.prepared.rows.is_some() {
            return Err(Doubt::Bad);
        }
        if upto.0 < self.confirmed.0 {
            return Err(Doubt::Bad);
        }
        self.confirmed = upto;
        Ok(())
    }

    fn take_entry(&mut self, alloc: Global, number: u64, entry: &[u8]) -> Result<(), Doubt>
        requires { HasReadParts number self.old }
        ensures checks { ChecksAt number entry.now self.old self.new result }
        ensures parts { OnOk result (HasReadParts (number + 1) self.new) }
    {
        if let Some(steps) = commit_steps(entry) {
            return self.take_commit(alloc, number, steps, entry);
        }
        match decode(alloc, entry) {
            Ok(Entry::Marks { steps, value: _ }) => self.take_mark(number, steps),
            Ok(Entry::Confirms { upto }) => self.take_confirm(upto),
            Ok(Entry::Commits { .. }) => Err(Doubt::Bad),
            Err(EntryError::Bad) => Err(Doubt::Bad),
            Err(EntryError::Memory) => Err(Doubt::Memory),
        }
    }

    /// Accepts the entry with this number, or returns that it is bad.
    pub(crate) fn take(&mut self, alloc: Global, number: u64, entry: &[u8]) -> Result<(), DemoError>
        requires { HasReadParts number self.old }
        ensures checks { Checks number entry.now self.old self.new result }
        ensures parts { OnOk result (HasReadParts (number + 1) self.new) }
        ensures kinds { IfErr result (λ e. (e ≡ DemoError.Memory)
            ⊎ (e ≡ DemoError.BadEntry number)) }
    {
        match self.take_entry(alloc, number, entry) {
            Ok(()) => Ok(()),
            Err(Doubt::Bad) => Err(DemoError::BadEntry { index: number }),
            Err(Doubt::Memory) => Err(DemoError::Memory),
        }
    }
}
