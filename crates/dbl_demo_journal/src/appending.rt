//! An entry that is built and appended to the journal, or read from it.

ghost use Rattle.std.specs.Prelude.{◌≡◌, ◌≢◌, ◌⊎◌, ◌+◌, ◌<◌, ◌≤◌, ◌++◌, ◌∷◌, [], ℕ, List, length};
ghost use Rattle.std.specs.Prelude.{drop, slice_get, Some, Err, IsTrue, IfOk, OnErr, OnOk};
ghost use Rattle.dbl_base.specs.Streams.{FailsOnlyIfCounted};
ghost use Rattle.dbl_journal.specs.Growth.{ExtendsJournal};
ghost use Rattle.dbl_journal.specs.Stored.{LeavesEntries, Lists, count_of};
ghost use Rattle.dbl_demo_journal.specs.Errors.{source_error};
ghost use Rattle.dbl_demo_laws.specs.Running.{StaysKnown};

use dbl_base::Bytes;
use dbl_disk::Disk;
use dbl_journal::{Journal, JournalError};
use dbl_source_log::SourceError;
use std::alloc::Global;

// The error of appending an entry that isn't too long to an open journal.
fn source_error(error: JournalError) -> SourceError
    ensures { result ≡ source_error error }
{
    match error {
        JournalError::Failed => SourceError::Failed,
        _ => SourceError::Memory,
    }
}

/// Appends the entry in a buffer that has room for its length in front.
pub fn append<D: Disk>(journal: &mut Journal<D>, entry: Vec<u8>) -> Result<(), SourceError>
    requires live { IsTrue journal.old.live }
    requires room { 4 ≤ length entry.items }
    ensures added { (forms : List (List ℕ)) → Lists D.Disk journal.old forms
        → OnOk result (Lists D.Disk journal.new (forms ++ drop 4 entry.items ∷ [])) }
    ensures left { (forms : List (List ℕ)) → Lists D.Disk journal.old forms
        → LeavesEntries D.Disk journal.new.disk
        (λ left. (left ≡ forms) ⊎ (left ≡ forms ++ drop 4 entry.items ∷ [])) }
    // If memory runs out nothing is appended.
    ensures kept { (forms : List (List ℕ)) → Lists D.Disk journal.old forms
        → result ≡ Err SourceError.Memory → Lists D.Disk journal.new forms }
    // A journal that failed can't be used any more; if memory ran out it is unchanged.
    ensures stays { OnErr result (IsTrue journal.new.live → journal.new ≡ journal.old) }
    ensures live { OnOk result (IsTrue journal.new.live) }
    ensures count { OnOk result (count_of journal.new ≡ count_of journal.old + 1) }
    ensures comes { ExtendsJournal D.Disk journal.old journal.new }
    ensures cause { FailsOnlyIfCounted (result ≡ Err SourceError.Failed)
        (D.faults journal.old.disk) (D.faults journal.new.disk) }
    ensures steady { result ≢ Err SourceError.Failed
        → StaysKnown D.Disk journal.old.disk journal.new.disk }
{
    match journal.append_built(entry) {
        Ok(()) => Ok(()),
        Err(error) => Err(source_error(error)),
    }
}

/// The contents of the entry with this number.
pub fn entry<D: Disk>(
    journal: &mut Journal<D>,
    alloc: Global,
    number: u64,
) -> Result<Bytes, SourceError>
    requires live { IsTrue journal.old.live }
    requires within { number < count_of journal.old }
    ensures found { (forms : List (List ℕ)) → Lists D.Disk journal.old forms
        → IfOk result (λ bytes. slice_get forms number ≡ Some bytes) }
    ensures lists { (forms : List (List ℕ)) → Lists D.Disk journal.old forms
        → Lists D.Disk journal.new forms }
    ensures same { journal.new ≡ record journal.old { disk = journal.new.disk } }
    ensures comes { ExtendsJournal D.Disk journal.old journal.new }
    ensures crash { (crashed : List ℕ) → D.may_leave journal.new.disk crashed
        → D.may_leave journal.old.disk crashed }
    ensures cause { FailsOnlyIfCounted (result ≡ Err SourceError.Failed)
        (D.faults journal.old.disk) (D.faults journal.new.disk) }
    ensures steady { result ≢ Err SourceError.Failed
        → StaysKnown D.Disk journal.old.disk journal.new.disk }
{
    match journal.entry(alloc, number) {
        Ok(bytes) => Ok(bytes),
        Err(error) => Err(source_error(error)),
    }
}
