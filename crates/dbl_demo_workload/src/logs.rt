//! The entries of a log, from the first to the last, compared with what its workload commits.

ghost use Rattle.std.specs.Prelude.{◌≡◌, ◌⊎◌, ℕ, ◌<◌, List, Some, Err, IfOk, IfErr};
ghost use Rattle.std.specs.Prelude.{IfSome, OnOk, IsTrue, None, slice_get};
ghost use Rattle.dbl_journal.specs.Stored.{Lists, count_of};
ghost use Rattle.dbl_demo_workload.specs.Logs.{ChecksAll, FailsByJournal, HasReadParts};
ghost use Rattle.dbl_demo_workload.specs.Logs.{BeginsWithWorkload, IsFailed};
ghost use Rattle.dbl_demo_workload.specs.Logs.{IsReadFault, IsReadOnly, NoWorkload};
ghost use Rattle.dbl_demo_workload.specs.Logs.{ReadsFirst, ReadsLog, workload_error};
ghost use Rattle.dbl_demo_workload.specs.Ready.{AreTableNames};
ghost use Rattle.dbl_demo_workload.specs.Steps.{FitAnEntry};
ghost use Rattle.dbl_disk.specs.Disks.{disk_limit};

use crate::DemoError;
use crate::checking::Checked;
use crate::preparing::{Prepared, prepare};
use dbl_base::{Bytes, Lsn};
use dbl_demo_wal::workload_in;
use dbl_disk::Disk;
use dbl_journal::Journal;
use std::alloc::Global;

fn no_workload() -> DemoError
    ensures { result ≡ DemoError.BadEntry 0 }
{
    DemoError::BadEntry { index: 0 }
}

fn workload_error(error: DemoError) -> DemoError
    ensures { result ≡ workload_error error }
{
    match error {
        DemoError::Memory => DemoError::Memory,
        _ => no_workload(),
    }
}

// The workload of a first entry, which is bad if it can't be run.
fn read_workload(alloc: Global, entry: &[u8]) -> Result<Prepared, DemoError>
    ensures ready { IfOk result (BeginsWithWorkload entry.now) }
    ensures fits { IfOk result (λ ready. IfSome ready.rows FitAnEntry) }
    ensures refused { IfErr result (λ e. (e ≡ DemoError.Memory)
        ⊎ ((e ≡ DemoError.BadEntry 0) × NoWorkload entry.now)) }
{
    let Some(workload) = workload_in(entry) else {
        return Err(no_workload());
    };
    match prepare(alloc, workload) {
        Ok(prepared) => Ok(prepared),
        Err(error) => Err(workload_error(error)),
    }
}

fn read_entry<D: Disk>(
    alloc: Global,
    journal: &mut Journal<D>,
    number: u64,
) -> Result<Bytes, DemoError>
    requires live { IsTrue journal.old.live }
    requires within { number < count_of journal.old }
    ensures found { (forms : List (List ℕ)) → Lists D.Disk journal.old forms
        → IfOk result (λ bytes. slice_get forms number ≡ Some bytes) }
    ensures kinds { IfErr result (λ e. (e ≡ DemoError.Memory) ⊎ IsFailed e) }
    ensures read { IsReadOnly D.Disk (FailsByJournal result) journal.old journal.new }
{
    Ok(journal.entry(alloc, number)?)
}

// The state after the first entry, which is missing if the journal is empty.
fn read_first<D: Disk>(alloc: Global, journal: &mut Journal<D>) -> Result<Checked, DemoError>
    requires { IsTrue journal.old.live }
    ensures first { (forms : List (List ℕ)) → Lists D.Disk journal.old forms
        → ReadsFirst forms result }
    ensures kinds { IfErr result (λ e. IsReadFault e) }
    ensures read { IsReadOnly D.Disk (FailsByJournal result) journal.old journal.new }
    ensures parts { IfOk result (HasReadParts 1) }
    ensures some { OnOk result (0 < count_of journal.old) }
    ensures small { count_of journal.old < disk_limit }
{
    if journal.count() == 0 {
        return Err(no_workload());
    }
    let entry = read_entry(alloc, journal, 0)?;
    let prepared = read_workload(alloc, entry.items().as_slice())?;
    Ok(Checked {
        prepared,
        done: 0,
        commits: Vec::new(alloc),
        confirmed: Lsn(0),
    })
}

// Checks the entries after the first, each of which is read once.
fn check_entries<D: Disk>(
    alloc: Global,
    journal: &mut Journal<D>,
    checked: &mut Checked,
) -> Result<(), DemoError>
    requires live { IsTrue journal.old.live }
    requires some { 0 < count_of journal.old }
    requires parts { HasReadParts 1 checked.old }
    ensures checks { (forms : List (List ℕ)) → Lists D.Disk journal.old forms
        → ChecksAll forms checked.old checked.new result }
    ensures parts { OnOk result (HasReadParts (count_of journal.old) checked.new) }
    ensures kinds { IfErr result (λ e. IsReadFault e) }
    ensures read { IsReadOnly D.Disk (FailsByJournal result) journal.old journal.new }
{
    for number in 1..journal.count() {
        let entry = read_entry(alloc, journal, number)?;
        checked.take(alloc, number, entry.items().as_slice())?;
    }
    Ok(())
}

/// Checks all entries of a log: the workload, the commit of its initial rows, if there are any, and
/// the others.
pub fn check_log<D: Disk>(alloc: Global, journal: &mut Journal<D>) -> Result<Checked, DemoError>
    requires { IsTrue journal.old.live }
    ensures opened { (forms : List (List ℕ)) → Lists D.Disk journal.old forms
        → ReadsLog forms result }
    ensures found { IfOk result (λ checked. checked.prepared.rows ≡ None) }
    ensures named { IfOk result (λ checked. AreTableNames checked.prepared.names.items) }
    ensures parts { IfOk result (HasReadParts (count_of journal.old)) }
    ensures small { count_of journal.old < disk_limit }
    ensures kinds { IfErr result (λ e. IsReadFault e) }
    ensures read { IsReadOnly D.Disk (FailsByJournal result) journal.old journal.new }
{
    let mut checked = read_first(alloc, journal)?;
    check_entries(alloc, journal, &mut checked)?;
    if checked.prepared.rows.is_some() {
        return Err(DemoError::BadEntry { index: 1 });
    }
    Ok(checked)
}
