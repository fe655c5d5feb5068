//! The begin of a log.

ghost use Rattle.std.specs.Prelude.{◌≡◌, ◌≢◌, ℕ, ◌<◌, ◌≤◌, List, [], Some, None, Err, IfSome, IfOk};
ghost use Rattle.std.specs.Prelude.{IfErr, OnOk, IsTrue, MatchResult, is_some, length, max};
ghost use Rattle.dbl_base.specs.Streams.{FailsOnlyIfCounted};
ghost use Rattle.dbl_journal.specs.Stored.{IsSteady, Lists, count_of, size};
ghost use Rattle.dbl_demo_wal.specs.Wals.{Wal};
ghost use Rattle.dbl_demo_wal.specs.Workloads.{IsWorkload, Workload};
ghost use Rattle.dbl_demo_laws.specs.Demo.{IsDemo};
ghost use Rattle.dbl_demo_laws.specs.Made.{first_forms, IsFirstWal};
ghost use Rattle.dbl_demo_workload.specs.Logs.{IsFailed};
ghost use Rattle.dbl_demo_workload.specs.Ready.{IsReady};
ghost use Rattle.dbl_demo_workload.specs.Steps.{FitAnEntry};
ghost use Rattle.dbl_demo.specs.Begun.{IsBeginFault, numbers_of, first_room};
ghost use Rattle.dbl_journal.specs.Form.{entry_limit};
ghost use Rattle.dbl_journal.specs.Calls.{Makes};

use crate::{DemoError, DemoSource};
use dbl_base::Lsn;
use dbl_demo_wal::{commit_entry, workload_entry};
use dbl_demo_workload::Prepared;
use dbl_disk::{Disk, Refused};
use dbl_journal::{Journal, JournalError};
use std::alloc::Global;
use std::collections::BTreeMap;

/// The numbers of the first commits' entries: 1 for the initial rows, if there are any.
pub(crate) fn first_numbers(alloc: Global, has_rows: bool) -> Result<Vec<u64>, DemoError>
    ensures numbers { IfOk result (λ numbers. numbers.items ≡ numbers_of has_rows) }
    ensures memory { IfErr result (λ e. e ≡ DemoError.Memory) }
{
    let mut numbers = Vec::new(alloc);
    if has_rows {
        numbers.push(1)?;
    }
    Ok(numbers)
}

// Appends the first entries of a log: the workload, and the commit of its initial rows.
fn begin_log<D: Disk>(
    alloc: Global,
    journal: &mut Journal<D>,
    bytes: &[u8],
    prepared: &Prepared,
) -> Result<(), DemoError>
    requires live { IsTrue journal.old.live }
    requires empty { count_of journal.old ≡ 0 }
    requires short { length bytes.now < entry_limit }
    requires fits { IfSome prepared.now.rows FitAnEntry }
    ensures begun { Lists D.Disk journal.old [] → OnOk result (Lists D.Disk journal.new
        (first_forms bytes.now prepared.now.rows)) }
    ensures live { OnOk result (IsTrue journal.new.live) }
    ensures count { OnOk result (count_of journal.new
        ≡ length (first_forms bytes.now prepared.now.rows)) }
    ensures kinds { IfErr result IsBeginFault }
    ensures cause { FailsOnlyIfCounted (result ≡ Err (DemoError.Journal JournalError.Failed))
        (D.faults journal.old.disk) (D.faults journal.new.disk) }
    ensures grows { (old new : List ℕ) → Lists D.Disk journal.old []
        → D.seen journal.old.disk ≡ Some old → D.seen journal.new.disk ≡ Some new
        → length new ≤ max (length old)
        (size (first_forms bytes.now prepared.now.rows)) }
    ensures steady { result ≢ Err (DemoError.Journal JournalError.Failed)
        → IsSteady D.Disk journal.old.disk journal.new.disk }
{
    journal.append_built(workload_entry(alloc, bytes)?)?;
    match &prepared.rows {
        Some(rows) => {
            journal.append_built(commit_entry(alloc, 0, rows.items().as_slice())?)?;
            Ok(())
        }
        None => Ok(()),
    }
}

/// A journal on an empty disk, with the first entries of a log.
pub(crate) fn make_log<D: Disk>(
    alloc: Global,
    disk: D,
    bytes: &[u8],
    prepared: &Prepared,
) -> Result<Journal<D>, Refused<D, DemoError>>
    requires empty { (was : List ℕ) → D.seen disk ≡ Some was → was ≡ [] }
    requires short { length bytes.now < entry_limit }
    requires fits { IfSome prepared.now.rows FitAnEntry }
    ensures begun { D.seen disk ≡ Some [] → IfOk result (λ journal.
        Lists D.Disk journal (first_forms bytes.now prepared.now.rows)) }
    ensures live { IfOk result (λ journal. IsTrue journal.live) }
    ensures count { IfOk result (λ journal. count_of journal
        ≡ length (first_forms bytes.now prepared.now.rows)) }
    ensures kinds { IfErr result (λ refused. IsBeginFault refused.error) }
    ensures disk { MatchResult result
        (λ journal. Makes D.Disk first_room ⊥ disk journal.disk)
        (λ refused. Makes D.Disk first_room (IsFailed refused.error) disk refused.disk) }
{
    let mut journal = match Journal::make(alloc, disk) {
        Ok(journal) => journal,
        Err(Refused { disk, error }) => {
            return Err(Refused {
                disk,
                error: DemoError::from(error),
            });
        }
    };
    match begin_log(alloc, &mut journal, bytes, prepared) {
        Ok(()) => Ok(journal),
        Err(error) => Err(Refused {
            disk: journal.into_disk(),
            error,
        }),
    }
}

/// The source over a journal with the first entries of a log, whose commits have these numbers.
pub(crate) fn first_source<D: Disk>(
    alloc: Global,
    journal: Journal<D>,
    prepared: Prepared,
    commits: Vec<u64>,
) -> DemoSource<D>
    requires live { IsTrue journal.live }
    requires ready { (script : List ℕ) × (w : Workload) × IsWorkload script w
        × IsReady w prepared
        × (count_of journal ≡ length (first_forms script prepared.rows)) }
    requires numbers { commits.items ≡ numbers_of (is_some prepared.rows) }
    ensures made { (script : List ℕ) (w : Workload) → IsWorkload script w → IsReady w prepared
        → Lists D.Disk journal (first_forms script prepared.rows)
        → (wal : Wal) × IsDemo D.Disk wal result × IsFirstWal script wal × (result.done ≡ 0) }
    ensures unread { result.place ≡ None }
    ensures live { IsTrue result.live }
    ensures names { result.names ≡ prepared.names.items }
    ensures steps { result.steps ≡ prepared.steps.items }
    ensures journal { result.journal ≡ journal }
{
    let Prepared {
        names,
        tables,
        store,
        steps,
        rows: _,
    } = prepared;
    DemoSource {
        alloc,
        journal,
        names,
        tables,
        store,
        steps,
        done: 0,
        commits,
        confirmed: Lsn(0),
        place: None,
        described: BTreeMap::new(alloc),
        held: None,
        ended: false,
        live: true,
    }
}
