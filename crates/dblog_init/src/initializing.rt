//! The stores, made one after the other.

ghost use Rattle.std.specs.Prelude.{◌≡◌, ◌≢◌, ◌⊎◌, ℕ, ◌≤◌, List, []};
ghost use Rattle.std.specs.Prelude.{length, Some, Err, IfErr, OnOk};
ghost use Rattle.dbl_base.specs.Streams.{FaultCounted, input_limit};
ghost use Rattle.dbl_demo.specs.DemoWorkload.declared.error.DemoError.{DemoError};
ghost use Rattle.dbl_demo.specs.DemoWal.Workloads.{IsWorkload, Workload};
ghost use Rattle.dbl_demo.specs.DemoLaws.Made.{IsFreshWal};
ghost use Rattle.dbl_demo.specs.DemoWorkload.Refusals.{IsRefused};
ghost use Rattle.dblog_init.specs.Answers.{Answers, AnswersInput, InitInput, IsBeforeInput};
ghost use Rattle.dblog_init.specs.Answers.{IsInitFault, IsExternalInitEnd, ReportsInput};
ghost use Rattle.dbl_disk.specs.Disks.{Follows};
ghost use Rattle.dbl_offset.specs.Stores.{BeginsTorn};
ghost use Rattle.dblog_init.specs.Disks.{AreAtMostMeasured, EndsBeforeWriting};
ghost use Rattle.dblog_init.specs.Disks.{EndsTorn, HasStoredBytes, HoldSomeBytes};
ghost use Rattle.dblog_init.specs.Disks.{IsAtMostMeasured, LeavesDisk};
ghost use Rattle.dblog_init.specs.Errors.{demo_error};
ghost use Rattle.dblog_init.specs.Fresh.{IsEmptyLog, IsEmptyStore};
ghost use Rattle.dblog_init.specs.Turns.{AsksOne, IsTurnFault, IsTurnOf, MakesOne, TellsFirst};

use crate::{Disks, InitError, Outcome, Store};
use dbl_base::{Input, read_all};
use dbl_demo::DemoSource;
use dbl_disk::{Disk, Refused};
use dbl_offset::OffsetStore;
use dbl_topic::TopicLog;
use std::alloc::Global;

fn check_empty<D: Disk>(disk: &mut D, store: Store) -> Result<(), InitError>
    ensures asks { AsksOne D.Disk store result disk.old disk.new }
    ensures kinds { IfErr result (IsTurnOf store) }
{
    match disk.len() {
        Ok(0) => Ok(()),
        Ok(_) => Err(InitError::NotEmpty { store }),
        Err(_) => Err(InitError::Failed { store }),
    }
}

fn make_wal<D: Disk>(alloc: Global, disk: D, workload: &[u8]) -> (D, Result<(), InitError>)
    requires empty { (bytes : List ℕ) → D.seen disk ≡ Some bytes → bytes ≡ [] }
    requires short { length workload.now ≤ input_limit }
    ensures makes { MakesOne D.Disk Store.Wal (IsFreshWal workload.now)
        result.1 disk result.0 }
    ensures refused { IfErr result.1 (λ e. (e ≡ InitError.Memory)
        ⊎ ((e ≡ InitError.Failed Store.Wal)
        ⊎ ((d : DemoError) × IsRefused workload.now d × (e ≡ demo_error d)))) }
    ensures workload { OnOk result.1 ((w : Workload) × IsWorkload workload.now w) }
{
    match DemoSource::make(alloc, disk, workload) {
        Ok(source) => (source.into_disk(), Ok(())),
        Err(Refused { disk, error }) => (disk, Err(InitError::from(error))),
    }
}

fn make_topics<D: Disk>(alloc: Global, disk: D) -> (D, Result<(), InitError>)
    requires { (bytes : List ℕ) → D.seen disk ≡ Some bytes → bytes ≡ [] }
    ensures makes { MakesOne D.Disk Store.Topics IsEmptyLog
        result.1 disk result.0 }
    ensures kinds { IfErr result.1 (λ e. e ≡ InitError.Failed Store.Topics) }
{
    match TopicLog::make(alloc, disk) {
        Ok(log) => (log.into_disk(), Ok(())),
        Err(Refused { disk, error }) => (disk, Err(InitError::from(error))),
    }
}

fn make_offsets<D: Disk>(disk: D) -> (D, Result<(), InitError>)
    requires { (bytes : List ℕ) → D.seen disk ≡ Some bytes → bytes ≡ [] }
    ensures makes { MakesOne D.Disk Store.Offsets IsEmptyStore
        result.1 disk result.0 }
    ensures kinds { IfErr result.1 (λ e. e ≡ InitError.Failed Store.Offsets) }
    ensures torn { IfErr result.1
        (λ e. Follows BeginsTorn (D.may_leave disk) (D.may_leave result.0)) }
{
    match OffsetStore::make(disk) {
        Ok(store) => (store.into_disk(), Ok(())),
        Err(Refused { disk, error }) => (disk, Err(InitError::from(error))),
    }
}

// Makes the topic log and the store of the offset.
fn make_others<T: Disk, F: Disk>(
    alloc: Global,
    topics: T,
    offsets: F,
) -> (T, F, Result<(), InitError>)
    requires topics_empty { (bytes : List ℕ) → T.seen topics ≡ Some bytes → bytes ≡ [] }
    requires offsets_empty { (bytes : List ℕ) → F.seen offsets ≡ Some bytes → bytes ≡ [] }
    ensures topics { MakesOne T.Disk Store.Topics IsEmptyLog result.2 topics result.0 }
    ensures offsets { MakesOne F.Disk Store.Offsets IsEmptyStore result.2 offsets result.1 }
    ensures kinds { IfErr result.2 (λ e.
        (e ≡ InitError.Failed Store.Topics) ⊎ (e ≡ InitError.Failed Store.Offsets)) }
    ensures torn { T.seen topics ≡ Some [] → result.2 ≡ Err (InitError.Failed Store.Offsets)
        → HasStoredBytes T.Disk IsEmptyLog result.0
        × Follows BeginsTorn (F.may_leave offsets) (F.may_leave result.1) }
{
    let (topics, end) = make_topics(alloc, topics);
    match end {
        Ok(()) => {
            let (offsets, end) = make_offsets(offsets);
            (topics, offsets, end)
        }
        Err(error) => (topics, offsets, Err(error)),
    }
}

// Refuses the first disk that isn't empty. The later disks aren't called.
fn check_all<W: Disk, T: Disk, F: Disk>(disks: &mut Disks<W, T, F>) -> Result<(), InitError>
    ensures wal { AsksOne W.Disk Store.Wal result disks.old.wal disks.new.wal }
    ensures topics { AsksOne T.Disk Store.Topics result disks.old.topics disks.new.topics }
    ensures offsets { AsksOne F.Disk Store.Offsets result disks.old.offsets disks.new.offsets }
    ensures first { TellsFirst W.Disk T.Disk F.Disk disks.old result }
    ensures kinds { IsTurnFault result }
    ensures topics_stay { result ≡ Err (InitError.NotEmpty Store.Wal)
        → disks.new.topics ≡ disks.old.topics }
    ensures offsets_stay { (result ≡ Err (InitError.NotEmpty Store.Wal))
        ⊎ (result ≡ Err (InitError.NotEmpty Store.Topics))
        → disks.new.offsets ≡ disks.old.offsets }
{
    check_empty(&mut disks.wal, Store::Wal)?;
    check_empty(&mut disks.topics, Store::Topics)?;
    check_empty(&mut disks.offsets, Store::Offsets)
}

fn make_all<W: Disk, T: Disk, F: Disk>(
    alloc: Global,
    workload: &[u8],
    disks: Disks<W, T, F>,
) -> Outcome<W, T, F, Result<(), InitError>>
    requires short { length workload.now ≤ input_limit }
    requires wal_empty { (bytes : List ℕ) → W.seen disks.wal ≡ Some bytes → bytes ≡ [] }
    requires topics_empty { (bytes : List ℕ) → T.seen disks.topics ≡ Some bytes → bytes ≡ [] }
    requires offsets_empty { (bytes : List ℕ) → F.seen disks.offsets ≡ Some bytes → bytes ≡ [] }
    ensures wal { MakesOne W.Disk Store.Wal (IsFreshWal workload.now)
        result.end disks.wal result.disks.wal }
    ensures topics { MakesOne T.Disk Store.Topics IsEmptyLog
        result.end disks.topics result.disks.topics }
    ensures offsets { MakesOne F.Disk Store.Offsets IsEmptyStore
        result.end disks.offsets result.disks.offsets }
    ensures refused { IfErr result.end (λ e. (e ≡ InitError.Memory)
        ⊎ (((store : Store) × (e ≡ InitError.Failed store))
        ⊎ ((d : DemoError) × IsRefused workload.now d × (e ≡ demo_error d)))) }
    ensures workload { OnOk result.end ((w : Workload) × IsWorkload workload.now w) }
    ensures torn { W.seen disks.wal ≡ Some [] → T.seen disks.topics ≡ Some [] →
        result.end ≡ Err (InitError.Failed Store.Offsets) →
        EndsTorn W.Disk T.Disk F.Disk workload.now disks result.disks }
{
    let Disks {
        wal,
        topics,
        offsets,
    } = disks;
    let (wal, end) = make_wal(alloc, wal, workload);
    match end {
        Ok(()) => {
            let (topics, offsets, end) = make_others(alloc, topics, offsets);
            Outcome {
                disks: Disks {
                    wal,
                    topics,
                    offsets,
                },
                end,
            }
        }
        Err(error) => Outcome {
            disks: Disks {
                wal,
                topics,
                offsets,
            },
            end: Err(error),
        },
    }
}

/// Makes the three stores of the input's workload on empty disks. A disk that isn't empty is
/// refused before the input is read, and a bad workload before the first byte is written.
///
/// A run that stopped halfway leaves files that the next run refuses: they are to be removed by
/// hand.
pub fn init<I: Input, W: Disk, T: Disk, F: Disk>(
    alloc: Global,
    input: &mut I,
    mut disks: Disks<W, T, F>,
) -> Outcome<W, T, F, Result<(), InitError>>
    // The answer follows from the contents of the disks and the input, if none failed and memory
    // sufficed.
    ensures told { (given : InitInput) → I.left input.old ≡ Some given.input
        → W.seen disks.wal ≡ Some given.wal → T.seen disks.topics ≡ Some given.topics
        → F.seen disks.offsets ≡ Some given.offsets
        → Answers given result.end ⊎ IsExternalInitEnd result.end }

    // An answer about the input is right for disks of any contents.
    ensures input_told { (bytes : List ℕ) → I.left input.old ≡ Some bytes
        → AnswersInput bytes result.end
        ⊎ (IsBeforeInput result.end ⊎ IsExternalInitEnd result.end) }
    ensures kinds { IfErr result.end IsInitFault }

    // An answer about one disk is right for any contents of the others.
    ensures wal_empty { (bytes : List ℕ) → W.seen disks.wal ≡ Some bytes
        → OnOk result.end (bytes ≡ []) }
    ensures topics_empty { (bytes : List ℕ) → T.seen disks.topics ≡ Some bytes
        → OnOk result.end (bytes ≡ []) }
    ensures offsets_empty { (bytes : List ℕ) → F.seen disks.offsets ≡ Some bytes
        → OnOk result.end (bytes ≡ []) }
    ensures wal_holds { (bytes : List ℕ) → W.seen disks.wal ≡ Some bytes
        → result.end ≡ Err (InitError.NotEmpty Store.Wal) → bytes ≢ [] }
    ensures topics_hold { (bytes : List ℕ) → T.seen disks.topics ≡ Some bytes
        → result.end ≡ Err (InitError.NotEmpty Store.Topics) → bytes ≢ [] }
    ensures offsets_hold { (bytes : List ℕ) → F.seen disks.offsets ≡ Some bytes
        → result.end ≡ Err (InitError.NotEmpty Store.Offsets) → bytes ≢ [] }

    // If the stores were made, a crash leaves only them.
    ensures wal_made { (bytes before : List ℕ) → I.left input.old ≡ Some bytes
        → W.seen disks.wal ≡ Some before
        → OnOk result.end (HasStoredBytes W.Disk (IsFreshWal bytes) result.disks.wal) }
    ensures topics_made { (before : List ℕ) → T.seen disks.topics ≡ Some before
        → OnOk result.end (HasStoredBytes T.Disk IsEmptyLog result.disks.topics) }
    ensures offsets_made { (before : List ℕ) → F.seen disks.offsets ≡ Some before
        → OnOk result.end (HasStoredBytes F.Disk IsEmptyStore result.disks.offsets) }

    // If the disk of the offset, the last one, failed: nothing was written, or the other stores
    // were made and a crash leaves a part of its store.
    ensures torn { (bytes : List ℕ) → I.left input.old ≡ Some bytes → W.seen disks.wal ≡ Some []
        → T.seen disks.topics ≡ Some [] → result.end ≡ Err (InitError.Failed Store.Offsets)
        → IsAtMostMeasured F.Disk Store.Offsets result.end disks.offsets result.disks.offsets
        ⊎ EndsTorn W.Disk T.Disk F.Disk bytes disks result.disks }

    // An answer about the input comes after it was read to its end.
    ensures whole { (bytes : List ℕ) → I.left input.old ≡ Some bytes → ReportsInput result.end
        → I.left input.new ≡ Some [] }
    ensures unread { IsBeforeInput result.end → input.new ≡ input.old }

    // A disk after the first that isn't empty is returned as it was passed.
    ensures topics_stay { result.end ≡ Err (InitError.NotEmpty Store.Wal)
        → result.disks.topics ≡ disks.topics }
    ensures offsets_stay { (result.end ≡ Err (InitError.NotEmpty Store.Wal))
        ⊎ (result.end ≡ Err (InitError.NotEmpty Store.Topics))
        → result.disks.offsets ≡ disks.offsets }

    // If one of the disks isn't empty, none of them is written or synced, and the input isn't read.
    ensures unwritten { HoldSomeBytes W.Disk T.Disk F.Disk disks
        → AreAtMostMeasured W.Disk T.Disk F.Disk result.end disks result.disks }
    ensures full_unread { HoldSomeBytes W.Disk T.Disk F.Disk disks → input.new ≡ input.old }

    // No byte is written of a bad workload, nor of a store after one whose disk failed.
    ensures wal_asked { EndsBeforeWriting Store.Wal result.end
        → IsAtMostMeasured W.Disk Store.Wal result.end disks.wal result.disks.wal }
    ensures topics_asked { EndsBeforeWriting Store.Topics result.end
        → IsAtMostMeasured T.Disk Store.Topics result.end disks.topics result.disks.topics }
    ensures offsets_asked { EndsBeforeWriting Store.Offsets result.end
        → IsAtMostMeasured F.Disk Store.Offsets result.end disks.offsets result.disks.offsets }

    // A failure is returned only if its count of faults rose; the contents of the disks stay
    // bounded.
    ensures input_failed { result.end ≡ Err InitError.InputFailed
        → FaultCounted (I.faults input.old) (I.faults input.new) }
    ensures wal_leaves { LeavesDisk W.Disk Store.Wal result.end disks.wal result.disks.wal }
    ensures topics_leaves { LeavesDisk T.Disk Store.Topics result.end
        disks.topics result.disks.topics }
    ensures offsets_leaves { LeavesDisk F.Disk Store.Offsets result.end
        disks.offsets result.disks.offsets }
{
    match check_all(&mut disks) {
        Ok(()) => match read_all(alloc, input) {
            Ok(workload) => make_all(alloc, workload.items().as_slice(), disks),
            Err(error) => Outcome {
                disks,
                end: Err(InitError::from(error)),
            },
        },
        Err(error) => Outcome {
            disks,
            end: Err(error),
        },
    }
}
