//! Stores the offset and then confirms it, also when everything was read.

ghost use Rattle.dbl_capture.specs.StoreSteps.{IsReadyToStore, KeepsStored, PutsStored, StoresNext};
ghost use Rattle.dbl_capture.specs.StoreSteps.{ReportsStored, StopsStoring, KeepsFinished};
ghost use Rattle.dbl_capture.specs.StoreSteps.{PutsFinished, FinishesAll, ReportsFinished};
ghost use Rattle.dbl_capture.specs.StoreSteps.{StopsFinishing};
ghost use Rattle.dbl_offset.specs.Keeps.{KeepsStore};
ghost use Rattle.dbl_source.specs.Keeps.{KeepsSource};

use dbl_capture_work::{Halt, Report, SessionState, put_offset};
use dbl_disk::Disk;
use dbl_offset::OffsetStore;
use dbl_source::Source;
use dbl_topic::Sink;

/// Stores the offset of the last commit that was followed, with the current cursors, and then
/// confirms its LSN.
pub(crate) fn store_and_confirm<S: Source, K: Sink, D: Disk>(
    work: &mut SessionState,
    src: &mut S,
    sink: &K,
    store: &mut OffsetStore<D>,
    report: &mut Report,
) -> Result<(), Halt>
    requires { IsReadyToStore S.Source work.old src.old store.old }
    ensures session { KeepsStored S.Source K.Sink D.Disk work.old work.new src.old src.new sink.now
        store.old store.new report.old report.new result }
    ensures puts { PutsStored S.Source K.Sink work.old work.new src.old src.new sink.now store.old
        store.new report.old report.new result }
    ensures state { StoresNext S.Source D.Disk work.old work.new src.old src.new store.old store.new
        report.old report.new result }
    ensures report { ReportsStored S.Source work.old work.new src.old src.new store.old store.new
        report.old report.new result }
    ensures stops { StopsStoring result }
    ensures source { KeepsSource S.Source src.old src.new result Halt.Source }
    ensures store { KeepsStore D.Disk store.old store.new result Halt.Offsets }
{
    let offset = work.next_offset()?;
    let lsn = offset.lsn;
    put_offset(work.alloc, store, offset)?;
    work.since = 0;
    report.position = lsn.0;
    src.confirm(lsn)?;
    Ok(())
}

/// Ends a session that has read everything: stores and confirms its offset. Fails with
/// `WatermarkMissing` if a window waits.
pub(crate) fn finish_complete<S: Source, K: Sink, D: Disk>(
    work: &mut SessionState,
    src: &mut S,
    sink: &K,
    store: &mut OffsetStore<D>,
    report: &mut Report,
) -> Result<(), Halt>
    requires { IsReadyToStore S.Source work.old src.old store.old }
    ensures session { KeepsFinished S.Source K.Sink D.Disk work.old work.new src.old src.new
        sink.now store.old store.new report.old report.new result }
    ensures puts { PutsFinished S.Source K.Sink work.old work.new src.old src.new sink.now store.old
        store.new report.old report.new result }
    ensures state { FinishesAll S.Source D.Disk work.old work.new src.old src.new store.old
        store.new report.old report.new result }
    ensures report { ReportsFinished S.Source work.old work.new src.old src.new store.old store.new
        report.old report.new result }
    ensures stops { StopsFinishing work.old result }
    ensures source { KeepsSource S.Source src.old src.new result Halt.Source }
    ensures store { KeepsStore D.Disk store.old store.new result Halt.Offsets }
{
    match work.follower.waits_for() {
        Some(value) => Err(Halt::WatermarkMissing {
            value: value.copy(work.alloc)?,
            position: work.offset.lsn,
        }),
        None => store_and_confirm(work, src, sink, store, report),
    }
}
