//! How a session opens: with the first offset of its connector, or with the stored one.

ghost use Rattle.dbl_capture_work.specs.Begins.{MayRest};
ghost use Rattle.dbl_capture.specs.Gone.{TellsIfGone};
ghost use Rattle.dbl_capture.specs.OpenSteps.{IsReadyToBegin, FindsOffset, FindsByState};
ghost use Rattle.dbl_capture.specs.OpenSteps.{StopsFinding, KeepsBegun, StoresFirst};
ghost use Rattle.dbl_capture.specs.OpenSteps.{BeginsByState, StopsBeginning, KeepsOpened};
ghost use Rattle.dbl_capture.specs.OpenSteps.{OpensSession, OpensByState, ReportsOpened};
ghost use Rattle.dbl_capture.specs.OpenSteps.{StopsOpening};
ghost use Rattle.dbl_offset.specs.Keeps.{KeepsStore};
ghost use Rattle.dbl_source.specs.Keeps.{KeepsSource, ReadsNothing};

use dbl_capture_work::{
    Halt, Report, SessionState, first_offset, next_incarnation, put_offset, start_reading,
};
use dbl_disk::Disk;
use dbl_model_table::Config;
use dbl_offset::{Offset, OffsetStore};
use dbl_source::Source;
use dbl_topic::Sink;
use std::alloc::Global;

// Makes the offset to store first: the stored one with the next incarnation, or a connector's first
// one.
fn offset_of<S: Source, D: Disk>(
    alloc: Global,
    config: &Config,
    src: &mut S,
    store: &OffsetStore<D>,
) -> Result<Offset, Halt>
    requires { IsReadyToBegin S.Source config.now src.old store.now }
    ensures found { FindsOffset S.Source config.now src.old src.new store.now result }
    ensures by_state { FindsByState S.Source config.now src.old src.new store.now result }
    ensures rests { ReadsNothing S.Source src.old src.new MayRest }
    ensures stops { StopsFinding S.Source config.now src.new store.now result }
    ensures source { KeepsSource S.Source src.old src.new result Halt.Source }
{
    match next_incarnation(alloc, store)? {
        Some(offset) => Ok(offset),
        None => first_offset(alloc, config, src),
    }
}

// Stores the session's first offset, and returns it.
fn begin_session<S: Source, K: Sink, D: Disk>(
    alloc: Global,
    config: &Config,
    src: &mut S,
    sink: &K,
    store: &mut OffsetStore<D>,
) -> Result<Offset, Halt>
    requires { IsReadyToBegin S.Source config.now src.old store.old }
    ensures session { KeepsBegun S.Source K.Sink D.Disk config.now src.old src.new sink.now
        store.old store.new result }
    ensures state { StoresFirst D.Disk config.now store.old store.new result }
    ensures by_state { BeginsByState S.Source config.now src.old src.new store.old store.new
        result }
    ensures stops { StopsBeginning S.Source config.now src.new store.old store.new result }
    ensures source { KeepsSource S.Source src.old src.new result Halt.Source }
    ensures store { KeepsStore D.Disk store.old store.new result Halt.Offsets }
{
    let offset = offset_of(alloc, config, src, store)?;
    let stored = offset.copy(alloc)?;
    put_offset(alloc, store, stored)?;
    Ok(offset)
}

/// Stores the session's first offset, and starts reading after its LSN.
pub(crate) fn open_session<S: Source, K: Sink, D: Disk>(
    alloc: Global,
    config: &Config,
    now_ms: i64,
    src: &mut S,
    sink: &K,
    store: &mut OffsetStore<D>,
    report: &mut Report,
) -> Result<SessionState, Halt>
    requires { IsReadyToBegin S.Source config.now src.old store.old }
    ensures session { KeepsOpened S.Source K.Sink D.Disk config.now now_ms src.old src.new sink.now
        store.old store.new report.new result }
    ensures state { OpensSession S.Source D.Disk config.now now_ms src.new store.old store.new
        report.old report.new result }
    ensures by_state { OpensByState S.Source config.now src.old src.new store.old store.new result }
    ensures report { ReportsOpened S.Source K.Sink config.now now_ms src.old src.new sink.now
        store.old store.new report.old report.new result }
    ensures stops { StopsOpening S.Source src.new store.old result }
    ensures gone { TellsIfGone S.Source src.old store.old result }
    ensures source { KeepsSource S.Source src.old src.new result Halt.Source }
    ensures store { KeepsStore D.Disk store.old store.new result Halt.Offsets }
{
    let offset = begin_session(alloc, config, src, sink, store)?;
    report.position = offset.lsn.0;
    start_reading(src, offset.lsn)?;
    SessionState::make(alloc, offset, now_ms, config.chunk, config.every)
}
