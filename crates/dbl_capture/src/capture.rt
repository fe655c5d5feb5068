//! The session of a connector.

ghost use Rattle.std.specs.Prelude.{◌≡◌, List, Some, None, IfErr, IsTrue};
ghost use Rattle.dbl_record.specs.declared.record.Record.{Record};
ghost use Rattle.dbl_model_table.specs.Configs.{IsGoodConfig};
ghost use Rattle.dbl_source.specs.SourceModel.Standings.{HasState, SourceState};
ghost use Rattle.dbl_offset.specs.Stores.{IsLive};
ghost use Rattle.dbl_capture_work.specs.CaptureModel.Entries.{SessionStart, WasFaithful};
ghost use Rattle.dbl_capture_laws.specs.Closed.{HasClosedRead};
ghost use Rattle.dbl_capture_laws.specs.Failing.{FailsNext};
ghost use Rattle.dbl_capture_laws.specs.Found.{Found, IsOfConfig, IsEntryOf};
ghost use Rattle.dbl_capture_laws.specs.Nevers.{IsFaithfulHalt};
ghost use Rattle.dbl_capture.specs.Gone.{TellsIfGone};
ghost use Rattle.dbl_capture.specs.SessionEnds.{LeavesStores, MayStoreOffset, AddsMarks};
ghost use Rattle.dbl_capture.specs.SessionEnds.{AddsRecords, ReportsByTrace, ReportsByState};
ghost use Rattle.dbl_capture.specs.SessionEnds.{CountsWithin, TalliesRecords, EndsNormally};
ghost use Rattle.dbl_capture.specs.SessionEnds.{HaltsByTrace, HaltsByState, NeverHalts};
ghost use Rattle.dbl_offset.specs.Keeps.{KeepsStore};
ghost use Rattle.dbl_source.specs.Keeps.{KeepsSource};
ghost use Rattle.dbl_topic.specs.Keeps.{KeepsSink};

use crate::opening::open_session;
use crate::turns::process_messages;
use dbl_capture_work::{Ending, Halt, Report};
use dbl_disk::Disk;
use dbl_model_table::Config;
use dbl_offset::OffsetStore;
use dbl_source::Source;
use dbl_topic::Sink;
use std::alloc::Global;

/// Captures tables: reads them in windows, while it follows the source's log from the stored offset
/// or a first one on. Each record is appended to the sink, in batches, before an offset after it is
/// stored, and that is stored before its LSN is confirmed. The session ends normally when
/// everything is read or its message budget is used up; any call may stop it with an error. Then
/// another session may resume, over a source, a sink and a store that were opened again.
///
/// `now_ms`, in milliseconds since 1970-01-01 UTC, is the time of the records. Every field of the
/// report is set.
pub fn session<S: Source, K: Sink, D: Disk>(
    alloc: Global,
    config: &Config,
    now_ms: i64,
    src: &mut S,
    sink: &mut K,
    offsets: &mut OffsetStore<D>,
    report: &mut Report,
) -> Result<Ending, Halt>
    requires source_live { IsTrue (S.is_live src.old) }
    requires sink_live { IsTrue (K.is_live sink.old) }
    requires store_live { IsLive offsets.old }
    requires config { IsGoodConfig config.now }
    requires asked { IsOfConfig config.now offsets.old.offset }

    // What is left, at every exit.
    ensures faithful { LeavesStores S.Source K.Sink D.Disk config.now now_ms src.old src.new
        sink.old sink.new offsets.old offsets.new result }
    ensures stores { MayStoreOffset S.Source D.Disk config.now src.old src.new offsets.old
        offsets.new result }
    ensures marks { AddsMarks S.Source config.now now_ms src.old src.new offsets.old offsets.new
        report.new result }
    ensures gains { AddsRecords K.Sink config.now now_ms sink.old sink.new offsets.old
        offsets.new }

    // What is reported.
    ensures by_trace { ReportsByTrace S.Source config.now now_ms src.old src.new offsets.old
        offsets.new report.new result }
    ensures by_state { ReportsByState S.Source config.now now_ms src.old src.new offsets.old
        offsets.new report.new result }
    ensures counts { CountsWithin config.now offsets.old offsets.new report.new }
    ensures tallies { TalliesRecords S.Source K.Sink config.now now_ms src.old src.new sink.old
        sink.new offsets.old offsets.new report.new result }
    // Over a conforming source and faithful stores: each window whose high watermark is counted was
    // closed.
    ensures unclosed { (entry : SessionStart) → IsEntryOf config.now now_ms entry →
        Found S.stands K.holds D.Disk entry src.old sink.old offsets.old → S.honest src.new →
        WasFaithful entry → (t : SourceState) → S.stands src.new t →
        HasClosedRead offsets.new.offset report.new t }

    // Why it stops.
    ensures ends { EndsNormally S.Source config.now src.new offsets.new report.new result }
    ensures halt { HaltsByTrace S.Source config.now now_ms src.new offsets.old offsets.new
        report.new result }
    ensures halt_by_state { HaltsByState S.Source config.now now_ms src.old src.new offsets.old
        offsets.new report.new result }
    ensures gone { TellsIfGone S.Source src.old offsets.old result }
    // The batch whose append failed is the next one after all that were appended.
    ensures failed { (groups : List (List Record)) → K.holds sink.old groups →
        result ≡ Err Halt.Sink → (s : SourceState) → S.stands src.old s →
        HasState S.stands src.new (FailsNext K.Sink groups config.now now_ms offsets.old.offset
        offsets.new.offset sink.new) }
    ensures own { NeverHalts S.Source config.now now_ms src.old src.new offsets.old result }
    // Over a conforming source and faithful stores the cause of an error is in the source's
    // history.
    ensures content { (entry : SessionStart) → IsEntryOf config.now now_ms entry →
        Found S.stands K.holds D.Disk entry src.old sink.old offsets.old → S.honest src.new →
        WasFaithful entry →
        IfErr result
        (IsFaithfulHalt entry offsets.new.offset report.new (S.stands src.new) (K.holds sink.new)) }

    // What every call keeps, and that a device fails only if its count of faults rose.
    ensures source { KeepsSource S.Source src.old src.new result Halt.Source }
    ensures sink { KeepsSink K.Sink sink.old sink.new result Halt.Sink }
    ensures store { KeepsStore D.Disk offsets.old offsets.new result Halt.Offsets }
{
    *report = Report {
        messages: 0,
        commits: 0,
        records: 0,
        chunks: 0,
        snapshot_rows: 0,
        position: 0,
    };
    let mut work = open_session(alloc, config, now_ms, src, sink, offsets, report)?;
    process_messages(config.messages, &mut work, src, sink, offsets, report)
}
