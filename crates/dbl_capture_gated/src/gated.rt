ghost use Rattle.std.specs.Prelude.{◌≡◌, ◌⊎◌, ℕ, List, Some, IfErr, IsErr, IsTrue};
ghost use Rattle.dbl_record.specs.declared.record.Record.{Record};
ghost use Rattle.dbl_hooks_gate.specs.Gates.{AddsAllowed, IsFirstRefused, is_open};
ghost use Rattle.dbl_model_table.specs.Configs.{IsGoodConfig};
ghost use Rattle.dbl_source.specs.SourceModel.Standings.{HasState, SourceState};
ghost use Rattle.dbl_offset.specs.Stores.{IsLive};
ghost use Rattle.dbl_offset.specs.Keeps.{KeepsStore};
ghost use Rattle.dbl_source.specs.Keeps.{KeepsSource};
ghost use Rattle.dbl_capture.specs.CaptureModel.Entries.{SessionStart, WasFaithful};
ghost use Rattle.dbl_capture.specs.CaptureLaws.Closed.{HasClosedRead};
ghost use Rattle.dbl_capture.specs.CaptureLaws.Found.{Found, IsEntryOf, IsOfConfig};
ghost use Rattle.dbl_capture.specs.CaptureLaws.Nevers.{IsFaithfulHalt};
ghost use Rattle.dbl_capture.specs.Gone.{TellsIfGone};
ghost use Rattle.dbl_capture.specs.SessionEnds.{LeavesStores, MayStoreOffset, AddsMarks};
ghost use Rattle.dbl_capture.specs.SessionEnds.{AddsRecords, ReportsByTrace, ReportsByState};
ghost use Rattle.dbl_capture.specs.SessionEnds.{CountsWithin, TalliesRecords, EndsNormally};
ghost use Rattle.dbl_capture.specs.SessionEnds.{HaltsByTrace, HaltsByState, NeverHalts};
ghost use Rattle.dbl_capture_gated.specs.Inner.{KeepsInner};
ghost use Rattle.dbl_capture_gated.specs.Passed.{PassesAllowed, RefusesNext};

use dbl_capture::{Ending, Halt, Report, session};
use dbl_disk::Disk;
use dbl_hooks_gate::Gate;
use dbl_model_table::Config;
use dbl_offset::OffsetStore;
use dbl_source::Source;
use dbl_topic::Sink;
use std::alloc::Global;

/// A session over a gate: `session` with the gate as its sink. The offset moves only past records
/// that the receiver accepted. A refusal stops the session with an error.
pub fn gated_session<S: Source, K: Sink, D: Disk>(
    alloc: Global,
    config: &Config,
    now_ms: i64,
    src: &mut S,
    gate: &mut Gate<K>,
    offsets: &mut OffsetStore<D>,
    report: &mut Report,
) -> Result<Ending, Halt>
    requires source_live { IsTrue (S.is_live src.old) }
    requires gate_open { IsTrue (is_open K.Sink gate.old.sink gate.old.refused) }
    requires store_live { IsLive offsets.old }
    requires config { IsGoodConfig config.now }
    requires asked { IsOfConfig config.now offsets.old.offset }

    // Every record that was appended is allowed.
    ensures allowed { (groups left : List (List Record)) → K.holds gate.old.sink groups →
        K.may_leave gate.new.sink left → AddsAllowed gate.old.rule groups left }
    // The record that was refused is the first of its group that isn't allowed, and the session
    // stopped with an error.
    ensures refused { (place : ℕ × ℕ) → gate.new.refused ≡ Some place → IsErr result ×
        (group : List Record) × IsFirstRefused gate.old.rule group place }
    // It is the first that isn't allowed of the commit that came next, or of the window that this
    // commit closes; all records of the commits before it are allowed.
    ensures next { (groups : List (List Record)) → K.holds gate.old.sink groups →
        (s : SourceState) → S.stands src.old s → (place : ℕ × ℕ) →
        gate.new.refused ≡ Some place → HasState S.stands src.new (RefusesNext config.now now_ms
        gate.old.rule offsets.old.offset offsets.new.offset place) }
    // Every commit that the stored offset passed has only allowed records.
    ensures passed { (groups left : List (List Record)) → K.holds gate.old.sink groups →
        K.may_leave gate.new.sink left → (s t : SourceState) → S.stands src.old s →
        S.stands src.new t → (report.new.messages ≡ 0) ⊎
        PassesAllowed config.now now_ms gate.old.rule offsets.old.offset offsets.new.offset t }

    // The clauses of `session`, of the inner sink: what is left, at every exit.
    ensures faithful { LeavesStores S.Source K.Sink D.Disk config.now now_ms src.old src.new
        gate.old.sink gate.new.sink offsets.old offsets.new result }
    ensures stores { MayStoreOffset S.Source D.Disk config.now src.old src.new offsets.old
        offsets.new result }
    ensures marks { AddsMarks S.Source config.now now_ms src.old src.new offsets.old offsets.new
        report.new result }
    ensures gains { AddsRecords K.Sink config.now now_ms gate.old.sink gate.new.sink offsets.old
        offsets.new }

    // What is reported.
    ensures by_trace { ReportsByTrace S.Source config.now now_ms src.old src.new offsets.old
        offsets.new report.new result }
    ensures by_state { ReportsByState S.Source config.now now_ms src.old src.new offsets.old
        offsets.new report.new result }
    ensures counts { CountsWithin config.now offsets.old offsets.new report.new }
    ensures tallies { TalliesRecords S.Source K.Sink config.now now_ms src.old src.new
        gate.old.sink gate.new.sink offsets.old offsets.new report.new result }
    ensures unclosed { (entry : SessionStart) → IsEntryOf config.now now_ms entry →
        Found S.stands K.holds D.Disk entry src.old gate.old.sink offsets.old →
        S.honest src.new → WasFaithful entry → (t : SourceState) → S.stands src.new t →
        HasClosedRead offsets.new.offset report.new t }

    // Why it stops.
    ensures ends { EndsNormally S.Source config.now src.new offsets.new report.new result }
    ensures halt { HaltsByTrace S.Source config.now now_ms src.new offsets.old offsets.new
        report.new result }
    ensures halt_by_state { HaltsByState S.Source config.now now_ms src.old src.new offsets.old
        offsets.new report.new result }
    ensures gone { TellsIfGone S.Source src.old offsets.old result }
    ensures own { NeverHalts S.Source config.now now_ms src.old src.new offsets.old result }
    ensures content { (entry : SessionStart) → IsEntryOf config.now now_ms entry →
        Found S.stands K.holds D.Disk entry src.old gate.old.sink offsets.old →
        S.honest src.new → WasFaithful entry → IfErr result
        (IsFaithfulHalt entry offsets.new.offset report.new (S.stands src.new)
        (K.holds gate.new.sink)) }

    // What every call keeps, and that a device fails only if its count of faults rose.
    ensures source { KeepsSource S.Source src.old src.new result Halt.Source }
    ensures sink { KeepsInner K.Sink gate.old.sink gate.new.sink gate.new.refused result
        Halt.Sink }
    ensures store { KeepsStore D.Disk offsets.old offsets.new result Halt.Offsets }
{
    session(alloc, config, now_ms, src, gate, offsets, report)
}
