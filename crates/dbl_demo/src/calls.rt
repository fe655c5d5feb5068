//! The calls of the source, with the contract of every source.

ghost use Rattle.std.specs.Prelude.{◌≡◌, ◌≤◌, ◌∷◌, [], length, None, false};
ghost use Rattle.std.specs.Prelude.{is_none, is_some, option_copied, Err, IsTrue};
ghost use Rattle.std.specs.Prelude.{IfSome, IfOk, OnOk, OnErr, MatchOption};
ghost use Rattle.dbl_base.specs.Streams.{FailsOnlyIfCounted};
ghost use Rattle.dbl_pgmsg.specs.declared.messages.Message.{Message};
ghost use Rattle.dbl_pgmsg.specs.Grammar.{Spells};
ghost use Rattle.dbl_source_log.specs.declared.error.SourceError.TheVariants.{Failed, Memory};
ghost use Rattle.dbl_source_model.specs.Standings.{SourceState, HasState, MovesTo};
ghost use Rattle.dbl_source_model.specs.Answered.{IsDescribed, IsHeaded, IsSelectAnswer};
ghost use Rattle.dbl_source_model.specs.Calls.{Moved, IsMarked, Starts, HasReadOneMore};
ghost use Rattle.dbl_source_model.specs.Calls.{HasReadAll, IsConfirmed, TellsLog};
ghost use Rattle.dbl_source_model.specs.Calls.{IsConfirmedAt, IsConfirmedUpTo};
ghost use Rattle.dbl_source_model.specs.Leaves.{Leaves, LeavesSome, MayFollow};
ghost use Rattle.dbl_source_model.specs.Leaves.{MayFollowMark, MayFollowConfirm};
ghost use Rattle.dbl_source_model.specs.Trace.{Described, Head, Began, Read, RowsSelected, Done};
ghost use Rattle.dbl_source_model.specs.Trace.{IsTakenBy, IsTakenAnew, LastAnswerIs, is_ready};
ghost use Rattle.dbl_source_log.specs.Numbers.{lsn_of};
ghost use Rattle.dbl_demo_wal.specs.CrashState.{added_by, with_entries};
ghost use Rattle.dbl_demo_wal.specs.Workloads.{acts_at};
ghost use Rattle.dbl_demo_wal.specs.Wals.{Wal};
ghost use Rattle.dbl_demo_wal.specs.Standings.{MayLeaveWal};
ghost use Rattle.dbl_demo_wal.specs.Shown.{AreRowsShown};
ghost use Rattle.dbl_demo_laws.specs.Calls.{HasReadWhole, confirm_of, LeavesFirst};
ghost use Rattle.dbl_demo_laws.specs.Calls.{LeavesRead, mark_entries, next_end, ReadsOnTo};
ghost use Rattle.dbl_demo_laws.specs.Calls.{ReleasesSteps, second_end, start_answer};
ghost use Rattle.dbl_demo_laws.specs.Demo.{ExtendsDemo, IsDemo, HasDemoState};

use crate::DemoSource;
use dbl_base::{Bytes, Lsn, Text};
use dbl_disk::Disk;
use dbl_model_table::{Key, RawTable, TableName};
use dbl_source::{Source, SourceError};
use dbl_source_model::{Selected, Started};

impl<D: Disk> Source for DemoSource<D> {
    ghost use Rattle.std.specs.Prelude.{None, is_some};
    ghost use Rattle.dbl_source_model.specs.Calls.{IsConfirmedAt, IsConfirmedUpTo};
    ghost use Rattle.dbl_demo_wal.specs.Standings.{MayLeaveWal};
    ghost use Rattle.dbl_demo_laws.specs.Demo.{ExtendsDemo, HasDemoState};
    ghost use Rattle.dbl_demo_laws.specs.SourceLaws.{lives_so, one_standing, only_left};
    ghost use Rattle.dbl_demo_laws.specs.SourceLaws.{may_leave_so, reads_so, rising_so};
    ghost use Rattle.dbl_demo_laws.specs.SourceLaws.{fit_so, right_so};

    ghost stands = { λ source s. HasDemoState D.Disk source s };

    // Every workload is a conforming source.
    ghost honest = { λ source. Unit {0} };

    ghost may_leave = { λ source l. MayLeaveWal D.Disk source.journal.disk l };

    ghost comes_of = { λ old new. ExtendsDemo D.Disk old new };

    ghost told = { λ source. None };

    ghost is_live = { λ source. source.live };

    ghost is_reading = { λ source. is_some source.place };

    ghost has_ended = { λ source. source.ended };

    ghost faults = { λ source. D.faults source.journal.disk };

    ghost keeps_from = { IsConfirmedUpTo };

    ghost begins_at = { IsConfirmedAt };

    ghost lives = { λ source s a. lives_so _ source s a };

    ghost one = { λ source s t a b. one_standing _ source s t a b };

    ghost only = { λ source s l a may. only_left _ source s l a may };

    ghost may = { λ source s a. may_leave_so _ D.seen_may_be_left source s a };

    ghost reads = { λ source s a. reads_so _ source s a };

    ghost rising = { λ source s a. rising_so _ source s a };

    ghost fit = { λ source l may honest. fit_so _ source.journal.disk l may };

    ghost right = { λ source s r a honest is. right_so _ source s r a is };

    ghost comes_self = { λ source script gate most faults kept. kept };

    ghost comes_on = { λ first second third before after script gate most faults kept.
        after script gate most faults (before script gate most faults kept) };

    // Each call has the contract of every source. It adds to the log the commits of the group that
    // it runs first, and its own entry: all if it succeeds, and in any case a crash leaves a first
    // part of them.

    fn describe(&mut self, name: &TableName) -> Result<Option<RawTable>, SourceError>
        requires { IsTrue self.old.live }
        ensures described { MovesTo (HasDemoState D.Disk) self.old self.new result
            (IsDescribed name.now) }
        ensures named { IfOk result (λ entry. IfSome entry (λ raw. raw.name ≡ name.now)) }
        ensures left { Leaves (HasDemoState D.Disk)
            (λ source l. MayLeaveWal D.Disk source.journal.disk l) self.old self.new MayFollow }
        ensures some { LeavesSome (HasDemoState D.Disk)
            (λ source l. MayLeaveWal D.Disk source.journal.disk l) self.old self.new }
        ensures told { IfOk result (λ entry. LastAnswerIs None (Described entry)) }
        ensures taken { IsTakenBy [] None None }
        ensures reading { is_some self.new.place ≡ is_some self.old.place }
        ensures ended { self.new.ended ≡ self.old.ended }
        ensures live { OnOk result (IsTrue self.new.live) }
        ensures dead { OnErr result (self.new.live ≡ false) }
        ensures honest { Unit {0} → Unit {0} }
        ensures comes { ExtendsDemo D.Disk self.old self.new }
        ensures cause { FailsOnlyIfCounted (result ≡ Err Failed)
            (D.faults self.old.journal.disk) (D.faults self.new.journal.disk) }
        ensures steady { (s : SourceState) → HasDemoState D.Disk self.old s → OnOk result
            (D.faults self.new.journal.disk ≡ D.faults self.old.journal.disk) }
        ensures group { OnOk result (self.new.done ≡ next_end self.old) }
        ensures released { OnOk result (ReleasesSteps D.Disk
            (next_end self.old) [] self.old self.new) }
        ensures first { LeavesFirst D.Disk (next_end self.old) [] self.old self.new }
    {
        self.answer_describe(name)
    }

    fn head(&mut self) -> Result<Lsn, SourceError>
        requires { IsTrue self.old.live }
        ensures headed { MovesTo (HasDemoState D.Disk) self.old self.new result IsHeaded }
        ensures left { Leaves (HasDemoState D.Disk)
            (λ source l. MayLeaveWal D.Disk source.journal.disk l) self.old self.new MayFollow }
        ensures some { LeavesSome (HasDemoState D.Disk)
            (λ source l. MayLeaveWal D.Disk source.journal.disk l) self.old self.new }
        ensures told { IfOk result (λ lsn. LastAnswerIs None (Head lsn)) }
        ensures taken { IsTakenBy [] None None }
        ensures reading { is_some self.new.place ≡ is_some self.old.place }
        ensures ended { self.new.ended ≡ self.old.ended }
        ensures live { OnOk result (IsTrue self.new.live) }
        ensures dead { OnErr result (self.new.live ≡ false) }
        ensures honest { Unit {0} → Unit {0} }
        ensures comes { ExtendsDemo D.Disk self.old self.new }
        ensures cause { FailsOnlyIfCounted (result ≡ Err Failed)
            (D.faults self.old.journal.disk) (D.faults self.new.journal.disk) }
        ensures steady { (s : SourceState) → HasDemoState D.Disk self.old s → OnOk result
            (D.faults self.new.journal.disk ≡ D.faults self.old.journal.disk) }
        ensures last { IfOk result (λ lsn. lsn ≡ lsn_of (length self.new.commits)) }
        ensures group { OnOk result (self.new.done ≡ next_end self.old) }
        ensures released { OnOk result (ReleasesSteps D.Disk
            (next_end self.old) [] self.old self.new) }
        ensures first { LeavesFirst D.Disk (next_end self.old) [] self.old self.new }
    {
        self.answer_head()
    }

    fn start(&mut self, after: Lsn) -> Result<Started, SourceError>
        requires { IsTrue self.old.live }
        ensures started { MovesTo (HasDemoState D.Disk) self.old self.new result (Starts after) }
        ensures exact { (s : SourceState) → HasDemoState D.Disk self.old s →
            IfOk result (TellsLog IsConfirmedUpTo IsConfirmedAt s after) }
        ensures gone { IfOk result (λ started.
            started ≡ start_answer after self.old.confirmed) }
        ensures left { Leaves (HasDemoState D.Disk)
            (λ source l. MayLeaveWal D.Disk source.journal.disk l) self.old self.new MayFollow }
        ensures some { LeavesSome (HasDemoState D.Disk)
            (λ source l. MayLeaveWal D.Disk source.journal.disk l) self.old self.new }
        ensures told { IfOk result (λ started. LastAnswerIs None (Began started)) }
        ensures taken { OnOk result (IsTakenAnew None None) }
        ensures untaken { OnErr result (IsTakenBy [] None None) }
        ensures reading { IfOk result (λ started. is_some self.new.place ≡ is_ready started) }
        ensures unread { OnErr result (is_some self.new.place ≡ is_some self.old.place) }
        ensures unended { OnOk result (self.new.ended ≡ false) }
        ensures still { OnErr result (self.new.ended ≡ self.old.ended) }
        ensures live { OnOk result (IsTrue self.new.live) }
        ensures dead { OnErr result (self.new.live ≡ false) }
        ensures honest { Unit {0} → Unit {0} }
        ensures comes { ExtendsDemo D.Disk self.old self.new }
        ensures cause { FailsOnlyIfCounted (result ≡ Err Failed)
            (D.faults self.old.journal.disk) (D.faults self.new.journal.disk) }
        ensures steady { (s : SourceState) → HasDemoState D.Disk self.old s → OnOk result
            (D.faults self.new.journal.disk ≡ D.faults self.old.journal.disk) }
        ensures group { OnOk result (self.new.done ≡ next_end self.old) }
        ensures released { OnOk result (ReleasesSteps D.Disk
            (next_end self.old) [] self.old self.new) }
        ensures first { LeavesFirst D.Disk (next_end self.old) [] self.old self.new }
    {
        self.answer_start(after)
    }

    fn read(&mut self) -> Result<Option<Bytes>, SourceError>
        requires live { IsTrue self.old.live }
        requires reading { IsTrue (is_some self.old.place) }
        ensures took { (s : SourceState) → HasDemoState D.Disk self.old s
            → IfOk result (λ read. MatchOption read
            (HasState (HasDemoState D.Disk) self.new
            (λ t. Moved s t × (Unit {0} → HasReadAll s t)))
            (λ bytes. (m : Message) × Spells bytes m
            × HasState (HasDemoState D.Disk) self.new (HasReadOneMore m s))) }
        ensures left { Leaves (HasDemoState D.Disk)
            (λ source l. MayLeaveWal D.Disk source.journal.disk l) self.old self.new MayFollow }
        ensures some { LeavesSome (HasDemoState D.Disk)
            (λ source l. MayLeaveWal D.Disk source.journal.disk l) self.old self.new }
        ensures told { IfOk result (λ read. LastAnswerIs None (Read read)) }
        ensures taken { IfOk result (λ read. MatchOption read (IsTakenBy [] None None)
            (λ bytes. IsTakenBy (bytes ∷ []) None None)) }
        ensures untaken { OnErr result (IsTakenBy [] None None) }
        ensures reading { is_some self.new.place ≡ is_some self.old.place }
        ensures ended { IfOk result (λ read. self.new.ended ≡ is_none read) }
        ensures still { OnErr result (self.new.ended ≡ self.old.ended) }
        ensures live { OnOk result (IsTrue self.new.live) }
        ensures dead { OnErr result (self.new.live ≡ false) }
        ensures honest { Unit {0} → Unit {0} }
        ensures comes { ExtendsDemo D.Disk self.old self.new }
        ensures cause { FailsOnlyIfCounted (result ≡ Err Failed)
            (D.faults self.old.journal.disk) (D.faults self.new.journal.disk) }
        ensures steady { (s : SourceState) → HasDemoState D.Disk self.old s → OnOk result
            (D.faults self.new.journal.disk ≡ D.faults self.old.journal.disk) }
        ensures released { OnOk result (ReadsOnTo D.Disk self.old self.new) }
        ensures first { LeavesRead D.Disk self.old self.new }
        // None means that no step is left, and no commit to be read.
        ensures end { IfOk result (λ read. read ≡ None → (wal : Wal)
            → IsDemo D.Disk wal self.old → HasReadWhole
            (with_entries wal (added_by wal self.old.done self.new.done [])) self.new) }
        ensures all { IfOk result (λ read. read ≡ None
            → self.new.done ≡ length self.new.steps) }
    {
        self.answer_read()
    }

    // The rows are those between the two groups, and the version is 1.
    fn select(
        &mut self,
        table: &TableName,
        above: Option<&Key>,
        limit: u32,
    ) -> Result<Selected, SourceError>
        requires live { IsTrue self.old.live }
        requires positive { 1 ≤ limit }
        ensures selected { MovesTo (HasDemoState D.Disk) self.old self.new result
            (IsSelectAnswer (Unit {0}) table.now (option_copied above.entry) limit) }
        ensures shown { (wal : Wal) → IsDemo D.Disk wal self.old
            → IfOk result (λ answer. AreRowsShown wal.workload.tables
            (acts_at wal.workload (next_end self.old)) table.now
            (option_copied above.entry) limit answer.rows) }
        ensures left { Leaves (HasDemoState D.Disk)
            (λ source l. MayLeaveWal D.Disk source.journal.disk l) self.old self.new MayFollow }
        ensures some { LeavesSome (HasDemoState D.Disk)
            (λ source l. MayLeaveWal D.Disk source.journal.disk l) self.old self.new }
        ensures told { IfOk result (λ answer. LastAnswerIs None (RowsSelected answer)) }
        ensures taken { IsTakenBy [] None None }
        ensures reading { is_some self.new.place ≡ is_some self.old.place }
        ensures ended { self.new.ended ≡ self.old.ended }
        ensures live { OnOk result (IsTrue self.new.live) }
        ensures dead { OnErr result (self.new.live ≡ false) }
        ensures honest { Unit {0} → Unit {0} }
        ensures comes { ExtendsDemo D.Disk self.old self.new }
        ensures cause { FailsOnlyIfCounted (result ≡ Err Failed)
            (D.faults self.old.journal.disk) (D.faults self.new.journal.disk) }
        ensures steady { (s : SourceState) → HasDemoState D.Disk self.old s → OnOk result
            (D.faults self.new.journal.disk ≡ D.faults self.old.journal.disk) }
        ensures group { OnOk result (self.new.done ≡ second_end self.old) }
        ensures released { OnOk result (ReleasesSteps D.Disk
            (second_end self.old) [] self.old self.new) }
        ensures first { LeavesFirst D.Disk (second_end self.old) [] self.old self.new }
    {
        self.answer_select(table, above, limit)
    }

    fn mark(&mut self, value: &Text) -> Result<(), SourceError>
        requires live { IsTrue self.old.live }
        requires short { length value.now ≤ 64 }
        ensures marked { MovesTo (HasDemoState D.Disk) self.old self.new result
            (λ done. IsMarked value.now) }
        ensures left { Leaves (HasDemoState D.Disk)
            (λ source l. MayLeaveWal D.Disk source.journal.disk l)
            self.old self.new (MayFollowMark value.now) }
        ensures some { LeavesSome (HasDemoState D.Disk)
            (λ source l. MayLeaveWal D.Disk source.journal.disk l) self.old self.new }
        ensures unmarked { result ≡ Err Memory → Leaves (HasDemoState D.Disk)
            (λ source l. MayLeaveWal D.Disk source.journal.disk l) self.old self.new MayFollow }
        ensures told { OnOk result (LastAnswerIs None Done) }
        ensures taken { IsTakenBy [] None None }
        ensures reading { is_some self.new.place ≡ is_some self.old.place }
        ensures ended { self.new.ended ≡ self.old.ended }
        ensures live { OnOk result (IsTrue self.new.live) }
        ensures dead { OnErr result (self.new.live ≡ false) }
        ensures honest { Unit {0} → Unit {0} }
        ensures comes { ExtendsDemo D.Disk self.old self.new }
        ensures cause { FailsOnlyIfCounted (result ≡ Err Failed)
            (D.faults self.old.journal.disk) (D.faults self.new.journal.disk) }
        ensures steady { (s : SourceState) → HasDemoState D.Disk self.old s → OnOk result
            (D.faults self.new.journal.disk ≡ D.faults self.old.journal.disk) }
        ensures group { OnOk result (self.new.done ≡ next_end self.old) }
        ensures released { OnOk result (ReleasesSteps D.Disk
            (next_end self.old) (mark_entries value.now (next_end self.old)) self.old self.new) }
        ensures first { LeavesFirst D.Disk
            (next_end self.old) (mark_entries value.now (next_end self.old)) self.old self.new }
    {
        self.answer_mark(value)
    }

    fn confirm(&mut self, upto: Lsn) -> Result<(), SourceError>
        requires { IsTrue self.old.live }
        ensures confirmed { MovesTo (HasDemoState D.Disk) self.old self.new result
            (λ done. IsConfirmed upto) }
        ensures left { Leaves (HasDemoState D.Disk)
            (λ source l. MayLeaveWal D.Disk source.journal.disk l)
            self.old self.new (MayFollowConfirm upto) }
        ensures some { LeavesSome (HasDemoState D.Disk)
            (λ source l. MayLeaveWal D.Disk source.journal.disk l) self.old self.new }
        ensures unconfirmed { result ≡ Err Memory → Leaves (HasDemoState D.Disk)
            (λ source l. MayLeaveWal D.Disk source.journal.disk l) self.old self.new MayFollow }
        ensures told { OnOk result (LastAnswerIs None Done) }
        ensures taken { IsTakenBy [] None None }
        ensures reading { is_some self.new.place ≡ is_some self.old.place }
        ensures ended { self.new.ended ≡ self.old.ended }
        ensures live { OnOk result (IsTrue self.new.live) }
        ensures dead { OnErr result (self.new.live ≡ false) }
        ensures honest { Unit {0} → Unit {0} }
        ensures comes { ExtendsDemo D.Disk self.old self.new }
        ensures cause { FailsOnlyIfCounted (result ≡ Err Failed)
            (D.faults self.old.journal.disk) (D.faults self.new.journal.disk) }
        ensures steady { (s : SourceState) → HasDemoState D.Disk self.old s → OnOk result
            (D.faults self.new.journal.disk ≡ D.faults self.old.journal.disk) }
        ensures group { OnOk result (self.new.done ≡ next_end self.old) }
        ensures released { OnOk result (ReleasesSteps D.Disk
            (next_end self.old) (confirm_of self.old.confirmed upto) self.old self.new) }
        ensures first { LeavesFirst D.Disk
            (next_end self.old) (confirm_of self.old.confirmed upto) self.old self.new }
    {
        self.answer_confirm(upto)
    }
}
