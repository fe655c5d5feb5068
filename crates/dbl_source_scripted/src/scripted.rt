ghost use Rattle.std.specs.Prelude.{◌≡◌, ◌≢◌, ◌+◌, ◌≤◌, ◌<◌, ◌++◌, ◌∷◌, [], ℕ, length, map};
ghost use Rattle.std.specs.Prelude.{Option, Some, None, false, is_some, is_none, option_copied};
ghost use Rattle.std.specs.Prelude.{Err, IsTrue, IfSome, IfOk, IfErr, OnOk, OnErr, MatchOption};
ghost use Rattle.std.specs.List.{AllByRecursion};
ghost use Rattle.dbl_base.specs.Streams.{FailsOnlyIfCounted};
ghost use Rattle.dbl_pgmsg.specs.declared.messages.Message.{Message};
ghost use Rattle.dbl_pgmsg.specs.Grammar.{Fits, Spells};
ghost use Rattle.dbl_model_table.specs.Tables.{same_name, are_distinct};
ghost use Rattle.dbl_source_model.specs.ModelHistory.Ranges.{IsEntryInRange};
ghost use Rattle.dbl_source_model.specs.Standings.{SourceState, HasState, MovesTo};
ghost use Rattle.dbl_source_model.specs.Answered.{IsDescribed, IsHeaded, IsSelectAnswer};
ghost use Rattle.dbl_source_model.specs.Calls.{Moved, IsMarked, Starts, HasReadOneMore};
ghost use Rattle.dbl_source_model.specs.Calls.{HasReadAll, IsConfirmed, TellsLog};
ghost use Rattle.dbl_source_model.specs.Calls.{IsConfirmedAt, IsConfirmedUpTo};
ghost use Rattle.dbl_source_model.specs.Leaves.{Leaves, LeavesSome, MayFollow};
ghost use Rattle.dbl_source_model.specs.Leaves.{MayFollowMark, MayFollowConfirm};
ghost use Rattle.dbl_source_model.specs.Trace.{Described, Head, Began, Read, RowsSelected, Done};
ghost use Rattle.dbl_source_model.specs.Trace.{IsTakenBy, IsTakenAnew, LastAnswerIs, is_ready};
ghost use Rattle.dbl_source_log.specs.Relations.{catalogue, all_relations, oid_limit};
ghost use Rattle.dbl_source_scripted.specs.declared.asked.Last.TheVariants as answers;
ghost use Rattle.dbl_source_log.specs.declared.error.SourceError.TheVariants.{Failed, Memory};
ghost use Rattle.dbl_source_log.specs.declared.logged.Logged.TheVariants.{Changes};
ghost use Rattle.dbl_source_scripted.specs.Played.{keyed_table, new_played, trace_of, commits_before};
ghost use Rattle.dbl_source_scripted.specs.Played.{inside_of, planned_alteration};
ghost use Rattle.dbl_source_scripted.specs.Played.{IsPlannedToFail, past_move, with_release, FailsAsPlanned};
ghost use Rattle.dbl_source_scripted.specs.Played.{with_answer, with_mark, with_confirmed, started_at};
ghost use Rattle.dbl_source_scripted.specs.Played.{with_start, with_head, next_selected, with_select};
ghost use Rattle.dbl_source_scripted.specs.Steps.{AddedFirst, HasPlayedState};
ghost use Rattle.dbl_source_scripted.specs.Steps.{MayLeavePlayed, WasFair, IsUnfit, IsAtEnd};

use crate::asked::{Asked, Last};
use crate::catalogue::keyed_tables;
use crate::moves::{Move, PlannedAlteration};
use crate::{Source, SourceError};
use dbl_base::{Bytes, FaultPlan, Lsn, Text};
use dbl_model_table::{Key, RawTable, TableName};
use dbl_source_log::{Described, LogTable, Logged, ReaderPosition};
use dbl_source_model::{Selected, Started};
use std::alloc::Global;
use std::collections::BTreeMap;
use std::marker::Model;
use std::vec::IntoIter;

/// A source that plays a script: other clients' commits before each call, and inside of each
/// `select` between the rows that it takes and its return; alterations of tables before the others
/// of a call; an answer for each `select`; and the calls that fail. Commits inside of another call
/// can be scripted before that call or before the next one.
///
/// It conforms if the script was fair so far: `fair_scripts_are_honest`.
#[derive(Drop)]
pub struct ScriptedSource {
    pub(crate) alloc: Global,
    pub(crate) tables: Vec<LogTable>,
    pub(crate) moves: IntoIter<Move>,
    // In the order in which they were given.
    pub(crate) alters: Vec<PlannedAlteration>,
    pub(crate) rows: Vec<Selected>,
    pub(crate) asked: Vec<Asked>,
    // Its alterations are without their rows.
    pub(crate) log: Vec<Logged>,
    pub(crate) confirmed: Lsn,
    pub(crate) place: Option<ReaderPosition>,
    // The tables' columns as Relations have described them since the last start.
    pub(crate) described: Described,
    // The number of calls so far, as the plan counts them.
    pub(crate) calls: u64,
    pub(crate) plan: FaultPlan,
    pub(crate) last: Last,
    // Whether the last read since the last start answered that nothing is left.
    pub(crate) ended: bool,
    pub(crate) live: bool,
}

impl Model for ScriptedSource {
    ghost use Rattle.std.specs.Prelude.{◌≡◌, []};
    ghost use Rattle.dbl_source_scripted.specs.AlteredRows.{filled};
    ghost use Rattle.dbl_source_scripted.specs.Played.{Played};
    ghost use Rattle.dbl_source_scripted.specs.Steps.{IsPlayed};

    ghost Value = { Played };

    ghost use Rattle.dbl_source_scripted.specs.Fields.{played_of};

    ghost view = { played_of };

    ghost invariant = { λ s.
        IsPlayed s.tables.items (filled s.tables.items [] s.log.items) s.asked.items s.place
        s.described × (s.calls ≡ s.plan.calls) };
}

impl ScriptedSource {
    /// A source with these tables, whose replica identity is their primary key, and no commit. Call
    /// number n, from 1, plays the n-th move, and fails if n is among `fails`; the n-th `select`
    /// answers the n-th of `rows`. Calls after the last move commit nothing, and after the last of
    /// `rows` a `select` answers version 1 and no rows.
    ///
    /// The messages of a move are sent as they are: they name table number n, from 0, by the OID
    /// 16384 + n. Any others are sent too, but then the source doesn't conform. Commit number n,
    /// from 1, has the LSN 256 n; a watermark is an update of the watermark table, whose OID is
    /// 16383.
    ///
    /// The source conforms so far if the Relation of each table has an encoding. (Each text of a
    /// table is UTF-8, by its type.)
    pub fn make(
        alloc: Global,
        tables: Vec<RawTable>,
        moves: Vec<Move>,
        rows: Vec<Selected>,
        fails: Vec<u64>,
    ) -> Result<ScriptedSource, SourceError>
        requires few { length tables.items < oid_limit }
        requires distinct { IsTrue (are_distinct same_name (map (λ raw. raw.name) tables.items)) }
        requires schemas { AllByRecursion (λ raw. raw.name.schema ≢ []) tables.items }
        requires versions { AllByRecursion (λ raw. raw.version ≡ 1) tables.items }
        ensures made { IfOk result (λ source. source ≡ new_played
            tables.items moves.items rows.items fails.items) }
        ensures fair { AllByRecursion IsEntryInRange (catalogue (map keyed_table tables.items))
            → AllByRecursion Fits (all_relations (map keyed_table tables.items))
            → IfOk result WasFair }
        ensures memory { IfErr result (λ e. e ≡ Memory) }
    {
        let tables = keyed_tables(alloc, tables)?;
        Ok(ScriptedSource {
            alloc,
            tables,
            moves: moves.into_iter(),
            alters: Vec::new(alloc),
            rows,
            asked: Vec::new(alloc),
            log: Vec::new(alloc),
            confirmed: Lsn(0),
            place: None,
            described: BTreeMap::new(alloc),
            calls: 0,
            plan: FaultPlan::make(fails),
            last: Last::Done,
            ended: false,
            live: true,
        })
    }

    /// Adds an alteration to the script: call number `call`, from 1, commits before its other
    /// commits that the table of this name gets these columns and the next version. Its rows are
    /// those just before, in the new columns: a cell has the text of the first old column of its
    /// name, and is null if there was none. Alterations of one call are committed in the order in
    /// which they were given.
    ///
    /// `raw` names one of the source's tables; an alteration of any other changes none. Its `key`
    /// and `version` are ignored. A call that was made already alters nothing.
    pub fn alter(&mut self, call: u64, raw: RawTable) -> Result<(), SourceError>
        ensures ok { OnOk result (self.new ≡ record self.old {
          alters = self.old.alters ++ planned_alteration call raw ∷ [];
        }) }
        ensures err { OnErr result (self.new ≡ self.old) }
        ensures memory { IfErr result (λ e. e ≡ Memory) }
    {
        self.alters.push(PlannedAlteration { call, raw })?;
        Ok(())
    }
}

impl Source for ScriptedSource {
    ghost use Rattle.std.specs.Prelude.{◌≡◌, IsTrue, Some, is_some};
    ghost use Rattle.dbl_source_model.specs.Calls.{IsConfirmedAt, IsConfirmedUpTo};
    ghost use Rattle.dbl_source_scripted.specs.Played.{Played, trace_of};
    ghost use Rattle.dbl_source_scripted.specs.Steps.{HasPlayedState, MayLeavePlayed, WasFair};
    ghost use Rattle.dbl_source_scripted.specs.ScriptLaws.{one_standing, only_left, may_leave_so};
    ghost use Rattle.dbl_source_scripted.specs.ScriptLaws.{reads_so, rising_so, fit_so, right_so};

    ghost stands = { HasPlayedState };

    ghost honest = { WasFair };

    ghost may_leave = { MayLeavePlayed };

    ghost comes_of = { λ old new. Unit {0} };

    ghost told = { λ s. Some (trace_of s) };

    ghost is_live = { λ s. s.live };

    ghost is_reading = { λ s. is_some s.place };

    ghost has_ended = { λ s. s.ended };

    ghost faults = { λ s. s.plan.faults };

    ghost keeps_from = { IsConfirmedUpTo };

    ghost begins_at = { IsConfirmedAt };

    ghost lives = { λ source s a. a.0 };

    ghost one = { one_standing };

    ghost only = { only_left };

    ghost may = { may_leave_so };

    ghost reads = { reads_so };

    ghost rising = { rising_so };

    ghost fit = { fit_so };

    ghost right = { right_so };

    ghost comes_self = { λ source. tt };

    ghost comes_on = { λ first second third before after. tt };

    // Each call has the guarantees of any source's, and states its effect on the script. It fails
    // exactly as planned, or if memory runs out, after adding some first ones of its commits.

    fn describe(&mut self, name: &TableName) -> Result<Option<RawTable>, SourceError>
        requires { IsTrue self.old.live }
        ensures described { MovesTo HasPlayedState self.old self.new result (IsDescribed name.now) }
        ensures named { IfOk result (λ entry. IfSome entry (λ raw. raw.name ≡ name.now)) }
        ensures left { Leaves HasPlayedState MayLeavePlayed self.old self.new MayFollow }
        ensures some { LeavesSome HasPlayedState MayLeavePlayed self.old self.new }
        ensures told { IfOk result
            (λ entry. LastAnswerIs (Some (trace_of self.new)) (Described entry)) }
        ensures taken { IsTakenBy [] (Some (trace_of self.old)) (Some (trace_of self.new)) }
        ensures reading { is_some self.new.place ≡ is_some self.old.place }
        ensures ended { self.new.ended ≡ self.old.ended }
        ensures live { OnOk result (IsTrue self.new.live) }
        ensures dead { OnErr result (self.new.live ≡ false) }
        ensures honest { WasFair self.new → WasFair self.old }
        ensures comes { Unit {0} }
        ensures cause { FailsOnlyIfCounted (result ≡ Err Failed)
            self.old.plan.faults self.new.plan.faults }
        ensures steady { (s : SourceState) → HasPlayedState self.old s
            → OnOk result (self.new.plan.faults ≡ self.old.plan.faults) }
        ensures planned { FailsAsPlanned 0 ⊥ self.old self.new result }
        ensures memory { result ≡ Err Memory
            → AddedFirst (commits_before self.old) (past_move self.old) self.new }
        ensures played { OnOk result ((place : Option ℕ)
            × (self.new ≡ with_answer (answers.Described place) (with_release self.old))) }
    {
        self.play_describe(name)
    }

    fn head(&mut self) -> Result<Lsn, SourceError>
        requires { IsTrue self.old.live }
        ensures headed { MovesTo HasPlayedState self.old self.new result IsHeaded }
        ensures left { Leaves HasPlayedState MayLeavePlayed self.old self.new MayFollow }
        ensures some { LeavesSome HasPlayedState MayLeavePlayed self.old self.new }
        ensures told { IfOk result (λ lsn. LastAnswerIs (Some (trace_of self.new)) (Head lsn)) }
        ensures taken { IsTakenBy [] (Some (trace_of self.old)) (Some (trace_of self.new)) }
        ensures reading { is_some self.new.place ≡ is_some self.old.place }
        ensures ended { self.new.ended ≡ self.old.ended }
        ensures live { OnOk result (IsTrue self.new.live) }
        ensures dead { OnErr result (self.new.live ≡ false) }
        ensures honest { WasFair self.new → WasFair self.old }
        ensures comes { Unit {0} }
        ensures cause { FailsOnlyIfCounted (result ≡ Err Failed)
            self.old.plan.faults self.new.plan.faults }
        ensures steady { (s : SourceState) → HasPlayedState self.old s
            → OnOk result (self.new.plan.faults ≡ self.old.plan.faults) }
        ensures planned { FailsAsPlanned 0 ⊥ self.old self.new result }
        ensures memory { result ≡ Err Memory
            → AddedFirst (commits_before self.old) (past_move self.old) self.new }
        ensures played { OnOk result (self.new ≡ with_head (with_release self.old)) }
    {
        self.play_head()
    }

    // The log is gone if and only if it is below the confirmed position.
    fn start(&mut self, after: Lsn) -> Result<Started, SourceError>
        requires { IsTrue self.old.live }
        ensures started { MovesTo HasPlayedState self.old self.new result (Starts after) }
        ensures exact { (s : SourceState) → HasPlayedState self.old s →
            IfOk result (TellsLog IsConfirmedUpTo IsConfirmedAt s after) }
        ensures left { Leaves HasPlayedState MayLeavePlayed self.old self.new MayFollow }
        ensures some { LeavesSome HasPlayedState MayLeavePlayed self.old self.new }
        ensures told { IfOk result
            (λ started. LastAnswerIs (Some (trace_of self.new)) (Began started)) }
        ensures taken { OnOk result
            (IsTakenAnew (Some (trace_of self.old)) (Some (trace_of self.new))) }
        ensures untaken { OnErr result
            (IsTakenBy [] (Some (trace_of self.old)) (Some (trace_of self.new))) }
        ensures reading { IfOk result (λ started. is_some self.new.place ≡ is_ready started) }
        ensures unread { OnErr result (is_some self.new.place ≡ is_some self.old.place) }
        ensures unended { OnOk result (self.new.ended ≡ false) }
        ensures still { OnErr result (self.new.ended ≡ self.old.ended) }
        ensures live { OnOk result (IsTrue self.new.live) }
        ensures dead { OnErr result (self.new.live ≡ false) }
        ensures honest { WasFair self.new → WasFair self.old }
        ensures comes { Unit {0} }
        ensures cause { FailsOnlyIfCounted (result ≡ Err Failed)
            self.old.plan.faults self.new.plan.faults }
        ensures steady { (s : SourceState) → HasPlayedState self.old s
            → OnOk result (self.new.plan.faults ≡ self.old.plan.faults) }
        ensures planned { FailsAsPlanned 0 ⊥ self.old self.new result }
        ensures memory { result ≡ Err Memory
            → AddedFirst (commits_before self.old) (past_move self.old) self.new }
        ensures played { IfOk result (λ answer. (answer ≡ started_at after self.old)
            × (self.new ≡ with_start after (with_release self.old))) }
    {
        self.play_start(after)
    }

    // A read also fails if the next message has no encoding.
    fn read(&mut self) -> Result<Option<Bytes>, SourceError>
        requires live { IsTrue self.old.live }
        requires reading { IsTrue (is_some self.old.place) }
        ensures took { (s : SourceState) → HasPlayedState self.old s
            → IfOk result (λ read. MatchOption read
            (HasState HasPlayedState self.new
            (λ t. Moved s t × (WasFair self.new → HasReadAll s t)))
            (λ bytes. (m : Message) × Spells bytes m
            × HasState HasPlayedState self.new (HasReadOneMore m s))) }
        ensures left { Leaves HasPlayedState MayLeavePlayed self.old self.new MayFollow }
        ensures some { LeavesSome HasPlayedState MayLeavePlayed self.old self.new }
        ensures told { IfOk result (λ read. LastAnswerIs (Some (trace_of self.new)) (Read read)) }
        ensures taken { IfOk result (λ read. MatchOption read
            (IsTakenBy [] (Some (trace_of self.old)) (Some (trace_of self.new)))
            (λ bytes. IsTakenBy (bytes ∷ []) (Some (trace_of self.old))
            (Some (trace_of self.new)))) }
        ensures untaken { OnErr result
            (IsTakenBy [] (Some (trace_of self.old)) (Some (trace_of self.new))) }
        ensures reading { is_some self.new.place ≡ is_some self.old.place }
        ensures ended { IfOk result (λ read. self.new.ended ≡ is_none read) }
        ensures still { OnErr result (self.new.ended ≡ self.old.ended) }
        ensures live { OnOk result (IsTrue self.new.live) }
        ensures dead { OnErr result (self.new.live ≡ false) }
        ensures honest { WasFair self.new → WasFair self.old }
        ensures comes { Unit {0} }
        ensures cause { FailsOnlyIfCounted (result ≡ Err Failed)
            self.old.plan.faults self.new.plan.faults }
        ensures steady { (s : SourceState) → HasPlayedState self.old s
            → OnOk result (self.new.plan.faults ≡ self.old.plan.faults) }
        ensures planned { FailsAsPlanned 0 (IsUnfit (with_release self.old)) self.old
            self.new result }
        ensures memory { result ≡ Err Memory
            → AddedFirst (commits_before self.old) (past_move self.old) self.new }
        ensures played { IfOk result (λ read. (place : ReaderPosition) × (what : Last)
            × (self.new ≡ with_answer what
            (record (with_release self.old) { place = Some place; ended = is_none read }))) }
        ensures ends { IfOk result (λ read. (read ≡ None) → (place : ReaderPosition)
            → self.new.place ≡ Some place → IsAtEnd self.new.log place) }
    {
        self.play_read()
    }

    fn select(
        &mut self,
        table: &TableName,
        above: Option<&Key>,
        limit: u32,
    ) -> Result<Selected, SourceError>
        requires live { IsTrue self.old.live }
        requires positive { 1 ≤ limit }
        ensures selected { MovesTo HasPlayedState self.old self.new result
            (IsSelectAnswer (WasFair self.new) table.now (option_copied above.entry) limit) }
        ensures left { Leaves HasPlayedState MayLeavePlayed self.old self.new MayFollow }
        ensures some { LeavesSome HasPlayedState MayLeavePlayed self.old self.new }
        ensures told { IfOk result
            (λ answer. LastAnswerIs (Some (trace_of self.new)) (RowsSelected answer)) }
        ensures taken { IsTakenBy [] (Some (trace_of self.old)) (Some (trace_of self.new)) }
        ensures reading { is_some self.new.place ≡ is_some self.old.place }
        ensures ended { self.new.ended ≡ self.old.ended }
        ensures live { OnOk result (IsTrue self.new.live) }
        ensures dead { OnErr result (self.new.live ≡ false) }
        ensures honest { WasFair self.new → WasFair self.old }
        ensures comes { Unit {0} }
        ensures cause { FailsOnlyIfCounted (result ≡ Err Failed)
            self.old.plan.faults self.new.plan.faults }
        ensures steady { (s : SourceState) → HasPlayedState self.old s
            → OnOk result (self.new.plan.faults ≡ self.old.plan.faults) }
        ensures planned { FailsAsPlanned (length (inside_of self.old)) ⊥ self.old self.new result }
        ensures memory { result ≡ Err Memory
            → AddedFirst (commits_before self.old ++ map Changes (inside_of self.old))
            (past_move self.old) self.new }
        ensures listed { IsPlannedToFail self.old → result ≡ Err Memory
            → AddedFirst (commits_before self.old) (past_move self.old) self.new }
        ensures played { IfOk result (λ answer. (answer ≡ next_selected self.old)
            × (self.new ≡ with_select table.now (option_copied above.entry) limit
            (length self.old.log) (inside_of self.old) (with_release self.old))) }
    {
        self.play_select(table, above, limit)
    }

    fn mark(&mut self, value: &Text) -> Result<(), SourceError>
        requires live { IsTrue self.old.live }
        requires short { length value.now ≤ 64 }
        ensures marked { MovesTo HasPlayedState self.old self.new result
            (λ done. IsMarked value.now) }
        ensures left { Leaves HasPlayedState MayLeavePlayed self.old self.new
            (MayFollowMark value.now) }
        ensures some { LeavesSome HasPlayedState MayLeavePlayed self.old self.new }
        ensures unmarked { result ≡ Err Memory
            → Leaves HasPlayedState MayLeavePlayed self.old self.new MayFollow }
        ensures told { OnOk result (LastAnswerIs (Some (trace_of self.new)) Done) }
        ensures taken { IsTakenBy [] (Some (trace_of self.old)) (Some (trace_of self.new)) }
        ensures reading { is_some self.new.place ≡ is_some self.old.place }
        ensures ended { self.new.ended ≡ self.old.ended }
        ensures live { OnOk result (IsTrue self.new.live) }
        ensures dead { OnErr result (self.new.live ≡ false) }
        ensures honest { WasFair self.new → WasFair self.old }
        ensures comes { Unit {0} }
        ensures cause { FailsOnlyIfCounted (result ≡ Err Failed)
            self.old.plan.faults self.new.plan.faults }
        ensures steady { (s : SourceState) → HasPlayedState self.old s
            → OnOk result (self.new.plan.faults ≡ self.old.plan.faults) }
        ensures planned { FailsAsPlanned 1 ⊥ self.old self.new result }
        ensures memory { result ≡ Err Memory
            → AddedFirst (commits_before self.old) (past_move self.old) self.new }
        ensures played { OnOk result (self.new ≡ with_mark value.now (with_release self.old)) }
    {
        self.play_mark(value)
    }

    fn confirm(&mut self, upto: Lsn) -> Result<(), SourceError>
        requires { IsTrue self.old.live }
        ensures confirmed { MovesTo HasPlayedState self.old self.new result
            (λ done. IsConfirmed upto) }
        ensures left { Leaves HasPlayedState MayLeavePlayed self.old self.new
            (MayFollowConfirm upto) }
        ensures some { LeavesSome HasPlayedState MayLeavePlayed self.old self.new }
        ensures unconfirmed { result ≡ Err Memory
            → Leaves HasPlayedState MayLeavePlayed self.old self.new MayFollow }
        ensures told { OnOk result (LastAnswerIs (Some (trace_of self.new)) Done) }
        ensures taken { IsTakenBy [] (Some (trace_of self.old)) (Some (trace_of self.new)) }
        ensures reading { is_some self.new.place ≡ is_some self.old.place }
        ensures ended { self.new.ended ≡ self.old.ended }
        ensures live { OnOk result (IsTrue self.new.live) }
        ensures dead { OnErr result (self.new.live ≡ false) }
        ensures honest { WasFair self.new → WasFair self.old }
        ensures comes { Unit {0} }
        ensures cause { FailsOnlyIfCounted (result ≡ Err Failed)
            self.old.plan.faults self.new.plan.faults }
        ensures steady { (s : SourceState) → HasPlayedState self.old s
            → OnOk result (self.new.plan.faults ≡ self.old.plan.faults) }
        ensures planned { FailsAsPlanned 0 ⊥ self.old self.new result }
        ensures memory { result ≡ Err Memory
            → AddedFirst (commits_before self.old) (past_move self.old) self.new }
        ensures played { OnOk result (self.new ≡ with_confirmed upto (with_release self.old)) }
    {
        self.play_confirm(upto)
    }
}
