ghost use Rattle.std.specs.Prelude.{◌≡◌, ◌≤◌, ℕ, List, [], ◌∷◌, length, Bool, false};
ghost use Rattle.std.specs.Prelude.{is_some, is_none, IsTrue, Option, None, Some};
ghost use Rattle.std.specs.Prelude.{option_copied, IfSome, IfOk, OnOk, OnErr, MatchOption};
ghost use Rattle.dbl_base.specs.Streams.{FailsOnlyIfCounted};
ghost use Rattle.dbl_base.specs.declared.lsn.Lsn.{Lsn};
ghost use Rattle.dbl_pgmsg.specs.declared.messages.Message.{Message};
ghost use Rattle.dbl_pgmsg.specs.Grammar.{Spells};
ghost use Rattle.dbl_source_model.specs.ModelHistory.History.{IsRising};
ghost use Rattle.dbl_source_model.specs.ModelHistory.Fit.{IsFitHistory};
ghost use Rattle.dbl_source_log.specs.declared.error.SourceError.TheVariants.{Failed, Memory};
ghost use Rattle.dbl_source_model.specs.Standings.{Reading, SourceState, CrashState};
ghost use Rattle.dbl_source_model.specs.Standings.{left_of, HasState, MovesTo};
ghost use Rattle.dbl_source_model.specs.Answered.{IsDescribed, IsHeaded, IsSelectAnswer};
ghost use Rattle.dbl_source_model.specs.Stated.{IsReadRight};
ghost use Rattle.dbl_source_model.specs.Calls.{Moved, IsMarked, Starts, HasReadOneMore};
ghost use Rattle.dbl_source_model.specs.Calls.{HasReadAll, IsConfirmed, TellsLog};
ghost use Rattle.dbl_source_model.specs.Leaves.{Leaves, LeavesSome, MayFollow};
ghost use Rattle.dbl_source_model.specs.Leaves.{MayFollowMark, MayFollowConfirm};
ghost use Rattle.dbl_source_model.specs.Trace.{Described, Head, Began, Read, RowsSelected, Done};
ghost use Rattle.dbl_source_model.specs.Trace.{Trace, IsTakenBy, IsTakenAnew, LastAnswerIs};
ghost use Rattle.dbl_source_model.specs.Trace.{is_ready};

use crate::SourceError;
use dbl_base::{Bytes, Lsn, Text};
use dbl_model_table::{Key, RawTable, TableName};
use dbl_source_model::{Selected, Started};

/// A database whose changes are captured: its catalogue, its log and its rows.
///
/// Other clients may commit during each call. After an error the source can't be used any more.
pub trait Source {
    /// The state of a source that can be used and reports it: its history, the confirmed position,
    /// and the messages read since the last start. A server reports nothing.
    ghost stands: { Self → SourceState → Type 0 };

    /// Whether its answers so far conform: its history is valid, the messages that were read state
    /// it, and each select answered the version and the rows of one position. A source that
    /// conforms after a call did so before it.
    ghost honest: { Self → Type 0 };

    /// What a crash now may leave.
    ghost may_leave: { Self → CrashState → Type 0 };

    /// Whether the second source extends the first one, which every call ensures for every result.
    /// For a source on a disk, about its contents.
    ghost comes_of: { Self → Self → Type 0 };

    /// The last answer, and the bytes of all messages since the last start, if the source reports
    /// them.
    ghost told: { Self → Option Trace };

    /// Whether the source can be used.
    ghost is_live: { Self → Bool };

    /// Whether the last start answered that reading begins.
    ghost is_reading: { Self → Bool };

    /// After a start was answered: whether the last answered read since then returned that nothing
    /// is left.
    ghost has_ended: { Self → Bool };

    /// The number of failures of the source. A count of 2^64 - 1 stays so. A call that succeeds
    /// leaves it as it is if the source reported its state.
    ghost faults: { Self → ℕ };

    /// Whether a source in this state still has the log after the LSN.
    ghost keeps_from: { SourceState → Lsn → Type 0 };

    /// Whether the log of a source in this state begins after the LSN.
    ghost begins_at: { SourceState → Lsn → Type 0 };

    /// The catalogue's entry of the table of this name at one time during the call, with the
    /// table's columns and its version then; None if there is no such table.
    fn describe(&mut self, name: &TableName) -> Result<Option<RawTable>, SourceError>
        requires { IsTrue (is_live self.old) }
        ensures described { MovesTo stands self.old self.new result (IsDescribed name.now) }
        ensures named { IfOk result (λ entry. IfSome entry (λ raw. raw.name ≡ name.now)) }
        ensures left { Leaves stands may_leave self.old self.new MayFollow }
        ensures some { LeavesSome stands may_leave self.old self.new }
        ensures told { IfOk result (λ entry. LastAnswerIs (told self.new) (Described entry)) }
        ensures taken { IsTakenBy [] (told self.old) (told self.new) }
        ensures reading { is_reading self.new ≡ is_reading self.old }
        ensures ended { has_ended self.new ≡ has_ended self.old }
        ensures live { OnOk result (IsTrue (is_live self.new)) }
        ensures dead { OnErr result (is_live self.new ≡ false) }
        ensures honest { honest self.new → honest self.old }
        ensures comes { comes_of self.old self.new }
        ensures cause { FailsOnlyIfCounted (result ≡ Err Failed)
            (faults self.old) (faults self.new) }
        ensures steady { (s : SourceState) → stands self.old s
            → OnOk result (faults self.new ≡ faults self.old) };

    /// The LSN of the last commit at one time during the call, 0 if there was none.
    fn head(&mut self) -> Result<Lsn, SourceError>
        requires { IsTrue (is_live self.old) }
        ensures headed { MovesTo stands self.old self.new result IsHeaded }
        ensures left { Leaves stands may_leave self.old self.new MayFollow }
        ensures some { LeavesSome stands may_leave self.old self.new }
        ensures told { IfOk result (λ lsn. LastAnswerIs (told self.new) (Head lsn)) }
        ensures taken { IsTakenBy [] (told self.old) (told self.new) }
        ensures reading { is_reading self.new ≡ is_reading self.old }
        ensures ended { has_ended self.new ≡ has_ended self.old }
        ensures live { OnOk result (IsTrue (is_live self.new)) }
        ensures dead { OnErr result (is_live self.new ≡ false) }
        ensures honest { honest self.new → honest self.old }
        ensures comes { comes_of self.old self.new }
        ensures cause { FailsOnlyIfCounted (result ≡ Err Failed)
            (faults self.old) (faults self.new) }
        ensures steady { (s : SourceState) → stands self.old s
            → OnOk result (faults self.new ≡ faults self.old) };

    /// Begins reading again, with the first commit after the LSN; or answers `Gone` if the log
    /// after it was dropped, with the first position after which reading can begin. It is above the
    /// LSN and not above the confirmed position, since only log up to there is ever dropped.
    fn start(&mut self, after: Lsn) -> Result<Started, SourceError>
        requires { IsTrue (is_live self.old) }
        ensures started { MovesTo stands self.old self.new result (Starts after) }
        ensures exact { (s : SourceState) → stands self.old s →
            IfOk result (TellsLog keeps_from begins_at s after) }
        ensures left { Leaves stands may_leave self.old self.new MayFollow }
        ensures some { LeavesSome stands may_leave self.old self.new }
        ensures told { IfOk result (λ started. LastAnswerIs (told self.new) (Began started)) }
        ensures taken { OnOk result (IsTakenAnew (told self.old) (told self.new)) }
        ensures untaken { OnErr result (IsTakenBy [] (told self.old) (told self.new)) }
        ensures reading { IfOk result (λ started. is_reading self.new ≡ is_ready started) }
        ensures unread { OnErr result (is_reading self.new ≡ is_reading self.old) }
        ensures unended { OnOk result (has_ended self.new ≡ false) }
        ensures still { OnErr result (has_ended self.new ≡ has_ended self.old) }
        ensures live { OnOk result (IsTrue (is_live self.new)) }
        ensures dead { OnErr result (is_live self.new ≡ false) }
        ensures honest { honest self.new → honest self.old }
        ensures comes { comes_of self.old self.new }
        ensures cause { FailsOnlyIfCounted (result ≡ Err Failed)
            (faults self.old) (faults self.new) }
        ensures steady { (s : SourceState) → stands self.old s
            → OnOk result (faults self.new ≡ faults self.old) };

    /// The bytes of the next message, or None. If the source conforms and the messages that it sent
    /// have no error, None says that every commit that existed at the call was read.
    fn read(&mut self) -> Result<Option<Bytes>, SourceError>
        requires live { IsTrue (is_live self.old) }
        requires reading { IsTrue (is_reading self.old) }
        ensures took { (s : SourceState) → stands self.old s → IfOk result (λ read. MatchOption read
            (HasState stands self.new (λ t. Moved s t × (honest self.new → HasReadAll s t)))
            (λ bytes. (m : Message) × Spells bytes m
            × HasState stands self.new (HasReadOneMore m s))) }
        ensures left { Leaves stands may_leave self.old self.new MayFollow }
        ensures some { LeavesSome stands may_leave self.old self.new }
        ensures told { IfOk result (λ read. LastAnswerIs (told self.new) (Read read)) }
        ensures taken { IfOk result (λ read. MatchOption read
            (IsTakenBy [] (told self.old) (told self.new))
            (λ bytes. IsTakenBy (bytes ∷ []) (told self.old) (told self.new))) }
        ensures untaken { OnErr result (IsTakenBy [] (told self.old) (told self.new)) }
        ensures reading { is_reading self.new ≡ is_reading self.old }
        ensures ended { IfOk result (λ read. has_ended self.new ≡ is_none read) }
        ensures still { OnErr result (has_ended self.new ≡ has_ended self.old) }
        ensures live { OnOk result (IsTrue (is_live self.new)) }
        ensures dead { OnErr result (is_live self.new ≡ false) }
        ensures honest { honest self.new → honest self.old }
        ensures comes { comes_of self.old self.new }
        ensures cause { FailsOnlyIfCounted (result ≡ Err Failed)
            (faults self.old) (faults self.new) }
        ensures steady { (s : SourceState) → stands self.old s
            → OnOk result (faults self.new ≡ faults self.old) };

    /// The version of the table and its first `limit` rows with a key above `above` (all if None),
    /// in key order, both at one position between the call and the return, if the source conforms.
    /// No row is above a key of other types, and a missing table has version 1 and none.
    fn select(
        &mut self,
        table: &TableName,
        above: Option<&Key>,
        limit: u32,
    ) -> Result<Selected, SourceError>
        requires live { IsTrue (is_live self.old) }
        requires positive { 1 ≤ limit }
        ensures selected { MovesTo stands self.old self.new result
            (IsSelectAnswer (honest self.new) table.now (option_copied above.entry) limit) }
        ensures left { Leaves stands may_leave self.old self.new MayFollow }
        ensures some { LeavesSome stands may_leave self.old self.new }
        ensures told { IfOk result (λ answer. LastAnswerIs (told self.new) (RowsSelected answer)) }
        ensures taken { IsTakenBy [] (told self.old) (told self.new) }
        ensures reading { is_reading self.new ≡ is_reading self.old }
        ensures ended { has_ended self.new ≡ has_ended self.old }
        ensures live { OnOk result (IsTrue (is_live self.new)) }
        ensures dead { OnErr result (is_live self.new ≡ false) }
        ensures honest { honest self.new → honest self.old }
        ensures comes { comes_of self.old self.new }
        ensures cause { FailsOnlyIfCounted (result ≡ Err Failed)
            (faults self.old) (faults self.new) }
        ensures steady { (s : SourceState) → stands self.old s
            → OnOk result (faults self.new ≡ faults self.old) };

    /// Writes the watermark as a commit of its own. After `Failed` it may be in the log, after
    /// `Memory` it isn't.
    fn mark(&mut self, value: &Text) -> Result<(), SourceError>
        requires live { IsTrue (is_live self.old) }
        requires short { length value.now ≤ 64 }
        ensures marked { MovesTo stands self.old self.new result (λ done. IsMarked value.now) }
        ensures left { Leaves stands may_leave self.old self.new (MayFollowMark value.now) }
        ensures some { LeavesSome stands may_leave self.old self.new }
        ensures unmarked { result ≡ Err Memory
            → Leaves stands may_leave self.old self.new MayFollow }
        ensures told { OnOk result (LastAnswerIs (told self.new) Done) }
        ensures taken { IsTakenBy [] (told self.old) (told self.new) }
        ensures reading { is_reading self.new ≡ is_reading self.old }
        ensures ended { has_ended self.new ≡ has_ended self.old }
        ensures live { OnOk result (IsTrue (is_live self.new)) }
        ensures dead { OnErr result (is_live self.new ≡ false) }
        ensures honest { honest self.new → honest self.old }
        ensures comes { comes_of self.old self.new }
        ensures cause { FailsOnlyIfCounted (result ≡ Err Failed)
            (faults self.old) (faults self.new) }
        ensures steady { (s : SourceState) → stands self.old s
            → OnOk result (faults self.new ≡ faults self.old) };

    /// Confirms that the log up to this LSN isn't needed any more; one that is below the confirmed
    /// position changes nothing. After `Failed` it may be confirmed, after `Memory` it isn't.
    fn confirm(&mut self, upto: Lsn) -> Result<(), SourceError>
        requires { IsTrue (is_live self.old) }
        ensures confirmed { MovesTo stands self.old self.new result (λ done. IsConfirmed upto) }
        ensures left { Leaves stands may_leave self.old self.new (MayFollowConfirm upto) }
        ensures some { LeavesSome stands may_leave self.old self.new }
        ensures unconfirmed { result ≡ Err Memory
            → Leaves stands may_leave self.old self.new MayFollow }
        ensures told { OnOk result (LastAnswerIs (told self.new) Done) }
        ensures taken { IsTakenBy [] (told self.old) (told self.new) }
        ensures reading { is_reading self.new ≡ is_reading self.old }
        ensures ended { has_ended self.new ≡ has_ended self.old }
        ensures live { OnOk result (IsTrue (is_live self.new)) }
        ensures dead { OnErr result (is_live self.new ≡ false) }
        ensures honest { honest self.new → honest self.old }
        ensures comes { comes_of self.old self.new }
        ensures cause { FailsOnlyIfCounted (result ≡ Err Failed)
            (faults self.old) (faults self.new) }
        ensures steady { (s : SourceState) → stands self.old s
            → OnOk result (faults self.new ≡ faults self.old) };

    /// A source that reports a state can be used.
    ghost lives: { (source : Self) (s : SourceState) → stands source s → IsTrue (is_live source) };

    /// Its state is unique.
    ghost one: { (source : Self) (s t : SourceState) → stands source s → stands source t → s ≡ t };

    /// A crash may leave its state, and nothing else.
    ghost only: { (source : Self) (s : SourceState) (l : CrashState) → stands source s
        → may_leave source l → l ≡ left_of s };

    ghost may: { (source : Self) (s : SourceState) → stands source s
        → may_leave source (left_of s) };

    /// Reading is in progress if and only if the last start answered that reading begins.
    ghost reads: { (source : Self) (s : SourceState) → stands source s
        → is_some s.reading ≡ is_reading source };

    /// The LSNs of its history rise, also if it doesn't conform.
    ghost rising: { (source : Self) (s : SourceState) → stands source s → IsRising s.history };

    /// Every state that a conforming source may leave has a valid history, also after an error.
    ghost fit: { (source : Self) (l : CrashState) → may_leave source l → honest source
        → IsFitHistory l.history };

    /// The messages read of a conforming source, each in the columns of its table's last Relation,
    /// state the first commits after the start, up to the first message with an error, for any
    /// captured tables.
    ghost right: { (source : Self) (s : SourceState) (r : Reading) → stands source s → honest source
        → s.reading ≡ Some r → IsReadRight s.history r };

    /// The relation of extension is reflexive and transitive.
    ghost comes_self: { (source : Self) → comes_of source source };

    ghost comes_on: { (first second third : Self) → comes_of first second
        → comes_of second third → comes_of first third };
}
