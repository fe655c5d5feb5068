//! The states of a window, each consumed by the step to the next one. A state has only what other
//! clients' commits can't undo: a watermark in a history that grows, and rows of one position
//! between two watermarks.

ghost use Rattle.std.specs.Prelude.{◌≡◌, ◌≢◌, ◌⊎◌, ◌↔◌, ◌≤◌, ℕ, List, [], length, nat_lt, IsTrue};
ghost use Rattle.std.specs.Prelude.{IfOk, IfErr, IfSome, IsOk, OnOk};
ghost use Rattle.std.specs.List.{AllByRecursion};
ghost use Rattle.dbl_value_types.specs.declared.error.ValueError.{ValueError as SpecValueError};
ghost use Rattle.dbl_model_table.specs.declared.table.TableInfo.{TableInfo as SpecInfo};
ghost use Rattle.dbl_model_table.specs.Rows.{table_of};
ghost use Rattle.dbl_model_history.specs.Fit.{IsKeyOf};
ghost use Rattle.dbl_model_history.specs.KeyedRows.{last_key};
ghost use Rattle.dbl_model_event.specs.Snapshots.{AreInKeyOrder, FitsChunk};
ghost use Rattle.dbl_source.specs.SourceModel.Standings.{SourceState, HasState, MovesTo};
ghost use Rattle.dbl_source.specs.SourceModel.Calls.{Moved, IsMarked};
ghost use Rattle.dbl_source.specs.SourceModel.Leaves.{Leaves, MayFollow, MayFollowMark};
ghost use Rattle.dbl_source.specs.SourceModel.Selected.{Selects};
ghost use Rattle.dbl_source.specs.SourceModel.Trace.{LastAnswerIs, RowsSelected};
ghost use Rattle.dbl_window.specs.Plans.{Chunk, low_text, high_text, IsFitChunk};
ghost use Rattle.dbl_window.specs.Changing.{FitsTableChange, IsLeftBy};
ghost use Rattle.dbl_window.specs.Selected.{IsCaptured, SelectsChunk, HasUnreadable, IsReadAs};
ghost use Rattle.dbl_window.specs.Selected.{IsChunkReadFrom, HasMoved};
ghost use Rattle.dbl_window.specs.Leaving.{MayStayOrMark, MayStayOrFollow};
ghost use Rattle.dbl_window.specs.Promise.{KeepsPromise, IsClosedOf, closed_of};
ghost use Rattle.dbl_source.specs.Keeps.{KeepsSource, ReadsNothing, AnswersDone};

use crate::frame::Frame;
use crate::reading::{Read, read_rows};
use crate::rows::{HeldRows, change_rows, in_order};
use crate::{WindowError, marks};
use dbl_base::Text;
use dbl_model_event::{Closed, KeyedRows};
use dbl_model_table::{Change, Key, TableInfo};
use dbl_source::{Selected, Source};
use std::alloc::{AllocError, Global};
use std::marker::Model;

/// The initial state. Contracts see a window's plan.
#[derive(Drop)]
pub struct Idle {
    frame: Frame,
}

impl Model for Idle {
    ghost use Rattle.dbl_window.specs.Plans.{Plan, plan_of, IsFrame};

    ghost Value = { Plan };

    ghost view = { λ w. plan_of w.frame };

    ghost invariant = { λ w. IsFrame w.frame };
}

/// The low watermark was written.
#[derive(Drop)]
pub struct Marked {
    frame: Frame,
    // The texts of both watermarks, so that later steps take no memory for them.
    low: Text,
    high: Text,
}

impl Model for Marked {
    ghost use Rattle.dbl_window.specs.Plans.{Plan, plan_of, IsNamed};

    ghost Value = { Plan };

    ghost view = { λ w. plan_of w.frame };

    ghost invariant = { λ w. IsNamed w.frame w.low w.high };
}

/// The rows were read. Contracts see a window's chunk.
#[derive(Drop)]
pub struct Held {
    frame: Frame,
    low: Text,
    high: Text,
    rows: HeldRows,
    through: Option<Key>,
    done: bool,
}

impl Model for Held {
    ghost use Rattle.dbl_window.specs.Plans.{Chunk, plan_of, IsHeld};

    ghost Value = { Chunk };

    ghost view = { λ w. record {
      plan = plan_of w.frame;
      rows = w.rows.entries;
      through = w.through;
      done = w.done;
    } };

    ghost invariant = { λ w. IsHeld w.frame w.low w.high w.rows.entries w.through };
}

/// The high watermark was written, and the low one hasn't been read from the log yet.
#[derive(Drop)]
pub struct Armed {
    held: Held,
}

impl Model for Armed {
    ghost use Rattle.dbl_window.specs.Plans.{Chunk};

    ghost Value = { Chunk };

    ghost view = { λ w. w.held };
}

/// The low watermark was read from the log. Rows are removed from the window as the log's changes
/// are read.
#[derive(Drop)]
pub struct Open {
    held: Held,
}

impl Model for Open {
    ghost use Rattle.dbl_window.specs.Plans.{Chunk};

    ghost Value = { Chunk };

    ghost view = { λ w. w.held };
}

/// An armed window after a watermark in the log.
#[derive(Drop)]
pub enum Seen {
    Opened(Open),
    Waiting(Armed),
}

/// A window of a captured table, by its index, that reads at most `limit` rows after a key. Its
/// watermarks have the session's incarnation and the window's number; `info` describes this version
/// of the table. Takes no memory; later calls use the allocator.
pub fn new(
    alloc: Global,
    info: TableInfo,
    table: u32,
    above: Option<Key>,
    limit: u32,
    incarnation: u64,
    number: u64,
    version: u64,
) -> Idle
    requires some { 1 ≤ limit }
    requires most { limit ≤ 100000 }
    requires above { IfSome above (IsKeyOf info) }
    ensures { result ≡ record {
      info = info;
      table = table;
      above = above;
      limit = limit;
      incarnation = incarnation;
      number = number;
      version = version;
    } }
{
    Idle {
        frame: Frame {
            alloc,
            info,
            table,
            above,
            limit,
            incarnation,
            number,
            version,
        },
    }
}

impl Idle {
    // The window with the texts of its watermarks.
    fn name_marks(self) -> Result<Marked, AllocError>
        ensures { IfOk result (λ marked. marked ≡ self) }
    {
        let low = marks::low_text(self.frame.alloc, self.frame.incarnation, self.frame.number)?;
        let high = marks::high_text(self.frame.alloc, self.frame.incarnation, self.frame.number)?;
        Ok(Marked {
            frame: self.frame,
            low,
            high,
        })
    }

    /// Writes the low watermark. After `Failed` it may be in the log, after `Memory` it isn't.
    pub fn low<S: Source>(self, src: &mut S) -> Result<Marked, WindowError>
        requires { IsTrue (S.is_live src.old) }
        ensures marks { MovesTo S.stands src.old src.new result
            (λ marked. IsMarked (low_text self)) }
        ensures same { IfOk result (λ marked. marked ≡ self) }
        ensures errors { IfErr result (λ e. (e ≡ WindowError.Failed) ⊎ (e ≡ WindowError.Memory)) }

        // About the source, for every result.
        ensures unmarked { result ≡ Err WindowError.Memory →
            Leaves S.stands S.may_leave src.old src.new MayStayOrFollow }
        ensures rests { ReadsNothing S.Source src.old src.new (MayStayOrMark (low_text self)) }
        ensures answered { AnswersDone S.Source src.old src.new result }
        ensures source { KeepsSource S.Source src.old src.new result WindowError.Failed }
    {
        let marked = self.name_marks()?;
        src.mark(marked.low_mark())?;
        Ok(marked)
    }
}

impl Marked {
    fn low_mark(&self) -> &Text
        ensures text { result.now ≡ low_text self.now }
        ensures short { length result.now ≤ 64 }
    {
        &self.low
    }

    // The window with the rows that were answered, if its table still has its version.
    fn holding(self, answer: Selected) -> Result<Held, WindowError>
        ensures read { IsReadAs self answer result }
        ensures no_failure { result ≢ Err WindowError.Failed }
        ensures same { IfOk result (λ held. held.plan ≡ self) }
        ensures through { IfOk result (λ held. held.through ≡ last_key self.above held.rows) }
        ensures done { IfOk result (λ held. held.done ≡ nat_lt (length held.rows) self.limit) }
        ensures fit { IfOk result (λ held. IsFitChunk self.info self.limit held.rows held.through) }
    {
        if answer.version != self.frame.version {
            return Err(WindowError::Moved {
                version: answer.version,
            });
        }
        let Read {
            rows,
            through,
            count,
        } = read_rows(&self.frame, answer.rows.into_items())?;
        let done = count < self.frame.limit;
        Ok(Held {
            frame: self.frame,
            low: self.low,
            high: self.high,
            rows,
            through,
            done,
        })
    }

    // The version and the rows that the source answers.
    fn answered_rows<S: Source>(&self, src: &mut S) -> Result<Selected, WindowError>
        requires { IsTrue (S.is_live src.old) }
        ensures selected { MovesTo S.stands src.old src.new result (λ answer s t. Moved s t
            × (S.honest src.new → Selects self.now.info.name self.now.above self.now.limit
            s.history t.history answer)) }
        ensures told { IfOk result (λ answer. LastAnswerIs (S.told src.new) (RowsSelected answer)) }
        ensures starts { IfSome self.now.above (IsKeyOf self.now.info) }
        ensures errors { IfErr result (λ e. (e ≡ WindowError.Failed) ⊎ (e ≡ WindowError.Memory)) }
        ensures reading { S.is_reading src.new ≡ S.is_reading src.old }
        ensures rests { ReadsNothing S.Source src.old src.new MayFollow }
        ensures source { KeepsSource S.Source src.old src.new result WindowError.Failed }
    {
        let frame = &self.frame;
        Ok(src.select(&frame.info.name, frame.bound(), frame.limit)?)
    }

    /// Reads the chunk: the first rows of the table after the window's key, at most as many as its
    /// limit; or answers `Moved` if the table has another version than the window's.
    pub fn select<S: Source>(self, src: &mut S) -> Result<Held, WindowError>
        requires { IsTrue (S.is_live src.old) }

        // The rows are those of one position between the call and the return.
        ensures held { MovesTo S.stands src.old src.new result
            (λ held s t. Moved s t × (S.honest src.new → SelectsChunk self held s t)) }
        ensures same { IfOk result (λ held. held.plan ≡ self) }
        ensures few { IfOk result (λ held. length held.rows ≤ self.limit) }
        ensures through { IfOk result (λ held. held.through ≡ last_key self.above held.rows) }
        ensures done { IfOk result (λ held. held.done ≡ nat_lt (length held.rows) self.limit) }
        ensures fit { IfOk result (λ held. IsFitChunk self.info self.limit held.rows held.through) }

        // If the source reports what it answered: exactly what its rows are read as, or which of
        // the answer's errors is first.
        ensures chunk { IsChunkReadFrom self (S.told src.new) result }
        ensures moved { (s : SourceState) (version : ℕ) → S.stands src.old s → S.honest src.new →
            result ≡ Err (WindowError.Moved version) →
            HasState S.stands src.new (λ t. HasMoved s.history t.history self version) }
        ensures never { (s : SourceState) (infos : List SpecInfo) (row : ℕ) →
            S.stands src.old s → S.honest src.new → IsCaptured infos s.history self →
            result ≢ Err (WindowError.BadChunk row) }
        ensures cell { (s : SourceState) (infos : List SpecInfo)
            (column : List ℕ) (error : SpecValueError) →
            S.stands src.old s → S.honest src.new → IsCaptured infos s.history self →
            result ≡ Err (WindowError.Cell column error) →
            HasState S.stands src.new (λ t. HasUnreadable infos t.history self column error) }

        // About the source, for every result.
        ensures reading { S.is_reading src.new ≡ S.is_reading src.old }
        ensures rests { ReadsNothing S.Source src.old src.new MayFollow }
        ensures source { KeepsSource S.Source src.old src.new result WindowError.Failed }
    {
        let answer = self.answered_rows(src)?;
        self.holding(answer)
    }
}

impl Held {
    fn low_mark(&self) -> &Text
        ensures text { result.now ≡ low_text self.now.plan }
        ensures ordered { AreInKeyOrder self.now.rows }
        ensures fits { FitsChunk self.now.plan.info (closed_of self.now) }
    {
        in_order(&self.rows);
        &self.low
    }

    fn high_mark(&self) -> &Text
        ensures text { result.now ≡ high_text self.now.plan }
        ensures short { length result.now ≤ 64 }
        ensures few { length self.now.rows ≤ self.now.plan.limit }
        ensures fits { FitsChunk self.now.plan.info (closed_of self.now) }
    {
        &self.high
    }

    /// Writes the high watermark. After `Failed` it may be in the log, after `Memory` it isn't.
    pub fn high<S: Source>(self, src: &mut S) -> Result<Armed, WindowError>
        requires { IsTrue (S.is_live src.old) }
        ensures marks { MovesTo S.stands src.old src.new result
            (λ armed. IsMarked (high_text self.plan)) }
        ensures same { IfOk result (λ armed. armed ≡ self) }
        ensures errors { IfErr result (λ e. (e ≡ WindowError.Failed) ⊎ (e ≡ WindowError.Memory)) }

        // About the source, for every result.
        ensures unmarked { result ≡ Err WindowError.Memory →
            Leaves S.stands S.may_leave src.old src.new MayFollow }
        ensures rests { ReadsNothing S.Source src.old src.new
            (MayFollowMark (high_text self.plan)) }
        ensures answered { AnswersDone S.Source src.old src.new result }
        ensures source { KeepsSource S.Source src.old src.new result WindowError.Failed }
    {
        src.mark(self.high_mark())?;
        Ok(Armed { held: self })
    }

    fn change(&mut self, change: &Change) -> Result<(), AllocError>
        requires { table_of change.now ≡ self.old.plan.table →
            FitsTableChange self.old.plan.info change.now }
        ensures left { OnOk result (IsLeftBy self.old.plan.table self.old.plan.info change.now
            self.old.rows self.new.rows) }
        ensures other { (table_of change.now ≢ self.old.plan.table) →
            IsOk result × (self.new ≡ self.old) }
        ensures few { length self.new.rows ≤ length self.old.rows }
        ensures ordered { AreInKeyOrder self.new.rows }
        ensures same { self.new ≡ record self.old { rows = self.new.rows } }
    {
        if change.table() != self.frame.table {
            in_order(&self.rows);
            return Ok(());
        }
        let changed = change_rows(self.frame.alloc, &self.frame.info, &mut self.rows, change);
        in_order(&self.rows);
        changed
    }

    fn clear(&mut self)
        ensures { self.new ≡ record self.old { rows = [] } }
    {
        self.rows.clear();
    }

    fn finish(self) -> Closed
        ensures closed { IsClosedOf self result }
        ensures ordered { AreInKeyOrder result.rows }
        ensures fit { IsFitChunk self.plan.info self.plan.limit result.rows result.through }
    {
        Closed {
            table: self.frame.table,
            rows: KeyedRows::make(self.rows),
            through: self.through,
            done: self.done,
        }
    }
}

impl Armed {
    /// The text of the watermark that opens it.
    pub fn awaited_mark(&self) -> &Text
        ensures text { result.now ≡ low_text self.now.plan }
        ensures fits { FitsChunk self.now.plan.info (closed_of self.now) }
    {
        self.held.low_mark()
    }

    /// Passes a watermark that was read from the log. The window opens if and only if it is its own
    /// low watermark.
    pub fn see(self, value: &Text) -> Seen
        ensures opened { (w : Chunk) → result ≡ Seen.Opened w →
            (value.now ≡ low_text self.plan) × (w ≡ self) }
        ensures waiting { (w : Chunk) → result ≡ Seen.Waiting w →
            (value.now ≢ low_text self.plan) × (w ≡ self) }
        ensures ordered { AreInKeyOrder self.rows }
    {
        if marks::is_same(value, self.held.low_mark()) {
            Seen::Opened(Open { held: self.held })
        } else {
            Seen::Waiting(self)
        }
    }
}

impl Open {
    /// The text of the watermark that closes it.
    pub fn awaited_mark(&self) -> &Text
        ensures text { result.now ≡ high_text self.now.plan }
        ensures few { length self.now.rows ≤ self.now.plan.limit }
        ensures fits { FitsChunk self.now.plan.info (closed_of self.now) }
    {
        self.held.high_mark()
    }

    /// Passes a change that was read from the log: a row that it sets as a whole or ends is
    /// removed, and unsent cells keep the row's. After out of memory the window must not be used
    /// any more.
    pub fn change(&mut self, change: &Change) -> Result<(), AllocError>
        requires { table_of change.now ≡ self.old.plan.table →
            FitsTableChange self.old.plan.info change.now }
        ensures left { OnOk result (IsLeftBy self.old.plan.table self.old.plan.info change.now
            self.old.rows self.new.rows) }
        ensures other { (table_of change.now ≢ self.old.plan.table) →
            IsOk result × (self.new ≡ self.old) }
        ensures few { length self.new.rows ≤ length self.old.rows }
        ensures ordered { AreInKeyOrder self.new.rows }
        ensures same { self.new ≡ record self.old { rows = self.new.rows } }
    {
        self.held.change(change)
    }

    /// Removes all rows after a truncation of the table, as a change that clears the table does.
    pub fn clear(&mut self)
        ensures { self.new ≡ record self.old { rows = [] } }
    {
        self.held.clear();
    }

    /// Whether a watermark in the log closes it: only its own high watermark does.
    pub fn closes(&self, value: &Text) -> bool
        ensures { IsTrue result ↔ (value.now ≡ high_text self.now.plan) }
    {
        marks::is_same(value, self.held.high_mark())
    }

    /// The closed window, once its high watermark was read from the log.
    pub fn finish(self) -> Closed
        ensures closed { IsClosedOf self result }
        ensures promise { KeepsPromise self result }
        ensures ordered { AreInKeyOrder result.rows }
        ensures fits { FitsChunk self.plan.info result }
        ensures keys { AllByRecursion (λ entry. IsKeyOf self.plan.info entry.0) result.rows }
        ensures few { length result.rows ≤ self.plan.limit }
    {
        self.held.finish()
    }
}
