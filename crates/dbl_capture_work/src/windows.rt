//! Windows of a session: rows that are selected between two watermarks.

ghost use Rattle.std.specs.Prelude.{◌≡◌, ◌⊎◌, ◌+◌, ◌^◌, ◌<◌, ◌∷◌, [], length, IfErr, IfOk, IsTrue};
ghost use Rattle.std.specs.Prelude.{OnErr, OnOk, Some, List};
ghost use Rattle.dbl_model_table.specs.declared.table.TableInfo.{TableInfo as SpecInfo};
ghost use Rattle.dbl_source_model.specs.Leaves.{Leaves, LeavesSome};
ghost use Rattle.dbl_source_model.specs.Standings.{SourceState, MovesTo};
ghost use Rattle.dbl_source_model.specs.Trace.{IsTakenBy};
ghost use Rattle.dbl_window.specs.Plans.{Plan, high_text};
ghost use Rattle.dbl_window.specs.Selected.{IsCaptured};
ghost use Rattle.dbl_follow.specs.declared.window.Window.TheVariants as windows;
ghost use Rattle.dbl_source.specs.Keeps.{KeepsSource, ReadsNothing, AnswersDone};
ghost use Rattle.dbl_capture_work.specs.Causes.{IsChunkHalt, IsHonestChunkHalt, IsHonestFault};
ghost use Rattle.dbl_capture_work.specs.Causes.{IsOfRows};
ghost use Rattle.dbl_capture_work.specs.Halts.{window_halt};
ghost use Rattle.dbl_capture_work.specs.Windowed.{HasReadWindow, MayHaveMarks, WasLooked};
ghost use Rattle.dbl_capture_work.specs.Windowed.{WasWindowed, own_marks};
ghost use Rattle.dbl_capture_work.specs.Works.{IsArmedWork, IsChunkOf, IsOpenTable, HasReadyWork};
ghost use Rattle.dbl_capture_work.specs.Works.{plan_at};

use crate::Halt;
use crate::work::SessionState;
use dbl_model_table::{Key, TableName};
use dbl_source::Source;
use dbl_window::{Armed, Idle, Marked, WindowError};
use std::alloc::{AllocError, Global};

// The error of a window of this table.
fn halt_of(alloc: Global, table: &TableName, error: WindowError) -> Halt
    ensures { (result ≡ Halt.Memory) ⊎ (result ≡ window_halt table.now error) }
{
    let halted = match table.copy(alloc) {
        Ok(table) => match error {
            WindowError::Moved { .. } => Halt::Altered { table },
            WindowError::BadChunk { row } => Halt::Chunk { table, row },
            WindowError::Cell { column, error } => Halt::Cell {
                table,
                column,
                error,
            },
            WindowError::Failed => Halt::Source,
            WindowError::Memory => Halt::Memory,
        },
        Err(_) => match error {
            WindowError::Failed => Halt::Source,
            _ => Halt::Memory,
        },
    };
    halted
}

// Selects the rows after the low watermark, and writes the high watermark.
fn select_and_mark_high<S: Source>(marked: Marked, src: &mut S) -> Result<Armed, WindowError>
    requires { IsTrue (S.is_live src.old) }
    ensures looked { MovesTo S.stands src.old src.new result
        (λ armed s t. WasLooked (S.honest src.new) marked armed s t) }
    ensures chunk { IfOk result (IsChunkOf marked) }
    ensures rows { IfErr result (λ e. (e ≡ WindowError.Memory) ⊎ ((e ≡ WindowError.Failed)
        ⊎ IsOfRows marked (S.told src.new) e)) }
    ensures never { (s : SourceState) (infos : List SpecInfo) → S.stands src.old s →
        S.honest src.new →
        IsCaptured infos s.history marked →
        IfErr result (IsHonestFault marked (S.stands src.new) infos) }
    ensures rests { ReadsNothing S.Source src.old src.new (MayHaveMarks (high_text marked ∷ [])) }
    ensures answered { AnswersDone S.Source src.old src.new result }
    ensures source { KeepsSource S.Source src.old src.new result WindowError.Failed }
{
    let held = marked.select(src)?;
    held.high(src)
}

// Writes the low watermark, selects the rows, and writes the high watermark.
fn read_between_watermarks<S: Source>(idle: Idle, src: &mut S) -> Result<Armed, WindowError>
    requires { IsTrue (S.is_live src.old) }
    ensures windowed { MovesTo S.stands src.old src.new result
        (λ armed s t. WasWindowed (S.honest src.new) idle armed s t) }
    ensures chunk { IfOk result (IsChunkOf idle) }
    ensures rows { IfErr result (λ e. (e ≡ WindowError.Memory) ⊎ ((e ≡ WindowError.Failed)
        ⊎ IsOfRows idle (S.told src.new) e)) }
    ensures never { (s : SourceState) (infos : List SpecInfo) → S.stands src.old s →
        S.honest src.new →
        IsCaptured infos s.history idle →
        IfErr result (IsHonestFault idle (S.stands src.new) infos) }
    ensures rests { ReadsNothing S.Source src.old src.new (MayHaveMarks (own_marks idle)) }
    ensures answered { AnswersDone S.Source src.old src.new result }
    ensures source { KeepsSource S.Source src.old src.new result WindowError.Failed }
{
    let marked = idle.low(src)?;
    select_and_mark_high(marked, src)
}

fn copy_last(alloc: Global, last: &Option<Key>) -> Result<Option<Key>, AllocError>
    ensures { IfOk result (λ key. key ≡ last.now) }
{
    match last {
        Some(key) => Ok(Some(key.copy(alloc)?)),
        None => Ok(None),
    }
}

// Makes the next window of this table.
fn window_of(work: &SessionState, table: u32) -> Result<Idle, AllocError>
    requires ready { HasReadyWork work.now }
    requires table { table < length work.now.offset.infos }
    requires number { work.now.number + 1 < 2 ^ 64 }
    ensures { IfOk result (λ idle. plan_at work.now table ≡ Some idle) }
{
    let info = work.offset.infos.items()[table as usize].copy(work.alloc)?;
    let above = copy_last(work.alloc, &work.follower.cursors()[table as usize].last)?;
    Ok(dbl_window::new(
        work.alloc,
        info,
        table,
        above,
        work.chunk,
        work.offset.incarnation,
        work.number + 1,
        1,
    ))
}

/// Reads the next window of a table between two watermarks; the session then waits for these in the
/// log.
pub fn read_window<S: Source>(work: &mut SessionState, table: u32, src: &mut S) -> Result<(), Halt>
    requires live { IsTrue (S.is_live src.old) }
    requires ready { HasReadyWork work.old }
    requires absent { work.old.follower.window ≡ windows.Absent }
    requires table { IsOpenTable work.old table }
    requires number { work.old.number + 1 < 2 ^ 64 }

    // The session's state, and what the source represents.
    ensures same { OnOk result (IsArmedWork table work.old work.new) }
    ensures kept { OnErr result (work.new ≡ work.old) }
    ensures windowed { (s : SourceState) → S.stands src.old s →
        OnOk result (HasReadWindow S.Source table work.old work.new s src.new) }

    // Why it stops with an error.
    ensures halt { IfErr result (IsChunkHalt work.old table (S.told src.new)) }
    ensures never { (s : SourceState) (infos : List SpecInfo) (plan : Plan) →
        S.stands src.old s → S.honest src.new →
        plan_at work.old table ≡ Some plan → IsCaptured infos s.history plan →
        IfErr result (IsHonestChunkHalt plan (S.stands src.new) infos) }

    // The source after any answer.
    ensures left { (plan : Plan) → plan_at work.old table ≡ Some plan →
        Leaves S.stands S.may_leave src.old src.new (MayHaveMarks (own_marks plan)) }
    ensures some { LeavesSome S.stands S.may_leave src.old src.new }
    ensures still { (s t : SourceState) → S.stands src.old s → S.stands src.new t →
        t.reading ≡ s.reading }
    ensures taken { IsTakenBy [] (S.told src.old) (S.told src.new) }
    ensures answered { AnswersDone S.Source src.old src.new result }
    ensures source { KeepsSource S.Source src.old src.new result Halt.Source }
{
    let idle = window_of(work, table)?;
    match read_between_watermarks(idle, src) {
        Ok(armed) => {
            work.number += 1;
            work.follower.arm(armed);
            Ok(())
        }
        Err(error) => {
            let info = &work.offset.infos.items()[table as usize];
            Err(halt_of(work.alloc, &info.name, error))
        }
    }
}
