//! A step of the workload, run on the store.

ghost use Rattle.std.specs.Prelude.{◌≡◌, ◌+◌, ◌<◌, List, length, IfOk, IfSome, OnOk, OnErr};
ghost use Rattle.dbl_script.specs.declared.script.Step.TheVariants as says;
ghost use Rattle.dbl_tables_rows.specs.declared.demo_table.DemoTable.{DemoTable};
ghost use Rattle.dbl_tables_rows.specs.Acts.{Accepted};
ghost use Rattle.dbl_tables.specs.Stands.{Stands};
ghost use Rattle.dbl_demo_wal.specs.Workloads.{Workload, acts_at, steps_of};
ghost use Rattle.dbl_demo_workload.specs.Steps.{FitAnEntry, is_tick, HasRunSteps};
ghost use Rattle.dbl_demo_workload.specs.Steps.{IsNextRun, IsPassed, IsRun, IsRunnable};

use dbl_base::{Seq, Text};
use dbl_pgmsg::Message;
use dbl_script::Step;
use dbl_tables::Tables;
use dbl_tables_rows::StepError;
use std::alloc::AllocError;

/// Whether the step ends a group.
pub fn is_tick(step: &Step) -> bool
    ensures { result ≡ is_tick step.now }
{
    match step {
        Step::Tick => true,
        _ => false,
    }
}

// The answer of a step that isn't a commit. A refused step changes nothing.
fn pass_answer(answer: Result<(), StepError>) -> Result<Option<Seq<Message>>, AllocError>
    ensures { IsPassed answer result }
{
    match answer {
        Err(StepError::Memory) => Err(AllocError),
        _ => Ok(None),
    }
}

fn commit(store: &mut Tables, session: &Text) -> Option<Seq<Message>>
    ensures { (tables : List DemoTable) (past : List Accepted) → Stands tables past store.old
        → IsRun tables past (says.Commit session.now) result store.new }
{
    match store.commit(session) {
        Ok(messages) => Some(messages),
        Err(_) => None,
    }
}

// The changes that a step commits, if it commits. A refused step changes nothing.
fn run_step(store: &mut Tables, step: &Step) -> Result<Option<Seq<Message>>, AllocError>
    requires { IsRunnable step.now }
    ensures ran { (tables : List DemoTable) (past : List Accepted) → Stands tables past store.old
        → IfOk result (λ committed. IsRun tables past step.now committed store.new) }
    ensures kept { (tables : List DemoTable) (past : List Accepted) → Stands tables past store.old
        → OnErr result (Stands tables past store.new) }
{
    match step {
        Step::Begin { session } => pass_answer(store.begin(session)),
        Step::Commit { session } => Ok(commit(store, session)),
        Step::Rollback { session } => pass_answer(store.rollback(session)),
        Step::Insert {
            session,
            table,
            cells,
        } => pass_answer(store.insert(session, table, cells.items())),
        Step::Update {
            session,
            table,
            key,
            set,
        } => pass_answer(store.update(session, table, key.items(), set.items())),
        Step::Delete {
            session,
            table,
            key,
        } => pass_answer(store.delete(session, table, key.items())),
        Step::Truncate { session, tables } => pass_answer(store.truncate(session, tables.items())),
        Step::Tick => Ok(None),
    }
}

/// Runs the next step of a workload, and returns what it commits. A refused step changes nothing.
pub fn run_next(
    store: &mut Tables,
    steps: &[Step],
    done: usize,
) -> Result<Option<Seq<Message>>, AllocError>
    requires has_run { HasRunSteps steps.now done store.old }
    requires left { done < length steps.now }
    ensures ran { (w : Workload) → steps.now ≡ steps_of w
        → Stands w.tables (acts_at w done) store.old
        → IfOk result (λ committed. IsNextRun w done committed store.new) }
    ensures fits { IfOk result (λ committed. IfSome committed FitAnEntry) }
    ensures has_run { OnOk result (HasRunSteps steps.now (done + 1) store.new) }
    ensures kept { OnErr result (HasRunSteps steps.now done store.new) }
    ensures stays { (w : Workload) → steps.now ≡ steps_of w
        → Stands w.tables (acts_at w done) store.old
        → OnErr result (Stands w.tables (acts_at w done) store.new) }
{
    run_step(store, &steps[done])
}
