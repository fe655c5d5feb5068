//! The loop of a session, which reads one message after the other.

ghost use Rattle.std.specs.Prelude.{false, true, Option, Some, None, Ok};
ghost use Rattle.dbl_capture_work.specs.Works.{HasReadyWork};
ghost use Rattle.dbl_capture_laws.specs.Ends.{IsTableToRead};
ghost use Rattle.dbl_capture.specs.TurnSteps.{IsReadyToProcess, KeepsProcessed, PutsProcessed};
ghost use Rattle.dbl_capture.specs.TurnSteps.{ProcessesMessage, ReportsProcessed};
ghost use Rattle.dbl_capture.specs.TurnSteps.{IsReadyToRun, KeepsRun, RunsMessages, ReportsRun};
ghost use Rattle.dbl_capture.specs.WindowSteps.{KeepsWindowed, PutsNothing, ReportsWindow};
ghost use Rattle.dbl_capture.specs.WindowSteps.{StopsAtSource, IsReadyToOpen, ArmsNext};
ghost use Rattle.dbl_offset.specs.Keeps.{KeepsStore};
ghost use Rattle.dbl_source.specs.Keeps.{KeepsSource};
ghost use Rattle.dbl_topic.specs.Keeps.{KeepsSink};

use crate::messages::read_and_deliver;
use crate::settle::{finish_complete, store_and_confirm};
use crate::windows::arm;
use dbl_capture_work::{Ending, Halt, Report, SessionState};
use dbl_disk::Disk;
use dbl_offset::OffsetStore;
use dbl_source::Source;
use dbl_topic::Sink;

// Returns the table whose next window is to be read: none while a window waits, and none if every
// table is finished.
fn table_of(work: &SessionState) -> Option<u32>
    requires { HasReadyWork work.now }
    ensures { IsTableToRead work.now result }
{
    match work.follower.waits_for() {
        Some(_) => None,
        None => work.follower.next_table(),
    }
}

// Reads the next window, if none waits and a table is unfinished.
fn open_next_window<S: Source, K: Sink, D: Disk>(
    work: &mut SessionState,
    src: &mut S,
    sink: &K,
    store: &OffsetStore<D>,
) -> Result<(), Halt>
    requires { IsReadyToOpen S.Source work.old src.old }
    ensures session { KeepsWindowed S.Source K.Sink D.Disk work.old work.new src.old src.new
        sink.now store.now result }
    ensures puts { PutsNothing S.Source K.Sink work.old work.new src.old src.new sink.now store.now
        result }
    ensures state { ArmsNext S.Source work.old work.new src.old src.new result }
    ensures report { ReportsWindow S.Source work.old work.new src.old src.new store.now result }
    ensures stops { StopsAtSource result }
    ensures source { KeepsSource S.Source src.old src.new result Halt.Source }
{
    match table_of(work) {
        Some(table) => arm(work, table, src, sink, store),
        None => Ok(()),
    }
}

// Reads and processes one message more. Returns true if everything was read.
fn process_message<S: Source, K: Sink, D: Disk>(
    work: &mut SessionState,
    src: &mut S,
    sink: &mut K,
    store: &mut OffsetStore<D>,
    report: &mut Report,
) -> Result<bool, Halt>
    requires { IsReadyToProcess S.Source K.Sink work.old src.old sink.old store.old report.old }
    ensures session { KeepsProcessed S.Source K.Sink D.Disk work.old work.new src.old src.new
        sink.old sink.new store.old store.new report.old report.new result }
    ensures puts { PutsProcessed S.Source K.Sink work.old work.new src.old src.new sink.old sink.new
        store.old store.new report.old report.new result }
    ensures state { ProcessesMessage S.Source D.Disk work.old work.new src.old src.new store.old
        store.new report.old report.new result }
    ensures report { ReportsProcessed S.Source work.old work.new src.old src.new store.old store.new
        report.old report.new result }
    ensures source { KeepsSource S.Source src.old src.new result Halt.Source }
    ensures sink { KeepsSink K.Sink sink.old sink.new result Halt.Sink }
    ensures store { KeepsStore D.Disk store.old store.new result Halt.Offsets }
{
    open_next_window(work, src, sink, store)?;
    match read_and_deliver(work, src, sink, store, report)? {
        Some(true) => {
            store_and_confirm(work, src, sink, store, report)?;
            Ok(false)
        }
        Some(false) => Ok(false),
        None => {
            finish_complete(work, src, sink, store, report)?;
            Ok(true)
        }
    }
}

/// Processes messages until everything is read, or as many messages were read as the budget allows.
pub(crate) fn process_messages<S: Source, K: Sink, D: Disk>(
    budget: u64,
    work: &mut SessionState,
    src: &mut S,
    sink: &mut K,
    store: &mut OffsetStore<D>,
    report: &mut Report,
) -> Result<Ending, Halt>
    requires { IsReadyToRun S.Source K.Sink budget work.old src.old sink.old store.old report.old }
    ensures session { KeepsRun S.Source K.Sink D.Disk work.old work.new src.old src.new sink.old
        sink.new store.old store.new report.old report.new result }
    ensures puts { PutsProcessed S.Source K.Sink work.old work.new src.old src.new sink.old sink.new
        store.old store.new report.old report.new result }
    ensures state { RunsMessages S.Source D.Disk budget work.old work.new src.new store.old
        store.new report.old report.new result }
    ensures report { ReportsRun S.Source work.old work.new src.old src.new store.old store.new
        report.old report.new result }
    ensures source { KeepsSource S.Source src.old src.new result Halt.Source }
    ensures sink { KeepsSink K.Sink sink.old sink.new result Halt.Sink }
    ensures store { KeepsStore D.Disk store.old store.new result Halt.Offsets }
{
    'turns: for _count in 0..budget {
        if process_message(work, src, sink, store, report)? {
            return Ok(Ending::Complete);
        }
    }
    open_next_window(work, src, sink, store)?;
    store_and_confirm(work, src, sink, store, report)?;
    Ok(Ending::Budget)
}
