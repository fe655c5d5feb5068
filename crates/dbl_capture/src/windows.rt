//! Windows of a session: rows that are read between two watermarks.

ghost use Rattle.dbl_capture.specs.WindowSteps.{IsReadyToArm, KeepsWindowed, PutsNothing};
ghost use Rattle.dbl_capture.specs.WindowSteps.{ArmsWindow, ReportsWindow, StopsAtSource};
ghost use Rattle.dbl_source.specs.Keeps.{KeepsSource};

use dbl_capture_work::{Halt, SessionState, read_window};
use dbl_disk::Disk;
use dbl_offset::OffsetStore;
use dbl_source::Source;
use dbl_topic::Sink;

/// Reads the next window of a table; the session then waits for its watermarks in the log.
pub(crate) fn arm<S: Source, K: Sink, D: Disk>(
    work: &mut SessionState,
    table: u32,
    src: &mut S,
    sink: &K,
    store: &OffsetStore<D>,
) -> Result<(), Halt>
    requires { IsReadyToArm S.Source table work.old src.old }
    ensures session { KeepsWindowed S.Source K.Sink D.Disk work.old work.new src.old src.new
        sink.now store.now result }
    ensures puts { PutsNothing S.Source K.Sink work.old work.new src.old src.new sink.now store.now
        result }
    ensures state { ArmsWindow S.Source table work.old work.new src.old src.new result }
    ensures report { ReportsWindow S.Source work.old work.new src.old src.new store.now result }
    ensures stops { StopsAtSource result }
    ensures source { KeepsSource S.Source src.old src.new result Halt.Source }
{
    read_window(work, table, src)
}
