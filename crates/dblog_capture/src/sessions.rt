ghost use Rattle.std.specs.Prelude.{◌≡◌, ◌≢◌};
ghost use Rattle.dbl_lines.specs.declared.status.Status.TheVariants.{StdinFailed, StdoutFailed};
ghost use Rattle.dbl_base.specs.Streams.{FaultCounted};
ghost use Rattle.dblog_connect.specs.Asked.{IsAskedWithinLimits};
ghost use Rattle.dblog_capture_text.specs.Ends.{IsSessionStatus};
ghost use Rattle.dblog_capture.specs.Runs.{RunsConnected};

use dbl_base::Output;
use dbl_disk::Disk;
use dbl_lines::Status;
use dblog_capture_text::finish_session;
use dblog_connect::{Asked, connect};
use dblog_init::{Disks, Outcome};
use std::alloc::Global;

/// Runs a session over the disks, and writes its report, or the line of the error.
pub fn run_session<O: Output, W: Disk, T: Disk, F: Disk>(
    alloc: Global,
    asked: Asked,
    now_ms: &i64,
    output: &mut O,
    disks: Disks<W, T, F>,
) -> Outcome<W, T, F, Status>
    requires { IsAskedWithinLimits asked }
    ensures connected { RunsConnected W.Disk T.Disk F.Disk asked now_ms.now
        disks result.disks result.end (O.written output.old) (O.written output.new) }
    ensures known { IsSessionStatus result.end }
    ensures output_failed { result.end ≡ StdoutFailed →
        FaultCounted (O.faults output.old) (O.faults output.new) }
    ensures not_input { result.end ≢ StdinFailed }
{
    let connected = connect(alloc, asked, *now_ms, disks);
    let Outcome { disks, end } = connected;
    Outcome {
        disks,
        end: finish_session(alloc, end, output),
    }
}
