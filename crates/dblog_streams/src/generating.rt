//! The command `gen`: the lines of a generated workload.
ghost use Rattle.std.specs.Prelude.{◌≡◌, ◌≢◌, ◌≤◌};
ghost use Rattle.dbl_base.specs.Streams.{FaultCounted};
ghost use Rattle.dbl_lines.specs.declared.status.Status.TheVariants.{StdinFailed, StdoutFailed};
ghost use Rattle.dblog_streams.specs.Answers.{EndsAs};
ghost use Rattle.dblog_streams.specs.Generates.{made};

use dbl_base::Output;
use dbl_gen::script;
use dbl_lines::{RunError, Status, say, write_text};
use std::alloc::Global;

/// Writes the lines of a generated workload, and returns the status.
pub fn print_workload<O: Output>(
    alloc: Global,
    number: u64,
    rows: u32,
    groups: u32,
    output: &mut O,
) -> Status
    requires rows { rows ≤ 400_000 }
    requires groups { groups ≤ 90_000 }
    ensures ends { EndsAs (made number rows groups) result
        (O.written output.old) (O.written output.new) }
    ensures not_input { result ≢ StdinFailed }
    ensures output_failed { result ≡ StdoutFailed →
        FaultCounted (O.faults output.old) (O.faults output.new) }
{
    match script(alloc, number, rows, groups) {
        Ok(text) => write_text(text.as_str(), Status::Done, output),
        Err(_) => say(alloc, RunError::Memory, output),
    }
}
