//! Texts that are written together with an exit status.
ghost use Rattle.std.specs.Prelude.{◌≡◌, ◌≢◌, ◌≤◌};
ghost use Rattle.dbl_base.specs.Streams.{FaultCounted};
ghost use Rattle.dbl_lines.specs.declared.status.Status.TheVariants.{StdoutFailed};
ghost use Rattle.dbl_lines.specs.Says.{Writes, Says};

use crate::run_error::RunError;
use crate::status::Status;
use dbl_base::Output;
use std::alloc::Global;

/// The line of a run out of memory, with its newline.
pub const OUT_OF_MEMORY: &str = "dblog: out of memory\n";

/// Writes the error's line, and returns its status.
pub fn say<O: Output>(alloc: Global, halt: RunError, output: &mut O) -> Status
    ensures says { Says halt result (O.written output.old) (O.written output.new) }
    ensures output_failed { result ≡ StdoutFailed →
        FaultCounted (O.faults output.old) (O.faults output.new) }
    ensures later { O.faults output.old ≤ O.faults output.new }
{
    match halt.text(alloc) {
        Ok(text) => write_text(text.as_str(), halt.status(), output),
        Err(_) => write_text(OUT_OF_MEMORY, Status::OutOfMemory, output),
    }
}

/// Writes the text, and returns the status.
pub fn write_text<O: Output>(text: &str, status: Status, output: &mut O) -> Status
    requires { status ≢ StdoutFailed }
    ensures writes { Writes status text.now result (O.written output.old) (O.written output.new) }
    ensures output_failed { result ≡ StdoutFailed →
        FaultCounted (O.faults output.old) (O.faults output.new) }
    ensures later { O.faults output.old ≤ O.faults output.new }
{
    match output.write(text.as_bytes()) {
        Ok(()) => status,
        Err(_) => Status::StdoutFailed,
    }
}
