//! What a session writes when it has ended, and the exit status.
ghost use Rattle.std.specs.Prelude.{◌≡◌, ◌∷◌, [], Ok, Err, IfOk};
ghost use Rattle.dbl_lines.specs.declared.status.Status.TheVariants.{StdoutFailed};
ghost use Rattle.std.specs.String.{string_bytes};
ghost use Rattle.dbl_base.specs.Lines.{lines_text};
ghost use Rattle.dbl_base.specs.Streams.{FaultCounted};
ghost use Rattle.dblog_capture_text.specs.Ends.{SaysSession, connect_line, connect_status};

use crate::{ending_status, halt_line, halt_status, report_text};
use dbl_base::Output;
use dbl_lines::{OUT_OF_MEMORY, Status, write_text};
use dblog_connect_ends::{ConnectError, Summary};
use dblog_init::Store;
use std::alloc::{AllocError, Global};

/// Writes the report of a session, or the line of its error, and returns the status.
pub fn finish_session<O: Output>(
    alloc: Global,
    end: Result<Summary, ConnectError>,
    output: &mut O,
) -> Status
    ensures says { SaysSession end result (O.written output.old) (O.written output.new) }
    ensures output_failed { result ≡ StdoutFailed →
        FaultCounted (O.faults output.old) (O.faults output.new) }
{
    match end {
        Ok(summary) => say_report(alloc, summary, output),
        Err(error) => say_error(alloc, error, output),
    }
}

fn say_report<O: Output>(alloc: Global, summary: Summary, output: &mut O) -> Status
    ensures says { SaysSession (Ok summary) result (O.written output.old) (O.written output.new) }
    ensures output_failed { result ≡ StdoutFailed →
        FaultCounted (O.faults output.old) (O.faults output.new) }
{
    let Summary { ending, report } = summary;
    match report_text(alloc, ending, report) {
        Ok(text) => write_text(text.as_str(), ending_status(ending), output),
        Err(_) => write_text(OUT_OF_MEMORY, Status::OutOfMemory, output),
    }
}

fn say_error<O: Output>(alloc: Global, error: ConnectError, output: &mut O) -> Status
    ensures says { SaysSession (Err error) result (O.written output.old) (O.written output.new) }
    ensures output_failed { result ≡ StdoutFailed →
        FaultCounted (O.faults output.old) (O.faults output.new) }
{
    let status = error_status(&error);
    match error_text(alloc, error) {
        Ok(text) => write_text(text.as_str(), status, output),
        Err(_) => write_text(OUT_OF_MEMORY, Status::OutOfMemory, output),
    }
}

fn error_status(error: &ConnectError) -> Status
    ensures { result ≡ connect_status error.now }
{
    match error {
        ConnectError::Failed { store: Store::Wal } => Status::SourceFailed,
        ConnectError::Failed {
            store: Store::Topics,
        } => Status::TopicsFailed,
        ConnectError::Failed {
            store: Store::Offsets,
        } => Status::OffsetsFailed,
        ConnectError::NotAStore { .. } | ConnectError::BadEntry { .. } => Status::InvalidStore,
        ConnectError::AlreadyStarted | ConnectError::NotStarted => Status::StartMismatch,
        ConnectError::Halted { halt } => halt_status(halt),
        ConnectError::Refused { .. } => Status::RecordRefused,
        ConnectError::Memory => Status::OutOfMemory,
    }
}

fn error_text(alloc: Global, error: ConnectError) -> Result<String, AllocError>
    ensures { IfOk result (λ text. string_bytes text ≡ lines_text (connect_line error ∷ [])) }
{
    let mut line = error_line(alloc, error)?;
    line.push('\n')?;
    Ok(line)
}

fn error_line(alloc: Global, error: ConnectError) -> Result<String, AllocError>
    ensures { IfOk result (λ line. string_bytes line ≡ connect_line error) }
{
    let line = match error {
        ConnectError::Failed { store: Store::Wal } => "dblog: source failed",
        ConnectError::Failed { store } => return format!(in alloc; "dblog: {store} failed"),
        ConnectError::NotAStore { store, at } => {
            return format!(in alloc; "dblog: not a store: {store} at {at}");
        }
        ConnectError::BadEntry { store, index } => {
            return format!(in alloc; "dblog: bad entry {index} in {store}");
        }
        ConnectError::AlreadyStarted => "dblog: already started",
        ConnectError::NotStarted => "dblog: not started",
        ConnectError::Halted { halt } => return halt_line(alloc, halt),
        ConnectError::Refused { position, ordinal } => {
            return format!(in alloc; "dblog: record refused at {position} {ordinal}");
        }
        ConnectError::Memory => "dblog: out of memory",
    };
    String::from_str(alloc, line)
}
