//! The line of an error of `init`, written with its status.
ghost use Rattle.std.specs.Prelude.{◌≡◌, ◌∷◌, [], IfOk};
ghost use Rattle.dbl_lines.specs.declared.status.Status.TheVariants.{StdoutFailed};
ghost use Rattle.std.specs.String.{string_bytes};
ghost use Rattle.dbl_base.specs.Lines.{lines_text};
ghost use Rattle.dbl_base.specs.Streams.{FaultCounted};
ghost use Rattle.dblog_capture_text.specs.InitErrors.{SaysInit, init_line, init_status};

use crate::halt::fault_line;
use dbl_base::Output;
use dbl_lines::{OUT_OF_MEMORY, Status, write_text};
use dbl_script::ScriptError;
use dblog_init::{InitError, Store};
use dblog_replay::LogFault;
use std::alloc::{AllocError, Global};

/// Writes the error's line, and returns its status.
pub fn say_init<O: Output>(alloc: Global, error: InitError, output: &mut O) -> Status
    ensures says { SaysInit error result (O.written output.old) (O.written output.new) }
    ensures output_failed { result ≡ StdoutFailed
        → FaultCounted (O.faults output.old) (O.faults output.new) }
{
    let status = error_status(&error);
    match error_text(alloc, error) {
        Ok(text) => write_text(text.as_str(), status, output),
        Err(_) => write_text(OUT_OF_MEMORY, Status::OutOfMemory, output),
    }
}

fn error_status(error: &InitError) -> Status
    ensures { result ≡ init_status error.now }
{
    match error {
        InitError::Failed { store: Store::Wal } => Status::SourceFailed,
        InitError::Failed {
            store: Store::Topics,
        } => Status::TopicsFailed,
        InitError::Failed {
            store: Store::Offsets,
        } => Status::OffsetsFailed,
        InitError::NotEmpty { .. } => Status::InvalidStore,
        InitError::InputFailed => Status::StdinFailed,
        InitError::InputTooLong => Status::InvalidInput,
        InitError::Script(_) => Status::InvalidInput,
        InitError::Model(_) => Status::Unsupported,
        InitError::Memory => Status::OutOfMemory,
    }
}

fn error_text(alloc: Global, error: InitError) -> Result<String, AllocError>
    ensures { IfOk result (λ text. string_bytes text ≡ lines_text (init_line error ∷ [])) }
{
    let mut line = error_line(alloc, error)?;
    line.push('\n')?;
    Ok(line)
}

fn error_line(alloc: Global, error: InitError) -> Result<String, AllocError>
    ensures { IfOk result (λ line. string_bytes line ≡ init_line error) }
{
    let line = match error {
        InitError::Failed { store: Store::Wal } => "dblog: source failed",
        InitError::Failed { store } => return format!(in alloc; "dblog: {store} failed"),
        InitError::NotEmpty { store } => return format!(in alloc; "dblog: not empty: {store}"),
        InitError::InputFailed => "dblog: input failed",
        InitError::InputTooLong => "dblog: input too long",
        InitError::Script(ScriptError::BadLine { number }) => {
            return format!(in alloc; "dblog: line {number}: bad line");
        }
        InitError::Script(ScriptError::TooManyLines) => "dblog: too many lines",
        InitError::Model(error) => return fault_line(alloc, LogFault::Table { error }),
        InitError::Script(ScriptError::Memory) | InitError::Memory => "dblog: out of memory",
    };
    String::from_str(alloc, line)
}
