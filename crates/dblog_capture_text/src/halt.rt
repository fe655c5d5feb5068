ghost use Rattle.std.specs.Prelude.{◌≡◌, IfOk};
ghost use Rattle.std.specs.String.{string_bytes};
ghost use Rattle.dblog_replay.specs.LogFaults.{log_line};
ghost use Rattle.dbl_capture_work.specs.declared.halt.Halt.TheVariants.{Cell};
ghost use Rattle.dblog_capture_text.specs.Halts.{halt_line, halt_status};

use dbl_base::Text;
use dbl_capture_work::Halt;
use dbl_lines::Status;
use dbl_model_commit::TxnError;
use dbl_model_table::TableName;
use dbl_value_types::ValueError;
use dblog_replay::{LogFault, transaction_status};
use std::alloc::{AllocError, Global};

/// The exit status of a run whose session halted.
pub fn halt_status(halt: &Halt) -> Status
    ensures { result ≡ halt_status halt.now }
{
    match halt {
        Halt::Message { .. } | Halt::Chunk { .. } => Status::MalformedLog,
        Halt::Txn { error, .. } => transaction_status(error),
        Halt::Altered { .. }
        | Halt::Cell { .. }
        | Halt::Clash { .. }
        | Halt::RecordTooLong { .. }
        | Halt::OffsetTooLong { .. }
        | Halt::Model(_)
        | Halt::UnknownTable { .. } => Status::Unsupported,
        Halt::Gone { .. } | Halt::WatermarkMissing { .. } => Status::LogGone,
        Halt::Exhausted { .. } => Status::InvalidStore,
        Halt::Source => Status::SourceFailed,
        Halt::Sink => Status::TopicsFailed,
        Halt::Offsets => Status::OffsetsFailed,
        Halt::Memory => Status::OutOfMemory,
    }
}

/// The line of a halt, without its newline. Errors that a log can have too have the same words.
pub fn halt_line(alloc: Global, halt: Halt) -> Result<String, AllocError>
    ensures { IfOk result (λ line. string_bytes line ≡ halt_line halt) }
{
    match halt {
        Halt::Message { number, error } => fault_line(alloc, LogFault::Message { number, error }),
        Halt::Txn { number, error } => fault_line(alloc, LogFault::Transaction { number, error }),
        Halt::Cell {
            table,
            column,
            error,
        } => cell_line(alloc, table, column, error),
        Halt::Clash { table, column } => {
            fault_line(alloc, LogFault::Placeholder { table, column })
        }
        Halt::Model(error) => fault_line(alloc, LogFault::Table { error }),
        Halt::Altered { table } => format!(in alloc; "dblog: schema changed {table}"),
        Halt::Chunk { table, row } => format!(in alloc; "dblog: bad chunk row {row} of {table}"),
        Halt::RecordTooLong { len } => format!(in alloc; "dblog: record too long {len}"),
        Halt::OffsetTooLong { len } => format!(in alloc; "dblog: offset too long {len}"),
        Halt::UnknownTable { table } => format!(in alloc; "dblog: unknown table {table}"),
        Halt::Gone { first, .. } => format!(in alloc; "dblog: log gone before {first}"),
        Halt::WatermarkMissing { value, .. } => {
            format!(in alloc; "dblog: watermark missing {value}")
        }
        Halt::Exhausted { .. } => String::from_str(alloc, "dblog: incarnations exhausted"),
        Halt::Source => String::from_str(alloc, "dblog: source failed"),
        Halt::Sink => String::from_str(alloc, "dblog: topics failed"),
        Halt::Offsets => String::from_str(alloc, "dblog: offsets failed"),
        Halt::Memory => String::from_str(alloc, "dblog: out of memory"),
    }
}

// The line of a fault, which is dropped by name: that is one call, whereas a drop at the end of a
// scope is proved variant by variant.
pub(crate) fn fault_line(alloc: Global, fault: LogFault) -> Result<String, AllocError>
    ensures { IfOk result (λ line. string_bytes line ≡ log_line fault) }
{
    let line = fault.line(alloc);
    drop(fault);
    line
}

// The line of a cell that was selected, which is like that of a message's cell.
fn cell_line(
    alloc: Global,
    table: TableName,
    column: Text,
    error: ValueError,
) -> Result<String, AllocError>
    ensures { IfOk result (λ line. string_bytes line ≡ halt_line (Cell table column error)) }
{
    let error = TxnError::Value {
        table,
        column,
        error,
    };
    fault_line(alloc, LogFault::Transaction { number: 0, error })
}
