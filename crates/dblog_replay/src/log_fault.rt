//! Why `replay` stops before the end of its messages.

ghost use Rattle.std.specs.Prelude.{◌≡◌, IfOk};
ghost use Rattle.std.specs.String.{string_bytes};
ghost use Rattle.dblog_replay.specs.LogFaults.{message_text, stream_text};
ghost use Rattle.dblog_replay.specs.LogFaults.{value_words, mask_words, transaction_text};
ghost use Rattle.dblog_replay.specs.LogFaults.{table_text, log_line, is_malformed, log_status};
ghost use Rattle.dblog_replay.specs.LogFaults.{transaction_status, transaction_line};

use dbl_base::Text;
use dbl_hooks_masks::MaskFault;
use dbl_lines::Status;
use dbl_model_commit::TxnError;
use dbl_model_table::{ModelError, TableName};
use dbl_pgmsg::MsgError;
use dbl_stream2::StreamError;
use dbl_value_types::ValueError;
use std::alloc::{AllocError, Global};

/// Why a log is replayed no further. Messages are counted from 1.
#[derive(Drop)]
pub enum LogFault {
    /// The bytes are no message.
    Message {
        number: u64,
        error: MsgError,
    },
    /// The message can't follow in a stream of protocol version 2.
    Stream {
        number: u64,
        error: StreamError,
    },
    /// The message can't follow those before it.
    Transaction {
        number: u64,
        error: TxnError,
    },
    /// A table can't be captured.
    Table {
        error: ModelError,
    },
    /// More tables than the limit are to be captured.
    TooManyTables,
    /// The column can't be masked.
    Mask {
        table: TableName,
        column: Text,
        error: MaskFault,
    },
    /// A cell's text is equal to the placeholder of unsent values.
    Placeholder {
        table: TableName,
        column: Text,
    },
    /// The log ends inside a transaction.
    Unfinished,
    Memory,
}

fn message_text(alloc: Global, error: &MsgError) -> Result<String, AllocError>
    ensures { IfOk result (λ text. string_bytes text ≡ message_text error.now) }
{
    match error {
        MsgError::UnknownTag { byte } => format!(in alloc; "unknown tag {byte}"),
        MsgError::Truncated { at } => format!(in alloc; "truncated at {at}"),
        MsgError::TrailingBytes { at } => format!(in alloc; "trailing bytes at {at}"),
        MsgError::BadIdentity { byte } => format!(in alloc; "bad identity {byte}"),
        MsgError::BadTupleTag { at, byte } => format!(in alloc; "bad tuple tag {byte} at {at}"),
        MsgError::BadNewTag { at, byte } => format!(in alloc; "bad new tag {byte} at {at}"),
        MsgError::NotUtf8 { at } => format!(in alloc; "not utf-8 at {at}"),
        MsgError::NegativeLength { at } => format!(in alloc; "negative length at {at}"),
        MsgError::BinaryColumn { at } => format!(in alloc; "binary column at {at}"),
        MsgError::TooLong { len } => format!(in alloc; "too long {len}"),
        MsgError::TooManyColumns { at } => format!(in alloc; "too many columns at {at}"),
        MsgError::Memory => String::from_str(alloc, "out of memory"),
    }
}

fn stream_text(alloc: Global, error: &StreamError) -> Result<String, AllocError>
    ensures { IfOk result (λ text. string_bytes text ≡ stream_text error.now) }
{
    match error {
        StreamError::NestedStream => String::from_str(alloc, "nested stream"),
        StreamError::NotStreaming => String::from_str(alloc, "not streaming"),
        StreamError::UnknownStream { xid } => format!(in alloc; "unknown stream {xid}"),
        StreamError::PlainInside { .. } => String::from_str(alloc, "plain message in stream"),
        StreamError::Message { error } => message_text(alloc, error),
        StreamError::Memory => String::from_str(alloc, "out of memory"),
    }
}

fn value_words(error: &ValueError) -> &'static str
    ensures { result.now ≡ value_words error.now }
{
    match error {
        ValueError::FloatType => "float type",
        ValueError::BadText => "bad text",
        ValueError::DateRange => "date range",
        ValueError::Memory => "out of memory",
    }
}

fn mask_words(error: MaskFault) -> &'static str
    ensures { result.now ≡ mask_words error }
{
    match error {
        MaskFault::NoColumn => "no column",
        MaskFault::KeyColumn => "key column",
        MaskFault::NotText => "not text",
    }
}

fn transaction_text(alloc: Global, error: &TxnError) -> Result<String, AllocError>
    ensures { IfOk result (λ text. string_bytes text ≡ transaction_text error.now) }
{
    let text = match error {
        TxnError::OutsideTransaction => "outside a transaction",
        TxnError::NestedBegin => "nested begin",
        TxnError::CommitMismatch { begin, commit } => {
            return format!(in alloc; "commit mismatch {begin} {commit}");
        }
        TxnError::LsnOrder { last, got } => {
            return format!(in alloc; "position order {last} {got}");
        }
        TxnError::UnknownRelation { oid } => return format!(in alloc; "unknown relation {oid}"),
        TxnError::ColumnCount { want, got } => {
            return format!(in alloc; "column count {want} {got}");
        }
        TxnError::SchemaChanged { table } => return format!(in alloc; "schema changed {table}"),
        TxnError::KeyNotInIdentity { table } => {
            return format!(in alloc; "key not in identity {table}");
        }
        TxnError::MissingOld { table } => return format!(in alloc; "missing old row {table}"),
        TxnError::UnchangedCell { table, column } => {
            return format!(in alloc; "unchanged cell {table}.{column}");
        }
        TxnError::MovedUnchanged { table, column } => {
            return format!(in alloc; "moved unchanged {table}.{column}");
        }
        TxnError::NullKey { table } => return format!(in alloc; "null key {table}"),
        TxnError::Value {
            table,
            column,
            error,
        } => {
            let words = value_words(error);
            return format!(in alloc; "{words} {table}.{column}");
        }
        TxnError::BadMark => "bad watermark",
        TxnError::Memory => "out of memory",
    };
    String::from_str(alloc, text)
}

fn table_text(alloc: Global, error: &ModelError) -> Result<String, AllocError>
    ensures { IfOk result (λ text. string_bytes text ≡ table_text error.now) }
{
    match error {
        ModelError::BadName { name } => format!(in alloc; "bad name {name}"),
        ModelError::DuplicateColumn { table, column } => {
            format!(in alloc; "duplicate column {table}.{column}")
        }
        ModelError::FloatColumn { table, column } => {
            format!(in alloc; "float column {table}.{column}")
        }
        ModelError::NoKey { table } => format!(in alloc; "no key {table}"),
        ModelError::KeyType { table, column } => format!(in alloc; "key type {table}.{column}"),
        ModelError::Memory => String::from_str(alloc, "out of memory"),
    }
}

/// The status of a run that ends at a message that can't follow those before it.
pub fn transaction_status(error: &TxnError) -> Status
    ensures { result ≡ transaction_status error.now }
{
    match error {
        TxnError::SchemaChanged { .. } => Status::Unsupported,
        TxnError::MovedUnchanged { .. } => Status::Unsupported,
        TxnError::Value { .. } => Status::Unsupported,
        TxnError::Memory => Status::OutOfMemory,
        _ => Status::MalformedLog,
    }
}

fn is_malformed(status: Status) -> bool
    ensures { result ≡ is_malformed status }
{
    match status {
        Status::MalformedLog => true,
        _ => false,
    }
}

// The line of a message that can't follow; only that of a malformed log has the message's number.
fn transaction_line(alloc: Global, number: u64, error: &TxnError) -> Result<String, AllocError>
    ensures { IfOk result (λ text. string_bytes text ≡ transaction_line number error.now) }
{
    let text = transaction_text(alloc, error)?;
    if is_malformed(transaction_status(error)) {
        format!(in alloc; "dblog: message {number}: {text}")
    } else {
        format!(in alloc; "dblog: {text}")
    }
}

impl LogFault {
    /// The status of a run that ends with this error.
    pub fn status(&self) -> Status
        ensures { result ≡ log_status self.now }
    {
        match self {
            LogFault::Message { .. } => Status::MalformedLog,
            LogFault::Stream { .. } => Status::MalformedLog,
            LogFault::Transaction { number: _, error } => transaction_status(error),
            LogFault::Table { .. } => Status::Unsupported,
            LogFault::TooManyTables => Status::Unsupported,
            LogFault::Mask { .. } => Status::Unsupported,
            LogFault::Placeholder { .. } => Status::Unsupported,
            LogFault::Unfinished => Status::MalformedLog,
            LogFault::Memory => Status::OutOfMemory,
        }
    }

    /// The error's line, without its newline.
    pub fn line(&self, alloc: Global) -> Result<String, AllocError>
        ensures { IfOk result (λ text. string_bytes text ≡ log_line self.now) }
    {
        let line = match self {
            LogFault::Message { number, error } => {
                let text = message_text(alloc, error)?;
                return format!(in alloc; "dblog: message {number}: {text}");
            }
            LogFault::Stream { number, error } => {
                let text = stream_text(alloc, error)?;
                return format!(in alloc; "dblog: message {number}: {text}");
            }
            LogFault::Transaction { number, error } => {
                return transaction_line(alloc, *number, error);
            }
            LogFault::Table { error } => {
                let text = table_text(alloc, error)?;
                return format!(in alloc; "dblog: {text}");
            }
            LogFault::TooManyTables => "dblog: too many tables",
            LogFault::Mask {
                table,
                column,
                error,
            } => {
                let words = mask_words(*error);
                return format!(in alloc; "dblog: {words} {table}.{column}");
            }
            LogFault::Placeholder { table, column } => {
                return format!(in alloc; "dblog: placeholder in {table}.{column}");
            }
            LogFault::Unfinished => "dblog: log ends inside a transaction",
            LogFault::Memory => "dblog: out of memory",
        };
        String::from_str(alloc, line)
    }
}

impl From<AllocError> for LogFault {
    ghost use Rattle.std.specs.Prelude.{◌≡◌};
    ghost use Rattle.dblog_replay.specs.declared.log_fault.LogFault.TheVariants.{Memory};

    ghost from_gives = { λ _ e. e ≡ Memory };

    fn from(_error: AllocError) -> LogFault {
        LogFault::Memory
    }
}
