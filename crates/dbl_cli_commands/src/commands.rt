use dbl_base::{Seq, Text};
use dbl_model_table::{TableKey, TableName};

/// The options of a capture.
#[derive(Drop)]
pub struct CaptureOptions {
    pub prefix: Text,
    pub db: Text,
    pub placeholder: Text,
    pub chunk: u32,
    pub every: u32,
    pub messages: u64,
    /// The maximum length in bytes of a record's value: a longer one is refused.
    pub max_value: Option<u64>,
    pub tables: Seq<TableName>,
}

/// The options of a resumed capture.
#[derive(Drop)]
pub struct ResumeOptions {
    pub chunk: u32,
    pub every: u32,
    pub messages: u64,
    /// The maximum length in bytes of a record's value: a longer one is refused.
    pub max_value: Option<u64>,
}

/// A column whose texts are masked: each character of a text as an asterisk, at most so many.
#[derive(Drop)]
pub struct MaskWord {
    pub table: TableName,
    pub column: Text,
    pub stars: u32,
}

/// The options of `replay`.
#[derive(Drop)]
pub struct ReplayOptions {
    pub prefix: Text,
    pub db: Text,
    pub placeholder: Text,
    /// The keys of tables that aren't to be read from the log.
    pub keys: Seq<TableKey>,
    /// The input is a replication stream as the server sent it, instead of lines.
    pub raw: bool,
    /// The log has protocol version 2: transactions may be streamed before they commit.
    pub stream: bool,
    /// The column that is masked before the messages are replayed.
    pub mask: Option<MaskWord>,
}

/// A parsed command line; absent options have their defaults.
#[derive(Drop)]
pub enum Command {
    Init,
    Topics,
    Offsets,
    Compact,
    Capture {
        options: CaptureOptions,
    },
    Resume {
        options: ResumeOptions,
    },
    Apply {
        lines: bool,
        placeholder: Text,
    },
    Replay {
        options: ReplayOptions,
    },
    Gen {
        number: u64,
        rows: u32,
        groups: u32,
        run: bool,
    },
}
