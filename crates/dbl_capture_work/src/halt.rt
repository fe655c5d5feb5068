use dbl_base::{Lsn, Text};
use dbl_envelope::EnvelopeError;
use dbl_follow::FollowError;
use dbl_model_commit::TxnError;
use dbl_model_table::{ModelError, TableName};
use dbl_offset::OffsetError;
use dbl_pgmsg::MsgError;
use dbl_source::SourceError;
use dbl_topic::SinkError;
use dbl_value_types::ValueError;
use std::alloc::{AllocError, AllocFailed};
use thiserror::Error;

/// Why a session stopped with an error.
#[derive(Debug, Drop, Error)]
pub enum Halt {
    #[error("source failed")]
    Source,
    #[error("sink failed")]
    Sink,
    #[error("offsets failed")]
    Offsets,
    #[error("out of memory")]
    Memory,
    /// The bytes of a message, counted from 1, encode none. It is never `Memory`.
    #[error("message {number}: {error}")]
    Message {
        number: u64,
        error: MsgError,
    },
    /// A message, counted from 1, is invalid after those before it. It is never `Memory`.
    #[error("message {number}: {error}")]
    Txn {
        number: u64,
        error: TxnError,
    },
    /// The table was altered: its version isn't 1, the one that sessions read.
    #[error("schema changed {table}")]
    Altered {
        table: TableName,
    },
    /// A row, counted from 0, can't be a row that a select of this table returns.
    #[error("bad chunk row {row} of {table}")]
    Chunk {
        table: TableName,
        row: u32,
    },
    /// A cell of a selected row encodes no value of its column's type.
    #[error("{error} {table}.{column}")]
    Cell {
        table: TableName,
        column: Text,
        error: ValueError,
    },
    /// A value that a record would contain is equal to the placeholder.
    #[error("placeholder in {table}.{column}")]
    Clash {
        table: TableName,
        column: Text,
    },
    /// The encoding of a batch of one record has more than 2^28 bytes; `len` is its length.
    #[error("record too long {len}")]
    RecordTooLong {
        len: u64,
    },
    /// The encoding of an offset has more than 2^28 bytes.
    #[error("offset too long {len}")]
    OffsetTooLong {
        len: u64,
    },
    /// A table can't be captured. It is never `Memory`.
    #[error("{0}")]
    Model(ModelError),
    /// The catalogue has no such table.
    #[error("unknown table {table}")]
    UnknownTable {
        table: TableName,
    },
    /// The log after the offset is gone; `first` is the first position from which it can be read.
    #[error("log gone before {first}")]
    Gone {
        asked: Lsn,
        first: Lsn,
    },
    /// The watermark that a window waits for wasn't among the messages, all of which were read.
    /// `position` is the LSN of the last commit that was read, or else the one after which reading
    /// began.
    #[error("watermark missing {value}")]
    WatermarkMissing {
        value: Text,
        position: Lsn,
    },
    /// The stored offset has the greatest incarnation that is possible.
    #[error("incarnations exhausted")]
    Exhausted {
        incarnation: u64,
    },
}

impl From<AllocError> for Halt {
    ghost use Rattle.std.specs.Prelude.{◌≡◌};
    ghost use Rattle.dbl_capture_work.specs.declared.halt.Halt.TheVariants.{Memory};

    ghost from_gives = { λ _ h. h ≡ Memory };

    fn from(_error: AllocError) -> Halt {
        Halt::Memory
    }
}

impl<T: Drop> From<AllocFailed<T>> for Halt {
    ghost use Rattle.std.specs.Prelude.{◌≡◌};
    ghost use Rattle.dbl_capture_work.specs.declared.halt.Halt.TheVariants.{Memory};

    ghost from_gives = { λ _ h. h ≡ Memory };

    fn from(_error: AllocFailed<T>) -> Halt {
        Halt::Memory
    }
}

impl From<SourceError> for Halt {
    ghost use Rattle.std.specs.Prelude.{◌≡◌};
    ghost use Rattle.dbl_capture_work.specs.Halts.{source_halt};

    ghost from_gives = { λ e h. h ≡ source_halt e };

    fn from(error: SourceError) -> Halt {
        match error {
            SourceError::Failed => Halt::Source,
            SourceError::Memory => Halt::Memory,
        }
    }
}

impl From<SinkError> for Halt {
    ghost use Rattle.std.specs.Prelude.{◌≡◌};
    ghost use Rattle.dbl_capture_work.specs.Halts.{sink_halt};

    ghost from_gives = { λ e h. h ≡ sink_halt e };

    fn from(error: SinkError) -> Halt {
        match error {
            SinkError::Failed => Halt::Sink,
            SinkError::TooLong { len } => Halt::RecordTooLong { len },
            SinkError::Memory => Halt::Memory,
        }
    }
}

impl From<OffsetError> for Halt {
    ghost use Rattle.std.specs.Prelude.{◌≡◌};
    ghost use Rattle.dbl_capture_work.specs.Halts.{offset_halt};

    ghost from_gives = { λ e h. h ≡ offset_halt e };

    // An open store returns no error about the contents of its disk.
    fn from(error: OffsetError) -> Halt {
        match error {
            OffsetError::Failed => Halt::Offsets,
            OffsetError::NotAStore { .. } => Halt::Offsets,
            OffsetError::BadOffset { .. } => Halt::Offsets,
            OffsetError::TooLong { len } => Halt::OffsetTooLong { len },
            OffsetError::Memory => Halt::Memory,
        }
    }
}

impl From<FollowError> for Halt {
    ghost use Rattle.std.specs.Prelude.{◌≡◌};
    ghost use Rattle.dbl_capture_work.specs.Halts.{follow_halt};

    ghost from_gives = { λ e h. h ≡ follow_halt e };

    fn from(error: FollowError) -> Halt {
        match error {
            FollowError::Envelope(EnvelopeError::PlaceholderClash { table, column }) => {
                Halt::Clash { table, column }
            }
            FollowError::Envelope(EnvelopeError::Memory) => Halt::Memory,
            FollowError::Memory => Halt::Memory,
        }
    }
}

impl From<ModelError> for Halt {
    ghost use Rattle.std.specs.Prelude.{◌≡◌};
    ghost use Rattle.dbl_capture_work.specs.Halts.{model_halt};

    ghost from_gives = { λ e h. h ≡ model_halt e };

    fn from(error: ModelError) -> Halt {
        match error {
            ModelError::Memory => Halt::Memory,
            other => Halt::Model(other),
        }
    }
}
