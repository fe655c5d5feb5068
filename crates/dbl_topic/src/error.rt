use dbl_journal::JournalError;
use dbl_record::RecordError;
use std::alloc::{AllocError, AllocFailed};
use thiserror::Error;

/// Why a group wasn't appended.
#[derive(Clone, Copy, Debug, Error)]
pub enum SinkError {
    #[error("sink failed")]
    Failed,
    /// The encoded group is longer than `GROUP_LIMIT` bytes; `len` is its length, saturating at
    /// 2^64 - 1.
    #[error("group too long: {len}")]
    TooLong { len: u64 },
    #[error("out of memory")]
    Memory,
}

impl From<AllocError> for SinkError {
    ghost use Rattle.std.specs.Prelude.{◌≡◌};
    ghost use Rattle.dbl_topic.specs.declared.error.SinkError.TheVariants.{Memory};

    ghost from_gives = { λ _ e. e ≡ Memory };

    fn from(_error: AllocError) -> SinkError {
        SinkError::Memory
    }
}

impl<T: Drop> From<AllocFailed<T>> for SinkError {
    ghost use Rattle.std.specs.Prelude.{◌≡◌};
    ghost use Rattle.dbl_topic.specs.declared.error.SinkError.TheVariants.{Memory};

    ghost from_gives = { λ _ e. e ≡ Memory };

    fn from(_error: AllocFailed<T>) -> SinkError {
        SinkError::Memory
    }
}

impl From<RecordError> for SinkError {
    ghost use Rattle.std.specs.Prelude.{◌≡◌};
    ghost use Rattle.dbl_topic.specs.declared.error.SinkError.TheVariants.{Memory};

    ghost from_gives = { λ _ e. e ≡ Memory };

    // Writing a group has no other error.
    fn from(_error: RecordError) -> SinkError {
        SinkError::Memory
    }
}

impl From<JournalError> for SinkError {
    ghost use Rattle.std.specs.Prelude.{◌≡◌};
    ghost use Rattle.dbl_topic.specs.Faults.{sink_fault};

    ghost from_gives = { λ e f. f ≡ sink_fault e };

    fn from(error: JournalError) -> SinkError {
        match error {
            JournalError::Failed | JournalError::NotAJournal { .. } => SinkError::Failed,
            JournalError::EntryTooLong { len } => SinkError::TooLong { len },
            JournalError::Memory => SinkError::Memory,
        }
    }
}

/// Why a topic log couldn't be made, opened or read.
#[derive(Clone, Copy, Debug, Error)]
pub enum TopicError {
    /// The journal's error, other than `Memory`.
    #[error("{0}")]
    Journal(JournalError),
    /// The number, from 0, of an entry that isn't an encoded group of 1 to 1,000 records, the first
    /// such one if a log is opened.
    #[error("bad entry {index}")]
    BadEntry { index: u64 },
    #[error("out of memory")]
    Memory,
}

impl From<JournalError> for TopicError {
    ghost use Rattle.std.specs.Prelude.{◌≡◌};
    ghost use Rattle.dbl_topic.specs.Faults.{topic_fault};

    ghost from_gives = { λ e f. f ≡ topic_fault e };

    fn from(error: JournalError) -> TopicError {
        match error {
            JournalError::Memory => TopicError::Memory,
            other => TopicError::Journal(other),
        }
    }
}
