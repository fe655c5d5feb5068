use dbl_base::Failed;
use std::alloc::{AllocError, AllocFailed};
use thiserror::Error;

/// Why a journal couldn't be made, opened, read or appended to.
#[derive(Clone, Copy, Debug, Error)]
pub enum JournalError {
    #[error("disk failed")]
    Failed,
    /// The offset of the first missing or wrong byte of the magic, of the missing commit byte, or
    /// of the commit byte whose entry is truncated or too long.
    #[error("not a journal at {at}")]
    NotAJournal { at: u64 },
    /// The entry is longer than `ENTRY_LIMIT` bytes.
    #[error("entry too long: {len}")]
    EntryTooLong { len: u64 },
    #[error("out of memory")]
    Memory,
}

impl From<Failed> for JournalError {
    ghost use Rattle.std.specs.Prelude.{◌≡◌};
    ghost use Rattle.dbl_journal.specs.declared.error.JournalError.TheVariants as error;

    ghost from_gives = { λ _ e. e ≡ error.Failed };

    fn from(_failed: Failed) -> JournalError {
        JournalError::Failed
    }
}

impl From<AllocError> for JournalError {
    ghost use Rattle.std.specs.Prelude.{◌≡◌};
    ghost use Rattle.dbl_journal.specs.declared.error.JournalError.TheVariants.{Memory};

    ghost from_gives = { λ _ e. e ≡ Memory };

    fn from(_error: AllocError) -> JournalError {
        JournalError::Memory
    }
}

impl<T: Drop> From<AllocFailed<T>> for JournalError {
    ghost use Rattle.std.specs.Prelude.{◌≡◌};
    ghost use Rattle.dbl_journal.specs.declared.error.JournalError.TheVariants.{Memory};

    ghost from_gives = { λ _ e. e ≡ Memory };

    fn from(_error: AllocFailed<T>) -> JournalError {
        JournalError::Memory
    }
}
