use dbl_base::Text;
use std::alloc::{AllocError, AllocFailed};
use thiserror::Error;

/// Why a session's step isn't accepted: the first cause of this list, except that a locked row or
/// table comes after an unreadable row or alteration, and before a missing or an existing row.
#[derive(Debug, Drop, Error)]
pub enum StepError {
    /// The session has begun already.
    #[error("already open")]
    AlreadyOpen,
    /// The session hasn't begun, or has ended.
    #[error("not open")]
    NotOpen,
    /// The table doesn't exist.
    #[error("unknown table")]
    UnknownTable,
    /// A column doesn't exist or is named twice, a text is no value of its column's type, a key
    /// cell is null, the cells of a key aren't exactly the key's, or the change is too long or has
    /// more than 1,600 cells.
    #[error("bad row")]
    BadRow,
    /// Another session, the first in byte order, has locked a key or a table of the step.
    #[error("locked by {by}")]
    RowLocked { by: Text },
    /// No row has the key.
    #[error("no row")]
    NoRow,
    /// A row with the key already exists.
    #[error("row exists")]
    RowExists,
    /// A column can't be added, or can't be removed: its name is taken, its type is float4 or
    /// float8, its text is no value of its type, the table has 1,600 columns, or a row would be too
    /// long with it; or it doesn't exist, or is of the key.
    #[error("bad alter")]
    BadAlter,
    #[error("out of memory")]
    Memory,
}

impl From<AllocError> for StepError {
    ghost use Rattle.std.specs.Prelude.{◌≡◌};
    ghost use Rattle.dbl_tables_rows.specs.declared.error.StepError.TheVariants.{Memory};

    ghost from_gives = { λ _ e. e ≡ Memory };

    fn from(_error: AllocError) -> StepError {
        StepError::Memory
    }
}

impl<T: Drop> From<AllocFailed<T>> for StepError {
    ghost use Rattle.std.specs.Prelude.{◌≡◌};
    ghost use Rattle.dbl_tables_rows.specs.declared.error.StepError.TheVariants.{Memory};

    ghost from_gives = { λ _ e. e ≡ Memory };

    fn from(_error: AllocFailed<T>) -> StepError {
        StepError::Memory
    }
}
