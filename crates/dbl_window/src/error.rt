use dbl_base::Text;
use dbl_source::SourceError;
use dbl_value::ValueError;
use std::alloc::{AllocError, AllocFailed};
use thiserror::Error;

/// Why a step of a window failed.
#[derive(Debug, Drop, Error)]
pub enum WindowError {
    /// The table has another version than the window's: it was altered. The rows aren't read.
    #[error("altered to version {version}")]
    Moved { version: u64 },
    /// The first row, counted from 0, that is past the limit, has another number of cells than its
    /// table, a null cell of its key, or a key that isn't above the one before it.
    #[error("bad chunk at row {row}")]
    BadChunk { row: u32 },
    /// A cell whose text doesn't parse as a value of its column's type: `BadText` or `DateRange`.
    #[error("unreadable cell in {column}: {error}")]
    Cell { column: Text, error: ValueError },
    #[error("source failed")]
    Failed,
    #[error("out of memory")]
    Memory,
}

impl From<SourceError> for WindowError {
    ghost use Rattle.std.specs.Prelude.{◌≡◌};
    ghost use Rattle.dbl_window.specs.Errors.{window_fault};

    ghost from_gives = { λ e f. f ≡ window_fault e };

    fn from(error: SourceError) -> WindowError {
        match error {
            SourceError::Failed => WindowError::Failed,
            SourceError::Memory => WindowError::Memory,
        }
    }
}

impl From<AllocError> for WindowError {
    ghost use Rattle.std.specs.Prelude.{◌≡◌};
    ghost use Rattle.dbl_window.specs.declared.error.WindowError.TheVariants.{Memory};

    ghost from_gives = { λ _ e. e ≡ Memory };

    fn from(_error: AllocError) -> WindowError {
        WindowError::Memory
    }
}

impl<T: Drop> From<AllocFailed<T>> for WindowError {
    ghost use Rattle.std.specs.Prelude.{◌≡◌};
    ghost use Rattle.dbl_window.specs.declared.error.WindowError.TheVariants.{Memory};

    ghost from_gives = { λ _ e. e ≡ Memory };

    fn from(_error: AllocFailed<T>) -> WindowError {
        WindowError::Memory
    }
}
