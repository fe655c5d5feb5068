use std::alloc::{AllocError, AllocFailed};
use thiserror::Error;

/// Why some or all lines weren't written.
#[derive(Clone, Copy, Debug, Drop, Error)]
pub enum PrintError {
    /// The output failed, and its fault count rose.
    #[error("output failed")]
    OutputFailed,
    #[error("out of memory")]
    Memory,
}

impl From<AllocError> for PrintError {
    ghost use Rattle.std.specs.Prelude.{◌≡◌};
    ghost use Rattle.dbl_lines.specs.declared.error.PrintError.TheVariants.{Memory};

    ghost from_gives = { λ _ e. e ≡ Memory };

    fn from(_error: AllocError) -> PrintError {
        PrintError::Memory
    }
}

impl<T: Drop> From<AllocFailed<T>> for PrintError {
    ghost use Rattle.std.specs.Prelude.{◌≡◌};
    ghost use Rattle.dbl_lines.specs.declared.error.PrintError.TheVariants.{Memory};

    ghost from_gives = { λ _ e. e ≡ Memory };

    fn from(_error: AllocFailed<T>) -> PrintError {
        PrintError::Memory
    }
}
