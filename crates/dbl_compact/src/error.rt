use dbl_consume::ConsumeError;
use std::alloc::{AllocError, AllocFailed};
use thiserror::Error;

/// Why records aren't compacted.
#[derive(Debug, Drop, Error)]
pub enum CompactError {
    /// The first record that a consumer refuses, by its index from 0, and why; never for memory.
    #[error("record {index}: {error}")]
    Refused { index: u64, error: ConsumeError },
    #[error("out of memory")]
    Memory,
}

impl From<AllocError> for CompactError {
    ghost use Rattle.std.specs.Prelude.{◌≡◌};
    ghost use Rattle.dbl_compact.specs.declared.error.CompactError.TheVariants.{Memory};

    ghost from_gives = { λ _ e. e ≡ Memory };

    fn from(_error: AllocError) -> CompactError {
        CompactError::Memory
    }
}

impl<T: Drop> From<AllocFailed<T>> for CompactError {
    ghost use Rattle.std.specs.Prelude.{◌≡◌};
    ghost use Rattle.dbl_compact.specs.declared.error.CompactError.TheVariants.{Memory};

    ghost from_gives = { λ _ e. e ≡ Memory };

    fn from(_error: AllocFailed<T>) -> CompactError {
        CompactError::Memory
    }
}
