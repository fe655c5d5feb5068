use std::alloc::{AllocError, AllocFailed};
use thiserror::Error;

/// Why a record can't be read or written. Writing fails only with `Memory`.
#[derive(Clone, Copy, Debug, Drop, Error)]
pub enum RecordError {
    /// A line isn't a JSON object with a string `topic`, and `at` is 0; or bytes aren't an encoded
    /// group, and `at` is the first offset at which they differ from every encoding.
    #[error("bad record at {at}")]
    BadRecord { at: u64 },
    #[error("out of memory")]
    Memory,
}

impl From<AllocError> for RecordError {
    ghost use Rattle.std.specs.Prelude.{◌≡◌};
    ghost use Rattle.dbl_record.specs.declared.error.RecordError.TheVariants.{Memory};

    ghost from_gives = { λ _ e. e ≡ Memory };

    fn from(_error: AllocError) -> RecordError {
        RecordError::Memory
    }
}

impl<T: Drop> From<AllocFailed<T>> for RecordError {
    ghost use Rattle.std.specs.Prelude.{◌≡◌};
    ghost use Rattle.dbl_record.specs.declared.error.RecordError.TheVariants.{Memory};

    ghost from_gives = { λ _ e. e ≡ Memory };

    fn from(_error: AllocFailed<T>) -> RecordError {
        RecordError::Memory
    }
}
