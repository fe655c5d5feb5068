use dbl_base::Failed;
use std::alloc::{AllocError, AllocFailed};
use thiserror::Error;

/// Why a source returned no answer.
#[derive(Clone, Copy, Debug, Error)]
pub enum SourceError {
    #[error("source failed")]
    Failed,
    #[error("out of memory")]
    Memory,
}

impl From<Failed> for SourceError {
    ghost use Rattle.std.specs.Prelude.{◌≡◌};
    ghost use Rattle.dbl_source_log.specs.declared.error.SourceError.TheVariants.{Failed};

    ghost from_gives = { λ _ e. e ≡ Failed };

    fn from(_error: Failed) -> SourceError {
        SourceError::Failed
    }
}

impl From<AllocError> for SourceError {
    ghost use Rattle.std.specs.Prelude.{◌≡◌};
    ghost use Rattle.dbl_source_log.specs.declared.error.SourceError.TheVariants.{Memory};

    ghost from_gives = { λ _ e. e ≡ Memory };

    fn from(_error: AllocError) -> SourceError {
        SourceError::Memory
    }
}

impl<T: Drop> From<AllocFailed<T>> for SourceError {
    ghost use Rattle.std.specs.Prelude.{◌≡◌};
    ghost use Rattle.dbl_source_log.specs.declared.error.SourceError.TheVariants.{Memory};

    ghost from_gives = { λ _ e. e ≡ Memory };

    fn from(_error: AllocFailed<T>) -> SourceError {
        SourceError::Memory
    }
}
