use dbl_envelope::EnvelopeError;
use std::alloc::{AllocError, AllocFailed};
use thiserror::Error;

/// Why the records of a commit can't be built.
#[derive(Debug, Drop, Error)]
pub enum FollowError {
    /// A cell that its records would print equals the placeholder. Never wraps `Memory`.
    #[error("{0}")]
    Envelope(EnvelopeError),
    #[error("out of memory")]
    Memory,
}

impl From<EnvelopeError> for FollowError {
    ghost use Rattle.std.specs.Prelude.{◌≡◌};
    ghost use Rattle.dbl_follow.specs.Faults.{follow_fault};

    ghost from_gives = { λ e f. f ≡ follow_fault e };

    fn from(error: EnvelopeError) -> FollowError {
        match error {
            EnvelopeError::Memory => FollowError::Memory,
            other => FollowError::Envelope(other),
        }
    }
}

impl From<AllocError> for FollowError {
    ghost use Rattle.std.specs.Prelude.{◌≡◌};
    ghost use Rattle.dbl_follow.specs.declared.error.FollowError.TheVariants.{Memory};

    ghost from_gives = { λ _ e. e ≡ Memory };

    fn from(_error: AllocError) -> FollowError {
        FollowError::Memory
    }
}

impl<T: Drop> From<AllocFailed<T>> for FollowError {
    ghost use Rattle.std.specs.Prelude.{◌≡◌};
    ghost use Rattle.dbl_follow.specs.declared.error.FollowError.TheVariants.{Memory};

    ghost from_gives = { λ _ e. e ≡ Memory };

    fn from(_error: AllocFailed<T>) -> FollowError {
        FollowError::Memory
    }
}
