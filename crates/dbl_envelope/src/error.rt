use dbl_base::Text;
use dbl_model_table::TableName;
use std::alloc::{AllocError, AllocFailed};
use thiserror::Error;

/// Why no records are made.
#[derive(Debug, Drop, Error)]
pub enum EnvelopeError {
    /// A cell that would be printed in `before` or `after` has the placeholder of unsent cells as
    /// its JSON string.
    #[error("placeholder in {table}.{column}")]
    PlaceholderClash { table: TableName, column: Text },
    #[error("out of memory")]
    Memory,
}

impl From<AllocError> for EnvelopeError {
    ghost use Rattle.std.specs.Prelude.{◌≡◌};
    ghost use Rattle.dbl_envelope.specs.declared.error.EnvelopeError.TheVariants.{Memory};

    ghost from_gives = { λ _ e. e ≡ Memory };

    fn from(_error: AllocError) -> EnvelopeError {
        EnvelopeError::Memory
    }
}

impl<T: Drop> From<AllocFailed<T>> for EnvelopeError {
    ghost use Rattle.std.specs.Prelude.{◌≡◌};
    ghost use Rattle.dbl_envelope.specs.declared.error.EnvelopeError.TheVariants.{Memory};

    ghost from_gives = { λ _ e. e ≡ Memory };

    fn from(_error: AllocFailed<T>) -> EnvelopeError {
        EnvelopeError::Memory
    }
}
