use std::alloc::{AllocError, AllocFailed};
use thiserror::Error;

/// Why an OID has no type, or a value can't be parsed, printed or encoded.
#[derive(Debug, Drop, Error)]
pub enum ValueError {
    /// The type is float4 or float8, whose texts don't survive a round trip through JSON.
    #[error("float type")]
    FloatType,
    /// The text is no value of the type.
    #[error("bad text")]
    BadText,
    /// The text denotes a date outside the years 1 to 9999.
    #[error("date range")]
    DateRange,
    #[error("out of memory")]
    Memory,
}

impl From<AllocError> for ValueError {
    ghost use Rattle.std.specs.Prelude.{◌≡◌};
    ghost use Rattle.dbl_value_types.specs.declared.error.ValueError.TheVariants.{Memory};

    ghost from_gives = { λ _ e. e ≡ Memory };

    fn from(_error: AllocError) -> ValueError {
        ValueError::Memory
    }
}

impl<T: Drop> From<AllocFailed<T>> for ValueError {
    ghost use Rattle.std.specs.Prelude.{◌≡◌};
    ghost use Rattle.dbl_value_types.specs.declared.error.ValueError.TheVariants.{Memory};

    ghost from_gives = { λ _ e. e ≡ Memory };

    fn from(_error: AllocFailed<T>) -> ValueError {
        ValueError::Memory
    }
}
