use std::alloc::{AllocError, AllocFailed};
use thiserror::Error;

/// Why arguments parse as no command.
#[derive(Clone, Copy, Debug, Error)]
pub enum CliError {
    #[error("usage")]
    Usage,
    #[error("out of memory")]
    Memory,
}

impl From<AllocError> for CliError {
    ghost use Rattle.std.specs.Prelude.{◌≡◌};
    ghost use Rattle.dbl_cli.specs.declared.error.CliError.TheVariants.{Memory};

    ghost from_gives = { λ _ e. e ≡ Memory };

    fn from(_error: AllocError) -> CliError {
        CliError::Memory
    }
}

impl<T: Drop> From<AllocFailed<T>> for CliError {
    ghost use Rattle.std.specs.Prelude.{◌≡◌};
    ghost use Rattle.dbl_cli.specs.declared.error.CliError.TheVariants.{Memory};

    ghost from_gives = { λ _ e. e ≡ Memory };

    fn from(_error: AllocFailed<T>) -> CliError {
        CliError::Memory
    }
}
