use std::alloc::AllocError;
use thiserror::Error;

/// Why an entry wasn't read.
#[derive(Clone, Copy, Debug, Error)]
pub enum EntryError {
    /// The bytes are no entry.
    #[error("bad entry")]
    Bad,
    #[error("out of memory")]
    Memory,
}

impl From<AllocError> for EntryError {
    ghost use Rattle.std.specs.Prelude.{◌≡◌};
    ghost use Rattle.dbl_demo_wal.specs.declared.error.EntryError.TheVariants.{Memory};

    ghost from_gives = { λ _ e. e ≡ Memory };

    fn from(_error: AllocError) -> EntryError {
        EntryError::Memory
    }
}
