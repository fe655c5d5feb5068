use dbl_base::Failed;
use std::alloc::AllocError;
use thiserror::Error;

/// Why an offset store wasn't made, opened or written.
#[derive(Clone, Copy, Debug, Error)]
pub enum OffsetError {
    #[error("disk failed")]
    Failed,
    /// The disk has no store: the position of the first missing or wrong byte of the magic, of the
    /// missing selector, or of the selected slot's content (16 or 4112), which is truncated or
    /// longer than 2^28 bytes.
    #[error("not a store at {at}")]
    NotAStore { at: u64 },
    /// The number of the selected slot, 0 or 1, whose entry encodes no offset.
    #[error("bad offset {index}")]
    BadOffset { index: u64 },
    /// The offset has more than 2^28 bytes. A length above 2^64 - 1 is reported as 2^64 - 1.
    #[error("offset too long: {len}")]
    TooLong { len: u64 },
    #[error("out of memory")]
    Memory,
}

impl From<Failed> for OffsetError {
    ghost use Rattle.std.specs.Prelude.{◌≡◌};
    ghost use Rattle.dbl_offset.specs.declared.error.OffsetError.TheVariants as error;

    ghost from_gives = { λ _ e. e ≡ error.Failed };

    fn from(_failed: Failed) -> OffsetError {
        OffsetError::Failed
    }
}

impl From<AllocError> for OffsetError {
    ghost use Rattle.std.specs.Prelude.{◌≡◌};
    ghost use Rattle.dbl_offset.specs.declared.error.OffsetError.TheVariants.{Memory};

    ghost from_gives = { λ _ e. e ≡ Memory };

    fn from(_error: AllocError) -> OffsetError {
        OffsetError::Memory
    }
}
