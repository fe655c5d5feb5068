ghost use Rattle.std.specs.Prelude.{◌≡◌};
ghost use Rattle.dbl_frames_heads.specs.declared.error.FrameError.TheVariants.{Memory};

use std::alloc::AllocError;
use thiserror::Error;

/// Why no more frames are read; `at` is the offset in the stream of the frame's first byte.
#[derive(Clone, Copy, Debug, Error)]
pub enum FrameError {
    /// The first byte isn't `d`, the kind of CopyData.
    #[error("frame at {at}: F1 bad kind {byte}")]
    BadKind { at: u64, byte: u8 },
    /// The length is below 5, or above 16,777,245: that of XLogData with a payload of 16 MiB.
    #[error("frame at {at}: F2 bad length")]
    BadLength { at: u64 },
    /// The content begins neither with `w` nor with `k`.
    #[error("frame at {at}: F3 bad inner {byte}")]
    BadInner { at: u64, byte: u8 },
    /// The length is below 29 for `w`, or other than 22 for `k`.
    #[error("frame at {at}: F4 bad size")]
    BadSize { at: u64 },
    #[error("out of memory")]
    Memory,
}

impl From<AllocError> for FrameError {
    ghost from_gives = { λ _ e. e ≡ Memory };

    fn from(_error: AllocError) -> FrameError {
        FrameError::Memory
    }
}
