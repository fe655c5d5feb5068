ghost use Rattle.std.specs.Prelude.{◌≡◌};
ghost use Rattle.dbl_pgmsg.specs.declared.error.MsgError.TheVariants.{Memory};

use std::alloc::{AllocError, AllocFailed};
use thiserror::Error;

/// Why bytes aren't a message; `at` is the offset of a byte, from 0.
#[derive(Debug, Drop, Error)]
pub enum MsgError {
    /// The first byte is no message's tag.
    #[error("unknown tag {byte}")]
    UnknownTag { byte: u8 },
    /// A field extends past the end of the bytes, which is `at`.
    #[error("truncated at {at}")]
    Truncated { at: u64 },
    /// The byte at `at` is after the end of the message.
    #[error("trailing bytes at {at}")]
    TrailingBytes { at: u64 },
    /// The replica identity is none of `d`, `n`, `f` and `i`.
    #[error("bad identity {byte}")]
    BadIdentity { byte: u8 },
    /// A cell begins with none of `n`, `u` and `t`.
    #[error("bad tuple tag {byte} at {at}")]
    BadTupleTag { at: u64, byte: u8 },
    /// A byte other than the row tags allowed there, of `N`, `K` and `O`.
    #[error("bad new tag {byte} at {at}")]
    BadNewTag { at: u64, byte: u8 },
    /// The text that begins at `at` is complete but isn't UTF-8.
    #[error("not utf-8 at {at}")]
    NotUtf8 { at: u64 },
    /// A negative length or count.
    #[error("negative length at {at}")]
    NegativeLength { at: u64 },
    /// A cell in binary format, which wasn't requested.
    #[error("binary column at {at}")]
    BinaryColumn { at: u64 },
    /// The message has more than 16,777,216 bytes.
    #[error("too long {len}")]
    TooLong { len: u64 },
    /// More than 1,600 columns, the maximum of a PostgreSQL table.
    #[error("too many columns at {at}")]
    TooManyColumns { at: u64 },
    #[error("out of memory")]
    Memory,
}

impl From<AllocError> for MsgError {
    ghost from_gives = { λ _ e. e ≡ Memory };

    fn from(_e: AllocError) -> MsgError {
        MsgError::Memory
    }
}

impl<T: Drop> From<AllocFailed<T>> for MsgError {
    ghost from_gives = { λ _ e. e ≡ Memory };

    fn from(_e: AllocFailed<T>) -> MsgError {
        MsgError::Memory
    }
}
