ghost use Rattle.std.specs.Prelude.{◌≡◌};
ghost use Rattle.dbl_stream2.specs.Errors.{wrapped};
ghost use Rattle.dbl_stream2.specs.declared.error.StreamError.TheVariants.{Memory};

use dbl_pgmsg::MsgError;
use std::alloc::{AllocError, AllocFailed};
use thiserror::Error;

/// Why a message of the stream was refused.
#[derive(Debug, Drop, Error)]
pub enum StreamError {
    /// A Stream Start inside a block, or between a Begin and its Commit.
    #[error("nested stream")]
    NestedStream,
    /// A Stream Stop outside a block; a Stream Commit or a Stream Abort inside a block, or between
    /// a Begin and its Commit.
    #[error("not streaming")]
    NotStreaming,
    /// A Stream Commit of a transaction without a block since its last Stream Commit or abort.
    #[error("unknown stream {xid}")]
    UnknownStream { xid: u32 },
    /// A Begin or a Commit inside a block.
    #[error("plain message in stream")]
    PlainInside { tag: u8 },
    /// The bytes aren't a message; never `MsgError::Memory`.
    #[error("{error}")]
    Message { error: MsgError },
    #[error("out of memory")]
    Memory,
}

impl From<AllocError> for StreamError {
    ghost from_gives = { λ _ e. e ≡ Memory };

    fn from(_e: AllocError) -> StreamError {
        StreamError::Memory
    }
}

impl<T: Drop> From<AllocFailed<T>> for StreamError {
    ghost from_gives = { λ _ e. e ≡ Memory };

    fn from(_e: AllocFailed<T>) -> StreamError {
        StreamError::Memory
    }
}

impl From<MsgError> for StreamError {
    ghost from_gives = { λ m e. e ≡ wrapped m };

    fn from(error: MsgError) -> StreamError {
        match error {
            MsgError::Memory => StreamError::Memory,
            error => StreamError::Message { error },
        }
    }
}
