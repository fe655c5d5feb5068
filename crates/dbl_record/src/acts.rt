use dbl_base::{Seq, Text};
use std::alloc::{AllocError, AllocFailed};
use thiserror::Error;

/// A cell of a row in a consumer's state.
#[derive(Drop)]
pub enum HeldCell {
    /// The compact JSON text of its value.
    Known(Text),
    /// The cell wasn't sent, and no earlier value is known.
    Unknown,
}

/// A cell of an event's row, with its compact JSON text, or none if the value is the placeholder of
/// values that weren't sent.
#[derive(Drop)]
pub struct GivenCell {
    pub column: Text,
    pub text: Option<Text>,
}

/// The kind of a change event. A create, a snapshot read and an update all put a row.
#[derive(Clone, Copy, Drop)]
pub enum Operation {
    Put,
    Delete,
    Truncate,
    Message,
}

/// The effect of a record on the rows of its topic.
#[derive(Drop)]
pub enum Act {
    Nothing,
    /// The row of the key is set to these cells, in byte order of their columns.
    Set { key: Text, cells: Seq<GivenCell> },
    Remove { key: Text },
    /// All rows of the topic are removed.
    Wipe,
}

/// Why a consumer refuses a record.
#[derive(Debug, Drop, Error)]
pub enum ConsumeError {
    /// The key or the value isn't JSON.
    #[error("bad json")]
    BadJson,
    /// The value isn't an object with a string `op`.
    #[error("no op")]
    NoOp,
    /// The `op` is none of `c`, `r`, `u`, `d`, `t` and `m`.
    #[error("unknown op")]
    UnknownOp,
    /// The key isn't an object, or one of its members is an array, an object or a number that isn't
    /// a 64-bit integer.
    #[error("no key")]
    NoKey,
    /// `after` isn't an object.
    #[error("bad after")]
    BadAfter,
    /// The first unsupported cell in byte order of columns is a number that isn't a 64-bit integer.
    #[error("float cell {column}")]
    FloatCell { column: Text },
    /// The first unsupported cell in byte order of columns is an array or an object.
    #[error("nested cell {column}")]
    NestedCell { column: Text },
    #[error("out of memory")]
    Memory,
}

impl From<AllocError> for ConsumeError {
    ghost use Rattle.std.specs.Prelude.{◌≡◌};
    ghost use Rattle.dbl_record.specs.declared.acts.ConsumeError.TheVariants.{Memory};

    ghost from_gives = { λ _ e. e ≡ Memory };

    fn from(_error: AllocError) -> ConsumeError {
        ConsumeError::Memory
    }
}

impl<T: Drop> From<AllocFailed<T>> for ConsumeError {
    ghost use Rattle.std.specs.Prelude.{◌≡◌};
    ghost use Rattle.dbl_record.specs.declared.acts.ConsumeError.TheVariants.{Memory};

    ghost from_gives = { λ _ e. e ≡ Memory };

    fn from(_error: AllocFailed<T>) -> ConsumeError {
        ConsumeError::Memory
    }
}
