use crate::TableName;
use dbl_base::Text;
use std::alloc::{AllocError, AllocFailed};
use thiserror::Error;

/// Why a table can't be captured.
#[derive(Debug, Drop, Error)]
pub enum ModelError {
    /// The schema or the name isn't 1 to 63 letters, digits, `_` and `-`, or the name is
    /// `dblog-progress`, or it is the watermark table.
    #[error("bad name {name}")]
    BadName { name: TableName },
    /// The first column whose name an earlier one has.
    #[error("duplicate column {table}.{column}")]
    DuplicateColumn { table: TableName, column: Text },
    /// The first column of float4 or float8.
    #[error("float column {table}.{column}")]
    FloatColumn { table: TableName, column: Text },
    /// The key is empty, names a column that isn't there, or names one twice.
    #[error("no key {table}")]
    NoKey { table: TableName },
    /// The first column of the key whose type isn't int2, int4, int8, uuid, text or varchar.
    #[error("key type {table}.{column}")]
    KeyType { table: TableName, column: Text },
    #[error("out of memory")]
    Memory,
}

impl From<AllocError> for ModelError {
    ghost use Rattle.std.specs.Prelude.{◌≡◌};
    ghost use Rattle.dbl_model_table.specs.declared.error.ModelError.TheVariants.{Memory};

    ghost from_gives = { λ _ e. e ≡ Memory };

    fn from(_error: AllocError) -> ModelError {
        ModelError::Memory
    }
}

impl<T: Drop> From<AllocFailed<T>> for ModelError {
    ghost use Rattle.std.specs.Prelude.{◌≡◌};
    ghost use Rattle.dbl_model_table.specs.declared.error.ModelError.TheVariants.{Memory};

    ghost from_gives = { λ _ e. e ≡ Memory };

    fn from(_error: AllocFailed<T>) -> ModelError {
        ModelError::Memory
    }
}
