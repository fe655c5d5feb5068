use dbl_base::{Lsn, Text};
use dbl_model_table::TableName;
use dbl_value_types::ValueError;
use std::alloc::{AllocError, AllocFailed};
use thiserror::Error;

/// Why a message states no part of a commit at its position.
#[derive(Debug, Drop, Error)]
pub enum TxnError {
    /// A Commit, an Origin or a change outside a transaction.
    #[error("outside a transaction")]
    OutsideTransaction,
    /// A Begin inside a transaction.
    #[error("nested begin")]
    NestedBegin,
    /// A Commit's LSN isn't the one that its Begin announced.
    #[error("commit mismatch {begin} {commit}")]
    CommitMismatch {
        begin: Lsn,
        commit: Lsn,
    },
    /// A Begin's LSN isn't above that of the last commit.
    #[error("position order {last} {got}")]
    LsnOrder {
        last: Lsn,
        got: Lsn,
    },
    /// A change of a table that no Relation has described.
    #[error("unknown relation {oid}")]
    UnknownRelation {
        oid: u32,
    },
    /// A row has another number of cells than its table has columns.
    #[error("column count {want} {got}")]
    ColumnCount {
        want: u32,
        got: u32,
    },
    /// A Relation's columns aren't those of the captured table, by number, name and type.
    #[error("schema changed {table}")]
    SchemaChanged {
        table: TableName,
    },
    /// A column of the key isn't part of the replica identity.
    #[error("key not in identity {table}")]
    KeyNotInIdentity {
        table: TableName,
    },
    /// An Update of a table of full identity lacks the old row.
    #[error("missing old row {table}")]
    MissingOld {
        table: TableName,
    },
    /// A cell is unsent but has to be sent.
    #[error("unchanged cell {table}.{column}")]
    UnchangedCell {
        table: TableName,
        column: Text,
    },
    /// An Update that moves the key leaves a cell unsent.
    #[error("moved unchanged {table}.{column}")]
    MovedUnchanged {
        table: TableName,
        column: Text,
    },
    /// A cell of the key is null.
    #[error("null key {table}")]
    NullKey {
        table: TableName,
    },
    /// A text doesn't parse as a value of its column's type.
    #[error("{error} {table}.{column}")]
    Value {
        table: TableName,
        column: Text,
        error: ValueError,
    },
    /// A transaction changes the watermark table in another way than by its one Update.
    #[error("bad watermark")]
    BadMark,
    #[error("out of memory")]
    Memory,
}

impl From<AllocError> for TxnError {
    ghost use Rattle.std.specs.Prelude.{◌≡◌};
    ghost use Rattle.dbl_model_commit.specs.declared.txn_error.TxnError.TheVariants.{Memory};

    ghost from_gives = { λ _ e. e ≡ Memory };

    fn from(_error: AllocError) -> TxnError {
        TxnError::Memory
    }
}

impl<T: Drop> From<AllocFailed<T>> for TxnError {
    ghost use Rattle.std.specs.Prelude.{◌≡◌};
    ghost use Rattle.dbl_model_commit.specs.declared.txn_error.TxnError.TheVariants.{Memory};

    ghost from_gives = { λ _ e. e ≡ Memory };

    fn from(_error: AllocFailed<T>) -> TxnError {
        TxnError::Memory
    }
}
