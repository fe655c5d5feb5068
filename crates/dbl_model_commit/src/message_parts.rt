//! Parts of messages under the names that the definitions of stated commits use.

use dbl_base::Seq;
use dbl_model_table::TableName;
use dbl_pgmsg::{OldTuple, RelationColumn, Tuple};

/// A table as a Relation message describes it.
#[derive(Drop)]
pub struct Relation {
    pub name: TableName,
    /// The replica identity: `d` the primary key, `n` nothing, `f` all columns, `i` an index.
    pub identity: u8,
    pub columns: Seq<RelationColumn>,
}

/// The row change of an Insert, an Update or a Delete message.
#[derive(Drop)]
pub enum RowChange {
    Insert(Tuple),
    /// The old key or the old row, if one was sent, and the new row.
    Update(Option<OldTuple>, Tuple),
    Delete(OldTuple),
}

/// The kind of a table to the reader of the log.
#[derive(Clone, Copy, PartialEq, Eq)]
pub enum Target {
    /// The watermark table.
    Watermark,
    /// A captured table, by its index among them.
    Captured(u32),
    /// A table whose changes are skipped.
    Passed,
}
