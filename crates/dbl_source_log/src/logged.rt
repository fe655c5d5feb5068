use dbl_base::{Seq, Text};
use dbl_model_table::{RawColumn, RawRow, RawTable, TableName};
use dbl_pgmsg::Message;

/// A table of a log. Its replica identity is full if `full` is set, otherwise the primary key.
#[derive(Drop)]
pub struct LogTable {
    pub raw: RawTable,
    pub full: bool,
}

/// The contents of one commit of a log.
#[derive(Drop)]
pub enum Logged {
    /// The change messages, in order.
    Changes(Seq<Message>),
    /// The watermark got this value.
    Mark(Text),
    /// The table of this name has these columns, and exactly these rows in them, from here on.
    Alter {
        name: TableName,
        columns: Seq<RawColumn>,
        rows: Seq<RawRow>,
    },
}
