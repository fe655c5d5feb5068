use dbl_model_history::Cursor;
use dbl_model_table::TableInfo;

/// A table of an offset, with its version and the progress of its snapshot.
#[derive(Drop)]
pub(crate) struct TableEntry {
    pub info: TableInfo,
    pub version: u64,
    pub cursor: Cursor,
}
