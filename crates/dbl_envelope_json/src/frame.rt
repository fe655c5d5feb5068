use crate::layout::Layout;
use dbl_base::Text;
use dbl_model_table::{Commit, Identity, TableInfo};

/// What is common to the records of one table in a commit.
#[derive(Clone, Copy)]
pub struct Frame<'a> {
    pub identity: &'a Identity,
    pub info: &'a TableInfo,
    pub layout: &'a Layout,
    pub commit: &'a Commit,
    pub now_ms: &'a i64,
    /// The value of `snapshot` in their `source`.
    pub snapshot: &'a str,
    /// The JSON text of their values from `source` on.
    pub tail: &'a Text,
}
