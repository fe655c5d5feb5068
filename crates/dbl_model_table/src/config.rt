use crate::{Identity, TableName};
use dbl_base::Seq;

/// What a session captures, and how.
#[derive(Drop)]
pub struct Config {
    pub identity: Identity,
    /// The tables that are captured, in the order in which their snapshots are read.
    pub tables: Seq<TableName>,
    /// How many rows a window of a snapshot reads at most: 1 to 100,000.
    pub chunk: u32,
    /// After how many commits the offset is stored at the latest: 1 to 10,000.
    pub every: u32,
    /// How many messages the session reads at most: 1 to 999,999,999.
    pub messages: u64,
}
