/// How a session ended normally.
#[derive(Clone, Copy)]
pub enum Ending {
    /// Every table and the log were read to their end.
    Complete,
    /// The message budget was used up.
    Budget,
}

/// What a session did.
#[derive(Clone, Copy)]
pub struct Report {
    /// Messages that were read.
    pub messages: u64,
    /// Commits all of whose records were appended.
    pub commits: u64,
    /// Records whose append was acknowledged.
    pub records: u64,
    /// Windows that were closed: the progress records among the records.
    pub chunks: u64,
    /// Snapshot rows among the records.
    pub snapshot_rows: u64,
    /// The LSN that was stored last, and 0 before the first store.
    pub position: u64,
}
