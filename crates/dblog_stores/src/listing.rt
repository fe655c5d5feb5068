/// What a command over the topic log and the offset prints.
#[derive(Clone, Copy)]
pub enum Listing {
    /// `apply`: a line for each row in the state of the consumer of the topic log.
    Rows,
    /// `compact`: the line of each record that a compaction of the topic log keeps.
    KeptRecords,
}
