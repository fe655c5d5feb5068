/// A record's index within its commit.
#[derive(Clone, Copy)]
pub struct Stamp {
    /// The index, from 0.
    pub ordinal: u64,
    /// Whether the record is the last of its commit.
    pub last: bool,
}
