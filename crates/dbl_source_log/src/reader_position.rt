use dbl_base::Lsn;

/// The position of a reader of a log.
#[derive(Clone, Copy)]
pub struct ReaderPosition {
    /// The LSN after which reading began.
    pub after: Lsn,
    /// The number of whole commits read since. The next one is being read, or will be.
    pub commits: usize,
    /// Whether the next one's Begin was read.
    pub begun: bool,
    /// The number of its changes that were read.
    pub change: usize,
    /// The number of the next change's tables that were checked, each of which has been described.
    pub table: usize,
}
