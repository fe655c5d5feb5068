/// The disks of the program's three stores.
#[derive(Drop)]
pub struct Disks<W, T, F> {
    /// The disk of the source's log.
    pub wal: W,
    /// The disk of the topic log.
    pub topics: T,
    /// The disk of the offset store.
    pub offsets: F,
}

/// The disks after a command, and how it ended.
#[derive(Drop)]
pub struct Outcome<W, T, F, E> {
    /// The disks that the command was passed.
    pub disks: Disks<W, T, F>,
    /// Its result.
    pub end: E,
}
