use crate::CommandError;

/// The result of a command over one disk: the disk, and the error if its text isn't complete.
#[derive(Drop)]
pub struct Ended<D> {
    pub disk: D,
    pub end: Result<(), CommandError>,
}

/// The result of a command over the disks of the topic log and the offset, and the error if its
/// text isn't complete.
#[derive(Drop)]
pub struct Applied<T, F> {
    pub topics: T,
    pub offsets: F,
    pub end: Result<(), CommandError>,
}
