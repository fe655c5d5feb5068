/// A range of a disk: `length` bytes from offset `at` on.
#[derive(Clone, Copy)]
pub struct Extent {
    pub at: u64,
    pub length: u64,
}
