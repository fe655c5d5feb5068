/// A refusal that returns the disk.
#[derive(Drop)]
pub struct Refused<D, E> {
    pub disk: D,
    pub error: E,
}
