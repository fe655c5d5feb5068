use thiserror::Error;

/// A failure of an input, an output or a disk, which the object's fault count records.
#[derive(Clone, Copy, Debug, Error)]
#[error("failed")]
pub struct Failed;
