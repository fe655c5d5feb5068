use thiserror::Error;

/// Why bytes are no script.
#[derive(Clone, Copy, Debug, Error)]
pub enum ScriptError {
    /// The number, from 1, of the first line that is invalid or not allowed at its place, or the
    /// number after the last line if no line is bad and there is no table.
    #[error("line {number}: bad line")]
    BadLine { number: u32 },
    /// More than 1,000,000 lines, which takes precedence over bad lines.
    #[error("too many lines")]
    TooManyLines,
    #[error("out of memory")]
    Memory,
}
