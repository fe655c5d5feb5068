//! Errors of reading an input, as those of a run.
ghost use Rattle.std.specs.Prelude.{◌≡◌};
ghost use Rattle.dblog_streams.specs.Streaming.{line_error, reading_error};

use dbl_base::InputError;
use dbl_lines::RunError;
use dblog_replay::LineError;

/// The error of reading an input.
pub(crate) fn reading_error(error: InputError) -> RunError
    ensures { result ≡ reading_error error }
{
    match error {
        InputError::Failed => RunError::InputFailed,
        InputError::TooLong => RunError::InputTooLong,
        InputError::Memory => RunError::Memory,
    }
}

/// The error of reading the lines of a log.
pub(crate) fn line_error(error: LineError) -> RunError
    ensures { result ≡ line_error error }
{
    match error {
        LineError::BadLine { number } => RunError::BadLine { number },
        LineError::Memory => RunError::Memory,
    }
}
