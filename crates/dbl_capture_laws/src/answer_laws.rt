//! The errors that a source's last answer requires: theorems, as contracts of empty functions.

ghost use Rattle.dbl_capture_laws.specs.Answered.{FailuresExcuse, NewestBytesAsk};
ghost use Rattle.dbl_capture_laws.specs.Answered.{QuietAnswersAskNothing, RowsAsk};
ghost use Rattle.dbl_capture_laws.specs.Answered.{UnreadAnswersAsk};

/// After the first store, valid message bytes require no error, if the last answer is neither rows
/// nor a log that is gone.
pub fn quiet_answers_ask_nothing()
    ensures { QuietAnswersAskNothing }
{}

/// After the first store, out of memory and a failed source meet every requirement, if all bytes
/// encode messages.
pub fn failures_excuse()
    ensures { FailuresExcuse }
{}

/// A stop at the rows of the next window returns the error that they require.
pub fn rows_ask()
    ensures { RowsAsk }
{}

/// A stop at the newest bytes returns the error that they require.
pub fn newest_bytes_ask()
    ensures { NewestBytesAsk }
{}

/// A stop before reading returns the error that a description, or a log that is gone, requires.
pub fn unread_answers_ask()
    ensures { UnreadAnswersAsk }
{}
