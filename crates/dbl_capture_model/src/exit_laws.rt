//! What a session may leave: theorems, as contracts of empty functions.

ghost use Rattle.dbl_capture_model.specs.Exits.{UnreadSessionsFollow, FirstOffsetsFollow};
ghost use Rattle.dbl_capture_model.specs.Exits.{SourcesMayEnd, SinksMayEnd, StoresMayEnd};
ghost use Rattle.dbl_capture_model.specs.Exits.{PartsMayBeLeft, ReadHistoriesAreClosed};
ghost use Rattle.dbl_capture_model.specs.Exits.{FewMarksAreWritten, WindowsAreRead};
ghost use Rattle.dbl_capture_model.specs.Exits.{ReadSessionsAreComplete};

/// A stop before the first store leaves faithful stores.
pub fn unread_sessions_follow()
    ensures { UnreadSessionsFollow }
{}

/// A stop after the first store, before reading, leaves faithful stores.
pub fn first_offsets_follow()
    ensures { FirstOffsetsFollow }
{}

/// A stop in a call of the source leaves faithful stores.
pub fn sources_may_end()
    ensures { SourcesMayEnd }
{}

/// A stop in an append, with a prefix of the records appended, leaves faithful stores.
pub fn sinks_may_end()
    ensures { SinksMayEnd }
{}

/// A stop in a store, with the next offset stored, leaves faithful stores.
pub fn stores_may_end()
    ensures { StoresMayEnd }
{}

/// A stop within a transaction, with a part of its records appended, leaves faithful stores.
pub fn parts_may_be_left()
    ensures { PartsMayBeLeft }
{}

/// No transaction is open once every commit of the history was read.
pub fn read_histories_are_closed()
    ensures { ReadHistoriesAreClosed }
{}

/// A session writes two watermarks for each window, and reads no more windows than its tables have
/// rows for.
pub fn few_marks_are_written()
    ensures { FewMarksAreWritten }
{}

/// If every commit was read, no window is waiting.
pub fn windows_are_read()
    ensures { WindowsAreRead }
{}

/// A session that has read every commit and finished every table is complete.
pub fn read_sessions_are_complete()
    ensures { ReadSessionsAreComplete }
{}
