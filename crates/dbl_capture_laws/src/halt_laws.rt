//! Why a session stops with an error: theorems, as contracts of empty functions.

ghost use Rattle.dbl_capture_laws.specs.Underway.{BytesHalt, MarksAreMissed, MessagesHalt};
ghost use Rattle.dbl_capture_laws.specs.Underway.{NewestMessagesHalt, OffsetsHalt};
ghost use Rattle.dbl_capture_laws.specs.Underway.{SessionsHaltUnread, SourcesStoodAtHalts};
ghost use Rattle.dbl_capture_laws.specs.Underway.{SourcesStoodAtOffsets};
ghost use Rattle.dbl_capture_laws.specs.Underway.{StepsMoveOneCursor, StepsOpenWindows};
ghost use Rattle.dbl_capture_laws.specs.Underway.{TakenMessagesAskNothing, WindowsHalt};

/// The causes of errors before reading: what the session found, a description, a first offset that
/// is too long, a log that is gone, out of memory, or a failed source or store.
pub fn sessions_halt_unread()
    ensures { SessionsHaltUnread }
{}

/// A window opens only at its low watermark, and is open until its high watermark.
pub fn steps_open_windows()
    ensures { StepsOpenWindows }
{}

/// Following a commit moves no cursor but that of the first unfinished table.
pub fn steps_move_one_cursor()
    ensures { StepsMoveOneCursor }
{}

/// The cause of an error for the rows of a window.
pub fn windows_halt()
    ensures { WindowsHalt }
{}

/// The cause of an error for malformed bytes.
pub fn bytes_halt()
    ensures { BytesHalt }
{}

/// The cause of an error for the newest message or its commit, by the source's trace.
pub fn messages_halt()
    ensures { MessagesHalt }
{}

/// The cause of an error for the newest message or its commit, by the source's state.
pub fn sources_stood_at_halts()
    ensures { SourcesStoodAtHalts }
{}

/// The cause of an error for a missing watermark.
pub fn marks_are_missed()
    ensures { MarksAreMissed }
{}

/// The cause of an error for an offset that is too long, by the source's trace.
pub fn offsets_halt()
    ensures { OffsetsHalt }
{}

/// The cause of an error for an offset that is too long, by the source's state.
pub fn sources_stood_at_offsets()
    ensures { SourcesStoodAtOffsets }
{}

/// Messages that were taken and followed require no error.
pub fn taken_messages_ask_nothing()
    ensures { TakenMessagesAskNothing }
{}

/// A stop at the newest message returns the required error, unless memory ran out or, before a long
/// record, the sink failed.
pub fn newest_messages_halt()
    ensures { NewestMessagesHalt }
{}
