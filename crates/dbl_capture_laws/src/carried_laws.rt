//! What a session keeps from step to step, and what its report says at its end: theorems, as
//! contracts of empty functions.

ghost use Rattle.dbl_capture_laws.specs.Carried.{CommitsLeaveItRead, EndsAreStood, EndsAreTold};
ghost use Rattle.dbl_capture_laws.specs.Carried.{HaltsAtMessagesAreStood, HaltsAtMessagesAreTold};
ghost use Rattle.dbl_capture_laws.specs.Carried.{HaltsBetweenAreStood, HaltsBetweenAreTold};
ghost use Rattle.dbl_capture_laws.specs.Carried.{HaltsUnreadAreStood, HaltsUnreadAreTold};
ghost use Rattle.dbl_capture_laws.specs.Carried.{MessagesLetItRest, SessionsBeginAtRest};
ghost use Rattle.dbl_capture_laws.specs.Carried.{StoresLetItRest, WindowsLetItRest};

/// A session begins between two messages, with none read.
pub fn sessions_begin_at_rest()
    ensures { SessionsBeginAtRest }
{}

/// A session that has read a window is between two messages.
pub fn windows_let_it_rest()
    ensures { WindowsLetItRest }
{}

/// A session that has read a message without a commit is between two messages.
pub fn messages_let_it_rest()
    ensures { MessagesLetItRest }
{}

/// A session that has followed a commit is between two messages, unless the commit closes a window.
pub fn commits_leave_it_read()
    ensures { CommitsLeaveItRead }
{}

/// A session that has stored an offset after a commit is between two messages.
pub fn stores_let_it_rest()
    ensures { StoresLetItRest }
{}

/// A stop before reading counts no message, by the source's trace.
pub fn halts_unread_are_told()
    ensures { HaltsUnreadAreTold }
{}

/// A stop before reading counts no message, by the source's state.
pub fn halts_unread_are_stood()
    ensures { HaltsUnreadAreStood }
{}

/// A stop between two messages counts all that was read, by the source's trace.
pub fn halts_between_are_told()
    ensures { HaltsBetweenAreTold }
{}

/// A stop between two messages counts all that was read, by the source's state.
pub fn halts_between_are_stood()
    ensures { HaltsBetweenAreStood }
{}

/// A stop at the newest message counts all others, with the required error, by the source's trace.
pub fn halts_at_messages_are_told()
    ensures { HaltsAtMessagesAreTold }
{}

/// A stop at the newest message counts all others, with the required error, by the source's state.
pub fn halts_at_messages_are_stood()
    ensures { HaltsAtMessagesAreStood }
{}

/// A normal end counts all that was read, and no message requires an error, by the source's trace.
pub fn ends_are_told()
    ensures { EndsAreTold }
{}

/// A normal end counts all that was read, and its offset is confirmed, by the source's state.
pub fn ends_are_stood()
    ensures { EndsAreStood }
{}
