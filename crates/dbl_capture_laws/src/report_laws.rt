//! What a session's report says: theorems, as contracts of empty functions.

ghost use Rattle.dbl_capture_laws.specs.Followed.{EndsStandAtLast, HaltsAtMessages, HaltsBetween};
ghost use Rattle.dbl_capture_laws.specs.Followed.{MessagesAreTaken, SessionsBeginUnread};
ghost use Rattle.dbl_capture_laws.specs.Followed.{SourcesSettle, SourcesStandAfter, SourcesStoodSo};
ghost use Rattle.dbl_capture_laws.specs.Followed.{StoodAreFollowed, StopsAreFollowed};
ghost use Rattle.dbl_capture_laws.specs.Gained.{CommitsAreSent, PutsAreCounted};
ghost use Rattle.dbl_capture_laws.specs.Gained.{StatedCommitsAreInRange};

/// The records of a commit that is followed come after those of all commits before it, and begin a
/// new batch.
pub fn commits_are_sent()
    ensures { CommitsAreSent }
{}

/// A commit that messages state has its numbers and texts in range.
pub fn stated_commits_are_in_range()
    ensures { StatedCommitsAreInRange }
{}

/// The appended records are counted, within 64 bits.
pub fn puts_are_counted()
    ensures { PutsAreCounted }
{}

/// A session begins with nothing read.
pub fn sessions_begin_unread()
    ensures { SessionsBeginUnread }
{}

/// One message more is taken, by the source's trace.
pub fn messages_are_taken()
    ensures { MessagesAreTaken }
{}

/// One message more is taken, by the source's state.
pub fn sources_stand_after()
    ensures { SourcesStandAfter }
{}

/// A stop between two messages has followed all that was read.
pub fn halts_between()
    ensures { HaltsBetween }
{}

/// A stop at a message has followed all before it, or perhaps it too if memory ran out.
pub fn halts_at_messages()
    ensures { HaltsAtMessages }
{}

/// A stop has followed all but at most the newest message, by the source's state.
pub fn sources_stood_so()
    ensures { SourcesStoodSo }
{}

/// A stop's report counts what was followed and read, by the source's trace.
pub fn stops_are_followed()
    ensures { StopsAreFollowed }
{}

/// A stop's report counts what was followed and read, by the source's state.
pub fn stood_are_followed()
    ensures { StoodAreFollowed }
{}

/// A normal end has stored the last commit that was read, by the source's trace.
pub fn ends_stand_at_last()
    ensures { EndsStandAtLast }
{}

/// A normal end has stored and confirmed the last commit that was read, by the source's state.
pub fn sources_settle()
    ensures { SourcesSettle }
{}
