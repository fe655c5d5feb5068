//! Theorems on one session that begins with what others left, as contracts of empty functions.

ghost use Rattle.dblog_promise.specs.RestartLaws.{FaithfulEntriesAreKnown, StoredOffsetsBeginAgain};
ghost use Rattle.dblog_promise.specs.RestartLaws.{RunsKeepGoing, StopsFollow, RepeatsAreCounted};
ghost use Rattle.dblog_promise.specs.RestartLaws.{FewCommitsAreReadAgain, OldMarksAreOthers};
ghost use Rattle.dblog_promise.specs.RestartLaws.{OldMarksDoNothing};

/// A session that finds faithful stores finds what its guarantees require.
pub fn faithful_entries_are_known()
    ensures { FaithfulEntriesAreKnown }
{}

/// A session may begin with each stored offset whose incarnation can still be raised.
pub fn stored_offsets_begin_again()
    ensures { StoredOffsetsBeginAgain }
{}

/// A session keeps its invariant at each stage.
pub fn runs_keep_going()
    ensures { RunsKeepGoing }
{}

/// At any point where a session stops, it leaves faithful stores that extend those it found.
pub fn stops_follow()
    ensures { StopsFollow }
{}

/// A session redelivers only commits that the lag counts.
pub fn repeats_are_counted()
    ensures { RepeatsAreCounted }
{}

/// A session reads no more commits for a second time than the lag counts.
pub fn few_commits_are_read_again()
    ensures { FewCommitsAreReadAgain }
{}

/// No watermark that a session finds has the text of one of its own.
pub fn old_marks_are_others()
    ensures { OldMarksAreOthers }
{}

/// No watermark that a session finds opens or closes one of its windows.
pub fn old_marks_do_nothing()
    ensures { OldMarksDoNothing }
{}
