//! Theorems about logs, about their histories and about what is read of them, as contracts of empty
//! functions.

ghost use Rattle.dbl_source_log.specs.Laws.{ChangesStateThemselves, FitLogsHaveFitHistories};
ghost use Rattle.dbl_source_log.specs.Laws.{FitLogsHaveTheirRows, FairLogsAreReadRight};
ghost use Rattle.dbl_source_log.specs.Laws.{ReadersAtTheEndHaveReadAll, ReadMessagesStay};
ghost use Rattle.dbl_source_log.specs.Laws.{LogsThatGrowHaveHistoriesThatGrow};
ghost use Rattle.dbl_source_log.specs.Laws.{ReadersReadWhatIsSent, SentMessagesStay};
ghost use Rattle.dbl_source_log.specs.Laws.{EntriesAreOfTables};

/// A change message without an error states the changes that the history has for it.
pub fn changes_state_themselves()
    ensures { ChangesStateThemselves }
{}

/// A log whose changes are valid, key by key and as texts, has a valid history, for any captured
/// tables.
pub fn fit_logs_have_fit_histories()
    ensures { FitLogsHaveFitHistories }
{}

/// The rows of such a log, read as values, are its history's.
pub fn fit_logs_have_their_rows()
    ensures { FitLogsHaveTheirRows }
{}

/// The messages that a reader of a fair log has read are correct, at any position.
pub fn fair_logs_are_read_right()
    ensures { FairLogsAreReadRight }
{}

/// A reader at the end of a fair log has read all commits after its start.
pub fn readers_at_the_end_have_read_all()
    ensures { ReadersAtTheEndHaveReadAll }
{}

/// The messages read up to a position stay the same when the log grows.
pub fn read_messages_stay()
    ensures { ReadMessagesStay }
{}

/// If other sessions' commits are appended to a log, its history grows by them.
pub fn logs_that_grow_have_histories_that_grow()
    ensures { LogsThatGrowHaveHistoriesThatGrow }
{}

/// After some commits of a log its history has the catalogue of the tables after these commits.
pub fn entries_are_of_tables()
    ensures { EntriesAreOfTables }
{}

/// The messages that a reader has read are a prefix of those that are sent.
pub fn readers_read_what_is_sent()
    ensures { ReadersReadWhatIsSent }
{}

/// The messages sent of a log are a prefix of those sent after it grows.
pub fn sent_messages_stay()
    ensures { SentMessagesStay }
{}
