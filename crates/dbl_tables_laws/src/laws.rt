//! Theorems about steps. The functions do nothing: their contracts are the theorems.

ghost use Rattle.dbl_tables_laws.specs.Laws.{LocksAreApart, OpenChangesAreFit, SerialRunsAreFit};
ghost use Rattle.dbl_tables_laws.specs.Laws.{SerialRunsAreFair, SentChangesMoveAtMost};
ghost use Rattle.dbl_tables_laws.specs.Laws.{StepsArePrivate, CommitsShowWhatWasSeen};
ghost use Rattle.dbl_tables_laws.specs.Laws.{RollbacksLeaveNothing, HeldRowsStay};
ghost use Rattle.dbl_tables_laws.specs.Laws.{StepsShowTheirRows, FirstRowsAreOneList};

/// No two sessions have locked one key.
pub fn locks_are_apart()
    ensures { LocksAreApart }
{}

/// The changes of open sessions are valid for the committed rows, whichever other sessions are
/// open.
pub fn open_changes_are_fit()
    ensures { OpenChangesAreFit }
{}

/// The serial run of all steps is a log whose changes are valid.
pub fn serial_runs_are_fit()
    ensures { SerialRunsAreFit }
{}

/// A reader of the serial run of all steps reads it correctly.
pub fn serial_runs_are_fair()
    ensures { SerialRunsAreFair }
{}

/// The messages of sessions and of commits have no error but a moved key with an unsent cell.
pub fn sent_changes_move_at_most()
    ensures { SentChangesMoveAtMost }
{}

/// A step commits nothing, and no other session sees its effect.
pub fn steps_are_private()
    ensures { StepsArePrivate }
{}

/// What a session sees is what is committed once it commits.
pub fn commits_show_what_was_seen()
    ensures { CommitsShowWhatWasSeen }
{}

/// A rollback leaves no effect.
pub fn rollbacks_leave_nothing()
    ensures { RollbacksLeaveNothing }
{}

/// The rows that a session has locked stay as it sees them when another session commits.
pub fn held_rows_stay()
    ensures { HeldRowsStay }
{}

/// A session sees the rows that its step writes, and otherwise what it saw before.
pub fn steps_show_their_rows()
    ensures { StepsShowTheirRows }
{}

/// A select shows at most one list of rows.
pub fn first_rows_are_one_list()
    ensures { FirstRowsAreOneList }
{}
