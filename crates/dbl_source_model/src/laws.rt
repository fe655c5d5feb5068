//! Theorems about histories that grow, and about what is read of them, as contracts of empty
//! functions.

ghost use Rattle.dbl_source_model.specs.Laws.{GrownHistoriesGrow, GrownHistoriesKeepRows};
ghost use Rattle.dbl_source_model.specs.Laws.{RowsUpToAreRows, OthersWriteNoMark};
ghost use Rattle.dbl_source_model.specs.Laws.{MarksAreWrittenOnce, FailedMarksMayStand};
ghost use Rattle.dbl_source_model.specs.Laws.{ReadMessagesAreBlocks, HistoriesPartAtAnLsn};
ghost use Rattle.dbl_source_model.specs.Laws.{ReadersGoOn, AllReadIsAllStated};
ghost use Rattle.dbl_source_model.specs.Laws.{AnswersAtAPlaceAreOne, NoRowsBeforeTheFirstCommit};
ghost use Rattle.dbl_source_model.specs.Laws.{RowsOfNoPlaceAreUnanswered, StandingRowsAreAnswered};
ghost use Rattle.dbl_source_model.specs.Laws.{ValidHistoriesKeepTables};
ghost use Rattle.dbl_source_model.specs.Laws.{StatedCommitsAreInForce};
ghost use Rattle.dbl_source_model.specs.Laws.{UnalteredTablesAreReadPlainly};
ghost use Rattle.dbl_source_model.specs.Laws.{UnalteredTablesAreAllRead, OwnColumnsAreReadRight};

/// Growth of a history is transitive.
pub fn grown_histories_grow()
    ensures { GrownHistoriesGrow }
{}

/// The rows at a position stay as they are when the history grows.
pub fn grown_histories_keep_rows()
    ensures { GrownHistoriesKeepRows }
{}

/// The rows after some number of commits are those at the point of the history after them.
pub fn rows_up_to_are_rows()
    ensures { RowsUpToAreRows }
{}

/// Other sessions add no watermark to a history.
pub fn others_write_no_mark()
    ensures { OthersWriteNoMark }
{}

/// Writing a watermark adds exactly this one to a history.
pub fn marks_are_written_once()
    ensures { MarksAreWrittenOnce }
{}

/// A failed write may leave its watermark once or not at all; a call that only reads leaves none.
pub fn failed_marks_may_stand()
    ensures { FailedMarksMayStand }
{}

/// Correctly read messages without an error are transactions that state the first commits, and
/// possibly an unfinished one.
pub fn read_messages_are_blocks()
    ensures { ReadMessagesAreBlocks }
{}

/// The commits after an LSN are the last ones of a history, and those before them are the ones up
/// to it.
pub fn histories_part_at_an_lsn()
    ensures { HistoriesPartAtAnLsn }
{}

/// Correctly read messages stay correct when the history grows.
pub fn readers_go_on()
    ensures { ReadersGoOn }
{}

/// A reader that has read all has read every commit that existed at the call.
pub fn all_read_is_all_stated()
    ensures { AllReadIsAllStated }
{}

/// Correct messages without an error state commits that are read in the columns in force.
pub fn stated_commits_are_in_force()
    ensures { StatedCommitsAreInForce }
{}

/// If no commit alters a table, messages that are correct in the columns of the last Relations are
/// correct in those of the catalogue.
pub fn unaltered_tables_are_read_plainly()
    ensures { UnalteredTablesAreReadPlainly }
{}

/// If no commit alters a table and all was read, all was read of messages without an error in the
/// columns of the catalogue.
pub fn unaltered_tables_are_all_read()
    ensures { UnalteredTablesAreAllRead }
{}

/// If no commit alters a table and each Relation has its table's own columns, messages that are
/// correct in the columns of the catalogue are correct in those of the last Relations.
pub fn own_columns_are_read_right()
    ensures { OwnColumnsAreReadRight }
{}

/// In a valid history each table stays as the catalogue has it before all commits: no commit alters
/// one.
pub fn valid_histories_keep_tables()
    ensures { ValidHistoriesKeepTables }
{}

/// At one position a select has only one correct answer, so that rows of two positions are none.
pub fn answers_at_a_place_are_one()
    ensures { AnswersAtAPlaceAreOne }
{}

/// Before the first commit no answer with a row of a captured table is correct.
pub fn no_rows_before_the_first_commit()
    ensures { NoRowsBeforeTheFirstCommit }
{}

/// A key without a row at every position between the call and the return has none in a correct
/// answer.
pub fn rows_of_no_place_are_unanswered()
    ensures { RowsOfNoPlaceAreUnanswered }
{}

/// A key with the same row at every position between the call and the return has it in a correct
/// answer that extends so far.
pub fn standing_rows_are_answered()
    ensures { StandingRowsAreAnswered }
{}
