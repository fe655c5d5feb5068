//! The rows of a consumer of a whole log, and those of the source within a span.
ghost use Rattle.dbl_consume_courses.specs.RowsThere.{NoRecordsHaveRows};
ghost use Rattle.dbl_consume_courses.specs.RowsThere.{PartsOfCommitsKeepRowsThere};
ghost use Rattle.dbl_consume_courses.specs.RowsThere.{CommitsMoveRowsThere};
ghost use Rattle.dbl_consume_courses.specs.RowsThere.{PartsOfSnapshotsKeepRowsThere};
ghost use Rattle.dbl_consume_courses.specs.RowsThere.{RowsThereGoBack};
ghost use Rattle.dbl_consume_courses.specs.RowsThere.{RowsThereStayAsHistoriesGrow};

/// A consumer of no records has no row.
pub fn no_records_have_rows()
    ensures { NoRecordsHaveRows }
{}

/// A prefix of a commit's records leaves each row of a consumer one that was in the source.
pub fn parts_of_commits_keep_rows_there()
    ensures { PartsOfCommitsKeepRowsThere }
{}

/// With all records of a commit, each row of a consumer was in the source from after the commit on.
pub fn commits_move_rows_there()
    ensures { CommitsMoveRowsThere }
{}

/// A prefix of a window's records leaves each row of a consumer one that was in the source, if the
/// window's rows are there at its high watermark.
pub fn parts_of_snapshots_keep_rows_there()
    ensures { PartsOfSnapshotsKeepRowsThere }
{}

/// Rows that were in the source from a point on were so from each earlier one on.
pub fn rows_there_go_back()
    ensures { RowsThereGoBack }
{}

/// Later commits leave each row of a consumer one that was in the source.
pub fn rows_there_stay_as_histories_grow()
    ensures { RowsThereStayAsHistoriesGrow }
{}
