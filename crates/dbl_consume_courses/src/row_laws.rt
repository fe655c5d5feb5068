//! The rows that a consumer of a whole log has of a table that may be altered.
ghost use Rattle.dbl_consume_courses.specs.KeyRows.{NoRecordsHaveRowsOfKeys};
ghost use Rattle.dbl_consume_courses.specs.KeyRows.{PartsOfCommitsKeepRowsOfKeys};
ghost use Rattle.dbl_consume_courses.specs.KeyRows.{PartsOfSnapshotsKeepRowsOfKeys};
ghost use Rattle.dbl_consume_courses.specs.KeyRows.{AlteredTablesHaveRows};
ghost use Rattle.dbl_consume_courses.specs.Agreement.{AlteredTablesAgree};

/// A consumer of no records has no row of a key.
pub fn no_records_have_rows_of_keys()
    ensures { NoRecordsHaveRowsOfKeys }
{}

/// A prefix of a commit's records leaves each row of a table at one of its keys.
pub fn parts_of_commits_keep_rows_of_keys()
    ensures { PartsOfCommitsKeepRowsOfKeys }
{}

/// A prefix of a window's records leaves each row of a table at one of its keys.
pub fn parts_of_snapshots_keep_rows_of_keys()
    ensures { PartsOfSnapshotsKeepRowsOfKeys }
{}

/// At a known key without a whole change in the span, a consumer has a row exactly if the source has
/// one at its end.
pub fn altered_tables_have_rows()
    ensures { AlteredTablesHaveRows }
{}

/// A consumer of a log that is aged from its last position has exactly the source's rows there, at
/// the known keys.
pub fn altered_tables_agree()
    ensures { AlteredTablesAgree }
{}
