ghost use Rattle.dblog_laws.specs.Pipe.{LastRowsAreApplied};
ghost use Rattle.dblog_laws.specs.Example.{WholeLogsStand};

/// `apply --lines` accepts every line that `replay` writes for a whole log, and prints the source's
/// last rows.
pub fn last_rows_are_applied()
    ensures { LastRowsAreApplied }
{}

/// A whole log with a row in it exists.
pub fn whole_logs_stand()
    ensures { WholeLogsStand }
{}
