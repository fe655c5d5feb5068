//! How stale the cells of a consumer may be as records are delivered to it.
ghost use Rattle.dbl_consume_laws.specs.ChangeLaws.{RecordsOfAChangeKeepAge};
ghost use Rattle.dbl_consume_laws.specs.ChangeLaws.{PartsOfCommitsKeepAge, ChangesMoveAge};
ghost use Rattle.dbl_consume_laws.specs.ChangeLaws.{CommitsMoveAge, SilentCommitsMoveAge};
ghost use Rattle.dbl_consume_laws.specs.ChangeLaws.{AgeGoesBack, AgeStaysAsHistoriesGrow};
ghost use Rattle.dbl_consume_laws.specs.SnapshotLaws.{PartsOfSnapshotsKeepAge};
ghost use Rattle.dbl_consume_laws.specs.SnapshotLaws.{AgedCellsAgree, AgedRecordsAgree};
ghost use Rattle.dbl_consume_laws.specs.RowLaws.{NoRecordsAreAged};

/// Some records of the next change leave records aged.
pub fn records_of_a_change_keep_age()
    ensures { RecordsOfAChangeKeepAge }
{}

/// A prefix of the next commit's records leaves records aged.
pub fn parts_of_commits_keep_age()
    ensures { PartsOfCommitsKeepAge }
{}

/// With all records of a change, records are aged just after it.
pub fn changes_move_age()
    ensures { ChangesMoveAge }
{}

/// With all records of a commit, records are aged after it.
pub fn commits_move_age()
    ensures { CommitsMoveAge }
{}

/// Records stay aged after a commit without records, as that of a watermark.
pub fn silent_commits_move_age()
    ensures { SilentCommitsMoveAge }
{}

/// Records aged at a point in the history are aged at each earlier one.
pub fn age_goes_back()
    ensures { AgeGoesBack }
{}

/// An extension of the history leaves records aged.
pub fn age_stays_as_histories_grow()
    ensures { AgeStaysAsHistoriesGrow }
{}

/// A prefix of the records of a right window leaves records aged at its high watermark.
pub fn parts_of_snapshots_keep_age()
    ensures { PartsOfSnapshotsKeepAge }
{}

/// If aged records reach no later point, each cell of a known key is the source's, and none is
/// unknown.
pub fn aged_cells_agree()
    ensures { AgedCellsAgree }
{}

/// A consumer of such records has the source's row of this point at each known key if its rows are
/// named, since the cells of a row without cells don't differ from those of no row.
pub fn aged_records_agree()
    ensures { AgedRecordsAgree }
{}

/// The empty list of records is aged at the start.
pub fn no_records_are_aged()
    ensures { NoRecordsAreAged }
{}
