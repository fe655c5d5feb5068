//! What aged cells mean for whole rows.
ghost use Rattle.dbl_consume_laws.specs.RowLaws.{LackedRowsWereAbsent, UnknownRowsWereThere};
ghost use Rattle.dbl_consume_laws.specs.RowLaws.{KnownCellsWereSo, EventsKeepNames};
ghost use Rattle.dbl_consume_laws.specs.RowLaws.{SnapshotsKeepNames, NoRecordsAreNamed};
ghost use Rattle.dbl_consume_laws.specs.RowLaws.{RecordsOfHistoriesAreNamed};
ghost use Rattle.dbl_consume_laws.specs.RowLaws.{RecordsOfHistoriesAgree};

/// A known key without a row, or with an unknown cell, had no row at some point of the span.
pub fn lacked_rows_were_absent()
    ensures { LackedRowsWereAbsent }
{}

/// A row with an unknown cell existed at some point of the span.
pub fn unknown_rows_were_there()
    ensures { UnknownRowsWereThere }
{}

/// A known cell of a consumer was the source's at some point of the span.
pub fn known_cells_were_so()
    ensures { KnownCellsWereSo }
{}

/// With a commit's records each row of a consumer stays named.
pub fn events_keep_names()
    ensures { EventsKeepNames }
{}

/// With a prefix of a snapshot's records each row of a consumer stays named.
pub fn snapshots_keep_names()
    ensures { SnapshotsKeepNames }
{}

/// A consumer of no records has no row.
pub fn no_records_are_named()
    ensures { NoRecordsAreNamed }
{}

/// If each record is of a valid history or of a window, each row of a consumer is named.
pub fn records_of_histories_are_named()
    ensures { RecordsOfHistoriesAreNamed }
{}

/// If such records are aged at a point and reach no later one, a consumer has the source's row at
/// each known key.
pub fn records_of_histories_agree()
    ensures { RecordsOfHistoriesAgree }
{}
