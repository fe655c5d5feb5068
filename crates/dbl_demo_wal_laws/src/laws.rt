//! Theorems, as contracts of empty functions.

ghost use Rattle.dbl_demo_wal_laws.specs.Moved.{TransactionsOfWalsMoveAtMost};
ghost use Rattle.dbl_demo_wal_laws.specs.Readable.{RowsOfWalsAreReadable};

/// In the log of a workload no row of a captured table ever has a cell that parses as no value.
pub fn rows_of_wals_are_readable()
    ensures { RowsOfWalsAreReadable }
{}

/// The first error of the messages that the log of a workload is sent as is an update that moves a
/// key and leaves a cell unsent.
pub fn transactions_of_wals_move_at_most()
    ensures { TransactionsOfWalsMoveAtMost }
{}
