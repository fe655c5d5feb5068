//! Theorems about exact logs and right snapshots.
ghost use Rattle.dbl_faithful.specs.Controls.{CellsMissEmptyRows, TornWindowsAreSpoilt};
ghost use Rattle.dbl_faithful.specs.ExactLaws.{NewsAreFresh, NewsRise, ExactLogsHaveOneCount};
ghost use Rattle.dbl_faithful.specs.ExactLaws.{RepeatsAreEarlier, GapsSpoilExactLogs};
ghost use Rattle.dbl_faithful.specs.CaughtUpLaws.{PositionsEndOnce, SnapshotRowsOverwriteNothing};
ghost use Rattle.dbl_faithful.specs.CaughtUpLaws.{CompleteLogsAreImages};
ghost use Rattle.dbl_faithful.specs.TornExample.{TornWindowsStand};

/// The news of a log are its fresh records of changes.
pub fn news_are_fresh()
    ensures { NewsAreFresh }
{}

/// The news are in the order of their positions, each once.
pub fn news_rise()
    ensures { NewsRise }
{}

/// The number of events of an exact log is unique.
pub fn exact_logs_have_one_count()
    ensures { ExactLogsHaveOneCount }
{}

/// A record of a change that isn't fresh equals an earlier one except for the time when it was
/// made.
pub fn repeats_are_earlier()
    ensures { RepeatsAreEarlier }
{}

/// An event that is missing before a record of a later position can't be added to an exact log.
pub fn gaps_spoil_exact_logs()
    ensures { GapsSpoilExactLogs }
{}

/// A position ends at most one list of a history's first commits.
pub fn positions_end_once()
    ensures { PositionsEndOnce }
{}

/// No row of a snapshot overwrites a later change.
pub fn snapshot_rows_overwrite_nothing()
    ensures { SnapshotRowsOverwriteNothing }
{}

/// If every snapshot is done, a consumer of a delivered log has the source's tables.
pub fn complete_logs_are_images()
    ensures { CompleteLogsAreImages }
{}

/// The cells of a row without cells don't differ from those of no row.
pub fn cells_miss_empty_rows()
    ensures { CellsMissEmptyRows }
{}

/// A log with a row of a window but without an earlier event can satisfy all else, and can't be
/// made exact again.
pub fn torn_windows_are_spoilt()
    ensures { TornWindowsAreSpoilt }
{}

/// A log with a torn window exists.
pub fn torn_windows_stand()
    ensures { TornWindowsStand }
{}
