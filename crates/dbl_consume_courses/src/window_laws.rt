//! The age of a log in all tables as a window is delivered.
ghost use Rattle.dbl_consume_courses.specs.OtherWindows.{OtherWindowsKeepTableAge};
ghost use Rattle.dbl_consume_courses.specs.OtherWindows.{PartsOfSnapshotsKeepAgesBetween};

/// A prefix of the records of another table's window leaves a log of an altered table aged.
pub fn other_windows_keep_table_age()
    ensures { OtherWindowsKeepTableAge }
{}

/// A prefix of the records of a right window leaves a log aged between two positions.
pub fn parts_of_snapshots_keep_ages_between()
    ensures { PartsOfSnapshotsKeepAgesBetween }
{}
