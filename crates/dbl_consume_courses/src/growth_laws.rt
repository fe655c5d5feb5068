//! The staleness of a table's cells in its course, as records are delivered.
ghost use Rattle.dbl_consume_courses.specs.Growth.{PartsOfCommitsKeepOwnAge, CommitsMoveOwnAge};
ghost use Rattle.dbl_consume_courses.specs.Growth.{PartsOfSnapshotsKeepOwnAge};
ghost use Rattle.dbl_consume_courses.specs.Growth.{OwnAgeGoesBack, OwnAgeStaysAsHistoriesGrow};

/// A prefix of the next commit's records leaves records aged in a course.
pub fn parts_of_commits_keep_own_age()
    ensures { PartsOfCommitsKeepOwnAge }
{}

/// With all records of a commit, records are aged after it in a course.
pub fn commits_move_own_age()
    ensures { CommitsMoveOwnAge }
{}

/// A prefix of the records of a right window leaves records aged in a course at its high
/// watermark.
pub fn parts_of_snapshots_keep_own_age()
    ensures { PartsOfSnapshotsKeepOwnAge }
{}

/// Records aged at a point of a course are aged at each earlier one.
pub fn own_age_goes_back()
    ensures { OwnAgeGoesBack }
{}

/// An extension of the history that doesn't alter the table leaves records aged in its course.
pub fn own_age_stays_as_histories_grow()
    ensures { OwnAgeStaysAsHistoriesGrow }
{}
