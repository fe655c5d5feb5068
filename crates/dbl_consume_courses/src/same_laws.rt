//! A whole log of an altered table, and the log since the table's last alteration.
ghost use Rattle.dbl_consume_courses.specs.SameCells.{NewCoursesHaveSameCells};
ghost use Rattle.dbl_consume_courses.specs.SameCells.{PartsOfCommitsKeepSameCells};
ghost use Rattle.dbl_consume_courses.specs.SameCells.{CommitsMoveSameCells};
ghost use Rattle.dbl_consume_courses.specs.SameCells.{PartsOfSnapshotsKeepSameCells};
ghost use Rattle.dbl_consume_courses.specs.SameCells.{SameCellsStayAsHistoriesGrow};

/// Where a course begins, no key is known at which two cells could differ.
pub fn new_courses_have_same_cells()
    ensures { NewCoursesHaveSameCells }
{}

/// A prefix of a commit's records leaves a log with the same cells.
pub fn parts_of_commits_keep_same_cells()
    ensures { PartsOfCommitsKeepSameCells }
{}

/// All records of a commit leave a log with the same cells at the point after it.
pub fn commits_move_same_cells()
    ensures { CommitsMoveSameCells }
{}

/// A prefix of the records of a right window leaves a log with the same cells.
pub fn parts_of_snapshots_keep_same_cells()
    ensures { PartsOfSnapshotsKeepSameCells }
{}

/// An extension of the history that doesn't alter the table leaves a log with the same cells.
pub fn same_cells_stay_as_histories_grow()
    ensures { SameCellsStayAsHistoriesGrow }
{}
