//! The age of an altered table in its course, in the cells of the whole log and in its rows.
ghost use Rattle.dbl_consume_courses.specs.TableAges.{PartsOfCommitsKeepTableAge};
ghost use Rattle.dbl_consume_courses.specs.TableAges.{CommitsMoveTableAge};
ghost use Rattle.dbl_consume_courses.specs.TableAges.{PartsOfSnapshotsKeepTableAge};
ghost use Rattle.dbl_consume_courses.specs.TableAges.{TableAgeGoesBack};
ghost use Rattle.dbl_consume_courses.specs.TableAges.{TableAgeStaysAsCoursesGrow};
ghost use Rattle.dbl_consume_courses.specs.TableAges.{TableAgeStaysAsHistoriesGrow};
ghost use Rattle.dbl_consume_courses.specs.TableAges.{AlterationsMoveTableAge};
ghost use Rattle.dbl_consume_courses.specs.TableAges.{PartsOfRepeatsKeepTableAge};
ghost use Rattle.dbl_consume_courses.specs.TableAges.{RepeatsMoveTableAge};
ghost use Rattle.dbl_consume_courses.specs.TableAges.{VersionsReachTheirTop};

/// A prefix of the next commit's records leaves a log of an altered table aged.
pub fn parts_of_commits_keep_table_age()
    ensures { PartsOfCommitsKeepTableAge }
{}

/// With all records of the next commit, a log of an altered table is aged from the commit on.
pub fn commits_move_table_age()
    ensures { CommitsMoveTableAge }
{}

/// A prefix of the records of a right window leaves a log of an altered table aged.
pub fn parts_of_snapshots_keep_table_age()
    ensures { PartsOfSnapshotsKeepTableAge }
{}

/// A log of an altered table that is aged from a position is so from each earlier one.
pub fn table_age_goes_back()
    ensures { TableAgeGoesBack }
{}

/// A course that goes further leaves a log of its table aged.
pub fn table_age_stays_as_courses_grow()
    ensures { TableAgeStaysAsCoursesGrow }
{}

/// Later commits leave a log of an altered table aged.
pub fn table_age_stays_as_histories_grow()
    ensures { TableAgeStaysAsHistoriesGrow }
{}

/// After an alteration, a log is aged in the course that begins there.
pub fn alterations_move_table_age()
    ensures { AlterationsMoveTableAge }
{}

/// A prefix of the records of a commit before a table's course leaves a log aged in it.
pub fn parts_of_repeats_keep_table_age()
    ensures { PartsOfRepeatsKeepTableAge }
{}

/// With all records of a commit before a table's course, a log is aged in it from the commit on.
pub fn repeats_move_table_age()
    ensures { RepeatsMoveTableAge }
{}

/// Records reach exactly the point of their greatest log position.
pub fn versions_reach_their_top()
    ensures { VersionsReachTheirTop }
{}
