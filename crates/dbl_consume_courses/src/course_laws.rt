//! The course of a table, in which it isn't altered.
ghost use Rattle.dbl_consume_courses.specs.Courses.{CoursesGoOn, CoursesBeginAnew};
ghost use Rattle.dbl_consume_courses.specs.Courses.{CoursesHaveInfos, CoursesShowRows};
ghost use Rattle.dbl_consume_courses.specs.CoursePoints.{PointsOfCoursesArePoints};
ghost use Rattle.dbl_consume_courses.specs.Example.{AlteredTablesStand, AgedTablesStand};
ghost use Rattle.dbl_consume_courses.specs.Example.{VersionStoresStand};

/// A course goes on by each commit that doesn't alter its table.
pub fn courses_go_on()
    ensures { CoursesGoOn }
{}

/// After an alteration a course has nothing of what was before it.
pub fn courses_begin_anew()
    ensures { CoursesBeginAnew }
{}

/// At the end of a course the captured tables are those of the history.
pub fn courses_have_infos()
    ensures { CoursesHaveInfos }
{}

/// A course shows the rows that its table has in the history.
pub fn courses_show_rows()
    ensures { CoursesShowRows }
{}

/// Each point of a span of a course has the table's rows of a point of the history's span.
pub fn points_of_courses_are_points()
    ensures { PointsOfCoursesArePoints }
{}

/// There is a history with an alteration that satisfies what these theorems require.
pub fn altered_tables_stand()
    ensures { AlteredTablesStand }
{}

/// The same history satisfies what the theorems on the age of an altered table require.
pub fn aged_tables_stand()
    ensures { AgedTablesStand }
{}

/// With a watermark after it, the same history satisfies what the theorems on windows and progress
/// require.
pub fn version_stores_stand()
    ensures { VersionStoresStand }
{}
