//! Right windows and right progress where tables may be altered.
ghost use Rattle.dbl_consume_courses.specs.VersionStores.{WindowsAreOfCourses};
ghost use Rattle.dbl_consume_courses.specs.VersionStores.{PlainVersionsHavePlainRows};
ghost use Rattle.dbl_consume_courses.specs.VersionStores.{CursorsAreOfCourses};
ghost use Rattle.dbl_consume_courses.specs.VersionStores.{UnalteredTablesHaveVersionOne};

/// The rows of a right window are those of its table's course at the window's high watermark.
pub fn windows_are_of_courses()
    ensures { WindowsAreOfCourses }
{}

/// If no table is altered, the rows are those of a history without alterations.
pub fn plain_versions_have_plain_rows()
    ensures { PlainVersionsHavePlainRows }
{}

/// Progress in the table's present version covers keys in the table's course.
pub fn cursors_are_of_courses()
    ensures { CursorsAreOfCourses }
{}

/// A table that isn't altered has version 1.
pub fn unaltered_tables_have_version_one()
    ensures { UnalteredTablesHaveVersionOne }
{}
