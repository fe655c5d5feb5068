//! What a log shows of a table since its last alteration.
ghost use Rattle.dbl_consume_courses.specs.AlteredTables.{AgedCoursesAreOwn, NewCoursesAreAged};
ghost use Rattle.dbl_consume_courses.specs.AlteredTables.{LateLogsAgeAsPlain};
ghost use Rattle.dbl_consume_courses.specs.AlteredTables.{NothingIsKnownAtFirst};
ghost use Rattle.dbl_consume_courses.specs.AlteredTables.{LateLogsHaveTheSameRows};
ghost use Rattle.dbl_consume_courses.specs.CourseAges.{AlteredTablesAge};
ghost use Rattle.dbl_consume_courses.specs.PlainAges.{PlainTablesAge};

/// A log that is aged in a course is aged there as far as the course's table goes.
pub fn aged_courses_are_own()
    ensures { AgedCoursesAreOwn }
{}

/// A log whose last record lies before a course is aged at the course's start.
pub fn new_courses_are_aged()
    ensures { NewCoursesAreAged }
{}

/// A log without a record before a course is aged as that of a table that isn't altered.
pub fn late_logs_age_as_plain()
    ensures { LateLogsAgeAsPlain }
{}

/// No key is known where a course begins.
pub fn nothing_is_known_at_first()
    ensures { NothingIsKnownAtFirst }
{}

/// A log without a record before a course has the rows of that since its start.
pub fn late_logs_have_the_same_rows()
    ensures { LateLogsHaveTheSameRows }
{}

/// At a known key without a whole change in the span, a consumer has the cells of the columns in
/// force at its end, or none.
pub fn altered_tables_age()
    ensures { AlteredTablesAge }
{}

/// If no table is altered, records are aged in the history exactly if they are so in the course of
/// each table.
pub fn plain_tables_age()
    ensures { PlainTablesAge }
{}
