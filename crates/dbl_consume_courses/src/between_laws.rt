//! The age of a log between two positions, in all tables, as a session delivers commits.
ghost use Rattle.dbl_consume_courses.specs.AgesBetween.{EmptyLogsAreAged};
ghost use Rattle.dbl_consume_courses.specs.AgesBetween.{PartsOfCommitsKeepAgesBetween};
ghost use Rattle.dbl_consume_courses.specs.AgesBetween.{CommitsMoveAgesBetween};
ghost use Rattle.dbl_consume_courses.specs.AgesBetween.{AgesBetweenStayAsHistoriesGrow};

/// An empty log is aged from where it starts.
pub fn empty_logs_are_aged()
    ensures { EmptyLogsAreAged }
{}

/// A prefix of the next commit's records leaves a log aged between two positions.
pub fn parts_of_commits_keep_ages_between()
    ensures { PartsOfCommitsKeepAgesBetween }
{}

/// With all records of the next commit, a log is aged up to the commit's position.
pub fn commits_move_ages_between()
    ensures { CommitsMoveAgesBetween }
{}

/// Later commits leave a log aged between two positions.
pub fn ages_between_stay_as_histories_grow()
    ensures { AgesBetweenStayAsHistoriesGrow }
{}
