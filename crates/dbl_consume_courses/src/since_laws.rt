//! The records of a log since the last one before a position.
ghost use Rattle.dbl_consume_courses.specs.Since.{SinceIsSince, SinceIsOne};
ghost use Rattle.dbl_consume_courses.specs.Since.{LateRecordsAreAppended, LateLogsAreWhole};
ghost use Rattle.dbl_consume_courses.specs.Since.{EarlyRecordsEndAll, LaterStartsKeepLess};

/// The records since a start end the log, and begin after its last record before the start.
pub fn since_is_since()
    ensures { SinceIsSince }
{}

/// No other part of a log is that since a start.
pub fn since_is_one()
    ensures { SinceIsOne }
{}

/// Records that don't lie before the start are appended to those since it.
pub fn late_records_are_appended()
    ensures { LateRecordsAreAppended }
{}

/// A log without a record before the start is whole since it.
pub fn late_logs_are_whole()
    ensures { LateLogsAreWhole }
{}

/// A record before the start ends what was since it.
pub fn early_records_end_all()
    ensures { EarlyRecordsEndAll }
{}

/// Since a later start, the records before an earlier one don't matter.
pub fn later_starts_keep_less()
    ensures { LaterStartsKeepLess }
{}
