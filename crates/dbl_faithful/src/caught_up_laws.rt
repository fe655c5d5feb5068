//! What a session preserves of its log, step by step: the log is delivered up to some commits
//! (`HasDeliveredUpTo`).
ghost use Rattle.dbl_faithful.specs.CaughtUpLaws.{StartsAreCaughtUp, PutLogsAreCaughtUp};
ghost use Rattle.dbl_faithful.specs.CaughtUpLaws.{SentRecordsAreCaughtUp, CommitsAreCaughtUp};
ghost use Rattle.dbl_faithful.specs.CaughtUpLaws.{SnapshotsAreCaughtUp, CaughtUpLogsAreRight};
ghost use Rattle.dbl_faithful.specs.CaughtUpLaws.{LongerHistoriesAreCaughtUp};
ghost use Rattle.dbl_faithful.specs.CaughtUpLaws.{DeliveredEventsArePut};

/// The empty log of a first session is delivered up to the start.
pub fn starts_are_caught_up()
    ensures { StartsAreCaughtUp }
{}

/// The log of a later session is delivered up to its offset.
pub fn put_logs_are_caught_up()
    ensures { PutLogsAreCaughtUp }
{}

/// Appending further records of the next commit keeps the log delivered.
pub fn sent_records_are_caught_up()
    ensures { SentRecordsAreCaughtUp }
{}

/// Once it has all records of the next commit, the log is delivered up to that one; an alteration
/// has none.
pub fn commits_are_caught_up()
    ensures { CommitsAreCaughtUp }
{}

/// Appending a prefix of a right window's records keeps the log delivered.
pub fn snapshots_are_caught_up()
    ensures { SnapshotsAreCaughtUp }
{}

/// Other clients' commits after every record keep the log delivered.
pub fn longer_histories_are_caught_up()
    ensures { LongerHistoriesAreCaughtUp }
{}

/// A delivered log satisfies the stores up to its delivered commits.
pub fn caught_up_logs_are_right()
    ensures { CaughtUpLogsAreRight }
{}

/// A delivered log has a record of each event of the delivered commits.
pub fn delivered_events_are_put()
    ensures { DeliveredEventsArePut }
{}
