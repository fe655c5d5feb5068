//! What a session preserves of its records while it delivers: they are aged at each point from its
//! offset's to the delivered one.
ghost use Rattle.dbl_consume_laws.specs.SessionAges.{RecordsOfAChangeKeepAges};
ghost use Rattle.dbl_consume_laws.specs.SessionAges.{PartsOfCommitsKeepAges};
ghost use Rattle.dbl_consume_laws.specs.SessionAges.{PartsOfSnapshotsKeepAges};

/// Any records of the next change leave records aged at each of these points.
pub fn records_of_a_change_keep_ages()
    ensures { RecordsOfAChangeKeepAges }
{}

/// A prefix of the next commit's records leaves records aged at each of these points.
pub fn parts_of_commits_keep_ages()
    ensures { PartsOfCommitsKeepAges }
{}

/// A prefix of a right window's records leaves records aged at each of these points.
pub fn parts_of_snapshots_keep_ages()
    ensures { PartsOfSnapshotsKeepAges }
{}
