//! What a session preserves of its records, step by step: they agree up to a position that was
//! delivered (`AgreesUpTo`).
ghost use Rattle.dbl_faithful.specs.CaughtLaws.{StartsAreCaught, PrintsAreCaught};
ghost use Rattle.dbl_faithful.specs.CaughtLaws.{AllPrintsAreCaught, PartsOfSnapshotsAreCaught};
ghost use Rattle.dbl_faithful.specs.CaughtLaws.{LongerHistoriesAreCaught};

/// The empty list of records agrees up to the start.
pub fn starts_are_caught()
    ensures { StartsAreCaught }
{}

/// A prefix of the next commit's records, each made at its own time, keeps the agreement.
pub fn prints_are_caught()
    ensures { PrintsAreCaught }
{}

/// With all of them records agree up to the commit.
pub fn all_prints_are_caught()
    ensures { AllPrintsAreCaught }
{}

/// A prefix of a right window's records takes the agreement up to its high watermark.
pub fn parts_of_snapshots_are_caught()
    ensures { PartsOfSnapshotsAreCaught }
{}

/// Other clients' commits after every record keep the agreement.
pub fn longer_histories_are_caught()
    ensures { LongerHistoriesAreCaught }
{}
