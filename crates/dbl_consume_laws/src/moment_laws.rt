//! The points in the history that records correspond to, and the progress of snapshots that they
//! report.
ghost use Rattle.dbl_consume_laws.specs.Commits.{FitHistoriesHaveFitCommits};
ghost use Rattle.dbl_consume_laws.specs.Moments.{EventsStandForChanges, MarksStandForCommits};
ghost use Rattle.dbl_consume_laws.specs.Moments.{LaterPlacesStandLater, RecordsReachTheirTop};
ghost use Rattle.dbl_consume_laws.specs.KnownKeys.{ToldBoundsAreTold};

/// The captured commits of a valid history satisfy all that the theorems require of commits.
pub fn fit_histories_have_fit_commits()
    ensures { FitHistoriesHaveFitCommits }
{}

/// An event corresponds to the point after its change.
pub fn events_stand_for_changes()
    ensures { EventsStandForChanges }
{}

/// A record of a watermark's commit corresponds to the point after that commit.
pub fn marks_stand_for_commits()
    ensures { MarksStandForCommits }
{}

/// A later position corresponds to no earlier point in the history.
pub fn later_places_stand_later()
    ensures { LaterPlacesStandLater }
{}

/// Records reach the point of their greatest position.
pub fn records_reach_their_top()
    ensures { RecordsReachTheirTop }
{}

/// Each key up to the one that a progress record reports is covered by it.
pub fn told_bounds_are_told()
    ensures { ToldBoundsAreTold }
{}
