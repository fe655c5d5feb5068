//! Positions of a history, and the lag of an offset relative to its log.
ghost use Rattle.dbl_faithful.specs.Stores.{TopPositionsAreTops, EmptyLogsHaveNoLag};
ghost use Rattle.dbl_faithful.specs.Stores.{LagsAreBounded, LaterOffsetsLagLess};
ghost use Rattle.dbl_faithful.specs.Stores.{RepeatedCommitsStandTogether};

/// The greatest position is that of the greatest record.
pub fn top_positions_are_tops()
    ensures { TopPositionsAreTops }
{}

/// An offset has no lag to a log without records.
pub fn empty_logs_have_no_lag()
    ensures { EmptyLogsHaveNoLag }
{}

/// At most the commits between the offset and the log's last record are redelivered.
pub fn lags_are_bounded()
    ensures { LagsAreBounded }
{}

/// A later offset causes no more redelivered commits.
pub fn later_offsets_lag_less()
    ensures { LaterOffsetsLagLess }
{}

/// The redelivered commits lie between those up to the offset and those after the log.
pub fn repeated_commits_stand_together()
    ensures { RepeatedCommitsStandTogether }
{}
