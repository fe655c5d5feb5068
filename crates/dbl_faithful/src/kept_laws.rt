//! Changes other than a session's records that keep stores faithful.
ghost use Rattle.dbl_faithful.specs.Kept.{LongerHistoriesStayFaithful, LongerHistoriesKeepOffsets};
ghost use Rattle.dbl_faithful.specs.Kept.{MoreRecordsKeepOffsets, StartOffsetsLag};
ghost use Rattle.dbl_faithful.specs.Kept.{ConfirmsStayFaithful, LaterSessionsStayFaithful};

/// A longer history keeps stores faithful, also if no offset is stored.
pub fn longer_histories_stay_faithful()
    ensures { LongerHistoriesStayFaithful }
{}

/// A longer history keeps an offset before its log.
pub fn longer_histories_keep_offsets()
    ensures { LongerHistoriesKeepOffsets }
{}

/// Appended records keep an offset before its log.
pub fn more_records_keep_offsets()
    ensures { MoreRecordsKeepOffsets }
{}

/// An offset whose LSN is its start is before each log.
pub fn start_offsets_lag()
    ensures { StartOffsetsLag }
{}

/// Confirming a position that isn't after the offset keeps stores faithful.
pub fn confirms_stay_faithful()
    ensures { ConfirmsStayFaithful }
{}

/// A later session's offset with the same position keeps stores faithful.
pub fn later_sessions_stay_faithful()
    ensures { LaterSessionsStayFaithful }
{}
