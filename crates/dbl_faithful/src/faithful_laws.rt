//! How a session begins with faithful stores, and leaves them faithful.
ghost use Rattle.dbl_faithful.specs.Complete.{CompleteStoresAreImages};
ghost use Rattle.dbl_faithful.specs.Laws.{FaithfulStoresAreCaughtUp, CursorsWereTold};
ghost use Rattle.dbl_faithful.specs.Laws.{FaithfulRecordsStand, CaughtUpStoresAreFaithful};
ghost use Rattle.dbl_faithful.specs.Laws.{FirstOffsetsAreFaithful};

/// A session continues from faithful stores: its log has all records of the commits up to the
/// offset.
pub fn faithful_stores_are_caught_up()
    ensures { FaithfulStoresAreCaughtUp }
{}

/// A window may begin after the last key of the stored progress.
pub fn cursors_were_told()
    ensures { CursorsWereTold }
{}

/// Each record has the position of a commit of the history.
pub fn faithful_records_stand()
    ensures { FaithfulRecordsStand }
{}

/// A delivered log is faithful to each offset that isn't after the delivered commits.
pub fn caught_up_stores_are_faithful()
    ensures { CaughtUpStoresAreFaithful }
{}

/// The first offset of a connector is faithful.
pub fn first_offsets_are_faithful()
    ensures { FirstOffsetsAreFaithful }
{}

/// Once every snapshot is done, a consumer has the source's tables as they are at the offset.
pub fn complete_stores_are_images()
    ensures { CompleteStoresAreImages }
{}
