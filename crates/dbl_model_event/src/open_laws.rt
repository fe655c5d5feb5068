//! Theorems about the records of open transactions, as contracts of empty functions.

ghost use Rattle.dbl_model_event.specs.OpenEvents.{RecordsGoOn, RecordsShowNoEnd};
ghost use Rattle.dbl_model_event.specs.OpenEvents.{FirstClashesStay};

/// The records of a transaction so far stay its first ones, but that its last record so far is
/// marked as the last until further records follow.
pub fn records_go_on()
    ensures { RecordsGoOn }
{}

/// The records of a commit don't show its end.
pub fn records_show_no_end()
    ensures { RecordsShowNoEnd }
{}

/// The first value equal to the placeholder stays the first as a transaction goes on.
pub fn first_clashes_stay()
    ensures { FirstClashesStay }
{}
