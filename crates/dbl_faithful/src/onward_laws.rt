//! Stores that only advance.
ghost use Rattle.dbl_faithful.specs.Laws.{StoresStayOnward, AddsGoOn, AddsAreOne};
ghost use Rattle.dbl_faithful.specs.Laws.{SentRecordsRise, WindowsRise};

/// A session that does nothing only advances the stores.
pub fn stores_stay_onward()
    ensures { StoresStayOnward }
{}

/// Records appended after appended records are all after the same position.
pub fn adds_go_on()
    ensures { AddsGoOn }
{}

/// The list of appended records is unique.
pub fn adds_are_one()
    ensures { AddsAreOne }
{}

/// The positions of the records that a session sends of its start's events rise.
pub fn sent_records_rise()
    ensures { SentRecordsRise }
{}

/// The positions of a window's records rise.
pub fn windows_rise()
    ensures { WindowsRise }
{}
