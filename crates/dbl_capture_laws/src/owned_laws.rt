//! Why a session over a conforming source and faithful stores stops: theorems, as contracts of
//! empty functions.

ghost use Rattle.dbl_capture_laws.specs.Owned.{ClashesAreOwn, FirstLongOffsetsAreOwn};
ghost use Rattle.dbl_capture_laws.specs.Owned.{FirstOffsetsAreLong, LongOffsetsAreOwn};
ghost use Rattle.dbl_capture_laws.specs.Owned.{LongRecordsAreOwn};
ghost use Rattle.dbl_capture_laws.specs.Owned.{OpenClashesAreOwn, OpenLongRecordsAreOwn};

/// A value equal to the placeholder is in the source's history.
pub fn clashes_are_own()
    ensures { ClashesAreOwn }
{}

/// A value equal to the placeholder in the open transaction is in the source's history.
pub fn open_clashes_are_own()
    ensures { OpenClashesAreOwn }
{}

/// A record of the open transaction that is too long comes from the source's history.
pub fn open_long_records_are_own()
    ensures { OpenLongRecordsAreOwn }
{}

/// A record that is too long comes from the source's history.
pub fn long_records_are_own()
    ensures { LongRecordsAreOwn }
{}

/// A next offset that is too long agrees with the stores.
pub fn long_offsets_are_own()
    ensures { LongOffsetsAreOwn }
{}

/// A first offset that is too long agrees with the stores.
pub fn first_long_offsets_are_own()
    ensures { FirstLongOffsetsAreOwn }
{}

/// A new connector's first offset that is too long follows from the source's catalogue.
pub fn first_offsets_are_long()
    ensures { FirstOffsetsAreLong }
{}
