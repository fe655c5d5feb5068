//! Theorems about snapshots, as contracts of empty functions.

ghost use Rattle.dbl_model_event.specs.SnapshotLists.{KeysOfRowsRise, SnapshotsHaveOneRowAKey};

/// In rows in key order a later row has a greater key.
pub fn keys_of_rows_rise()
    ensures { KeysOfRowsRise }
{}

/// A snapshot has at most one row at each key.
pub fn snapshots_have_one_row_a_key()
    ensures { SnapshotsHaveOneRowAKey }
{}
