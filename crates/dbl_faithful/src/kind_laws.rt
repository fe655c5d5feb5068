//! How kinds of records are distinguished: by their topics and the letters of their values.
ghost use Rattle.dbl_faithful.specs.Kinds.{EventsAreChanges, ReadRowsAreRows};
ghost use Rattle.dbl_faithful.specs.Kinds.{ProgressIsNeither, RowsAreNoChanges};

/// The records of a commit are changes.
pub fn events_are_changes()
    ensures { EventsAreChanges }
{}

/// The records of the rows that a snapshot read are rows.
pub fn read_rows_are_rows()
    ensures { ReadRowsAreRows }
{}

/// A progress record is neither a change nor a row.
pub fn progress_is_neither()
    ensures { ProgressIsNeither }
{}

/// A row is no change.
pub fn rows_are_no_changes()
    ensures { RowsAreNoChanges }
{}
