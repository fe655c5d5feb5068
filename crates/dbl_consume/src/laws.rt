ghost use Rattle.dbl_consume.specs.Printing.{RowsAreOne, RowsStand};

/// The rows of a consumer's state, in the order of topics and keys, are at most one list.
pub fn rows_are_one()
    ensures { RowsAreOne }
{}

/// The rows of the state of a consumer of records have such a list.
pub fn rows_stand()
    ensures { RowsStand }
{}
