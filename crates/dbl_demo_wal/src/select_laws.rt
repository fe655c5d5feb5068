//! Theorems about selects. The functions do nothing: their contracts are the theorems.

ghost use Rattle.dbl_demo_wal.specs.Example.{ASelectStands};
ghost use Rattle.dbl_demo_wal.specs.SelectLaws.{RowsShownAreOne, SelectsAreAnswered};

/// A select shows at most one list of rows.
pub fn rows_shown_are_one()
    ensures { RowsShownAreOne }
{}

/// A select returns the rows of one position between its call and its return.
pub fn selects_are_answered()
    ensures { SelectsAreAnswered }
{}

/// A select of a small workload returns rows that exist together only between its groups of steps.
pub fn a_select_stands()
    ensures { ASelectStands }
{}
