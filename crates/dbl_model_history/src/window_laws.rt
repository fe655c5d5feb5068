//! Theorems about rows that are read in windows, as contracts of empty functions.

ghost use Rattle.dbl_model_history.specs.KeyedRows.{FirstRowsAreOne, LeftRowsAreRows};
ghost use Rattle.dbl_model_history.specs.KeyedRows.{LostRowsWereTouched};
ghost use Rattle.dbl_model_history.specs.WholeChanges.{WholeChangesAreCases, TouchedKeysAreParted};
ghost use Rattle.dbl_model_history.specs.ImageNames.{NamesAreOne};
ghost use Rattle.dbl_model_history.specs.FitChanges.{FitChangesFitOneByOne};

/// The first rows above a bound are unique.
pub fn first_rows_are_one()
    ensures { FirstRowsAreOne }
{}

/// The part of a row read earlier that a change keeps is the row after the change.
pub fn left_rows_are_rows()
    ensures { LeftRowsAreRows }
{}

/// A row of which a change keeps nothing was replaced as a whole or ended by it.
pub fn lost_rows_were_touched()
    ensures { LostRowsWereTouched }
{}

/// The changes that are whole for a key, case by case.
pub fn whole_changes_are_cases()
    ensures { WholeChangesAreCases }
{}

/// A key touched between two points in the history is touched before or after each point between
/// them.
pub fn touched_keys_are_parted()
    ensures { TouchedKeysAreParted }
{}

/// A topic and a key's text name at most one captured table and one key of it.
pub fn names_are_one()
    ensures { NamesAreOne }
{}

/// A readable change that is valid after the rows just before it matches the captured tables.
pub fn fit_changes_fit_one_by_one()
    ensures { FitChangesFitOneByOne }
{}
