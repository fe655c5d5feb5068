//! Theorems about alterations. The functions do nothing: their contracts are the theorems.

ghost use Rattle.dbl_tables_epochs.specs.Laws.{KeptCellsStay, AlikeActsAreJudgedAlike};
ghost use Rattle.dbl_tables_epochs.specs.Laws.{ReopenedActsAreAlike, AlteredStoresStand};
ghost use Rattle.dbl_tables_epochs.specs.Laws.{LoggedRowsAreFit, RefusalsAreExplicit};

/// A column that stays keeps its cell in every row.
pub fn kept_cells_stay()
    ensures { KeptCellsStay }
{}

/// A verdict looks at the open sessions, their changes and the committed rows, and at nothing else
/// of the past.
pub fn alike_acts_are_judged_alike()
    ensures { AlikeActsAreJudgedAlike }
{}

/// The tables after an alteration are unique, and so is every verdict after it.
pub fn reopened_acts_are_alike()
    ensures { ReopenedActsAreAlike }
{}

/// After an accepted alteration a store has the state after some acts over the altered tables.
pub fn altered_stores_stand()
    ensures { AlteredStoresStand }
{}

/// The rows that the log has for an alteration make it valid.
pub fn logged_rows_are_fit()
    ensures { LoggedRowsAreFit }
{}

/// Which alterations a table can't have, by its columns, in explicit words.
pub fn refusals_are_explicit()
    ensures { RefusalsAreExplicit }
{}
