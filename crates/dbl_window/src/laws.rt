//! Theorems about windows, as contracts of empty functions.

ghost use Rattle.dbl_window.specs.ClosingLaws.{ClosedWindowsKeepTheirPromise, RowsAboveAreInOrder};
ghost use Rattle.dbl_window.specs.RightLaws.{WindowsAreRight};
ghost use Rattle.dbl_window.specs.Laws.{ClearsLeaveNothing, FaultsAreFirst, LeftRowsAreOne};
ghost use Rattle.dbl_window.specs.Laws.{LeftRowsGoOn, OtherTablesLeaveRows, ReadRowsAreAnswered};
ghost use Rattle.dbl_window.specs.Laws.{SelectedRowsStay, SelectedRowsWereGiven};

/// The part of rows that changes keep is a unique list in key order.
pub fn left_rows_are_one()
    ensures { LeftRowsAreOne }
{}

/// Without a change all rows are kept, and further changes apply to the rows that earlier ones
/// kept.
pub fn left_rows_go_on()
    ensures { LeftRowsGoOn }
{}

/// Changes of other tables keep all rows.
pub fn other_tables_leave_rows()
    ensures { OtherTablesLeaveRows }
{}

/// A truncation of the table keeps no row.
pub fn clears_leave_nothing()
    ensures { ClearsLeaveNothing }
{}

/// Rows that were read without an error are the answered ones, in key order.
pub fn read_rows_are_answered()
    ensures { ReadRowsAreAnswered }
{}

/// The error of answered rows is that of the first row that has one.
pub fn faults_are_first()
    ensures { FaultsAreFirst }
{}

/// Selected rows stay selected when the history grows and watermarks are written.
pub fn selected_rows_stay()
    ensures { SelectedRowsStay }
{}

/// A window that was selected between its watermarks and saw the changes between them keeps its
/// promise.
pub fn selected_rows_were_given()
    ensures { SelectedRowsWereGiven }
{}

/// A window that was selected between its watermarks and saw the changes between them is right.
pub fn windows_are_right()
    ensures { WindowsAreRight }
{}

/// Rows each above the one before, as those of a select, are in key order.
pub fn rows_above_are_in_order()
    ensures { RowsAboveAreInOrder }
{}

/// A window closed by any caller keeps its promise if its rows are in key order.
pub fn closed_windows_keep_their_promise()
    ensures { ClosedWindowsKeepTheirPromise }
{}
