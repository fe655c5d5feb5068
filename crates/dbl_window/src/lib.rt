//! Windows of a table's snapshot: rows that are read between two watermarks, without those that
//! changes in the log replace.
#![tactic(auto)]

mod error;
mod frame;
mod keys;
mod laws;
mod marks;
mod plain;
mod reading;
mod rows;
mod states;

pub use error::WindowError;
pub use laws::{
    clears_leave_nothing, closed_windows_keep_their_promise, faults_are_first, left_rows_are_one,
    left_rows_go_on, other_tables_leave_rows, read_rows_are_answered, rows_above_are_in_order,
    selected_rows_stay, selected_rows_were_given, windows_are_right,
};
pub use plain::plain_left;
pub use states::{Armed, Held, Idle, Marked, Open, Seen, new};
