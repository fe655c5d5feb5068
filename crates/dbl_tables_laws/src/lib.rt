//! Theorems about the steps of sessions with row locks: what they commit is valid.
#![tactic(auto)]

mod laws;

pub use laws::{
    commits_show_what_was_seen, first_rows_are_one_list, held_rows_stay, locks_are_apart,
    open_changes_are_fit, rollbacks_leave_nothing, sent_changes_move_at_most, serial_runs_are_fair,
    serial_runs_are_fit, steps_are_private, steps_show_their_rows,
};
