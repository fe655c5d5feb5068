//! The guarantees of the connector: definitions and theorems on any number of sessions and crashes,
//! one after the other. They are about lists, not about a source, sink or store; only
//! `calls_keep_promises` links them to calls of a session.
#![tactic(auto)]

mod call_laws;
mod promise_laws;
mod restart_laws;
mod session_laws;

pub use call_laws::calls_keep_promises;
pub use promise_laws::{
    complete_runs_are_applied, complete_runs_leave_tables_equal, disks_are_read_once,
    fresh_stores_are_kept, kept_logs_are_printed, kept_runs_are_promised, runs_are_promised,
    sessions_go_on, settled_reports_are_right, small_logs_are_counted, what_stays_goes_on,
    workloads_have_tables,
};
pub use restart_laws::{
    completed_restarts_are_images, first_sessions_are_faithful, logs_tell_the_source,
    restarts_go_on, restarts_stay_faithful, rules_keep_promises, three_sessions_stand,
};
pub use session_laws::{
    faithful_entries_are_known, few_commits_are_read_again, old_marks_are_others,
    old_marks_do_nothing, repeats_are_counted, runs_keep_going, stops_follow,
    stored_offsets_begin_again,
};
