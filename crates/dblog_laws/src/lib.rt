//! When the program's runs must succeed, what runs and crashes in a row leave, and what
//! `replay | apply --lines` prints: theorems over definitions.
#![tactic(auto)]

mod pipe_laws;
mod run_laws;
mod session_laws;

pub use pipe_laws::{last_rows_are_applied, whole_logs_stand};
pub use run_laws::{
    disks_stay_kept, few_messages_are_sent, generated_budgets_suffice, generated_inits_succeed,
    generated_statuses_tell_budgets, generous_budgets_suffice, generous_budgets_suffice_again,
    kept_logs_are_true, no_cell_stops_sessions, only_unsent_moves_stop_sessions,
    other_runs_succeed, printed_workloads_succeed, sent_messages_are_few, statuses_tell_budgets,
    supported_generated_runs_succeed, supported_runs_succeed, supported_sessions_succeed,
};
pub use session_laws::{faithful_sessions_end, supported_sessions_end};
