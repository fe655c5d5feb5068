//! The properties of a topic log and its offset, and what a session preserves of them, step by
//! step: theorems over the definitions.
#![tactic(auto)]

mod caught_up_laws;
mod faithful_laws;
mod kept_laws;
mod kind_laws;
mod log_laws;
mod onward_laws;
mod step_laws;
mod store_laws;

pub use caught_up_laws::{
    caught_up_logs_are_right, commits_are_caught_up, delivered_events_are_put,
    longer_histories_are_caught_up, put_logs_are_caught_up, sent_records_are_caught_up,
    snapshots_are_caught_up, starts_are_caught_up,
};
pub use faithful_laws::{
    caught_up_stores_are_faithful, complete_stores_are_images, cursors_were_told,
    faithful_records_stand, faithful_stores_are_caught_up, first_offsets_are_faithful,
};
pub use kept_laws::{
    confirms_stay_faithful, later_sessions_stay_faithful, longer_histories_keep_offsets,
    longer_histories_stay_faithful, more_records_keep_offsets, start_offsets_lag,
};
pub use kind_laws::{
    events_are_changes, progress_is_neither, read_rows_are_rows, rows_are_no_changes,
};
pub use log_laws::{
    cells_miss_empty_rows, complete_logs_are_images, exact_logs_have_one_count,
    gaps_spoil_exact_logs, news_are_fresh, news_rise, positions_end_once, repeats_are_earlier,
    snapshot_rows_overwrite_nothing, torn_windows_are_spoilt, torn_windows_stand,
};
pub use onward_laws::{
    adds_are_one, adds_go_on, sent_records_rise, stores_stay_onward, windows_rise,
};
pub use step_laws::{
    all_prints_are_caught, longer_histories_are_caught, parts_of_snapshots_are_caught,
    prints_are_caught, starts_are_caught,
};
pub use store_laws::{
    empty_logs_have_no_lag, lags_are_bounded, later_offsets_lag_less,
    repeated_commits_stand_together, top_positions_are_tops,
};
