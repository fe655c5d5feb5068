//! The write-ahead log of a source that runs a workload, entry by entry: its meaning and its bytes.
#![tactic(auto)]

mod claims;
mod decoding;
mod encoding;
mod entry;
mod entry_laws;
mod error;
mod log_laws;
mod select_laws;
mod sound_laws;

pub use claims::{commit_steps, workload_in};
pub use decoding::decode;
pub use encoding::{commit_entry, confirm_entry, mark_entry, workload_entry};
pub use entry::Entry;
pub use entry_laws::{entries_are_read_once, workloads_are_told_apart};
pub use error::EntryError;
pub use log_laws::{a_wal_stands, one_wal_is_left, readings_are_sent, reads_end_once};
pub use select_laws::{a_select_stands, rows_shown_are_one, selects_are_answered};
pub use sound_laws::{
    commits_stay, sound_logs_release, sound_wals_are_serial, sound_wals_go_on, wals_are_fair,
    wals_are_fit, wals_are_read_once, wals_or_faults, workloads_are_filled, workloads_are_in_range,
};
