//! Rows, images, records, known keys and how stale cells are, by plain functions that compute the
//! definitions, for the programs of cases alone.
#![tactic(auto)]

mod known;
mod moments;
mod plain_ages;
mod plain_image;
mod plain_json;
mod plain_records;
mod plain_rows;
mod progress;

pub use known::is_known;
pub use moments::{change_count, commit_through, event_count, span_end};
pub use plain_ages::{covers, is_aged_cell, is_touched, occurs};
pub use plain_image::{columns_of, image_text};
pub use plain_records::plain_envelopes;
pub use plain_rows::{left_after, row_after_changes, row_after_commit, row_at};
pub use progress::Log;
