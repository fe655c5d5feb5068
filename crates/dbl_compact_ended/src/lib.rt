//! The rows of a topic log that later records end, by topic and key text.
#![tactic(auto)]

mod ended;

pub use ended::{EndedKeys, EndedRows, end_row, end_set_row, end_topic, has_row};
