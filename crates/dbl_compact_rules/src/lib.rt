//! What a compaction does with a record of a topic log that sets a row.
#![tactic(auto)]

mod rules;

pub use rules::{SetRule, judge_set};
