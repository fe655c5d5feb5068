//! Theorem about the reader of workloads.
#![tactic(auto)]

mod laws;

pub use laws::lines_say;
