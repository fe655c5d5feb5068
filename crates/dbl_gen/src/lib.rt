//! A workload generated from a number: tables, rows and the traffic of three sessions.
#![tactic(auto)]

mod draws;
mod laws;
mod writing;

pub use laws::{workloads_are_read, workloads_are_short};
pub use writing::script;
