//! Theorems about generated workloads.
#![tactic(auto)]

mod laws;

pub use laws::generated_workloads_can_run;
