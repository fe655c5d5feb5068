//! Theorems about the logs of workloads.
#![tactic(auto)]

mod laws;

pub use laws::{rows_of_wals_are_readable, transactions_of_wals_move_at_most};
