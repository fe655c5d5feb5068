//! Whether an update moves a row to another key, so that several records are sent for it.
#![tactic(auto)]

mod moves;

pub use moves::is_moved;
