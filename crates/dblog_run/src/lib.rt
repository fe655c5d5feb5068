//! A run of the program `dblog` on its arguments, an input, an output and three disks.
#![tactic(auto)]

pub mod laws;
mod program;

pub use dbl_lines::{RunError, Status, say};
pub use dblog_init::{Disks, Outcome};
pub use program::run;
