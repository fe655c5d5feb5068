//! The command `init`: the three stores of a workload, made on empty disks.
#![tactic(auto)]

mod disks;
mod error;
mod initializing;
mod laws;

pub use disks::{Disks, Outcome};
pub use error::{InitError, Store};
pub use initializing::init;
pub use laws::{init_answers_are_one, init_answers_stand};
