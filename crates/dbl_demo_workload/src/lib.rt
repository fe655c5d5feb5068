//! A workload that is run on a small store of rows, and its log, which is compared with the run.
#![tactic(auto)]

mod checking;
mod error;
mod laws;
mod logs;
mod preparing;
mod running;

pub use checking::Checked;
pub use error::DemoError;
pub use laws::workloads_or_refusals;
pub use logs::check_log;
pub use preparing::{Prepared, prepare};
pub use running::{is_tick, run_next};
