//! The stages of `replay` and `apply --lines`: the pieces of a log and their lines, and the rows of
//! a consumer of lines.
#![tactic(auto)]

mod altering;
mod apply;
mod capture;
pub mod laws;
mod lines;
mod log;
mod log_fault;
mod masking;
mod options;
mod printing;
mod reader;
mod replay;
mod streaming;

pub use apply::{FaultAt, LineFault, consume};
pub use dbl_lines::PrintError;
pub use lines::{LineError, messages};
pub use log::print_log;
pub use log_fault::{LogFault, transaction_status};
pub use options::LogOptions;
