//! What a session writes when it has ended: its report, or the line of its error, and the exit
//! status of a run.
#![tactic(auto)]

mod finishing;
mod halt;
mod init_errors;
mod report;
mod workload_text;

pub use finishing::finish_session;
pub use halt::{halt_line, halt_status};
pub use init_errors::say_init;
pub use report::{ending_status, report_text};
pub use workload_text::WorkloadText;
