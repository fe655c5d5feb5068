//! A session and what it writes: its report, or the line of its error, and the exit status of a run.
#![tactic(auto)]

mod capturing;
mod sessions;

pub use capturing::run_generated;
pub use dblog_connect::Asked;
pub use sessions::run_session;
