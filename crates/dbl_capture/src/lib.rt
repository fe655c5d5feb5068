//! The session of a connector: it copies tables while it follows the source's log, and may stop at
//! any call.
#![tactic(auto)]

mod capture;
mod messages;
mod opening;
mod settle;
mod turns;
mod windows;

pub use capture::session;
pub use dbl_capture_work::{Ending, Halt, Report};
