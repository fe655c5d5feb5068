//! The state of a session, and the operations on it that call at most one of source, sink and
//! offset store.
#![tactic(auto)]

mod begin;
mod groups;
mod halt;
mod messages;
mod report;
mod windows;
mod work;

pub use begin::{first_offset, next_incarnation, put_offset, start_reading};
pub use groups::Gathered;
pub use halt::Halt;
pub use messages::{deliver_changes, deliver_commit, take_message};
pub use report::{Ending, Report};
pub use windows::read_window;
pub use work::SessionState;
