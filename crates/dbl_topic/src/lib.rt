//! Sinks of change events, to which a capture delivers its records in groups.
#![tactic(auto)]

mod error;
mod laws;
mod log;
mod memory;
mod sink;

pub use error::{SinkError, TopicError};
pub use laws::{held_groups_are_one, logs_are_read_once, logs_come_of_logs, logs_or_faults};
pub use log::TopicLog;
pub use memory::MemSink;
pub use sink::{GROUP_LIMIT, Sink};
