//! The frames of a replication stream as bytes: CopyData messages that contain XLogData or
//! keepalives ("Streaming Replication Protocol" of PostgreSQL). The fault of the frame at the front
//! of some bytes and its fields; and the bytes of a standby status update.
#![tactic(auto)]

mod error;
mod frame;
mod heads;
mod updates;

pub use error::FrameError;
pub use frame::Frame;
pub use heads::{append_frame, find_head_fault};
pub use updates::status;
