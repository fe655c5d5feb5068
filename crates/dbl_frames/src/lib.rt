//! The frames of a recorded replication stream that is fed in pieces: CopyData messages that contain
//! XLogData or keepalives ("Streaming Replication Protocol" of PostgreSQL).
#![tactic(auto)]

mod frames;
mod laws;

pub use dbl_frames_heads::{Frame, FrameError, status};
pub use frames::Frames;
pub use laws::{faults_stay, frames_are_one};
