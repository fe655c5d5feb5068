//! The sizes of a replication stream's frames: the lengths that CopyData may declare here, and the
//! number of bytes of the frame at the front of some bytes.
#![tactic(auto)]

mod sizes;

pub use sizes::{is_length, measure_frame, read_int32};
