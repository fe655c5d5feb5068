//! A follower of a log: the records of its commits, and the snapshots of the windows that its
//! watermarks open and close.
#![tactic(auto)]

mod error;
mod follower;
mod laws;
mod part;
mod window;

pub use error::FollowError;
pub use follower::Follower;
pub use laws::{armed_within_transactions, other_marks_do_nothing, steps_are_one};
