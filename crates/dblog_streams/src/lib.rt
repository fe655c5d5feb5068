//! The commands over the input and the output alone: `replay`, `apply --lines` and `gen`.
#![tactic(auto)]

mod applying;
mod errors;
mod frames;
mod generating;
mod input;
pub mod laws;
mod replaying;
mod unread;

pub use applying::apply_lines;
pub use generating::print_workload;
pub use replaying::replay_input;
