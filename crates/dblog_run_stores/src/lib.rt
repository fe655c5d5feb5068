//! The commands of the program that read the stores, or make them: `topics`, `offsets`, `apply`,
//! `compact` and `init`.
#![tactic(auto)]

mod initializing;
mod stores;

pub use initializing::run_init;
pub use stores::{run_listing, run_offsets, run_topics};
