//! The journal of the demo source, with the errors of a source.
#![tactic(auto)]

mod appending;

pub use appending::{append, entry};
