//! How a session of the program ends: its summary, or why it stopped with an error.
#![tactic(auto)]

mod error;
mod summary;

pub use error::ConnectError;
pub use summary::Summary;
