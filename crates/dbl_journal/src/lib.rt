//! A list of entries on a disk, with atomic append.
#![tactic(auto)]

mod appending;
mod error;
mod journal;
mod laws;
mod scanning;

pub use error::JournalError;
pub use journal::{ENTRY_LIMIT, ENTRY_ROOM, Journal};
pub use laws::{journals_are_read_once, journals_or_faults, lists_are_one};
