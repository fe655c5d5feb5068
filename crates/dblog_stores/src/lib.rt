//! The commands over the stores that only read them: `topics`, `offsets`, `apply` and `compact`.
#![tactic(auto)]

mod applying;
mod compacting;
mod consuming;
mod ended;
mod error;
pub mod laws;
mod listing;
mod offsets;
mod opening;
mod topics;

pub use applying::print_listing;
pub use ended::{Applied, Ended};
pub use error::{CommandError, Store};
pub use listing::Listing;
pub use offsets::print_offset;
pub use topics::print_topics;
