//! Topic compaction: the records of a topic log that a new consumer needs.
#![tactic(auto)]

mod compacting;
mod compactor;
mod error;
mod laws;
mod marks;
mod reading;

pub use compacting::compact;
pub use compactor::Compactor;
pub use error::CompactError;
pub use laws::{
    kept_records_are_kept, kept_records_make_the_same_consumer, marked_records_are_kept,
};
pub use marks::Marks;
