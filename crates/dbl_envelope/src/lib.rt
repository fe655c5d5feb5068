//! Change events as records: the efficient writer of what `dbl_model_event` defines.
#![tactic(auto)]

mod changes;
mod clash;
mod error;
mod laws;
mod left;
mod snapshot;
mod so_far;
mod suits;
mod tell;
mod writer;

pub use error::EnvelopeError;
pub use laws::fitting_suits;
pub use left::{CHANGES_AT_ONCE, RecordsLeft};
pub use so_far::OpenRecords;
pub use writer::EventWriter;
