//! Sources of changes: what a connector requires of a database.
#![tactic(auto)]

mod source;

pub use dbl_source_log::{SourceError, Step, next_step, remember};
pub use dbl_source_model::{Selected, Started};
pub use source::Source;
