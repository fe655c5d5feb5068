//! The two formats of an offset's bytes, and a table's version in them.
#![tactic(auto)]

mod versions;

pub use versions::{FIRST_FORMAT, FORMAT, NO_OFFSET, read_version, write_version};
