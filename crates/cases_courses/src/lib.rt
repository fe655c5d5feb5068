//! The courses of altered tables, their rows in the columns in force and the points of their
//! histories, by plain functions that compute the definitions, for the programs of cases alone.
#![tactic(auto)]

mod courses;
mod version_moments;
mod versions;

pub use courses::{TableCourse, course, is_exact_cell, is_known_in, is_same_cell, records_since};
pub use version_moments::{point_at, position_moment, version_moment, version_span_end};
pub use versions::{AlteredRows, Version, row_upto, was_there_through};
