//! A small transactional store of rows: what its sessions commit is their serial run. Captures are
//! compared with this source.
#![tactic(auto)]

mod altering;
mod ends;
mod first_rows;
mod selecting;
mod steps;
mod tables;
mod truncating;

pub use dbl_tables_altered::Alteration;
pub use dbl_tables_rows::{DemoTable, StepError};
pub use first_rows::FirstRows;
pub use tables::Tables;
