//! The workload language: tables, initial rows and the steps of sessions, for a source without a
//! server.
#![tactic(auto)]

mod cells;
mod columns;
mod error;
mod fault;
mod laws;
mod line;
mod parsing;
mod parts;
mod script;
mod steps;
mod words;

pub use dbl_model_table::NamedCell;
pub use error::ScriptError;
pub use laws::scripts_are_in_range;
pub use parsing::parse;
pub use script::{Script, ScriptRow, ScriptTable, Step};
