//! The changes that row messages and Truncates state, given the Relations before them.
#![tactic(auto)]

mod cells;
mod changes;
mod keys;
mod known;
mod rows;
mod stated;
mod tables;

pub use known::{Known, read_relation};
pub use stated::{read_row, read_truncate};
pub use tables::{are_same_columns, is_same_column};
