//! A table of a store after an alteration: a column more or less, in all its rows at once.
#![tactic(auto)]

mod alteration;
mod altering;
mod cells;
mod columns;

pub use alteration::Alteration;
pub use altering::altered_rows;
