//! The tags of the cells of a pgoutput message, and its end.
#![tactic(auto)]

mod laws;
mod tags;

pub use laws::one_kind;
pub use tags::{CellKind, cell_kind, is_end};
