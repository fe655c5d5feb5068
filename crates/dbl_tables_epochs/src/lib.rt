//! Theorems about a store that altered a table.
#![tactic(auto)]

mod laws;

pub use laws::{
    alike_acts_are_judged_alike, altered_stores_stand, kept_cells_stay, logged_rows_are_fit,
    refusals_are_explicit, reopened_acts_are_alike,
};
