//! The sessions of a small transactional store: which steps are accepted, what each session sees,
//! and the serial run of steps.
#![tactic(auto)]

mod columns;
mod demo_table;
mod ends;
mod error;
mod given;
mod held;
mod rows;
mod sending;
mod sizes;
mod slots;

pub use columns::{column_places, key_from, key_in};
pub use demo_table::DemoTable;
pub use ends::{commit_tables, roll_back_tables};
pub use error::StepError;
pub use given::{
    are_each_readable, are_of_key, copy_text, enter_cells, has_key_texts, keep_key, key_texts,
    key_texts_set, row_given, row_set, spells,
};
pub use held::{HeldKey, list_key};
pub use rows::{
    Cleared, Rows, base, key_holder, lesser, make_rows, seen_row, table_holder, truncate,
};
pub use sending::{delete_message, insert_message, update_message};
pub use sizes::{empty_size, grown_size};
pub use slots::{Held, Slot, Slots, hold, make_slot};
