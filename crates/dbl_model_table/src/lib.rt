//! Tables, keys and rows: the description of a captured table, and the changes of its rows.
#![tactic(auto)]

mod capturing;
mod change;
mod config;
mod copies;
mod error;
mod identity;
mod laws;
mod named_cell;
mod of_parts;
mod row;
mod table;

pub use capturing::name_at;
pub use change::{Body, Cell, Change, Commit, Ended, Head};
pub use config::Config;
pub use error::ModelError;
pub use identity::Identity;
pub use laws::{
    capturable_entries_have_an_info, entries_have_one_info, keys_are_ordered, topics_name_tables,
};
pub use named_cell::NamedCell;
pub use row::{Key, Row, compare};
pub use table::{Column, RawColumn, RawRow, RawTable, TableInfo, TableKey, TableName};
