//! The consumer of change events: the state of its tables, by topic, key and column.
#![tactic(auto)]

mod acting;
mod cells;
mod classifying;
mod consumer;
mod kinds;
mod laws;
mod numbers;
mod parsed;
mod parsing;
mod part;
mod printing;
mod tables;
mod texts;

pub use classifying::kind;
pub use consumer::Consumer;
pub use dbl_lines::PrintError;
pub use dbl_record::{ConsumeError, HeldCell};
pub use kinds::Kind;
pub use laws::{rows_are_one, rows_stand};
pub use parsed::ParsedRecord;
pub use parsing::parse_record;
pub use tables::{Row, Table, Tables};
