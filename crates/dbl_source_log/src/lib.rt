//! A log of commits, as a source's history and as the messages that are read of it.
#![tactic(auto)]

mod alterations;
mod error;
mod laws;
mod logged;
mod reader_position;
mod reading;
mod relations;
mod transactions;

pub use alterations::tables_through;
pub use error::SourceError;
pub use laws::{
    changes_state_themselves, entries_are_of_tables, fair_logs_are_read_right,
    fit_logs_have_fit_histories, fit_logs_have_their_rows, logs_that_grow_have_histories_that_grow,
    read_messages_stay, readers_at_the_end_have_read_all, readers_read_what_is_sent,
    sent_messages_stay,
};
pub use logged::{LogTable, Logged};
pub use reader_position::ReaderPosition;
pub use reading::{Described, Description, Step, next_step, remember};
pub use relations::{mark_message, relation_at};
pub use transactions::{begin_message, commit_message, commits_upto, lsn_of, oid_at};
