//! The commits that the messages of the log state.
#![tactic(auto)]

mod begun_laws;
mod message_parts;
mod piece;
mod piece_laws;
mod shape_laws;
mod state_laws;
mod txn_error;

pub use begun_laws::{
    begun_commits_were_begun, ended_commits_were_begun, open_changes_fit,
    stated_changes_fit_one_by_one,
};
pub use message_parts::{Relation, RowChange, Target};
pub use piece::Piece;
pub use piece_laws::{each_message_has_one_piece, pieces_are_joined};
pub use shape_laws::{same_columns_read_alike, unchanged_tables_may_be_reshaped};
pub use state_laws::{
    accepted_are_blocks, blocks_state_one_list, faultless_are_blocks, later_tables_change_nothing,
    rests_are_one, rests_are_open, stated_changes_fit,
};
pub use txn_error::TxnError;
