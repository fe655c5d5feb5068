//! What is pending of streamed transactions: the messages of their blocks, and which of these were
//! rolled back.
#![tactic(auto)]

mod pending;

pub use pending::{
    Pending, Transactions, abort_subtransaction, buffer_message, buffer_origin, make_room,
};
