//! The messages in blocks of streamed transactions: the xid that a message belongs to, and whether
//! it was rolled back.
#![tactic(auto)]

mod items;

pub use items::{is_lost, origin_item};
