//! Transactions assembled from the messages of a log: its commits, with their changes of captured
//! tables, whole or in pieces.
#![tactic(auto)]

mod assembler;
mod flags;
mod laws;
mod whole;

pub use assembler::Assembler;
pub use dbl_model_commit::{Piece, TxnError};
pub use dbl_model_table::{Ended, Head};
pub use laws::either_call_may_begin;
pub use whole::take_all;
