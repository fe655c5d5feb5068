//! Protocol version 2 of PostgreSQL's logical replication: transactions that the server streams in
//! blocks before they commit, turned into the messages of protocol version 1.
#![tactic(auto)]

mod decoding;
mod error;
mod laws;
mod messages;
mod unstream;

pub use error::StreamError;
pub use laws::{flat_messages_fit, one_refusal, stream_message_or_fault};
pub use messages::StreamMessage;
pub use unstream::Unstream;
