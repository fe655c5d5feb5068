//! The messages of PostgreSQL's logical replication protocol (pgoutput, protocol version 1), and
//! their bytes.
#![tactic(auto)]

mod decoding;
mod encoding;
mod error;
mod fitting;
mod kinds;
mod laws;
mod messages;
mod reading;
mod rows;
mod writing;

pub use decoding::{decode, decode_fields};
pub use encoding::{append_message, encode};
pub use error::MsgError;
pub use laws::{
    one_message, one_spelling, round_trip, spelled_or_faulty, trailing_bytes, truncated_bytes,
};
pub use messages::{Message, OldTuple, RelationColumn, Tuple, TupleCell};
