//! The JSON texts of one event: its key, its value and its record, and the progress record of a
//! snapshot.
#![tactic(auto)]

mod event;
mod frame;
mod keys;
mod layout;
mod progress;
mod side;
mod source;
mod stamp;
mod texts;
mod tokens;
mod value;

pub use event::{
    created_record, deleted_record, moved_from, moved_to, plain_record, tombstone,
    truncated_record, updated_record,
};
pub use frame::Frame;
pub use keys::{is_key_of, key_json};
pub use layout::{Layout, Place};
pub use progress::progress_record;
pub use side::Side;
pub use source::tail_text;
pub use stamp::Stamp;
pub use texts::key_text;
pub use value::value_json;
