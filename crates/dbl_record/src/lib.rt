//! Records of a topic, and their encodings.
#![tactic(auto)]

mod acts;
mod error;
pub mod fields;
mod groups;
mod laws;
mod parsed;
mod reading;
mod record;
mod writing;

pub use acts::{Act, ConsumeError, GivenCell, HeldCell, Operation};
pub use error::RecordError;
pub use groups::{append_group, group_length, read_group, record_length, write_group};
pub use laws::{
    compact_texts_read_back, cuts_join, groups_are_read_once, groups_or_faults, lines_read_back,
    lines_read_once, lines_tell_records, records_tell_data, short_groups_have_a_form,
    texts_tell_data, tops_are_one, tops_stand,
};
pub use parsed::ParsedLine;
pub use reading::{Line, parse_line, read_line};
pub use record::Record;
pub use writing::{append_line, append_quoted, line};
