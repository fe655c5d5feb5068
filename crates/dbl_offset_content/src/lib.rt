//! The content of an offset store's slot: an offset, how its bytes are measured, written and read.
#![tactic(auto)]

mod cursors;
mod decoding;
mod entry;
mod infos;
mod laws;
mod measuring;
mod offset;
mod reading;
mod tables;
mod writing;

pub use dbl_offset_versions::FORMAT;
pub use decoding::decode;
pub use infos::SharedInfos;
pub use laws::offsets_are_spelled_once;
pub use measuring::{OFFSET_LIMIT, measure};
pub use offset::Offset;
pub use writing::{LENGTH_BYTES, bytes, encode};
