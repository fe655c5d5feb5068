//! The store of a connector's offset: how far its records were delivered, stored on a disk so that a
//! crash leaves the old offset or the new one.
#![tactic(auto)]

mod error;
mod finding;
mod formats;
mod laws;
mod slots;
mod store;

pub use dbl_offset_content::{Offset, SharedInfos, offsets_are_spelled_once};
pub use error::OffsetError;
pub use formats::bytes;
pub use laws::{
    bytes_are_a_store_or_not, stores_are_read_once, stores_come_of_stores, stores_hold_one_offset,
    stores_or_faults, torn_stores_are_empty,
};
pub use store::OffsetStore;
