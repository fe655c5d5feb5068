//! Disks that may stop at any call.
#![tactic(auto)]

mod disk;
mod extent;
mod file;
mod fuse;
mod laws;
mod memory;
mod refused;

pub use disk::{DISK_LIMIT, Disk};
pub use extent::Extent;
pub use file::FileDisk;
pub use fuse::FuseDisk;
pub use laws::torn_writes_add_up;
pub use memory::{Choice, MemDisk};
pub use refused::Refused;
