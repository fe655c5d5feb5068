//! The disks of a case, each in memory.

use dbl_disk::{Choice, Disk, MemDisk};
use std::alloc::{AllocError, Global};
use std::mem;

/// One of the disks.
#[derive(Clone, Copy)]
pub enum Place {
    Wal,
    Topics,
    Offsets,
}

impl Place {
    /// The disk of this name.
    pub fn named(name: &str) -> Option<Place> {
        match name {
            "wal" => Some(Place::Wal),
            "topics" => Some(Place::Topics),
            "offsets" => Some(Place::Offsets),
            _ => None,
        }
    }
}

/// The disks that the runs of a case share.
#[derive(Drop)]
pub struct MemDisks {
    pub wal: MemDisk,
    pub topics: MemDisk,
    pub offsets: MemDisk,
}

// A disk with these bytes, which are synced. A case has no disk of more than a million of them.
fn holding(alloc: Global, bytes: &[u8]) -> Result<MemDisk, AllocError> {
    if bytes.len() > 1_000_000 {
        return Err(AllocError);
    }
    let mut disk = MemDisk::make(alloc, Vec::new(alloc));
    let left = match disk.write_at(0, bytes) {
        Ok(()) => disk.crash(Choice::New),
        Err(_) => Err(AllocError),
    };
    drop(disk);
    left
}

// Puts a disk in place of another, which is dropped by name: that is one call, whereas an
// assignment drops it part by part.
fn replace(disk: &mut MemDisk, by: MemDisk) {
    drop(mem::replace(disk, by));
}

impl MemDisks {
    /// Three empty disks.
    pub fn empty(alloc: Global) -> MemDisks {
        MemDisks {
            wal: MemDisk::make(alloc, Vec::new(alloc)),
            topics: MemDisk::make(alloc, Vec::new(alloc)),
            offsets: MemDisk::make(alloc, Vec::new(alloc)),
        }
    }

    /// What a read of the disk returns.
    pub fn bytes(&self, place: Place) -> &Vec<u8> {
        match place {
            Place::Wal => self.wal.bytes(),
            Place::Topics => self.topics.bytes(),
            Place::Offsets => self.offsets.bytes(),
        }
    }

    /// Whether a read of each disk returns what one of the other's does.
    pub fn read_as(&self, other: &MemDisks) -> bool {
        self.wal.bytes() == other.wal.bytes()
            && self.topics.bytes() == other.topics.bytes()
            && self.offsets.bytes() == other.offsets.bytes()
    }

    /// Makes these what is found of other disks after a crash.
    pub fn find(&mut self, disks: &MemDisks, choice: Choice) -> Result<(), AllocError> {
        replace(&mut self.wal, disks.wal.crash(choice)?);
        replace(&mut self.topics, disks.topics.crash(choice)?);
        replace(&mut self.offsets, disks.offsets.crash(choice)?);
        Ok(())
    }

    /// Puts these bytes on the disk in place of its contents.
    pub fn put(&mut self, alloc: Global, place: Place, bytes: &[u8]) -> Result<(), AllocError> {
        let disk = holding(alloc, bytes)?;
        match place {
            Place::Wal => replace(&mut self.wal, disk),
            Place::Topics => replace(&mut self.topics, disk),
            Place::Offsets => replace(&mut self.offsets, disk),
        }
        Ok(())
    }
}
