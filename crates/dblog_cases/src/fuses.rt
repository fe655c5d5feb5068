use crate::disks::Place;

/// How many calls each disk passes before all others fail, and the number of the read of the input
/// and of the write to the output that fail, counted from 1.
#[derive(Clone, Copy)]
pub struct Fuses {
    pub wal: u64,
    pub topics: u64,
    pub offsets: u64,
    pub read: u64,
    pub write: u64,
}

impl Fuses {
    /// No call burns these.
    pub fn none() -> Fuses {
        Fuses {
            wal: u64::MAX,
            topics: u64::MAX,
            offsets: u64::MAX,
            read: 0,
            write: 0,
        }
    }

    pub fn set(&mut self, place: Place, calls: u64) {
        match place {
            Place::Wal => self.wal = calls,
            Place::Topics => self.topics = calls,
            Place::Offsets => self.offsets = calls,
        }
    }
}
