ghost use Rattle.std.specs.Prelude.{◌≡◌, IfOk};

use dbl_base::{DeepCopy, Text};
use std::alloc::{AllocError, Global};

/// A record of a topic: a change event, a tombstone or a progress record. Keys and values are
/// compact JSON texts, but the type allows any text.
#[derive(Drop, PartialEq, Eq)]
pub struct Record {
    pub topic: Text,
    pub key: Option<Text>,
    /// The change event; none in a tombstone.
    pub value: Option<Text>,
    /// The commit's LSN.
    pub position: u64,
    /// The index of the record within its commit, from 0.
    pub ordinal: u64,
    /// Whether the record is the last of its commit.
    pub last: bool,
    /// The row's new key, in a delete that results from a key update.
    pub newkey: Option<Text>,
    /// The row's old key, in a create that results from a key update.
    pub oldkey: Option<Text>,
}

impl Record {
    /// Copies the record.
    pub fn copy(&self, alloc: Global) -> Result<Record, AllocError>
        ensures { IfOk result (λ item. item ≡ self.now) }
    {
        Ok(Record {
            topic: self.topic.copy(alloc)?,
            key: self.key.deep_copy(alloc)?,
            value: self.value.deep_copy(alloc)?,
            position: self.position,
            ordinal: self.ordinal,
            last: self.last,
            newkey: self.newkey.deep_copy(alloc)?,
            oldkey: self.oldkey.deep_copy(alloc)?,
        })
    }
}

impl DeepCopy for Record {
    fn deep_copy(&self, alloc: Global) -> Result<Record, AllocError> {
        self.copy(alloc)
    }
}
