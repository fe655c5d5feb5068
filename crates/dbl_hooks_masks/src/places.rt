ghost use Rattle.std.specs.Prelude.{◌≡◌, Some, None, OnOk, OnErr, ℕ};
ghost use Rattle.dbl_hooks_masks.specs.Places.{place_in, HaveSamePlaces, IsPlaceSet};

use std::alloc::{AllocError, Global};
use std::collections::BTreeMap;

/// For each table, by the OID of its last Relation, the index of its masked column, if it has one.
#[derive(Drop)]
pub struct Places {
    indices: BTreeMap<u32, usize>,
}

impl Places {
    /// No table has a masked column. Takes no memory.
    pub fn new(alloc: Global) -> Places
        ensures { (oid : ℕ) → place_in result oid ≡ None }
    {
        Places {
            indices: BTreeMap::new(alloc),
        }
    }

    /// The index of the masked column of the table with this OID.
    pub fn get(&self, oid: u32) -> Option<usize>
        ensures { result ≡ place_in self.now oid }
    {
        self.indices.get(&oid).copied()
    }

    /// Sets the masked column of the table with this OID.
    pub fn set(&mut self, oid: u32, place: Option<usize>) -> Result<(), AllocError>
        ensures set { OnOk result (IsPlaceSet oid place self.old self.new) }
        ensures same { OnErr result (HaveSamePlaces self.old self.new) }
    {
        match place {
            Some(index) => {
                self.indices.insert(oid, index)?;
            }
            None => {
                self.indices.remove(&oid);
            }
        }
        Ok(())
    }
}
