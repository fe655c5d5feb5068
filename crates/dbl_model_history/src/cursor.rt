ghost use Rattle.std.specs.Prelude.{◌≡◌, IfOk};

use dbl_base::DeepCopy;
use dbl_model_table::Key;
use std::alloc::{AllocError, Global};

/// The progress of the snapshot of a captured table.
#[derive(Debug, Drop)]
pub struct Cursor {
    /// The last key that was read, if one was.
    pub last: Option<Key>,
    /// Whether the table was read to its end.
    pub done: bool,
}

impl Cursor {
    /// An equal cursor.
    pub fn copy(&self, alloc: Global) -> Result<Cursor, AllocError>
        ensures { IfOk result (λ cursor. cursor ≡ self.now) }
    {
        let last = match &self.last {
            Some(key) => Some(key.copy(alloc)?),
            None => None,
        };
        Ok(Cursor {
            last,
            done: self.done,
        })
    }
}

impl DeepCopy for Cursor {
    fn deep_copy(&self, alloc: Global) -> Result<Cursor, AllocError> {
        self.copy(alloc)
    }
}
