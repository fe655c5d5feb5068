ghost use Rattle.std.specs.Prelude.{◌≡◌, IfOk};
ghost use Rattle.dbl_model_table.specs.Keys.{key_cmp};

use dbl_base::Seq;
use dbl_value_types::Val;
use std::alloc::{AllocError, Global};
use std::cmp::Ordering;

/// The key of a row: its key columns' cells, in key order. Keys of one table are ordered by their
/// cells from the first on, numbers by value and texts by bytes.
#[derive(Debug, Drop, PartialEq, Eq, PartialOrd, Ord)]
pub struct Key {
    pub cells: Seq<Val>,
}

/// A row: one cell for each column of its table.
#[derive(Drop)]
pub struct Row {
    pub cells: Seq<Val>,
}

impl Key {
    /// An equal key.
    pub fn copy(&self, alloc: Global) -> Result<Key, AllocError>
        ensures { IfOk result (λ key. key ≡ self.now) }
    {
        Ok(Key {
            cells: self.cells.copy(alloc)?,
        })
    }
}

impl Row {
    /// An equal row.
    pub fn copy(&self, alloc: Global) -> Result<Row, AllocError>
        ensures { IfOk result (λ row. row ≡ self.now) }
    {
        Ok(Row {
            cells: self.cells.copy(alloc)?,
        })
    }
}

/// The order of two keys of one table. Takes no memory.
pub fn compare(a: &Key, b: &Key) -> Ordering
    ensures { result ≡ key_cmp a.now b.now }
{
    a.cmp(b)
}
