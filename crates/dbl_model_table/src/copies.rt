//! Copies of tables and rows of a source's catalogue.

ghost use Rattle.std.specs.Prelude.{◌≡◌, IfOk};

use crate::table::{RawColumn, RawRow, RawTable};
use dbl_base::DeepCopy;
use std::alloc::{AllocError, Global};

impl DeepCopy for RawColumn {
    fn deep_copy(&self, alloc: Global) -> Result<RawColumn, AllocError> {
        Ok(RawColumn {
            name: self.name.copy(alloc)?,
            oid: self.oid,
        })
    }
}

impl RawTable {
    /// An equal table.
    pub fn copy(&self, alloc: Global) -> Result<RawTable, AllocError>
        ensures { IfOk result (λ raw. raw ≡ self.now) }
    {
        Ok(RawTable {
            name: self.name.copy(alloc)?,
            columns: self.columns.copy(alloc)?,
            key: self.key.copy(alloc)?,
            version: self.version,
        })
    }
}

impl RawRow {
    /// An equal row.
    pub fn copy(&self, alloc: Global) -> Result<RawRow, AllocError>
        ensures { IfOk result (λ row. row ≡ self.now) }
    {
        Ok(RawRow {
            cells: self.cells.copy(alloc)?,
        })
    }
}

impl DeepCopy for RawRow {
    fn deep_copy(&self, alloc: Global) -> Result<RawRow, AllocError> {
        self.copy(alloc)
    }
}
