ghost use Rattle.std.specs.Prelude.{◌≡◌, IfOk};

use crate::infos::SharedInfos;
use dbl_base::{Lsn, Seq};
use dbl_model_history::Cursor;
use dbl_model_table::Identity;
use std::alloc::{AllocError, Global};

/// A connector's progress: the tables that it captures, and the position from which it continues
/// after a crash (Debezium PostgreSQL connector, "How the connector works").
#[derive(Debug, Drop)]
pub struct Offset {
    pub identity: Identity,
    /// The number of the session that stored it, counted from 1, at most 2^63.
    pub incarnation: u64,
    /// The position at which the first session began to read: the commits after it are captured.
    pub start: Lsn,
    /// The last commit of which all records were appended, or the start before there is one. The
    /// next session reads the commits after it.
    pub lsn: Lsn,
    /// Where that commit ends, or the start.
    pub end_lsn: Lsn,
    /// The captured tables, 1 to 64, of distinct names.
    pub infos: SharedInfos,
    /// The progress of each table's snapshot.
    pub cursors: Seq<Cursor>,
    /// The version of each table that `infos` describes, counted from 1.
    pub versions: Seq<u64>,
}

impl Offset {
    /// An equal offset, which shares the tables.
    pub fn copy(&self, alloc: Global) -> Result<Offset, AllocError>
        ensures { IfOk result (λ offset. offset ≡ self.now) }
    {
        let cursors = self.cursors.copy(alloc)?;
        self.with_cursors(alloc, cursors)
    }

    /// An offset that is equal but for these cursors, and shares the tables.
    pub fn with_cursors(&self, alloc: Global, cursors: Seq<Cursor>) -> Result<Offset, AllocError>
        ensures { IfOk result (λ offset. offset ≡ record self.now { cursors = cursors }) }
    {
        Ok(Offset {
            identity: self.identity.copy(alloc)?,
            incarnation: self.incarnation,
            start: self.start,
            lsn: self.lsn,
            end_lsn: self.end_lsn,
            infos: self.infos.share()?,
            cursors,
            versions: Seq::make(Vec::from_slice(alloc, self.versions.items().as_slice())?),
        })
    }
}
