ghost use Rattle.std.specs.Prelude.{◌≡◌, codes};

use dbl_base::Text;
use dbl_compact_ended::EndedRows;
use std::alloc::Global;

/// Reads records from the last to the first, and reports of each whether a compaction keeps it. It
/// keeps the topics and keys of rows that are ended, and no record.
#[derive(Drop)]
pub struct Compactor {
    pub(crate) alloc: Global,
    pub(crate) placeholder: Text,
    pub(crate) null: Text,
    pub(crate) ended: EndedRows,
    ghost is_null: { null ≡ codes "null" },
}
