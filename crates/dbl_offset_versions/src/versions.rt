ghost use Rattle.std.specs.Prelude.{OnOk};
ghost use Rattle.dbl_record.specs.Fields.{Extends};
ghost use Rattle.dbl_record.specs.GroupReading.{Gives};
ghost use Rattle.dbl_offset_versions.specs.Versions.{table_version_at, version_form};

use dbl_record::RecordError;
use dbl_record::fields::{append_number64, read_number64};
use std::alloc::AllocError;

/// The error of bytes that encode no offset. The position of an error is never reported.
pub const NO_OFFSET: RecordError = RecordError::BadRecord { at: 0 };

/// The number of the format without versions, which is read, but not stored any more.
pub const FIRST_FORMAT: u8 = 1;

/// The number of the format that is stored.
pub const FORMAT: u8 = 2;

/// Reads a table's version, which is 1 in format 1, and the bytes after it.
#[tactic(auto, unfolding(crate::specs::Versions::table_version_at))]
pub fn read_version(format: u8, bytes: &[u8]) -> Result<(u64, &[u8]), RecordError>
    ensures { Gives (λ x. (x.0, x.1.now)) result (table_version_at format bytes.now) }
{
    if format == FIRST_FORMAT {
        return Ok((1, bytes));
    }
    let (version, rest) = read_number64(0, bytes)?;
    if version == 0 {
        return Err(NO_OFFSET);
    }
    Ok((version, rest))
}

/// Appends a table's version, which format 1 doesn't have.
#[tactic(auto, unfolding(crate::specs::Versions::version_form))]
pub fn write_version(out: &mut Vec<u8>, format: u8, version: u64) -> Result<(), AllocError>
    ensures { OnOk result (Extends out.old.items (version_form format version) out.new.items) }
{
    if format == FIRST_FORMAT {
        return Ok(());
    }
    append_number64(out, version)
}
