//! Helpers that all readers use. They read fields as `dbl_record` does. The position of an error is
//! never reported, so they pass 0 for the number of all bytes.

ghost use Rattle.dbl_record.specs.GroupReading.{Gives};
ghost use Rattle.dbl_offset_content.specs.Reading.{offset_byte_at};

use dbl_offset_versions::NO_OFFSET;
use dbl_record::RecordError;

/// The first byte, and the bytes after it.
#[tactic(auto, unfolding(crate::specs::Reading::offset_byte_at))]
pub(crate) fn byte(bytes: &[u8]) -> Result<(u8, &[u8]), RecordError>
    ensures { Gives (λ x. (x.0, x.1.now)) result (offset_byte_at bytes.now) }
{
    match bytes {
        [] => Err(NO_OFFSET),
        [byte, rest @ ..] => Ok((*byte, rest)),
    }
}
