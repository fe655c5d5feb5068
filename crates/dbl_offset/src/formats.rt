//! The bytes of an offset in either format.

ghost use Rattle.std.specs.Prelude.{◌≡◌, IfOk, IfErr};
ghost use Rattle.dbl_offset_content.specs.Entries.{FitsOffset, bytes_in_format};
ghost use Rattle.dbl_offset_content.specs.Offsets.{HasFormat, IsOffset};

use crate::OffsetError;
use dbl_base::{Bytes, Seq};
use dbl_offset_content::Offset;
use std::alloc::Global;

/// The bytes of an entry with the offset in a format: 2, which a store writes, or 1, which has no
/// versions, and which a store reads as well.
pub fn bytes(alloc: Global, format: u8, offset: &Offset) -> Result<Bytes, OffsetError>
    requires format { HasFormat format offset.now }
    requires offset { IsOffset offset.now }
    requires fit { FitsOffset offset.now }
    ensures spelled { IfOk result (λ bytes. bytes ≡ bytes_in_format format offset.now) }
    ensures memory { IfErr result (λ e. e ≡ OffsetError.Memory) }
{
    let bytes = dbl_offset_content::bytes(alloc, format, offset)?;
    Ok(Seq::make(bytes))
}
