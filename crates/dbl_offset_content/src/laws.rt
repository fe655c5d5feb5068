//! Theorems about offsets and their bytes, as contracts of empty functions.

ghost use Rattle.std.specs.Prelude.{◌≡◌, ℕ, List};
ghost use Rattle.dbl_offset_content.specs.declared.offset.Offset.{Offset};
ghost use Rattle.dbl_offset_content.specs.Entries.{FitsOffset, offset_bytes_form};
ghost use Rattle.dbl_offset_content.specs.Offsets.{IsOffset, EncodesOffset};

/// Bytes encode at most one offset, and each valid offset that the format can represent has its
/// bytes in the format that is stored.
pub fn offsets_are_spelled_once()
    ensures one { (bytes : List ℕ) (first second : Offset) → EncodesOffset bytes first →
        EncodesOffset bytes second → first ≡ second }
    ensures spelled { (offset : Offset) → IsOffset offset → FitsOffset offset →
        EncodesOffset (offset_bytes_form offset) offset }
{}
