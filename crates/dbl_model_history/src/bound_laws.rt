//! Theorems about bounds of keys, and about the texts of watermarks, as contracts of empty
//! functions.

ghost use Rattle.dbl_model_history.specs.KeyBounds.{BoundsPartKeys, KeysAboveGoOn, KeysUpToGoBack};
ghost use Rattle.dbl_model_history.specs.MarkTexts.{MarksTellNumbers, MarksAreShort};

/// A bound divides keys: each is above it or up to it, and none is both.
pub fn bounds_part_keys()
    ensures { BoundsPartKeys }
{}

/// A key after one that is above a bound is above it.
pub fn keys_above_go_on()
    ensures { KeysAboveGoOn }
{}

/// A key before one that is up to a bound is up to it.
pub fn keys_up_to_go_back()
    ensures { KeysUpToGoBack }
{}

/// The text of a watermark determines its incarnation, its number and its side.
pub fn marks_tell_numbers()
    ensures { MarksTellNumbers }
{}

/// The text of a watermark is UTF-8 of at most 43 bytes.
pub fn marks_are_short()
    ensures { MarksAreShort }
{}
