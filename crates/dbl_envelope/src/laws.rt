//! The crate's theorem; the function has an empty body.

ghost use Rattle.dbl_envelope.specs.Suits.{FittingSuits};

/// Changes and windows valid for the captured tables are accepted by a writer of these tables.
pub fn fitting_suits()
    ensures { FittingSuits }
{}
