//! Which offsets are within a source's log: a theorem, as the contract of an empty function.

ghost use Rattle.dbl_capture_laws.specs.Awaited.{StoodOffsetsAreWithin};

/// An offset at a position of the log isn't above its last commit.
pub fn stood_offsets_are_within()
    ensures { StoodOffsetsAreWithin }
{}
