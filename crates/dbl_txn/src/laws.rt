//! Theorems about assemblers, as contracts of empty functions.

ghost use Rattle.dbl_txn.specs.Stands.{EitherCallMayBegin};

/// Between transactions an assembler may go on by either call, `take` or `piece`.
pub fn either_call_may_begin()
    ensures { EitherCallMayBegin }
{}
