//! Theorems about the answers of `replay` and `apply --lines`; the functions have empty bodies.

ghost use Rattle.dblog_streams.specs.Applies.{ApplyAnswersAreOne, ApplyAnswersExist};
ghost use Rattle.dblog_streams.specs.Replays.{ReplayAnswersAreOne, ReplayAnswersExist};
ghost use Rattle.dblog_streams.specs.Replays.{StringsAreOne, StringsExist};

/// An input encodes exactly one list of byte strings, or has exactly one error.
pub fn strings_are_encoded()
    ensures one { StringsAreOne }
    ensures some { StringsExist }
{}

/// An input has exactly one answer of `replay`.
pub fn inputs_are_replayed()
    ensures one { ReplayAnswersAreOne }
    ensures some { ReplayAnswersExist }
{}

/// An input has exactly one answer of `apply --lines`.
pub fn inputs_are_applied()
    ensures one { ApplyAnswersAreOne }
    ensures some { ApplyAnswersExist }
{}
