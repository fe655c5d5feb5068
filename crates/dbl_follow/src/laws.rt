//! Theorems about followers, as contracts of empty functions.

ghost use Rattle.dbl_follow.specs.Amid.{ArmedWithinTransactions};
ghost use Rattle.dbl_follow.specs.Laws.{StepsAreOne, OtherMarksDoNothing};

/// The state of a follower after a commit is unique.
pub fn steps_are_one()
    ensures { StepsAreOne }
{}

/// A watermark that the window doesn't wait for opens and closes nothing, and has no record.
pub fn other_marks_do_nothing()
    ensures { OtherMarksDoNothing }
{}

/// To arm a window within a transaction is to arm it before the transaction.
pub fn armed_within_transactions()
    ensures { ArmedWithinTransactions }
{}
