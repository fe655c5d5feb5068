//! Theorems about the answers of `init`. The functions do nothing: their contracts are the
//! theorems.

ghost use Rattle.dblog_init.specs.Laws.{InitAnswersAreOne, InitAnswersStand};

/// The contents of the disks and the input have one answer at most.
pub fn init_answers_are_one()
    ensures { InitAnswersAreOne }
{}

/// The contents of the disks and the input have an answer.
pub fn init_answers_stand()
    ensures { InitAnswersStand }
{}
