//! Theorems about sources of workloads. The functions do nothing: their contracts are the theorems.

ghost use Rattle.dbl_demo_laws.specs.Laws.{CallsUndoNothing, EntriesAreWrittenAsPromised};
ghost use Rattle.dbl_demo_laws.specs.Laws.{GroupsAnswerAsPromised, ReadsAnswerAsPromised};
ghost use Rattle.dbl_demo_laws.specs.Laws.{SelectsAnswerAsPromised, SourcesStandWell};
ghost use Rattle.dbl_demo_laws.specs.Laws.{CrashesLeaveWhatFollows};

use dbl_disk::Disk;

/// A source has at most one state, its positions ascend, what it has read is correct, and a crash
/// leaves only that state.
pub fn sources_stand_well<D: Disk>()
    ensures { SourcesStandWell D.Disk }
{}

/// What `describe`, `head` and `start` return after a group keeps the contract of every source.
pub fn groups_answer_as_promised<D: Disk>()
    ensures { GroupsAnswerAsPromised D.Disk }
{}

/// A watermark and a confirmed position after a group keep the contract of every source.
pub fn entries_are_written_as_promised<D: Disk>()
    ensures { EntriesAreWrittenAsPromised D.Disk }
{}

/// The rows that a select takes between two groups keep the contract of every source.
pub fn selects_answer_as_promised<D: Disk>()
    ensures { SelectsAnswerAsPromised D.Disk }
{}

/// What a read returns after its groups keeps the contract of every source.
pub fn reads_answer_as_promised<D: Disk>()
    ensures { ReadsAnswerAsPromised D.Disk }
{}

/// If a crash leaves a first part of what a call adds, it leaves a state that may follow the
/// source's.
pub fn crashes_leave_what_follows<D: Disk>()
    ensures { CrashesLeaveWhatFollows D.Disk }
{}

/// Every call that adds to the log extends the source.
pub fn calls_undo_nothing<D: Disk>()
    ensures { CallsUndoNothing D.Disk }
{}
