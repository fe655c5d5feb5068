//! When a run must succeed: theorems, as contracts of empty functions.

ghost use Rattle.dblog_run.specs.Init.declared.disks.Disks.{Disks};
ghost use Rattle.dblog_laws.specs.Budgets.{FewMessagesAreSent, GeneratedBudgetsSuffice};
ghost use Rattle.dblog_laws.specs.Budgets.{GenerousBudgetsSuffice};
ghost use Rattle.dblog_laws.specs.Budgets.{GenerousBudgetsSufficeAgain, SentMessagesAreFew};
ghost use Rattle.dblog_laws.specs.RunLaws.{GeneratedInitsSucceed, GeneratedStatusesTellBudgets};
ghost use Rattle.dblog_laws.specs.KeptLogs.{KeptLogsAreTrue};
ghost use Rattle.dblog_laws.specs.RunLaws.{NoCellStopsSessions, OnlyUnsentMovesStopSessions};
ghost use Rattle.dblog_laws.specs.RunLaws.{OtherRunsSucceed, PrintedWorkloadsSucceed};
ghost use Rattle.dblog_laws.specs.RunLaws.{StatusesTellBudgets, SupportedGeneratedRunsSucceed};
ghost use Rattle.dblog_laws.specs.RunLaws.{SupportedRunsSucceed, SupportedSessionsSucceed};
ghost use Rattle.dblog_laws.specs.Sequences.{DisksStayKept};

use dbl_disk::Disk;

/// A supported session over crash-consistent disks ends normally, unless a disk fails, memory runs
/// out or a record is refused.
pub fn supported_sessions_succeed<W: Disk, T: Disk, F: Disk>()
    ensures { (old new : Disks W T F) →
        SupportedSessionsSucceed (W.may_leave old.wal) (T.may_leave old.topics)
        (W.may_leave new.wal) (T.may_leave new.topics) (F.may_leave new.offsets) }
{}

/// A supported `capture` or `resume` exits with 0, 3 or 12, if no device failed and no record was
/// refused.
pub fn supported_runs_succeed<W: Disk, T: Disk, F: Disk>()
    ensures { (old new : Disks W T F) →
        SupportedRunsSucceed
        (W.may_leave old.wal) (T.may_leave old.topics) (F.may_leave old.offsets)
        (W.may_leave new.wal) (T.may_leave new.topics) (F.may_leave new.offsets) }
{}

/// Any number of runs and crashes leaves crash-consistent disks crash-consistent, and each further
/// run keeps the connector's guarantees.
pub fn disks_stay_kept<W: Disk, T: Disk, F: Disk>()
    ensures { DisksStayKept W.Disk T.Disk F.Disk }
{}

/// Over crash-consistent disks the topic log is exact, and each cell that a consumer of it has is
/// the source's at some point from the stored offset on.
pub fn kept_logs_are_true<W: Disk, T: Disk, F: Disk>()
    ensures { KeptLogsAreTrue W.Disk T.Disk F.Disk }
{}

/// Over crash-consistent disks no session stops at a cell that parses as no value.
pub fn no_cell_stops_sessions<W: Disk, T: Disk, F: Disk>()
    ensures { NoCellStopsSessions W.Disk T.Disk F.Disk }
{}

/// Over crash-consistent disks a session stops at an invalid transaction only if an update moves a
/// key and leaves a cell unsent.
pub fn only_unsent_moves_stop_sessions<W: Disk, T: Disk, F: Disk>()
    ensures { OnlyUnsentMovesStopSessions W.Disk T.Disk F.Disk }
{}

/// A session that exits with 3 has used up its message budget exactly, and one that exits with 0
/// hasn't.
pub fn statuses_tell_budgets<W: Disk, T: Disk, F: Disk>()
    ensures { (old new : Disks W T F) →
        StatusesTellBudgets (W.may_leave old.wal) (T.may_leave old.topics) (F.may_leave old.offsets)
        (W.may_leave new.wal) (T.may_leave new.topics) (F.may_leave new.offsets) }
{}

/// A supported `gen --run` on empty disks, of a workload that can be run, exits with 0, 3 or 12, if
/// no device failed.
pub fn supported_generated_runs_succeed<W: Disk, T: Disk, F: Disk>()
    ensures { SupportedGeneratedRunsSucceed W.Disk T.Disk F.Disk }
{}

/// The `init` part of `gen --run` succeeds, or memory ran out.
pub fn generated_inits_succeed<W: Disk, T: Disk, F: Disk>()
    ensures { GeneratedInitsSucceed W.Disk T.Disk F.Disk }
{}

/// A `gen --run` that exits with 3 has used up its capture's message budget exactly, and one that
/// exits with 0 hasn't.
pub fn generated_statuses_tell_budgets<W: Disk, T: Disk, F: Disk>()
    ensures { GeneratedStatusesTellBudgets W.Disk T.Disk F.Disk }
{}

/// Each other command exits with 0 or 12, if its input is what it requires and no device failed.
pub fn other_runs_succeed()
    ensures { OtherRunsSucceed }
{}

/// `gen` exits with 0 or 12, if no device failed, for any streams and disks.
pub fn printed_workloads_succeed()
    ensures { PrintedWorkloadsSucceed }
{}

/// A fair log is sent as at most the messages of its commits, a Relation of each table, and one
/// message more.
pub fn sent_messages_are_few()
    ensures { SentMessagesAreFew 1 }
{}

/// The log of a workload, after its rows, is sent as at most the messages of its whole serial run
/// and of the watermarks.
pub fn few_messages_are_sent()
    ensures { FewMessagesAreSent 1 }
{}

/// A first session doesn't use up a message budget above the workload's bound.
pub fn generous_budgets_suffice<W: Disk, T: Disk, F: Disk>()
    ensures { (old new : Disks W T F) →
        GenerousBudgetsSuffice 1
        (W.may_leave old.wal) (T.may_leave old.topics) (F.may_leave old.offsets)
        (W.may_leave new.wal) (T.may_leave new.topics) (F.may_leave new.offsets) }
{}

/// A `resume` doesn't use up a message budget above the workload's bound and the messages that were
/// unsent when it began.
pub fn generous_budgets_suffice_again<W: Disk, T: Disk, F: Disk>()
    ensures { (old new : Disks W T F) →
        GenerousBudgetsSufficeAgain 1
        (W.may_leave old.wal) (T.may_leave old.topics) (F.may_leave old.offsets)
        (W.may_leave new.wal) (T.may_leave new.topics) (F.may_leave new.offsets) }
{}

/// The capture of `gen --run` doesn't use up a message budget above the workload's bound.
pub fn generated_budgets_suffice<W: Disk, T: Disk, F: Disk>()
    ensures { GeneratedBudgetsSuffice 1 W.Disk T.Disk F.Disk }
{}
