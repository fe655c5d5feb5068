//! Theorems on the contents of the disks, as contracts of empty functions.

ghost use Rattle.dblog_promise.specs.Applied.{CompleteRunsAreApplied, KeptLogsArePrinted};
ghost use Rattle.dblog_promise.specs.PromiseLaws.{CompleteRunsLeaveTablesEqual, DisksAreReadOnce};
ghost use Rattle.dblog_promise.specs.PromiseLaws.{FreshStoresAreKept, KeptRunsArePromised};
ghost use Rattle.dblog_promise.specs.PromiseLaws.{RunsArePromised, SessionsGoOn};
ghost use Rattle.dblog_promise.specs.PromiseLaws.{SettledReportsAreRight, SmallLogsAreCounted};
ghost use Rattle.dblog_promise.specs.PromiseLaws.{WhatStaysGoesOn, WorkloadsHaveTables};

use dbl_disk::Disk;

/// The bytes of the disks are read as at most one contents.
pub fn disks_are_read_once()
    ensures { DisksAreReadOnce }
{}

/// The new stores of a workload, before any run, are crash-consistent.
pub fn fresh_stores_are_kept()
    ensures { FreshStoresAreKept }
{}

/// Unchanged contents extend themselves.
pub fn what_stays_goes_on()
    ensures { WhatStaysGoesOn }
{}

/// A session that keeps its guarantees only extends the contents that it found.
pub fn sessions_go_on()
    ensures { SessionsGoOn }
{}

/// A run over crash-consistent disks is one of the sessions of the theorems on restarts.
pub fn runs_are_promised()
    ensures { RunsArePromised }
{}

/// Crash-consistent contents that extend the old ones meet the guarantees.
pub fn kept_runs_are_promised()
    ensures { KeptRunsArePromised }
{}

/// A complete session leaves the tables equal to those of the whole workload.
pub fn complete_runs_leave_tables_equal<D: Disk>()
    ensures { CompleteRunsLeaveTablesEqual D.Disk }
{}

/// After a complete run `apply` prints the source's tables.
pub fn complete_runs_are_applied()
    ensures { CompleteRunsAreApplied }
{}

/// For crash-consistent disks with an offset, `apply` prints the consumer's state.
pub fn kept_logs_are_printed()
    ensures { KeptLogsArePrinted }
{}

/// A session's report agrees with the disks before and after it.
pub fn settled_reports_are_right<D: Disk>()
    ensures { SettledReportsAreRight D.Disk }
{}

/// The counts of a report are exact.
pub fn small_logs_are_counted()
    ensures { SmallLogsAreCounted }
{}

/// A workload that can be run has 1 to 64 tables with distinct names.
pub fn workloads_have_tables()
    ensures { WorkloadsHaveTables }
{}
