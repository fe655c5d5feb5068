//! Theorems about the log of a workload. The functions do nothing: their contracts are the
//! theorems.

ghost use Rattle.dbl_demo_wal.specs.LogLaws.{AWalStands, LeavesOneWal};
ghost use Rattle.dbl_demo_wal.specs.LogLaws.{ReadingsAreSent, ReadsEndOnce};

use dbl_disk::Disk;

/// A read ends after exactly one number of steps, for every log.
pub fn reads_end_once()
    ensures { ReadsEndOnce }
{}

/// What was read since a start is a first part of what is sent after it.
pub fn readings_are_sent()
    ensures { ReadingsAreSent }
{}

/// A log with a watermark and a confirmed position exists: what is said of logs isn't said of none.
pub fn a_wal_stands()
    ensures { AWalStands }
{}

/// If a crash can leave the bytes of one log only, it leaves the state that they represent.
pub fn one_wal_is_left<D: Disk>()
    ensures { LeavesOneWal D.Disk }
{}
