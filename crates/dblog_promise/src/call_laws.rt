//! The theorem on calls of a session, over any source, sink and store, as the contract of an empty
//! function.

ghost use Rattle.dblog_promise.specs.Calls.{CallsKeepPromises};

use dbl_disk::Disk;
use dbl_source::Source;
use dbl_topic::Sink;

/// Any number of session calls over conforming sources, whose leftovers meet the session's clause
/// `faithful`, keep the session's guarantees.
pub fn calls_keep_promises<S: Source, K: Sink, D: Disk>()
    ensures { CallsKeepPromises S.Source K.Sink D.Disk }
{}
