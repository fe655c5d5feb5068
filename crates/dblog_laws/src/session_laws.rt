//! What a session supports: theorems, as contracts of empty functions.

ghost use Rattle.dblog_laws.specs.SessionLaws.{FaithfulSessionsEnd, SupportedSessionsEnd};

use dbl_disk::Disk;
use dbl_source::Source;
use dbl_topic::Sink;

/// A session that could begin, and met only what is supported, ends normally, unless a device
/// failed or memory ran out.
pub fn supported_sessions_end<S: Source, K: Sink>()
    ensures { SupportedSessionsEnd S.stands K.holds }
{}

/// A session over a conforming source and faithful stores, by the clauses of its contract, ends
/// normally, unless a device failed or memory ran out.
pub fn faithful_sessions_end<S: Source, K: Sink, D: Disk>()
    ensures { FaithfulSessionsEnd S.Source K.Sink D.Disk }
{}
