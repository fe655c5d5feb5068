ghost use Rattle.dbl_compact.specs.Laws.{KeptRecordsAreKept, KeptRecordsMakeTheSameConsumer};
ghost use Rattle.dbl_compact.specs.Laws.{MarkedRecordsAreKept};

/// A consumer of the kept records has the rows of a consumer of all records.
pub fn kept_records_make_the_same_consumer()
    ensures { KeptRecordsMakeTheSameConsumer }
{}

/// A compaction of kept records keeps all of them: compacting twice changes nothing more.
pub fn kept_records_are_kept()
    ensures { KeptRecordsAreKept }
{}

/// The records that are marked as kept are the kept records.
pub fn marked_records_are_kept()
    ensures { MarkedRecordsAreKept }
{}
