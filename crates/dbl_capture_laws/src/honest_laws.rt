//! What never stops a session: theorems, as contracts of empty functions.

ghost use Rattle.dbl_capture_laws.specs.Honest.{CapturedTablesCanBeCaptured};
ghost use Rattle.dbl_capture_laws.specs.Honest.{HonestTransactionsFail, SpelledBytesNeverHalt};

/// Bytes that encode a message never stop a session as malformed.
pub fn spelled_bytes_never_halt()
    ensures { SpelledBytesNeverHalt }
{}

/// A transaction of a conforming source is invalid only by its content.
pub fn honest_transactions_fail()
    ensures { HonestTransactionsFail }
{}

/// Tables whose descriptions agree with the catalogue can be captured.
pub fn captured_tables_can_be_captured()
    ensures { CapturedTablesCanBeCaptured }
{}
