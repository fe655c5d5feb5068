//! The input of a command, read whole.
ghost use Rattle.std.specs.Prelude.{◌≡◌, ◌≢◌, ◌⊎◌, ℕ, ◌≤◌, List, []};
ghost use Rattle.std.specs.Prelude.{length, false, Some, Err, IfOk, IfErr, OnOk};
ghost use Rattle.dbl_base.specs.Streams.{FaultCounted, input_limit};
ghost use Rattle.dblog_streams.specs.Applies.{HaltsApplying};
ghost use Rattle.dblog_streams.specs.declared.unread.Unread.TheVariants.{Run};
ghost use Rattle.dblog_streams.specs.Streaming.{HaltsReading};

use crate::errors::reading_error;
use dbl_base::{Bytes, Input, read_all};
use dbl_lines::{LongText, RunError, read_long_text};
use std::alloc::Global;

/// The bytes of the input, which is read to its end, unless it is too long.
pub(crate) fn read_input<I: Input>(alloc: Global, input: &mut I) -> Result<Bytes, RunError>
    ensures all { (bytes : List ℕ) → I.left input.old ≡ Some bytes →
        IfOk result (λ read. read ≡ bytes) }
    ensures end { (bytes : List ℕ) → I.left input.old ≡ Some bytes →
        OnOk result (I.left input.new ≡ Some []) }
    ensures within { IfOk result (λ read. length read ≤ input_limit) }
    ensures halts { (bytes : List ℕ) → I.left input.old ≡ Some bytes →
        IfErr result (λ reason. HaltsReading false bytes (Run reason)) }
    ensures long { (bytes : List ℕ) → I.left input.old ≡ Some bytes → length bytes ≤ input_limit →
        IfErr result (λ halt. (halt ≡ RunError.InputFailed) ⊎ (halt ≡ RunError.Memory)) }
    ensures failed { result ≡ Err RunError.InputFailed →
        FaultCounted (I.faults input.old) (I.faults input.new) }
    ensures steady { (bytes : List ℕ) → I.left input.old ≡ Some bytes →
        result ≢ Err RunError.InputFailed → I.faults input.new ≡ I.faults input.old }
    ensures kinds { IfErr result
        (λ halt. (halt ≡ RunError.InputFailed)
        ⊎ ((halt ≡ RunError.InputTooLong) ⊎ (halt ≡ RunError.Memory))) }
    ensures command { IfErr result (λ halt. halt ≢ RunError.Usage) }
{
    match read_all(alloc, input) {
        Ok(bytes) => Ok(bytes),
        Err(error) => Err(reading_error(error)),
    }
}

/// The bytes of the input, unless it is too long.
pub(crate) fn read_text<I: Input>(alloc: Global, input: &mut I) -> Result<LongText, RunError>
    ensures all { (bytes : List ℕ) → I.left input.old ≡ Some bytes →
        IfOk result (λ read. read ≡ bytes) }
    ensures end { (bytes : List ℕ) → I.left input.old ≡ Some bytes →
        OnOk result (I.left input.new ≡ Some []) }
    ensures within { IfOk result (λ read. length read ≤ input_limit) }
    ensures long { (bytes : List ℕ) → I.left input.old ≡ Some bytes → length bytes ≤ input_limit →
        IfErr result (λ halt. (halt ≡ RunError.InputFailed) ⊎ (halt ≡ RunError.Memory)) }
    ensures applying { (bytes placeholder : List ℕ) → I.left input.old ≡ Some bytes →
        IfErr result (HaltsApplying placeholder bytes) }
    ensures failed { result ≡ Err RunError.InputFailed →
        FaultCounted (I.faults input.old) (I.faults input.new) }
    ensures steady { (bytes : List ℕ) → I.left input.old ≡ Some bytes →
        result ≢ Err RunError.InputFailed → I.faults input.new ≡ I.faults input.old }
    ensures kinds { IfErr result
        (λ halt. (halt ≡ RunError.InputFailed)
        ⊎ ((halt ≡ RunError.InputTooLong) ⊎ (halt ≡ RunError.Memory))) }
{
    match read_long_text(alloc, input) {
        Ok(text) => Ok(text),
        Err(error) => Err(reading_error(error)),
    }
}
