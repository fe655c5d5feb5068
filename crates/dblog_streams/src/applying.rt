//! The command `apply --lines`: the rows of a consumer of the input's lines.
ghost use Rattle.std.specs.Prelude.{◌≡◌, ◌≢◌, ◌⊎◌, ℕ, ◌≤◌, List, [], length, Some};
ghost use Rattle.dbl_base.specs.Streams.{FaultCounted, input_limit};
ghost use Rattle.dbl_record.specs.Acts.{Reading};
ghost use Rattle.dbl_record.specs.Consumers.{consumer_of};
ghost use Rattle.dbl_lines.specs.declared.status.Status.TheVariants.{Done, StdinFailed};
ghost use Rattle.dbl_lines.specs.declared.status.Status.TheVariants.{StdoutFailed, OutOfMemory};
ghost use Rattle.dbl_lines.specs.declared.status.Status.TheVariants.{InvalidInput};
ghost use Rattle.dblog_streams.specs.Answers.{EndsAs, FailsReading};
ghost use Rattle.dbl_lines.specs.Says.{Says};
ghost use Rattle.dbl_consume.specs.Holdings.{Took, placeholder_of};
ghost use Rattle.dblog_streams.specs.Applies.{PrintedAs, RunsApplying, line_fault};
ghost use Rattle.dblog_streams.specs.Statuses.{IsApplyStatus};

use crate::input::read_text;
use dbl_base::{Input, Output, Text};
use dbl_consume::Consumer;
use dbl_lines::{LongText, RunError, Status, say, write_text};
use dblog_replay::{FaultAt, LineFault, PrintError, consume};
use std::alloc::Global;

fn say_fault<O: Output>(alloc: Global, at: &FaultAt, output: &mut O) -> Status
    ensures told { at.now.fault ≢ LineFault.Memory →
        EndsAs (line_fault at.now) result (O.written output.old) (O.written output.new) }
    ensures memory { at.now.fault ≡ LineFault.Memory →
        Says RunError.Memory result (O.written output.old) (O.written output.new) }
    ensures output_failed { result ≡ StdoutFailed →
        FaultCounted (O.faults output.old) (O.faults output.new) }
    ensures known { (result ≡ InvalidInput) ⊎
        ((result ≡ StdoutFailed) ⊎ (result ≡ OutOfMemory)) }
{
    if let LineFault::Memory = &at.fault {
        return say(alloc, RunError::Memory, output);
    }
    match at.text(alloc) {
        Ok(text) => write_text(text.as_str(), Status::InvalidInput, output),
        Err(_) => say(alloc, RunError::Memory, output),
    }
}

fn print_rows<O: Output>(alloc: Global, held: &Consumer, output: &mut O) -> Status
    ensures told { (taken : List Reading) → Took taken held.now →
        PrintedAs (consumer_of (placeholder_of held.now) taken) result
        (O.written output.old) (O.written output.new) }
    ensures output_failed { result ≡ StdoutFailed →
        FaultCounted (O.faults output.old) (O.faults output.new) }
    ensures known { (result ≡ Done) ⊎
        ((result ≡ StdoutFailed) ⊎ (result ≡ OutOfMemory)) }
{
    match held.print(output) {
        Ok(_) => Status::Done,
        Err(PrintError::OutputFailed) => Status::StdoutFailed,
        Err(PrintError::Memory) => say(alloc, RunError::Memory, output),
    }
}

fn apply_text<O: Output>(alloc: Global, placeholder: Text, text: LongText, output: &mut O) -> Status
    requires { length text ≤ input_limit }
    ensures told { RunsApplying placeholder text result
        (O.written output.old) (O.written output.new) }
    ensures output_failed { result ≡ StdoutFailed →
        FaultCounted (O.faults output.old) (O.faults output.new) }
    ensures not_input { result ≢ StdinFailed }
    ensures known { IsApplyStatus result }
{
    match consume(alloc, placeholder, text) {
        Ok(held) => print_rows(alloc, &held, output),
        Err(at) => say_fault(alloc, &at, output),
    }
}

/// Reads the input whole, applies its lines, and returns the status.
pub fn apply_lines<I: Input, O: Output>(
    alloc: Global,
    placeholder: Text,
    input: &mut I,
    output: &mut O,
) -> Status
    ensures told { (bytes : List ℕ) → I.left input.old ≡ Some bytes →
        RunsApplying placeholder bytes result (O.written output.old) (O.written output.new)
        ⊎ FailsReading (I.faults input.old) (I.faults input.new) result
        (O.written output.old) (O.written output.new) }
    ensures whole { (bytes : List ℕ) → I.left input.old ≡ Some bytes → length bytes ≤ input_limit →
        (result ≡ Done) ⊎ (result ≡ InvalidInput) → I.left input.new ≡ Some [] }
    ensures known { IsApplyStatus result }
    ensures input_failed { result ≡ StdinFailed →
        FaultCounted (I.faults input.old) (I.faults input.new) }
    ensures output_failed { result ≡ StdoutFailed →
        FaultCounted (O.faults output.old) (O.faults output.new) }
{
    match read_text(alloc, input) {
        Ok(text) => apply_text(alloc, placeholder, text, output),
        Err(halt) => say(alloc, halt, output),
    }
}
