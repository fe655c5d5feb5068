//! The command `replay`: byte strings of the input, their messages, and the lines of these.
ghost use Rattle.std.specs.Prelude.{◌≡◌, ◌≢◌, ◌⊎◌, ℕ, ◌≤◌, List, [], length, false};
ghost use Rattle.std.specs.Prelude.{Some, option_map, Ok, Err, IfOk, IfErr, OnOk};
ghost use Rattle.std.specs.List.{AllByRecursion};
ghost use Rattle.dbl_base.specs.Streams.{FaultCounted, input_limit};
ghost use Rattle.dbl_lines.specs.declared.status.Status.TheVariants.{StdinFailed, StdoutFailed};
ghost use Rattle.dblog_streams.specs.Answers.{FailsReading};
ghost use Rattle.dbl_pgmsg.specs.Faults.{AreBytes};
ghost use Rattle.dblog_replay.specs.Pieces.{Piece};
ghost use Rattle.dblog_replay.specs.Masked.{masked_pieces};
ghost use Rattle.dblog_replay.specs.Streams.{ReadsPieces};
ghost use Rattle.dblog_streams.specs.Inputs.{EncodesStrings};
ghost use Rattle.dblog_streams.specs.Replays.{RunsLog, RunsReplaying, log_options, masking_of};
ghost use Rattle.dblog_streams.specs.Statuses.{IsReplayAnswer, IsReplayStatus};
ghost use Rattle.dblog_streams.specs.Streaming.{HaltsReading, IsFailure};

use crate::errors::line_error;
use crate::frames::read_payloads;
use crate::input::read_input;
use crate::unread::{Unread, say_unread};
use dbl_base::{Bytes, Input, Output};
use dbl_cli_commands::{MaskWord, ReplayOptions};
use dbl_hooks_masks::{Mask, Masking};
use dbl_lines::{RunError, Status, say};
use dbl_model_table::Identity;
use dblog_replay::{LogOptions, PrintError, print_log};
use std::alloc::Global;

// The byte strings that the lines of an input within the limit encode, which is freed.
fn strings_of(alloc: Global, text: Bytes) -> Result<Vec<Bytes>, Unread>
    requires { length text ≤ input_limit }
    ensures encodes { IfOk result (λ strings. EncodesStrings false text (Ok strings.items)) }
    ensures halts { IfErr result (HaltsReading false text) }
    ensures kinds { IfErr result (λ unread. unread ≢ Unread.Run RunError.InputFailed) }
    ensures command { IfErr result (λ unread. unread ≢ Unread.Run RunError.Usage) }
{
    match dblog_replay::messages(alloc, text.items().as_slice()) {
        Ok(strings) => Ok(strings),
        Err(error) => Err(Unread::Run {
            reason: line_error(error),
        }),
    }
}

// The byte strings of the lines of the input, which is read to its end, unless it is too long.
fn read_lines<I: Input>(alloc: Global, input: &mut I) -> Result<Vec<Bytes>, Unread>
    ensures encodes { (bytes : List ℕ) → I.left input.old ≡ Some bytes →
        IfOk result (λ strings. EncodesStrings false bytes (Ok strings.items)) }
    ensures small { IfOk result (λ strings. AllByRecursion AreBytes strings.items) }
    ensures halts { (bytes : List ℕ) → I.left input.old ≡ Some bytes →
        IfErr result (HaltsReading false bytes) }
    ensures end { (bytes : List ℕ) → I.left input.old ≡ Some bytes →
        OnOk result (I.left input.new ≡ Some []) }
    ensures whole { (bytes : List ℕ) → I.left input.old ≡ Some bytes → length bytes ≤ input_limit →
        IfErr result (λ unread. IsFailure unread ⊎ (I.left input.new ≡ Some [])) }
    ensures failed { result ≡ Err (Unread.Run RunError.InputFailed) →
        FaultCounted (I.faults input.old) (I.faults input.new) }
    ensures command { IfErr result (λ unread. unread ≢ Unread.Run RunError.Usage) }
{
    match read_input(alloc, input) {
        Ok(text) => strings_of(alloc, text),
        Err(reason) => Err(Unread::Run { reason }),
    }
}

// The byte strings of the input, as frames if it is `raw`, else as lines.
fn read_strings<I: Input>(alloc: Global, raw: bool, input: &mut I) -> Result<Vec<Bytes>, Unread>
    ensures encodes { (bytes : List ℕ) → I.left input.old ≡ Some bytes →
        IfOk result (λ strings. EncodesStrings raw bytes (Ok strings.items)) }
    ensures small { IfOk result (λ strings. AllByRecursion AreBytes strings.items) }
    ensures halts { (bytes : List ℕ) → I.left input.old ≡ Some bytes →
        IfErr result (HaltsReading raw bytes) }
    ensures end { (bytes : List ℕ) → I.left input.old ≡ Some bytes →
        OnOk result (I.left input.new ≡ Some []) }
    ensures whole { (bytes : List ℕ) → I.left input.old ≡ Some bytes → length bytes ≤ input_limit →
        IfErr result (λ unread. IsFailure unread ⊎ (I.left input.new ≡ Some [])) }
    ensures failed { result ≡ Err (Unread.Run RunError.InputFailed) →
        FaultCounted (I.faults input.old) (I.faults input.new) }
    ensures command { IfErr result (λ unread. unread ≢ Unread.Run RunError.Usage) }
{
    if raw {
        read_payloads(alloc, input)
    } else {
        read_lines(alloc, input)
    }
}

// Reads and replays the byte strings, and returns the status.
fn replay_strings<O: Output>(
    alloc: Global,
    options: LogOptions,
    stream: bool,
    strings: Vec<Bytes>,
    now_ms: &i64,
    output: &mut O,
) -> Status
    requires { AllByRecursion AreBytes strings.items }
    ensures told { (pieces : List Piece) → ReadsPieces stream strings.items pieces →
        RunsLog options now_ms.now (masked_pieces options.mask [] pieces) result
        (O.written output.old) (O.written output.new) }
    ensures output_failed { result ≡ StdoutFailed →
        FaultCounted (O.faults output.old) (O.faults output.new) }
    ensures not_input { result ≢ StdinFailed }
    ensures known { IsReplayStatus result }
{
    match print_log(alloc, options, stream, strings, now_ms, output) {
        Ok(status) => status,
        Err(PrintError::OutputFailed) => Status::StdoutFailed,
        Err(PrintError::Memory) => say(alloc, RunError::Memory, output),
    }
}

fn masking(word: MaskWord) -> Masking
    ensures { result ≡ masking_of word }
{
    let MaskWord {
        table,
        column,
        stars,
    } = word;
    Masking {
        table,
        column,
        mask: Mask::Stars(stars),
    }
}

fn requested_mask(word: Option<MaskWord>) -> Option<Masking>
    ensures { result ≡ option_map masking_of word }
{
    match word {
        Some(word) => Some(masking(word)),
        None => None,
    }
}

fn log_options(options: ReplayOptions) -> LogOptions
    ensures { result ≡ log_options options }
{
    let ReplayOptions {
        prefix,
        db,
        placeholder,
        keys,
        raw: _,
        stream: _,
        mask,
    } = options;
    LogOptions {
        identity: Identity {
            prefix,
            db,
            placeholder,
        },
        keys,
        mask: requested_mask(mask),
    }
}

/// Reads the input whole, replays its messages, and returns the status.
pub fn replay_input<I: Input, O: Output>(
    alloc: Global,
    options: ReplayOptions,
    now_ms: &i64,
    input: &mut I,
    output: &mut O,
) -> Status
    ensures told { (bytes : List ℕ) → I.left input.old ≡ Some bytes →
        RunsReplaying options now_ms.now bytes result (O.written output.old) (O.written output.new)
        ⊎ FailsReading (I.faults input.old) (I.faults input.new) result
        (O.written output.old) (O.written output.new) }
    ensures whole { (bytes : List ℕ) → I.left input.old ≡ Some bytes → length bytes ≤ input_limit →
        IsReplayAnswer result → I.left input.new ≡ Some [] }
    ensures known { IsReplayStatus result }
    ensures input_failed { result ≡ StdinFailed →
        FaultCounted (I.faults input.old) (I.faults input.new) }
    ensures output_failed { result ≡ StdoutFailed →
        FaultCounted (O.faults output.old) (O.faults output.new) }
{
    match read_strings(alloc, options.raw, input) {
        Ok(strings) => {
            let stream = options.stream;
            replay_strings(alloc, log_options(options), stream, strings, now_ms, output)
        }
        Err(unread) => say_unread(alloc, unread, output),
    }
}
