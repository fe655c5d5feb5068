//! The loop over the byte strings of a log: the lines of the commits of their messages up to the
//! first error, and its line.
ghost use Rattle.std.specs.Prelude.{◌≡◌, ◌≢◌, Some, ◌∷◌, List, [], map, None, option_and_then, All};
ghost use Rattle.std.specs.Prelude.{IfSome, IfOk, IfErr, OnOk, Err};
ghost use Rattle.dbl_base.specs.Streams.{FailsOnlyIfCounted};
ghost use Rattle.dbl_lines.specs.Gathering.{PutsLines};
ghost use Rattle.dbl_pgmsg.specs.declared.messages.Message.{Message};
ghost use Rattle.dbl_pgmsg.specs.Grammar.{FitsFields};
ghost use Rattle.dbl_record.specs.Line.{line_of};
ghost use Rattle.dbl_model_event.specs.Clashes.{clash_of};
ghost use Rattle.dbl_model_table.specs.Rows.{changes_of};
ghost use Rattle.dbl_model_event.specs.EventJson.{envelopes};
ghost use Rattle.dbl_model_commit.specs.Stated.{list_of};
ghost use Rattle.dbl_envelope.specs.Clashing.{IsClash};
ghost use Rattle.dbl_envelope.specs.Suits.{Suits};
ghost use Rattle.dblog_replay.specs.declared.options.LogOptions.{LogOptions};
ghost use Rattle.dblog_replay.specs.Following.{FollowsMasked, IsReplaying};
ghost use Rattle.dblog_replay.specs.Log.{lines_in, commit_fault, end_fault, end_status, end_lines};
ghost use Rattle.dblog_replay.specs.LogFaults.{log_status, log_line};
ghost use Rattle.dblog_replay.specs.LogPrinting.{PutsCommit, StepsPrinting, StepsReading};
ghost use Rattle.dblog_replay.specs.LogPrinting.{PutsLog, PrintsLog, FinishesLog};
ghost use Rattle.dblog_replay.specs.Masked.{masked_pieces};
ghost use Rattle.dblog_replay.specs.Pieces.{Piece, Carries, AreRead};
ghost use Rattle.dblog_replay.specs.Streams.{ReadsPieces};

use crate::log_fault::LogFault;
use crate::masking::MaskingReplayer;
use crate::options::LogOptions;
use crate::printing::put_left;
use crate::reader::read_message;
use crate::streaming::put_streamed;
use dbl_base::{Bytes, Output, Text};
use dbl_envelope::{EnvelopeError, EventWriter, RecordsLeft};
use dbl_lines::{LineWriter, PrintError, Status};
use dbl_model_table::Commit;
use dbl_pgmsg::Message;
use std::alloc::{AllocError, Global};

pub(crate) fn unfinished_fault(inside: bool) -> Option<LogFault>
    ensures { result ≡ end_fault inside }
{
    if inside {
        Some(LogFault::Unfinished)
    } else {
        None
    }
}

// An error ends the lines, unless memory ran out.
pub(crate) fn stop_at(fault: LogFault) -> Result<Option<LogFault>, PrintError>
    ensures fault { IfOk result (λ found. found ≡ Some fault) }
    ensures other { OnOk result (fault ≢ LogFault.Memory) }
    ensures err { IfErr result (λ e. e ≡ PrintError.Memory) }
{
    match fault {
        LogFault::Memory => Err(PrintError::Memory),
        fault => Ok(Some(fault)),
    }
}

// The records of a commit, which are made in batches.
fn records_of<'a>(
    alloc: Global,
    writer: &'a EventWriter,
    commit: &'a Commit,
    now_ms: &i64,
) -> Result<RecordsLeft<'a>, EnvelopeError>
    requires { All (Suits writer.now.infos) (changes_of commit.now) }
    ensures ok { IfOk result
        (λ left. left ≡ envelopes writer.now.identity writer.now.infos commit.now now_ms.now) }
    ensures no_clash { OnOk result
        (clash_of writer.now.identity writer.now.infos commit.now ≡ None) }
    ensures err { IfErr result
        (IsClash (clash_of writer.now.identity writer.now.infos commit.now)) }
{
    writer.records_left(alloc, commit, *now_ms)
}

fn put_commit<O: Output>(
    alloc: Global,
    writer: &EventWriter,
    commit: &Commit,
    now_ms: &i64,
    output: &mut O,
    lines: &mut LineWriter,
) -> Result<Option<LogFault>, PrintError>
    requires { All (Suits writer.now.infos) (changes_of commit.now) }
    ensures puts { PutsCommit (commit_fault writer.now.identity writer.now.infos commit.now)
        (map line_of (envelopes writer.now.identity writer.now.infos commit.now now_ms.now))
        lines.old lines.new result (O.written output.old) (O.written output.new) }
    ensures cause { FailsOnlyIfCounted (result ≡ Err PrintError.OutputFailed)
        (O.faults output.old) (O.faults output.new) }
{
    let records = match records_of(alloc, writer, commit, now_ms) {
        Ok(records) => records,
        Err(EnvelopeError::Memory) => return Err(PrintError::Memory),
        Err(EnvelopeError::PlaceholderClash { table, column }) => {
            return Ok(Some(LogFault::Placeholder { table, column }));
        }
    };
    match put_left(alloc, records, output, lines) {
        Ok(()) => Ok(None),
        Err(error) => Err(error),
    }
}

fn put_ended<O: Output>(
    alloc: Global,
    writer: &EventWriter,
    ended: &Option<Commit>,
    now_ms: &i64,
    output: &mut O,
    lines: &mut LineWriter,
) -> Result<Option<LogFault>, PrintError>
    requires { IfSome ended.now (λ commit. All (Suits writer.now.infos) (changes_of commit)) }
    ensures puts { PutsCommit
        (option_and_then (commit_fault writer.now.identity writer.now.infos) ended.now)
        (lines_in writer.now.identity writer.now.infos (list_of ended.now) now_ms.now)
        lines.old lines.new result (O.written output.old) (O.written output.new) }
    ensures cause { FailsOnlyIfCounted (result ≡ Err PrintError.OutputFailed)
        (O.faults output.old) (O.faults output.new) }
{
    match ended {
        Some(commit) => put_commit(alloc, writer, commit, now_ms, output, lines),
        None => Ok(None),
    }
}

// Masks and processes the next message, which has this number, and appends the lines of the commit
// that it ends, or returns its error.
pub(crate) fn put_message<O: Output>(
    alloc: Global,
    replayer: &mut MaskingReplayer,
    number: u64,
    message: Message,
    now_ms: &i64,
    output: &mut O,
    lines: &mut LineWriter,
) -> Result<Option<LogFault>, PrintError>
    requires replaying { IsReplaying replayer.old }
    requires fits { FitsFields message }
    ensures steps { (options : LogOptions) (ms : List Message) →
        FollowsMasked options ms replayer.old
        → StepsPrinting options now_ms.now ms (Carries number message) lines.old lines.new
        replayer.new result (O.written output.old) (O.written output.new) }
    ensures cause { FailsOnlyIfCounted (result ≡ Err PrintError.OutputFailed)
        (O.faults output.old) (O.faults output.new) }
{
    match replayer.take(alloc, number, message) {
        Ok(ended) => put_ended(
            alloc,
            &replayer.replayer.writer,
            &ended,
            now_ms,
            output,
            lines,
        ),
        Err(fault) => stop_at(fault),
    }
}

// Reads the byte string of this number, which is freed, and processes its message, or returns its
// error.
fn put_bytes<O: Output>(
    alloc: Global,
    replayer: &mut MaskingReplayer,
    number: u64,
    bytes: Bytes,
    now_ms: &i64,
    output: &mut O,
    lines: &mut LineWriter,
) -> Result<Option<LogFault>, PrintError>
    requires { IsReplaying replayer.old }
    ensures steps { (options : LogOptions) (ms : List Message) →
        FollowsMasked options ms replayer.old
        → StepsReading options now_ms.now ms number bytes lines.old lines.new replayer.new result
        (O.written output.old) (O.written output.new) }
    ensures cause { FailsOnlyIfCounted (result ≡ Err PrintError.OutputFailed)
        (O.faults output.old) (O.faults output.new) }
{
    match read_message(alloc, number, bytes) {
        Ok(message) => put_message(alloc, replayer, number, message, now_ms, output, lines),
        Err(fault) => stop_at(fault),
    }
}

// Reads the byte strings, and appends the lines of all commits of their messages, up to the first
// error, which it returns, for a new replayer.
fn put_messages<O: Output>(
    alloc: Global,
    replayer: &mut MaskingReplayer,
    messages: Vec<Bytes>,
    now_ms: &i64,
    output: &mut O,
    lines: &mut LineWriter,
) -> Result<Option<LogFault>, PrintError>
    requires { (options : LogOptions) × FollowsMasked options [] replayer.old }
    ensures puts { (options : LogOptions) (pieces : List Piece) →
        FollowsMasked options [] replayer.old → AreRead 1 messages.items pieces
        → PutsLog options now_ms.now (masked_pieces options.mask [] pieces) lines.old lines.new
        result (O.written output.old) (O.written output.new) }
    ensures cause { FailsOnlyIfCounted (result ≡ Err PrintError.OutputFailed)
        (O.faults output.old) (O.faults output.new) }
{
    let mut number = 0u64;
    'messages: for bytes in messages {
        number += 1;
        match put_bytes(alloc, replayer, number, bytes, now_ms, output, lines) {
            Ok(None) => {}
            Ok(Some(fault)) => return Ok(Some(fault)),
            Err(error) => return Err(error),
        }
    }
    Ok(unfinished_fault(replayer.inside()))
}

// Reads the byte strings as a log of either protocol version, and appends the lines of all commits
// of their messages, up to the first error, which it returns, for a new replayer.
fn put_strings<O: Output>(
    alloc: Global,
    replayer: &mut MaskingReplayer,
    stream: bool,
    strings: Vec<Bytes>,
    now_ms: &i64,
    output: &mut O,
    lines: &mut LineWriter,
) -> Result<Option<LogFault>, PrintError>
    requires { (options : LogOptions) × FollowsMasked options [] replayer.old }
    ensures puts { (options : LogOptions) (pieces : List Piece) →
        FollowsMasked options [] replayer.old → ReadsPieces stream strings.items pieces
        → PutsLog options now_ms.now (masked_pieces options.mask [] pieces) lines.old lines.new
        result (O.written output.old) (O.written output.new) }
    ensures cause { FailsOnlyIfCounted (result ≡ Err PrintError.OutputFailed)
        (O.faults output.old) (O.faults output.new) }
{
    if stream {
        return put_streamed(alloc, replayer, strings, now_ms, output, lines);
    }
    put_messages(alloc, replayer, strings, now_ms, output, lines)
}

// Reads the byte strings, and appends the lines of all commits of their messages, up to the first
// error, which it returns.
fn put_log<O: Output>(
    alloc: Global,
    options: LogOptions,
    stream: bool,
    strings: Vec<Bytes>,
    now_ms: &i64,
    output: &mut O,
    lines: &mut LineWriter,
) -> Result<Option<LogFault>, PrintError>
    ensures puts { (pieces : List Piece) → ReadsPieces stream strings.items pieces
        → PutsLog options now_ms.now (masked_pieces options.mask [] pieces) lines.old lines.new
        result (O.written output.old) (O.written output.new) }
    ensures cause { FailsOnlyIfCounted (result ≡ Err PrintError.OutputFailed)
        (O.faults output.old) (O.faults output.new) }
{
    let mut replayer = match MaskingReplayer::make(alloc, options) {
        Ok(replayer) => replayer,
        Err(_) => return Err(PrintError::Memory),
    };
    let result = put_strings(alloc, &mut replayer, stream, strings, now_ms, output, lines);
    drop(replayer);
    result
}

fn line_of_fault(alloc: Global, fault: &LogFault) -> Result<Text, AllocError>
    ensures { IfOk result (λ line. line ≡ log_line fault.now) }
{
    Ok(Text::make(fault.line(alloc)?))
}

fn put_fault<O: Output>(
    alloc: Global,
    fault: &LogFault,
    output: &mut O,
    lines: &mut LineWriter,
) -> Result<Status, PrintError>
    ensures status { IfOk result (λ status. status ≡ log_status fault.now) }
    ensures puts { PutsLines (log_line fault.now ∷ []) result lines.old lines.new
        (O.written output.old) (O.written output.new) }
    ensures unwritten { result ≡ Err PrintError.Memory →
        O.written output.new ≡ O.written output.old }
    ensures cause { FailsOnlyIfCounted (result ≡ Err PrintError.OutputFailed)
        (O.faults output.old) (O.faults output.new) }
{
    let line = match line_of_fault(alloc, fault) {
        Ok(line) => line,
        Err(_) => return Err(PrintError::Memory),
    };
    match lines.put(output, &line) {
        Ok(()) => Ok(fault.status()),
        Err(error) => Err(error),
    }
}

fn put_end<O: Output>(
    alloc: Global,
    fault: &Option<LogFault>,
    output: &mut O,
    lines: &mut LineWriter,
) -> Result<Status, PrintError>
    ensures status { IfOk result (λ status. status ≡ end_status fault.now) }
    ensures puts { PutsLines (end_lines fault.now) result lines.old lines.new
        (O.written output.old) (O.written output.new) }
    ensures unwritten { result ≡ Err PrintError.Memory →
        O.written output.new ≡ O.written output.old }
    ensures cause { FailsOnlyIfCounted (result ≡ Err PrintError.OutputFailed)
        (O.faults output.old) (O.faults output.new) }
{
    match fault {
        None => Ok(Status::Done),
        Some(fault) => put_fault(alloc, fault, output, lines),
    }
}

// Appends the line of a log's error, if any, writes all lines, and returns the status.
fn finish_log<O: Output>(
    alloc: Global,
    fault: &Option<LogFault>,
    output: &mut O,
    mut lines: LineWriter,
) -> Result<Status, PrintError>
    ensures ends { FinishesLog fault.now lines result
        (O.written output.old) (O.written output.new) }
    ensures cause { FailsOnlyIfCounted (result ≡ Err PrintError.OutputFailed)
        (O.faults output.old) (O.faults output.new) }
{
    let status = match put_end(alloc, fault, output, &mut lines) {
        Ok(status) => status,
        Err(error) => return Err(error),
    };
    match lines.finish(output) {
        Ok(()) => Ok(status),
        Err(error) => Err(error),
    }
}

/// Reads the byte strings, a log of protocol version 1 or, with `stream`, of version 2. Writes the
/// lines of all commits of their messages, up to the first error, and its line, and returns the
/// status.
pub fn print_log<O: Output>(
    alloc: Global,
    options: LogOptions,
    stream: bool,
    strings: Vec<Bytes>,
    now_ms: &i64,
    output: &mut O,
) -> Result<Status, PrintError>
    ensures prints { (pieces : List Piece) → ReadsPieces stream strings.items pieces
        → PrintsLog options now_ms.now (masked_pieces options.mask [] pieces) result
        (O.written output.old) (O.written output.new) }
    ensures cause { FailsOnlyIfCounted (result ≡ Err PrintError.OutputFailed)
        (O.faults output.old) (O.faults output.new) }
{
    let mut lines = match LineWriter::make(alloc) {
        Ok(lines) => lines,
        Err(_) => return Err(PrintError::Memory),
    };
    match put_log(alloc, options, stream, strings, now_ms, output, &mut lines) {
        Ok(fault) => {
            let result = finish_log(alloc, &fault, output, lines);
            drop(fault);
            result
        }
        Err(error) => Err(error),
    }
}
