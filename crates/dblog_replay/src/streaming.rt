//! A log of protocol version 2: each byte string is received as a message of the stream, and the
//! messages that it adds are processed.

ghost use Rattle.std.specs.Prelude.{◌≡◌, ◌⊎◌, List, [], IfOk, IfErr, Err};
ghost use Rattle.std.specs.List.{AllByRecursion};
ghost use Rattle.dbl_base.specs.Streams.{FailsOnlyIfCounted};
ghost use Rattle.dbl_pgmsg.specs.declared.messages.Message.{Message};
ghost use Rattle.dbl_pgmsg.specs.Grammar.{FitsFields};
ghost use Rattle.dbl_stream2.specs.declared.messages.StreamMessage.{StreamMessage};
ghost use Rattle.dblog_replay.specs.declared.options.LogOptions.{LogOptions};
ghost use Rattle.dblog_replay.specs.Following.{FollowsMasked, IsReplaying};
ghost use Rattle.dblog_replay.specs.LogPrinting.{PutsLog};
ghost use Rattle.dblog_replay.specs.Masked.{masked_pieces};
ghost use Rattle.dblog_replay.specs.Pieces.{Piece};
ghost use Rattle.dblog_replay.specs.Streams.{AreReceived, pieces_at, refusal_fault};
ghost use Rattle.dblog_replay.specs.Streaming.{IsReceiving, IsStreaming, HasAdded, IsRefusedAs};
ghost use Rattle.dblog_replay.specs.Streaming.{PutsPieces, StepsStreaming};

use crate::log::{put_message, stop_at, unfinished_fault};
use crate::log_fault::LogFault;
use crate::masking::MaskingReplayer;
use dbl_base::{Bytes, Output};
use dbl_lines::{LineWriter, PrintError};
use dbl_pgmsg::Message;
use dbl_stream2::{StreamError, Unstream};
use std::alloc::Global;

// The error that ends a log at the byte string of this number.
fn refusal_fault(number: u64, error: StreamError) -> LogFault
    ensures { result ≡ refusal_fault number error }
{
    match error {
        StreamError::Message { error } => LogFault::Message { number, error },
        StreamError::Memory => LogFault::Memory,
        error => LogFault::Stream { number, error },
    }
}

// The messages that the byte string of this number adds to the log, or the error that ends it.
// Frees the bytes.
fn receive_message(
    alloc: Global,
    unstream: &mut Unstream,
    number: u64,
    bytes: Bytes,
) -> Result<Vec<Message>, LogFault>
    requires { IsStreaming unstream.old }
    ensures added { (past : List StreamMessage) → IsReceiving past unstream.old →
        IfOk result (λ messages. HasAdded past bytes messages.items unstream.new) }
    ensures fits { IfOk result (λ messages. AllByRecursion FitsFields messages.items) }
    ensures refused { (past : List StreamMessage) → IsReceiving past unstream.old →
        IfErr result (λ fault. (fault ≡ LogFault.Memory) ⊎ IsRefusedAs past number bytes fault) }
{
    match unstream.take(alloc, bytes.items().as_slice()) {
        Ok(messages) => Ok(messages),
        Err(error) => Err(refusal_fault(number, error)),
    }
}

// Masks and processes messages that all have this number, and appends the lines of the commits that
// they end, up to the first error, which it returns.
fn put_added<O: Output>(
    alloc: Global,
    replayer: &mut MaskingReplayer,
    number: u64,
    messages: Vec<Message>,
    now_ms: &i64,
    output: &mut O,
    lines: &mut LineWriter,
) -> Result<Option<LogFault>, PrintError>
    requires replaying { IsReplaying replayer.old }
    requires fits { AllByRecursion FitsFields messages.items }
    ensures puts { (options : LogOptions) (ms : List Message) →
        FollowsMasked options ms replayer.old
        → PutsPieces options now_ms.now ms (pieces_at number messages.items) lines.old lines.new
        replayer.new result (O.written output.old) (O.written output.new) }
    ensures cause { FailsOnlyIfCounted (result ≡ Err PrintError.OutputFailed)
        (O.faults output.old) (O.faults output.new) }
{
    'messages: for message in messages {
        match put_message(alloc, replayer, number, message, now_ms, output, lines) {
            Ok(None) => {}
            Ok(Some(fault)) => return Ok(Some(fault)),
            Err(error) => return Err(error),
        }
    }
    Ok(None)
}

// Receives the byte string of this number, which is freed, and processes the messages that it adds,
// or returns its error.
fn put_received<O: Output>(
    alloc: Global,
    unstream: &mut Unstream,
    replayer: &mut MaskingReplayer,
    number: u64,
    bytes: Bytes,
    now_ms: &i64,
    output: &mut O,
    lines: &mut LineWriter,
) -> Result<Option<LogFault>, PrintError>
    requires streaming { IsStreaming unstream.old }
    requires replaying { IsReplaying replayer.old }
    ensures steps { (options : LogOptions) (past : List StreamMessage) (ms : List Message) →
        IsReceiving past unstream.old → FollowsMasked options ms replayer.old
        → StepsStreaming options now_ms.now past ms number bytes unstream.new lines.old lines.new
        replayer.new result (O.written output.old) (O.written output.new) }
    ensures cause { FailsOnlyIfCounted (result ≡ Err PrintError.OutputFailed)
        (O.faults output.old) (O.faults output.new) }
{
    match receive_message(alloc, unstream, number, bytes) {
        Ok(messages) => put_added(alloc, replayer, number, messages, now_ms, output, lines),
        Err(fault) => stop_at(fault),
    }
}

// Receives the byte strings of a log of protocol version 2, and appends the lines of all commits of
// its messages, up to the first error, which it returns, for a new replayer.
pub(crate) fn put_streamed<O: Output>(
    alloc: Global,
    replayer: &mut MaskingReplayer,
    strings: Vec<Bytes>,
    now_ms: &i64,
    output: &mut O,
    lines: &mut LineWriter,
) -> Result<Option<LogFault>, PrintError>
    requires { (options : LogOptions) × FollowsMasked options [] replayer.old }
    ensures puts { (options : LogOptions) (pieces : List Piece) →
        FollowsMasked options [] replayer.old → AreReceived 1 [] strings.items pieces
        → PutsLog options now_ms.now (masked_pieces options.mask [] pieces) lines.old lines.new
        result (O.written output.old) (O.written output.new) }
    ensures cause { FailsOnlyIfCounted (result ≡ Err PrintError.OutputFailed)
        (O.faults output.old) (O.faults output.new) }
{
    let mut unstream = Unstream::make(alloc);
    let mut number = 0u64;
    'strings: for bytes in strings {
        number += 1;
        match put_received(
            alloc,
            &mut unstream,
            replayer,
            number,
            bytes,
            now_ms,
            output,
            lines,
        ) {
            Ok(None) => {}
            Ok(Some(fault)) => return Ok(Some(fault)),
            Err(error) => return Err(error),
        }
    }
    let in_block = unstream.inside();
    let in_transaction = replayer.inside();
    Ok(unfinished_fault(in_block | in_transaction))
}
