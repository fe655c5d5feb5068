//! A replication stream in the input, read piece by piece: the payloads of its frames.
ghost use Rattle.std.specs.Prelude.{◌≡◌, ◌≢◌, ◌⊎◌, ◌++◌, ℕ, ◌+◌, ◌^◌, ◌<◌, ◌≤◌, List, [], length};
ghost use Rattle.std.specs.Prelude.{take, drop, true, Some, Ok, Err, IfOk, IfErr, OnOk};
ghost use Rattle.std.specs.List.{AllByRecursion};
ghost use Rattle.std.specs.Option.{option_to_list};
ghost use Rattle.dbl_base.specs.Streams.{FaultCounted, FailsOnlyIfCounted, input_limit};
ghost use Rattle.dbl_lines.specs.declared.run_error.RunError.{RunError};
ghost use Rattle.dbl_pgmsg.specs.Faults.{AreBytes};
ghost use Rattle.dblog_streams.specs.Inputs.{payload_of, payloads_of, EncodesFrames};
ghost use Rattle.dblog_streams.specs.Inputs.{EncodesStrings};
ghost use Rattle.dblog_streams.specs.Streaming.{HasRead, HaltsReading, IsFailure, unread_answer};

use crate::unread::Unread;
use dbl_base::{Bytes, INPUT_LIMIT, Input};
use dbl_frames::{Frame, FrameError, Frames};
use dbl_lines::RunError;
use std::alloc::{AllocError, Global};

const BUFFER_LENGTH: usize = 65_536;

// The payloads of the frames that were read, or the first fault; and the number of bytes read.
#[derive(Drop)]
struct Stream {
    alloc: Global,
    frames: Frames,
    payloads: Vec<Bytes>,
    fault: Option<FrameError>,
    size: usize,
}

fn add_payload(payloads: &mut Vec<Bytes>, frame: Frame) -> Result<(), AllocError>
    ensures { OnOk result
        (payloads.new.items ≡ payloads.old.items ++ option_to_list (payload_of frame)) }
{
    match frame {
        Frame::Data {
            start: _,
            end: _,
            time: _,
            payload,
        } => payloads.push(payload)?,
        Frame::Keepalive {
            end: _,
            time: _,
            reply: _,
        } => {}
    }
    Ok(())
}

fn add_payloads(payloads: &mut Vec<Bytes>, frames: Vec<Frame>) -> Result<(), AllocError>
    ensures { OnOk result
        (payloads.new.items ≡ payloads.old.items ++ payloads_of frames.items) }
{
    'frames: for frame in frames {
        add_payload(payloads, frame)?;
    }
    Ok(())
}

impl Stream {
    fn make(alloc: Global) -> Stream
        ensures { HasRead [] result }
    {
        Stream {
            alloc,
            frames: Frames::make(alloc),
            payloads: Vec::new(alloc),
            fault: None,
            size: 0,
        }
    }

    // Reads the frames of the next piece, and appends their payloads.
    fn feed(&mut self, piece: &[u8]) -> Result<(), AllocError>
        requires fed { (bytes : List ℕ) × HasRead bytes self.old }
        requires room { self.old.size + length piece.now < 2 ^ 64 }
        ensures { (bytes : List ℕ) → HasRead bytes self.old →
            OnOk result (HasRead (bytes ++ piece.now) self.new) }
    {
        self.size += piece.len();
        if self.fault.is_some() {
            return Ok(());
        }
        let mut frames = Vec::new(self.alloc);
        match self.frames.feed(piece, &mut frames) {
            Ok(()) => add_payloads(&mut self.payloads, frames),
            Err(FrameError::Memory) => Err(AllocError),
            Err(fault) => {
                self.fault = Some(fault);
                Ok(())
            }
        }
    }

    // The payloads of a stream that was read to its end, or why it isn't valid.
    fn finish(self) -> Result<Vec<Bytes>, Unread>
        ensures encodes { (bytes : List ℕ) → HasRead bytes self →
            IfOk result (λ strings. EncodesFrames bytes (Ok strings.items)) }
        ensures invalid { (bytes : List ℕ) → HasRead bytes self →
            IfErr result (λ unread. EncodesFrames bytes (Err (unread_answer unread))) }
        ensures stream { (reason : RunError) →
            IfErr result (λ unread. unread ≢ Unread.Run reason) }
    {
        let Stream {
            alloc: _,
            frames,
            payloads,
            fault,
            size,
        } = self;
        if let Some(reason) = fault {
            return Err(Unread::BadFrame { reason });
        }
        if frames.rest() > 0 {
            return Err(Unread::CutFrame { size: size as u64 });
        }
        Ok(payloads)
    }
}

// Reads the next piece of the input, and returns its length; 0 at the end.
fn read_piece<I: Input>(
    input: &mut I,
    buffer: &mut [u8],
    stream: &mut Stream,
) -> Result<usize, RunError>
    requires some { 0 < length buffer.old }
    requires fed { (bytes : List ℕ) × HasRead bytes stream.old }
    requires room { stream.old.size + length buffer.old < 2 ^ 64 }
    ensures read { (bytes : List ℕ) → HasRead bytes stream.old →
        IfOk result (λ n. HasRead (bytes ++ take n buffer.new) stream.new) }
    ensures within { IfOk result (λ n. n ≤ length buffer.new) }
    ensures moved { (rest : List ℕ) → I.left input.old ≡ Some rest →
        IfOk result (λ n. take n buffer.new ≡ take n rest) }
    ensures left { (rest : List ℕ) → I.left input.old ≡ Some rest →
        IfOk result (λ n. I.left input.new ≡ Some (drop n rest)) }
    ensures end { (rest : List ℕ) → I.left input.old ≡ Some rest → result ≡ Ok 0 → rest ≡ [] }
    ensures cause { FailsOnlyIfCounted (result ≡ Err RunError.InputFailed)
        (I.faults input.old) (I.faults input.new) }
    ensures kinds { IfErr result
        (λ reason. (reason ≡ RunError.InputFailed) ⊎ (reason ≡ RunError.Memory)) }
{
    let count = match input.read(buffer) {
        Ok(count) => count,
        Err(_) => return Err(RunError::InputFailed),
    };
    match stream.feed(&buffer[..count]) {
        Ok(()) => Ok(count),
        Err(_) => Err(RunError::Memory),
    }
}

// Reads the input to its end, unless it is too long.
fn read_stream<I: Input>(alloc: Global, input: &mut I) -> Result<Stream, RunError>
    ensures some { IfOk result (λ stream. (bytes : List ℕ) × HasRead bytes stream) }
    ensures all { (bytes : List ℕ) → I.left input.old ≡ Some bytes →
        IfOk result (λ stream. HasRead bytes stream) }
    ensures within { IfOk result (λ stream. stream.size ≤ input_limit) }
    ensures end { (bytes : List ℕ) → I.left input.old ≡ Some bytes →
        OnOk result (I.left input.new ≡ Some []) }
    ensures too_long { (bytes : List ℕ) → I.left input.old ≡ Some bytes →
        result ≡ Err RunError.InputTooLong → input_limit < length bytes }
    ensures cause { FailsOnlyIfCounted (result ≡ Err RunError.InputFailed)
        (I.faults input.old) (I.faults input.new) }
    ensures kinds { IfErr result
        (λ reason. (reason ≡ RunError.InputFailed)
        ⊎ ((reason ≡ RunError.InputTooLong) ⊎ (reason ≡ RunError.Memory))) }
{
    let mut buffer = [0u8; BUFFER_LENGTH];
    let mut stream = Stream::make(alloc);
    'pieces: while stream.size <= INPUT_LIMIT {
        match read_piece(input, &mut buffer, &mut stream) {
            Ok(0) => return Ok(stream),
            Ok(_) => {}
            Err(reason) => return Err(reason),
        }
    }
    Err(RunError::InputTooLong)
}

/// The payloads of the frames of the input, which is read to its end, unless it is too long.
pub(crate) fn read_payloads<I: Input>(alloc: Global, input: &mut I) -> Result<Vec<Bytes>, Unread>
    ensures encodes { (bytes : List ℕ) → I.left input.old ≡ Some bytes →
        IfOk result (λ strings. EncodesStrings true bytes (Ok strings.items)) }
    ensures small { IfOk result (λ strings. AllByRecursion AreBytes strings.items) }
    ensures halts { (bytes : List ℕ) → I.left input.old ≡ Some bytes →
        IfErr result (HaltsReading true bytes) }
    ensures end { (bytes : List ℕ) → I.left input.old ≡ Some bytes →
        OnOk result (I.left input.new ≡ Some []) }
    ensures whole { (bytes : List ℕ) → I.left input.old ≡ Some bytes → length bytes ≤ input_limit →
        IfErr result (λ unread. IsFailure unread ⊎ (I.left input.new ≡ Some [])) }
    ensures failed { result ≡ Err (Unread.Run RunError.InputFailed) →
        FaultCounted (I.faults input.old) (I.faults input.new) }
    ensures command { IfErr result (λ unread. unread ≢ Unread.Run RunError.Usage) }
{
    match read_stream(alloc, input) {
        Ok(stream) => stream.finish(),
        Err(reason) => Err(Unread::Run { reason }),
    }
}
