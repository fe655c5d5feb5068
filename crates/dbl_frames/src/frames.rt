ghost use Rattle.std.specs.Prelude.{◌≡◌, ◌≢◌, ◌⊎◌, ℕ, ◌+◌, ◌^◌, ◌<◌, ◌≤◌, List, [], ◌++◌, length};
ghost use Rattle.std.specs.Prelude.{Some, None};
ghost use Rattle.std.specs.Prelude.{IfOk, IfErr, OnOk, OnErr};
ghost use Rattle.dbl_frames_heads.specs.declared.error.FrameError.{FrameError};
ghost use Rattle.dbl_frames_heads.specs.declared.frame.Frame.{Frame};
ghost use Rattle.dbl_frames_sizes.specs.Sizes.{wanted_size};
ghost use Rattle.dbl_frames.specs.Stream.{AreFramesOf, BeginsWith, Faulty, IsUnfinished, WasFed};
ghost use Rattle.dbl_frames.specs.Stream.{bytes_fed};
ghost use Rattle.dbl_frames.specs.Steps.{IsWithinFrame, ReadsFrames, StopsReading};

use dbl_frames_heads::{Frame, FrameError, append_frame, find_head_fault};
use dbl_frames_sizes::measure_frame;
use std::alloc::{AllocError, Global};
use std::marker::Model;

// A frame that isn't whole yet: its offset in the stream, and its bytes so far.
#[derive(Drop)]
struct Partial {
    at: u64,
    bytes: Vec<u8>,
}

/// Reads the frames of a stream that is fed in pieces. A byte is copied at most twice, however the
/// stream is cut: into the buffer of the unfinished frame, and from there into the payload. The
/// buffer gets the frame's size at its head, and is used again for the next frame.
#[derive(Drop)]
pub struct Frames {
    alloc: Global,
    partial: Partial,
    failed: Option<FrameError>,
}

impl Model for Frames {
    ghost use Rattle.std.specs.Prelude.{◌≡◌, None};
    ghost use Rattle.dbl_frames.specs.Stream.{IsUnfinished, Reader};

    ghost Value = { Reader };

    ghost view = { λ f. record {
      at = f.partial.at;
      unfinished = f.partial.bytes.items;
      failed = f.failed;
    } };

    ghost invariant = { λ f. f.failed ≡ None → IsUnfinished f.partial.at f.partial.bytes.items };
}

impl Frames {
    /// Makes a reader at the start of a stream. The allocator is for the frames; this call takes no
    /// memory.
    pub fn make(alloc: Global) -> Frames
        ensures { WasFed [] [] result }
    {
        Frames {
            alloc,
            partial: Partial {
                at: 0,
                bytes: Vec::new(alloc),
            },
            failed: None,
        }
    }

    /// Reads the next piece of the stream, and appends the frames that are whole now. A fault is
    /// returned by the call that is fed the byte that shows it. After an error, also out of memory,
    /// every later call returns the same.
    pub fn feed(&mut self, piece: &[u8], out: &mut Vec<Frame>) -> Result<(), FrameError>
        requires { self.old.failed ≡ None → bytes_fed self.old + length piece.now < 2 ^ 64 }
        ensures fed { (fed : List ℕ) (frames : List Frame) → WasFed fed frames self.old →
            OnOk result ((more : List Frame) × (out.new.items ≡ out.old.items ++ more) ×
            WasFed (fed ++ piece.now) (frames ++ more) self.new) }
        ensures fault { (fed : List ℕ) (frames : List Frame) → WasFed fed frames self.old →
            IfErr result (λ error. error ≢ FrameError.Memory → (more : List Frame) ×
            (out.new.items ≡ out.old.items ++ more) ×
            AreFramesOf (fed ++ piece.now) (frames ++ more) (Faulty error)) }
        ensures exactly { (fed : List ℕ) (frames all : List Frame) (error : FrameError) →
            WasFed fed frames self.old → AreFramesOf (fed ++ piece.now) all (Faulty error) →
            (result ≡ Err error) ⊎ (result ≡ Err FrameError.Memory) }
        ensures prefix { (fed : List ℕ) (frames : List Frame) → WasFed fed frames self.old →
            (more : List Frame) × (out.new.items ≡ out.old.items ++ more) ×
            BeginsWith (fed ++ piece.now) (frames ++ more) }
        ensures failing { IfErr result (λ error. self.new.failed ≡ Some error) }
        ensures again { (error : FrameError) → self.old.failed ≡ Some error →
            (result ≡ Err error) × (self.new ≡ self.old) × (out.new.items ≡ out.old.items) }
        ensures ready { OnOk result ((self.old.failed ≡ None) × (self.new.failed ≡ None)) }
        ensures count { OnOk result (bytes_fed self.new ≡ bytes_fed self.old + length piece.now) }
    {
        if let Some(error) = self.failed {
            return Err(error);
        }
        match read_piece(self.alloc, &mut self.partial, piece, out) {
            Ok(()) => Ok(()),
            Err(error) => {
                self.failed = Some(error);
                Err(error)
            }
        }
    }

    /// The number of bytes of the unfinished frame; 0 between two frames. After an error it is
    /// meaningless.
    pub fn rest(&self) -> u64
        ensures { result ≡ length self.now.unfinished }
    {
        self.partial.bytes.len() as u64
    }
}

// Reads a whole piece.
fn read_piece(
    alloc: Global,
    partial: &mut Partial,
    piece: &[u8],
    out: &mut Vec<Frame>,
) -> Result<(), FrameError>
    requires unfinished { IsUnfinished partial.old.at partial.old.bytes.items }
    requires room { partial.old.at + length partial.old.bytes.items + length piece.now < 2 ^ 64 }
    ensures read { OnOk result (ReadsFrames partial.old.at partial.old.bytes.items piece.now
        out.old.items partial.new.at partial.new.bytes.items [] out.new.items) }
    ensures stops { IfErr result (λ error. StopsReading partial.old.at partial.old.bytes.items
        piece.now out.old.items out.new.items error) }
{
    let mut rest = piece;
    'steps: while !rest.is_empty() {
        match read_step(alloc, partial, rest, out) {
            Ok(left) => rest = left,
            Err(error) => return Err(error),
        }
    }
    Ok(())
}

// Takes from the piece what the head, and then the frame, still lacks. Returns the rest.
fn read_step<'a>(
    alloc: Global,
    partial: &mut Partial,
    piece: &'a [u8],
    out: &mut Vec<Frame>,
) -> Result<&'a [u8], FrameError>
    requires unfinished { IsUnfinished partial.old.at partial.old.bytes.items }
    requires some { 0 < length piece.now }
    requires room { partial.old.at + length partial.old.bytes.items + length piece.now < 2 ^ 64 }
    ensures read { IfOk result (λ rest. ReadsFrames partial.old.at partial.old.bytes.items
        piece.now out.old.items partial.new.at partial.new.bytes.items rest.now out.new.items) }
    ensures less { IfOk result (λ rest. length rest.now < length piece.now) }
    ensures stops { IfErr result (λ error. StopsReading partial.old.at partial.old.bytes.items
        piece.now out.old.items out.new.items error) }
{
    match fill_frame(&mut partial.bytes, piece) {
        Ok(rest) => match finish_frame(alloc, partial, out) {
            Ok(()) => Ok(rest),
            Err(error) => Err(error),
        },
        Err(_) => Err(FrameError::Memory),
    }
}

// Copies bytes from the piece to those of a frame, as many as that still lacks. Room for all of
// them is reserved first, so no byte but a head's moves again.
fn fill_frame<'a>(bytes: &mut Vec<u8>, piece: &'a [u8]) -> Result<&'a [u8], AllocError>
    requires short { length bytes.old.items < wanted_size bytes.old.items }
    requires some { 0 < length piece.now }
    ensures moved { IfOk result
        (λ rest. bytes.old.items ++ piece.now ≡ bytes.new.items ++ rest.now) }
    ensures added { OnOk result
        ((front : List ℕ) × (bytes.new.items ≡ bytes.old.items ++ front)) }
    ensures within { OnOk result (length bytes.new.items ≤ wanted_size bytes.old.items) }
    ensures less { IfOk result (λ rest. length rest.now < length piece.now) }
{
    let missing = measure_frame(bytes) - bytes.len();
    match bytes.reserve(missing) {
        Ok(()) => {
            let (front, rest) = piece.split_at(missing.min(piece.len()));
            match bytes.extend_from_slice(front) {
                Ok(()) => Ok(rest),
                Err(error) => Err(error),
            }
        }
        Err(error) => Err(error),
    }
}

// Looks for a fault; appends the frame if it is whole, and begins the next one.
fn finish_frame(
    alloc: Global,
    partial: &mut Partial,
    out: &mut Vec<Frame>,
) -> Result<(), FrameError>
    requires filled { IsWithinFrame partial.old.at partial.old.bytes.items }
    requires room { partial.old.at + length partial.old.bytes.items < 2 ^ 64 }
    ensures read { OnOk result (ReadsFrames partial.old.at partial.old.bytes.items []
        out.old.items partial.new.at partial.new.bytes.items [] out.new.items) }
    ensures stops { IfErr result (λ error. StopsReading partial.old.at partial.old.bytes.items []
        out.old.items out.new.items error) }
{
    if let Some(fault) = find_head_fault(partial.at, &partial.bytes) {
        return Err(fault);
    }
    if partial.bytes.len() < measure_frame(&partial.bytes) {
        return Ok(());
    }
    match append_frame(alloc, &partial.bytes, out) {
        Ok(()) => {
            partial.at += partial.bytes.len() as u64;
            partial.bytes.clear();
            Ok(())
        }
        Err(_) => Err(FrameError::Memory),
    }
}
