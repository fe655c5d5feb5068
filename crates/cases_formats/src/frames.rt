//! Cases of replication frames. Bytes are in hexadecimal; a piece of no bytes is written `''`.

ghost use Rattle.std.specs.Prelude.{◌≡◌, ◌≤◌, None};
ghost use Rattle.dbl_frames.specs.Stream.{bytes_fed};

use anyhow::{Result, bail};
use cases_items::{items, words};
use dbl_base::Text;
use dbl_frames::{Frame, FrameError, Frames, status};
use std::alloc::Global;
use std::fmt::Write;

// The most bytes that a case feeds at once, or has fed before.
const LIMIT: usize = 20_000_000;

// A reader, with the number of bytes that it was fed.
#[derive(Drop)]
struct Feeding {
    frames: Frames,
    count: usize,
    ghost counted: { frames.failed ≡ None → bytes_fed frames ≤ count },
}

impl Feeding {
    fn make(alloc: Global) -> Feeding {
        Feeding {
            frames: Frames::make(alloc),
            count: 0,
        }
    }

    // Feeds a piece, shows the frames that it completes, and returns the fault.
    fn feed(
        &mut self,
        alloc: Global,
        shown: &mut String,
        piece: &[u8],
    ) -> Result<Option<FrameError>> {
        if self.count > LIMIT || piece.len() > LIMIT {
            bail!("too long");
        }
        let mut out = Vec::new(alloc);
        let fed = self.frames.feed(piece, &mut out);
        self.count += piece.len();
        show_frames(alloc, shown, &out)?;
        Ok(fed.err())
    }

    // Feeds a piece, and shows what the reader answers.
    fn show(&mut self, alloc: Global, shown: &mut String, piece: &[u8]) -> Result<()> {
        match self.feed(alloc, shown, piece)? {
            Some(error) => words::said(shown, &error),
            None => self.show_rest(shown),
        }
    }

    fn show_rest(&self, shown: &mut String) -> Result<()> {
        write!(shown, "rest {}", self.frames.rest())?;
        Ok(())
    }
}

/// Adds what a new reader answers.
pub fn show_stream(alloc: Global, shown: &mut String, call: &str, arguments: &str) -> Result<()> {
    let mut feeding = Feeding::make(alloc);
    let end = match call {
        "pieces" => show_pieces(alloc, shown, &mut feeding, arguments),
        "bytes" => show_bytes(alloc, shown, &mut feeding, arguments),
        _ => show_zeros(alloc, shown, &mut feeding, arguments),
    };
    drop(feeding);
    end
}

// What a reader answers to each piece, a line each.
fn show_pieces(
    alloc: Global,
    shown: &mut String,
    feeding: &mut Feeding,
    arguments: &str,
) -> Result<()> {
    for piece in &words::all::<Text>(alloc, arguments)? {
        words::line(shown)?;
        feeding.show(alloc, shown, &hex::decode(alloc, piece.as_str())?)?;
    }
    Ok(())
}

// The frames of bytes that are fed one by one; at a fault, the index of the byte that shows it.
fn show_bytes(
    alloc: Global,
    shown: &mut String,
    feeding: &mut Feeding,
    arguments: &str,
) -> Result<()> {
    let bytes = hex::decode(alloc, arguments)?;
    for (at, byte) in bytes.iter().enumerate() {
        if let Some(error) = feeding.feed(alloc, shown, &[*byte])? {
            write!(shown, "byte {at}: {error}")?;
            return Ok(());
        }
    }
    feeding.show_rest(shown)
}

/// Adds what a new reader answers to each prefix of the bytes, from the empty one on.
pub fn show_prefixes(alloc: Global, shown: &mut String, arguments: &str) -> Result<()> {
    let decoded = hex::decode(alloc, arguments)?;
    let bytes = decoded.as_slice();
    for length in 0..bytes.len() {
        show_prefix(alloc, shown, &bytes[..length])?;
        words::add(shown, ", ")?;
    }
    show_prefix(alloc, shown, bytes)
}

fn show_prefix(alloc: Global, shown: &mut String, bytes: &[u8]) -> Result<()> {
    let mut feeding = Feeding::make(alloc);
    let end = feeding.show(alloc, shown, bytes);
    drop(feeding);
    end
}

fn show_frames(alloc: Global, shown: &mut String, frames: &Vec<Frame>) -> Result<()> {
    for frame in frames {
        show_frame(alloc, shown, frame)?;
        words::add(shown, "; ")?;
    }
    Ok(())
}

fn show_frame(alloc: Global, shown: &mut String, frame: &Frame) -> Result<()> {
    match frame {
        Frame::Data {
            start,
            end,
            time,
            payload,
        } => {
            write!(shown, "w {start} {end} {time} ")?;
            show_payload(alloc, shown, payload.items())
        }
        Frame::Keepalive { end, time, reply } => {
            write!(shown, "k {end} {time} {reply}")?;
            Ok(())
        }
    }
}

// The bytes of a payload; their number if they are many.
fn show_payload(alloc: Global, shown: &mut String, bytes: &[u8]) -> Result<()> {
    if bytes.len() > 1000 {
        write!(shown, "{} bytes", bytes.len())?;
        return Ok(());
    }
    words::add(shown, hex::encode(alloc, bytes)?.as_str())
}

// What a reader answers to the bytes of a head and a number of zeros: HEAD/NUMBER.
fn show_zeros(
    alloc: Global,
    shown: &mut String,
    feeding: &mut Feeding,
    arguments: &str,
) -> Result<()> {
    let (head, number) = words::split(arguments, "/");
    let count: usize = number.parse()?;
    if count > LIMIT {
        bail!("too many");
    }
    let mut bytes = hex::decode(alloc, head)?;
    bytes.extend_from_slice(&vec![in alloc; 0u8; count]?)?;
    feeding.show(alloc, shown, &bytes)
}

/// Adds a status update: WRITTEN/FLUSHED/APPLIED/TIME/REPLY.
pub fn show_status(alloc: Global, shown: &mut String, arguments: &str) -> Result<()> {
    let written = items::field(arguments, 0).parse()?;
    let flushed = items::field(arguments, 1).parse()?;
    let applied = items::field(arguments, 2).parse()?;
    let time = items::field(arguments, 3).parse()?;
    let reply = items::field(arguments, 4).parse()?;
    let bytes = status(alloc, written, flushed, applied, time, reply)?;
    words::add(shown, hex::encode(alloc, bytes.items())?.as_str())
}
