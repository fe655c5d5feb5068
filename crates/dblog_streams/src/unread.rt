//! Why an input has no byte strings, and its line.
ghost use Rattle.std.specs.Prelude.{◌≡◌, IfOk};
ghost use Rattle.std.specs.String.{string_bytes};
ghost use Rattle.dbl_base.specs.Lines.{lines_text};
ghost use Rattle.dbl_base.specs.Streams.{FaultCounted};
ghost use Rattle.dbl_lines.specs.declared.status.Status.TheVariants.{StdoutFailed};
ghost use Rattle.dblog_streams.specs.Answers.{EndsAs};
ghost use Rattle.dblog_streams.specs.Inputs.{cut_text, frame_text};
ghost use Rattle.dblog_streams.specs.Streaming.{unread_answer};

use dbl_base::Output;
use dbl_frames::FrameError;
use dbl_lines::{RunError, Status, say, write_text};
use std::alloc::{AllocError, Global};

/// Why the input of `replay` has no byte strings.
#[derive(Clone, Copy)]
pub(crate) enum Unread {
    Run { reason: RunError },
    /// A frame isn't valid.
    BadFrame { reason: FrameError },
    /// The input, which has this many bytes, ends inside a frame.
    CutFrame { size: u64 },
}

fn frame_text(alloc: Global, reason: FrameError) -> Result<String, AllocError>
    ensures { IfOk result (λ text. string_bytes text ≡ frame_text reason) }
{
    match reason {
        FrameError::BadKind { at, byte } => {
            format!(in alloc; "frame at {at}: F1 bad kind {byte}")
        }
        FrameError::BadLength { at } => format!(in alloc; "frame at {at}: F2 bad length"),
        FrameError::BadInner { at, byte } => {
            format!(in alloc; "frame at {at}: F3 bad inner {byte}")
        }
        FrameError::BadSize { at } => format!(in alloc; "frame at {at}: F4 bad size"),
        FrameError::Memory => String::from_str(alloc, "out of memory"),
    }
}

fn cut_text(alloc: Global, size: u64) -> Result<String, AllocError>
    ensures { IfOk result (λ text. string_bytes text ≡ cut_text size) }
{
    format!(in alloc; "frame cut at {size}")
}

impl Unread {
    fn status(self) -> Status
        ensures { result ≡ (unread_answer self).status }
    {
        match self {
            Unread::Run { reason } => reason.status(),
            Unread::BadFrame { reason: _ } | Unread::CutFrame { size: _ } => Status::InvalidInput,
        }
    }

    // The error's line with its newline.
    fn text(self, alloc: Global) -> Result<String, AllocError>
        ensures { IfOk result (λ text. string_bytes text ≡ lines_text (unread_answer self).lines) }
    {
        let words = match self {
            Unread::Run { reason } => return reason.text(alloc),
            Unread::BadFrame { reason } => frame_text(alloc, reason)?,
            Unread::CutFrame { size } => cut_text(alloc, size)?,
        };
        format!(in alloc; "dblog: {words}\n")
    }
}

/// Writes the line of the error, and returns its status.
pub(crate) fn say_unread<O: Output>(alloc: Global, unread: Unread, output: &mut O) -> Status
    ensures told { EndsAs (unread_answer unread) result
        (O.written output.old) (O.written output.new) }
    ensures output_failed { result ≡ StdoutFailed →
        FaultCounted (O.faults output.old) (O.faults output.new) }
{
    match unread.text(alloc) {
        Ok(text) => write_text(text.as_str(), unread.status(), output),
        Err(_) => say(alloc, RunError::Memory, output),
    }
}
