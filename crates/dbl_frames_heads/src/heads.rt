//! The head of a frame: its kind, its length and the first byte of its content; and the fields of a
//! whole frame.

ghost use Rattle.std.specs.Prelude.{◌≡◌, ℕ, ◌+◌, ◌≤◌, [], ◌∷◌, ◌++◌, length, slice_index};
ghost use Rattle.std.specs.Prelude.{None, IfOk, OnErr, OnOk};
ghost use Rattle.dbl_frames_heads.specs.declared.frame.Frame.{Frame};
ghost use Rattle.dbl_frames_heads.specs.Form.{FitsFrame, frame_form};
ghost use Rattle.dbl_frames_heads.specs.Faults.{content_fault, head_fault, length_fault};
ghost use Rattle.dbl_frames_sizes.specs.Sizes.{wanted_size};
ghost use Rattle.dbl_frames_heads.specs.Fields.{frame_at, int64_at};

use crate::{Frame, FrameError};
use dbl_base::Bytes;
use dbl_frames_sizes::{is_length, read_int32};
use std::alloc::{AllocError, Global};

// The length of XLogData without its payload, and of a keepalive.
const DATA_LENGTH: u32 = 29;

const KEEPALIVE_LENGTH: u32 = 22;

fn read_int64(bytes: &[u8], at: usize) -> u64
    requires { at + 8 ≤ length bytes.now }
    ensures { result ≡ int64_at at bytes.now }
{
    let (_, rest) = bytes.split_at(at);
    u64::from_be_bytes(*rest.first_chunk::<8>().unwrap())
}

#[tactic(auto, unfolding(crate::specs::Faults::content_fault))]
fn find_content_fault(at: u64, length: u32, content: &[u8]) -> Option<FrameError>
    ensures { result ≡ content_fault at length content.now }
{
    match content {
        [] => None,
        [b'w', ..] => {
            if length >= DATA_LENGTH {
                None
            } else {
                Some(FrameError::BadSize { at })
            }
        }
        [b'k', ..] => {
            if length == KEEPALIVE_LENGTH {
                None
            } else {
                Some(FrameError::BadSize { at })
            }
        }
        [byte, ..] => Some(FrameError::BadInner { at, byte: *byte }),
    }
}

#[tactic(auto, unfolding(crate::specs::Faults::length_fault, crate::specs::Faults::sized_fault))]
fn find_length_fault(at: u64, bytes: &[u8]) -> Option<FrameError>
    ensures { result ≡ length_fault at bytes.now }
{
    if bytes.len() < 4 {
        return None;
    }
    let length = read_int32(bytes);
    if is_length(length) {
        find_content_fault(at, length, bytes.split_at(4).1)
    } else {
        Some(FrameError::BadLength { at })
    }
}

/// The fault of the frame at the front of the bytes, as far as they show one; `at` is the frame's
/// offset in the stream.
#[tactic(auto, unfolding(crate::specs::Faults::head_fault))]
pub fn find_head_fault(at: u64, bytes: &[u8]) -> Option<FrameError>
    ensures { result ≡ head_fault at bytes.now }
{
    match bytes {
        [] => None,
        [b'd', rest @ ..] => find_length_fault(at, rest),
        [byte, ..] => Some(FrameError::BadKind { at, byte: *byte }),
    }
}

/// Appends the frame of these bytes, which are whole and have no fault. The payload is copied.
pub fn append_frame(alloc: Global, bytes: &[u8], out: &mut Vec<Frame>) -> Result<(), AllocError>
    requires sound { (at : ℕ) × (head_fault at bytes.now ≡ None) }
    requires whole { length bytes.now ≡ wanted_size bytes.now }
    ensures frame { OnOk result ((frame : Frame) × FitsFrame frame × (bytes.now ≡ frame_form frame)
        × (out.new.items ≡ out.old.items ++ frame ∷ [])) }
    ensures same { OnErr result (out.new.items ≡ out.old.items) }
{
    let frame = read_frame(alloc, bytes)?;
    out.push(frame)?;
    Ok(())
}

// Reads the fields of a whole frame without a fault, and copies its payload.
#[tactic(auto, unfolding(crate::specs::Fields::frame_at))]
fn read_frame(alloc: Global, bytes: &[u8]) -> Result<Frame, AllocError>
    requires keepalive { 23 ≤ length bytes.now }
    requires payload { slice_index bytes.now 5 ≡ 119 → 30 ≤ length bytes.now }
    ensures { IfOk result (λ frame. frame ≡ frame_at bytes.now) }
{
    if bytes[5] == b'w' {
        Ok(Frame::Data {
            start: read_int64(bytes, 6),
            end: read_int64(bytes, 14),
            time: read_int64(bytes, 22).cast_signed(),
            payload: Bytes::make(bytes.split_at(30).1.to_vec(alloc)?),
        })
    } else {
        Ok(Frame::Keepalive {
            end: read_int64(bytes, 6),
            time: read_int64(bytes, 14).cast_signed(),
            reply: bytes[22],
        })
    }
}
