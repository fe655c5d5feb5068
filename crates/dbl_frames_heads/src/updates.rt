ghost use Rattle.std.specs.Prelude.{◌≡◌, ◌++◌, IfOk, OnOk};
ghost use Rattle.dbl_frames_heads.specs.Form.{int64, status_form};

use dbl_base::Bytes;
use std::alloc::{AllocError, Global};

fn append_int64(bytes: &mut Vec<u8>, value: u64) -> Result<(), AllocError>
    ensures { OnOk result (bytes.new.items ≡ bytes.old.items ++ int64 value) }
{
    bytes.extend_from_slice(&value.to_be_bytes())
}

/// The frame of a standby status update: the positions written, flushed and applied, the time in
/// microseconds since 2000-01-01 UTC, and 1 if the server is to reply at once.
#[tactic(auto, unfolding(crate::specs::Form::status_form))]
pub fn status(
    alloc: Global,
    written: u64,
    flushed: u64,
    applied: u64,
    time: i64,
    reply: u8,
) -> Result<Bytes, AllocError>
    ensures { IfOk result (λ bytes. bytes ≡ status_form written flushed applied time reply) }
{
    let mut bytes = b"d\0\0\0\x26r".to_vec(alloc)?;
    append_int64(&mut bytes, written)?;
    append_int64(&mut bytes, flushed)?;
    append_int64(&mut bytes, applied)?;
    append_int64(&mut bytes, time.cast_unsigned())?;
    bytes.push(reply)?;
    Ok(Bytes::make(bytes))
}
