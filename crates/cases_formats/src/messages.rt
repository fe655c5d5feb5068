//! Cases of the messages' bytes.

use anyhow::{Result, bail};
use cases_items::words;
use dbl_pgmsg::{Message, MsgError, decode, encode};
use std::alloc::Global;
use std::fmt::Write;

/// Adds the message that bytes encode, its bytes again, or how its prefixes are answered.
pub fn show(alloc: Global, shown: &mut String, call: &str, arguments: &str) -> Result<()> {
    let bytes = bytes_of(alloc, call, arguments)?;
    match call {
        "again" => show_again(alloc, shown, &bytes),
        "prefixes" => show_prefixes(alloc, shown, &bytes),
        _ => show_decoded(alloc, shown, &bytes),
    }
}

// The bytes of a message: so many zeros, or the digits of a case.
fn bytes_of(alloc: Global, call: &str, arguments: &str) -> Result<Vec<u8>> {
    if call != "zeros" {
        return Ok(hex::decode(alloc, arguments)?);
    }
    let count = arguments.parse()?;
    if count > 20_000_000 {
        bail!("too many");
    }
    Ok(vec![in alloc; 0u8; count]?)
}

// The message that the bytes encode, or their fault. A message is dropped by name: that is one
// call, whereas a drop at the end of a scope is proved variant by variant.
fn show_decoded(alloc: Global, shown: &mut String, bytes: &[u8]) -> Result<()> {
    match decode(alloc, bytes) {
        Ok(message) => {
            let end = words::show_debug(shown, &message);
            drop(message);
            end
        }
        Err(error) => words::said(shown, &error),
    }
}

// The bytes of the message that the bytes encode.
fn show_again(alloc: Global, shown: &mut String, bytes: &[u8]) -> Result<()> {
    let message = decode(alloc, bytes)?;
    let end = show_written(alloc, shown, &message);
    drop(message);
    end
}

// How many proper prefixes of the bytes are truncated at their length, and what the bytes with a
// zero more are.
fn show_prefixes(alloc: Global, shown: &mut String, bytes: &[u8]) -> Result<()> {
    let length = bytes.len();
    let mut truncated: u64 = 0;
    for count in 0..length {
        if is_truncated(alloc, &bytes[..count]) {
            truncated = truncated.saturating_add(1);
        }
    }
    write!(
        shown,
        "{truncated} of {length} are truncated at their length; "
    )?;
    let mut longer = Vec::new(alloc);
    longer.extend_from_slice(bytes)?;
    longer.push(0)?;
    show_decoded(alloc, shown, &longer)
}

// The bytes end too early, and the fault is reported at their length.
fn is_truncated(alloc: Global, bytes: &[u8]) -> bool {
    match decode(alloc, bytes) {
        Err(MsgError::Truncated { at }) => at == bytes.len() as u64,
        Err(_) => false,
        Ok(message) => {
            drop(message);
            false
        }
    }
}

/// The bytes of a message, if it has an encoding.
pub fn show_written(alloc: Global, shown: &mut String, message: &Message) -> Result<()> {
    if !message.fits() {
        return words::add(shown, "doesn't fit");
    }
    let bytes = encode(alloc, message)?;
    words::add(shown, hex::encode(alloc, bytes.items())?.as_str())
}
