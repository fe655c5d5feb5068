//! Cases of streamed transactions. The bytes of a message are in hexadecimal.

use crate::messages::show_written;
use anyhow::Result;
use cases_items::words;
use dbl_pgmsg::Message;
use dbl_stream2::Unstream;
use std::alloc::Global;
use std::fmt::Write;

/// Adds what is returned for each message, and whether a block is open at the end, or the first
/// refusal.
pub fn show(alloc: Global, shown: &mut String, arguments: &str) -> Result<()> {
    let mut unstream = Unstream::make(alloc);
    let end = take_all(alloc, shown, &mut unstream, arguments);
    drop(unstream);
    end
}

fn take_all(alloc: Global, shown: &mut String, unstream: &mut Unstream, words: &str) -> Result<()> {
    for (index, word) in words.split_whitespace().enumerate() {
        if !take(alloc, shown, unstream, index, word)? {
            return Ok(());
        }
    }
    words::line(shown)?;
    write!(shown, "inside {}", unstream.inside())?;
    Ok(())
}

// Whether a message is accepted.
fn take(
    alloc: Global,
    shown: &mut String,
    unstream: &mut Unstream,
    index: usize,
    digits: &str,
) -> Result<bool> {
    let bytes = hex::decode(alloc, digits)?;
    match unstream.take(alloc, &bytes) {
        Ok(messages) => {
            show_messages(alloc, shown, index, &messages)?;
            Ok(true)
        }
        Err(error) => {
            show_number(shown, index)?;
            write!(shown, " {error}")?;
            Ok(false)
        }
    }
}

// The messages that are returned for the message at this index, if any.
fn show_messages(
    alloc: Global,
    shown: &mut String,
    index: usize,
    messages: &Vec<Message>,
) -> Result<()> {
    if messages.is_empty() {
        return Ok(());
    }
    show_number(shown, index)?;
    for message in messages {
        words::add(shown, " ")?;
        show_written(alloc, shown, message)?;
    }
    Ok(())
}

// Messages are numbered from 1.
fn show_number(shown: &mut String, index: usize) -> Result<()> {
    words::line(shown)?;
    write!(shown, "message {}:", index.saturating_add(1))?;
    Ok(())
}
