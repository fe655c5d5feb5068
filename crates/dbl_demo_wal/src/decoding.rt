//! From bytes to entries, read as by `dbl_record`. The index of an error isn't reported, so readers
//! pass 0 for the number of all bytes.

ghost use Rattle.std.specs.Prelude.{◌≡◌, ℕ, Ok, Err, IfOk};
ghost use Rattle.dbl_record.specs.GroupReading.{Gives, many_at};
ghost use Rattle.dbl_demo_wal.specs.Entries.{IsWalEntry, EncodesEntry};
ghost use Rattle.dbl_demo_wal.specs.Reading.{change_at, change_in, changes_at, wal_commit_at};
ghost use Rattle.dbl_demo_wal.specs.Reading.{confirm_at, wal_entry_at, is_change, wal_mark_at};
ghost use Rattle.dbl_demo_wal.specs.Reading.{refusal, spelled_change, whole_entry};

use crate::{Entry, EntryError};
use dbl_base::{Lsn, Seq};
use dbl_pgmsg::{Message, MsgError};
use dbl_record::RecordError;
use dbl_record::fields::{read_number32, read_number64, read_text};
use std::alloc::Global;

/// The bytes are no entry.
const NO_ENTRY: RecordError = RecordError::BadRecord { at: 0 };

/// The fewest bytes of a change after its length: a Truncate of no table.
const CHANGE_BYTES: usize = 10;

/// The most bytes of a watermark's value.
const MARK_BYTES: usize = 64;

fn is_change(message: &Message) -> bool
    ensures { result ≡ is_change message.now }
{
    match message {
        Message::Insert { .. }
        | Message::Update { .. }
        | Message::Delete { .. }
        | Message::Truncate { .. } => true,
        _ => false,
    }
}

fn refusal(error: MsgError) -> RecordError
    ensures { result ≡ refusal error }
{
    match error {
        MsgError::Memory => RecordError::Memory,
        _ => NO_ENTRY,
    }
}

fn change_of(message: Message) -> Result<Message, RecordError>
    ensures { result ≡ change_in (Ok message) }
{
    if !is_change(&message) {
        return Err(NO_ENTRY);
    }
    Ok(message)
}

fn spelled_change(alloc: Global, bytes: &[u8]) -> Result<Message, RecordError>
    ensures { Gives (λ m. m) result (spelled_change bytes.now) }
{
    match dbl_pgmsg::decode(alloc, bytes) {
        Ok(message) => change_of(message),
        Err(error) => Err(refusal(error)),
    }
}

#[tactic(auto, unfolding(crate::specs::Reading::change_at))]
fn read_change(alloc: Global, bytes: &[u8]) -> Result<(Message, &[u8]), RecordError>
    ensures { Gives (λ x. (x.0, x.1.now)) result (change_at bytes.now) }
{
    let (size, rest) = read_number32(0, bytes)?;
    let size = size as usize;
    if rest.len() < size {
        return Err(NO_ENTRY);
    }
    let (front, after) = rest.split_at(size);
    let message = spelled_change(alloc, front)?;
    Ok((message, after))
}

// A wrong count takes no more memory than the entry's bytes allow.
fn read_each_change(
    alloc: Global,
    count: usize,
    bytes: &[u8],
) -> Result<(Vec<Message>, &[u8]), RecordError>
    ensures { Gives (λ x. (x.0.items, x.1.now)) result (many_at change_at count bytes.now) }
{
    let mut messages = Vec::with_capacity(alloc, count.min(bytes.len() / CHANGE_BYTES))?;
    let mut rest = bytes;
    'reading: for _ in 0..count {
        let (message, after) = read_change(alloc, rest)?;
        messages.push(message)?;
        rest = after;
    }
    Ok((messages, rest))
}

#[tactic(auto, unfolding(crate::specs::Reading::changes_at))]
fn read_changes(alloc: Global, bytes: &[u8]) -> Result<(Vec<Message>, &[u8]), RecordError>
    ensures { Gives (λ x. (x.0.items, x.1.now)) result (changes_at bytes.now) }
{
    let (count, rest) = read_number32(0, bytes)?;
    read_each_change(alloc, count as usize, rest)
}

#[tactic(auto, unfolding(crate::specs::Reading::wal_commit_at))]
fn read_commit(alloc: Global, bytes: &[u8]) -> Result<(Entry, &[u8]), RecordError>
    ensures { Gives (λ x. (x.0, x.1.now)) result (wal_commit_at bytes.now) }
{
    let (steps, rest) = read_number64(0, bytes)?;
    let (messages, rest) = read_changes(alloc, rest)?;
    let messages = Seq::make(messages);
    Ok((Entry::Commits { steps, messages }, rest))
}

#[tactic(auto, unfolding(crate::specs::Reading::wal_mark_at))]
fn read_mark(alloc: Global, bytes: &[u8]) -> Result<(Entry, &[u8]), RecordError>
    ensures { Gives (λ x. (x.0, x.1.now)) result (wal_mark_at bytes.now) }
{
    let (steps, rest) = read_number64(0, bytes)?;
    let (value, rest) = read_text(alloc, 0, rest)?;
    if value.as_str().len() > MARK_BYTES {
        return Err(NO_ENTRY);
    }
    Ok((Entry::Marks { steps, value }, rest))
}

#[tactic(auto, unfolding(crate::specs::Reading::confirm_at))]
fn read_confirm(bytes: &[u8]) -> Result<(Entry, &[u8]), RecordError>
    ensures { Gives (λ x. (x.0, x.1.now)) result (confirm_at bytes.now) }
{
    let (upto, rest) = read_number64(0, bytes)?;
    Ok((Entry::Confirms { upto: Lsn(upto) }, rest))
}

#[tactic(auto, unfolding(crate::specs::Reading::wal_entry_at))]
fn read_entry(alloc: Global, bytes: &[u8]) -> Result<(Entry, &[u8]), RecordError>
    ensures { Gives (λ x. (x.0, x.1.now)) result (wal_entry_at bytes.now) }
{
    match bytes {
        [] => Err(NO_ENTRY),
        [b'C', rest @ ..] => read_commit(alloc, rest),
        [b'M', rest @ ..] => read_mark(alloc, rest),
        [b'F', rest @ ..] => read_confirm(rest),
        [_, ..] => Err(NO_ENTRY),
    }
}

#[tactic(auto, unfolding(crate::specs::Reading::whole_entry, crate::specs::Reading::ended))]
fn read_whole(alloc: Global, bytes: &[u8]) -> Result<Entry, RecordError>
    ensures { Gives (λ e. e) result (whole_entry bytes.now) }
{
    let (entry, rest) = read_entry(alloc, bytes)?;
    if !rest.is_empty() {
        return Err(NO_ENTRY);
    }
    Ok(entry)
}

fn read_spelled(alloc: Global, bytes: &[u8]) -> Result<Entry, RecordError>
    ensures read { IfOk result (λ entry. EncodesEntry bytes.now entry) }
    ensures refused { (at : ℕ) → result ≡ Err (RecordError.BadRecord at) → ¬ IsWalEntry bytes.now }
{
    read_whole(alloc, bytes)
}

/// The entry that the bytes encode.
pub fn decode(alloc: Global, bytes: &[u8]) -> Result<Entry, EntryError>
    ensures read { IfOk result (λ entry. EncodesEntry bytes.now entry) }
    ensures refused { result ≡ Err EntryError.Bad → ¬ IsWalEntry bytes.now }
{
    match read_spelled(alloc, bytes) {
        Ok(entry) => Ok(entry),
        Err(RecordError::BadRecord { at: _ }) => Err(EntryError::Bad),
        Err(RecordError::Memory) => Err(EntryError::Memory),
    }
}
