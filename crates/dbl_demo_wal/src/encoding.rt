//! From entries to bytes, each in a buffer with room for its length in front, as a journal takes
//! it.

ghost use Rattle.std.specs.Prelude.{◌≡◌, ◌≤◌, ◌<◌, ◌^◌, [], ◌∷◌, length, drop, IfOk, OnOk};
ghost use Rattle.std.specs.List.{AllByRecursion, flat_map};
ghost use Rattle.dbl_pgmsg.specs.Grammar.{Fits, spelling};
ghost use Rattle.dbl_record.specs.Fields.{Extends};
ghost use Rattle.dbl_demo_wal.specs.declared.entry.Entry.TheVariants.{Commits, Marks, Confirms};
ghost use Rattle.dbl_demo_wal.specs.Entries.{HoldsChange, EncodesEntry, change_form};
ghost use Rattle.dbl_demo_wal.specs.Entries.{changes_form, workload_form};
ghost use Rattle.dbl_journal.specs.Form.{entry_limit};

use dbl_base::{Lsn, Text};
use dbl_journal::{ENTRY_LIMIT, ENTRY_ROOM};
use dbl_pgmsg::{Message, append_message};
use dbl_record::fields::{append_number32, append_number64, append_text};
use std::alloc::{AllocError, Global};

fn size_of(message: &Message) -> u32
    requires { Fits message.now }
    ensures { result ≡ length (spelling message.now) }
{
    match message.length() {
        Some(size) => size as u32,
        None => 0,
    }
}

#[tactic(auto, unfolding(crate::specs::Entries::change_form))]
fn append_change(out: &mut Vec<u8>, message: &Message) -> Result<(), AllocError>
    requires { HoldsChange message.now }
    ensures { OnOk result (Extends out.old.items (change_form message.now) out.new.items) }
{
    append_number32(out, size_of(message))?;
    match append_message(out, message) {
        Ok(()) => Ok(()),
        Err(_) => Err(AllocError),
    }
}

fn append_each_change(out: &mut Vec<u8>, messages: &[Message]) -> Result<(), AllocError>
    requires { AllByRecursion HoldsChange messages.now }
    ensures { OnOk result
        (Extends out.old.items (flat_map change_form messages.now) out.new.items) }
{
    for message in messages {
        append_change(out, message)?;
    }
    Ok(())
}

#[tactic(auto, unfolding(crate::specs::Entries::changes_form))]
fn append_changes(out: &mut Vec<u8>, messages: &[Message]) -> Result<(), AllocError>
    requires few { length messages.now < 2 ^ 32 }
    requires each { AllByRecursion HoldsChange messages.now }
    ensures { OnOk result (Extends out.old.items (changes_form messages.now) out.new.items) }
{
    append_number32(out, messages.len() as u32)?;
    append_each_change(out, messages)
}

// How many bytes to reserve after the tag of a commit's entry.
fn commit_room(messages: &[Message]) -> usize
    ensures { result ≤ entry_limit }
{
    let mut room = 12usize;
    for message in messages {
        let size = message.length().unwrap_or(0);
        room = room.saturating_add(size).saturating_add(4);
    }
    room.min(ENTRY_LIMIT)
}

// An empty entry with its tag, room for its length in front, and room for so many bytes and the
// journal's commit byte.
fn begin_entry(alloc: Global, tag: u8, room: usize) -> Result<Vec<u8>, AllocError>
    requires { room ≤ entry_limit }
    ensures { IfOk result (λ bytes. bytes.items ≡ 0 ∷ 0 ∷ 0 ∷ 0 ∷ tag ∷ []) }
{
    let mut bytes = Vec::with_capacity(alloc, ENTRY_ROOM + room + 2)?;
    bytes.extend_from_slice(&[0; ENTRY_ROOM])?;
    bytes.push(tag)?;
    Ok(bytes)
}

/// The first entry of a log, with a workload's bytes.
#[tactic(auto, unfolding(crate::specs::Entries::workload_form))]
pub fn workload_entry(alloc: Global, workload: &[u8]) -> Result<Vec<u8>, AllocError>
    requires { length workload.now < entry_limit }
    ensures room { IfOk result (λ bytes. 4 ≤ length bytes.items) }
    ensures entry { IfOk result (λ bytes. drop 4 bytes.items ≡ workload_form workload.now) }
{
    let mut bytes = begin_entry(alloc, b'S', workload.len())?;
    bytes.extend_from_slice(workload)?;
    Ok(bytes)
}

/// The entry of a commit: its changes, with which so many of the workload's steps were done.
#[tactic(auto, unfolding(crate::specs::Entries::entry_form))]
pub fn commit_entry(alloc: Global, steps: u64, messages: &[Message]) -> Result<Vec<u8>, AllocError>
    requires few { length messages.now < 2 ^ 32 }
    requires each { AllByRecursion HoldsChange messages.now }
    ensures room { IfOk result (λ bytes. 4 ≤ length bytes.items) }
    ensures entry { IfOk result
        (λ bytes. EncodesEntry (drop 4 bytes.items) (Commits steps messages.now)) }
{
    let mut bytes = begin_entry(alloc, b'C', commit_room(messages))?;
    append_number64(&mut bytes, steps)?;
    append_changes(&mut bytes, messages)?;
    Ok(bytes)
}

/// The entry of a watermark: its value, and how many of the workload's steps were done before it.
#[tactic(auto, unfolding(crate::specs::Entries::entry_form))]
pub fn mark_entry(alloc: Global, steps: u64, value: &Text) -> Result<Vec<u8>, AllocError>
    requires { length value.now ≤ 64 }
    ensures room { IfOk result (λ bytes. 4 ≤ length bytes.items) }
    ensures entry { IfOk result
        (λ bytes. EncodesEntry (drop 4 bytes.items) (Marks steps value.now)) }
{
    let mut bytes = begin_entry(alloc, b'M', 12 + value.as_str().len())?;
    append_number64(&mut bytes, steps)?;
    append_text(&mut bytes, value)?;
    Ok(bytes)
}

/// The entry of a confirmed position.
#[tactic(auto, unfolding(crate::specs::Entries::entry_form))]
pub fn confirm_entry(alloc: Global, upto: Lsn) -> Result<Vec<u8>, AllocError>
    ensures room { IfOk result (λ bytes. 4 ≤ length bytes.items) }
    ensures entry { IfOk result (λ bytes. EncodesEntry (drop 4 bytes.items) (Confirms upto)) }
{
    let mut bytes = begin_entry(alloc, b'F', 8)?;
    append_number64(&mut bytes, upto.0)?;
    Ok(bytes)
}
