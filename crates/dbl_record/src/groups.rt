//! Groups of records as bytes, the entries of a topic log.

ghost use Rattle.std.specs.Prelude.{◌≡◌, ◌≢◌, ◌⊎◌, ◌-◌, ◌^◌, ℕ, List, length, min};
ghost use Rattle.std.specs.Prelude.{Ok, Err, OnOk, OnErr, IfOk, IfErr, MatchResult};
ghost use Rattle.std.specs.List.{flat_map, AllByRecursion};
ghost use Rattle.dbl_record.specs.declared.record.Record.{Record};
ghost use Rattle.dbl_record.specs.Fields.{Extends, text_form, optional_form};
ghost use Rattle.dbl_record.specs.Groups.{FitsGroup, FitsRecord, HasForm, IsGroup};
ghost use Rattle.dbl_record.specs.Groups.{IsNarrow, group_form, record_form};
ghost use Rattle.dbl_record.specs.GroupFaults.{IsBadAt};
ghost use Rattle.dbl_record.specs.GroupReading.{Gives, group_at, many_at, pair_at};
ghost use Rattle.dbl_record.specs.GroupReading.{place_at, record_at, whole};

use crate::fields::{
    append_number32, append_number64, append_optional, append_text, append_truth, place,
    read_number32, read_number64, read_optional, read_text, read_truth,
};
use crate::{Record, RecordError};
use dbl_base::{Bytes, Text};
use std::alloc::{AllocError, Global};

/// The minimum length of an encoded record: two numbers, five bytes, and the length of its topic.
const RECORD_BYTES: usize = 25;

fn text_length(text: &Text) -> u64
    ensures { result ≡ min (length (text_form text.now)) (2 ^ 64 - 1) }
{
    (text.as_str().len() as u64).saturating_add(4)
}

fn optional_length(text: &Option<Text>) -> u64
    ensures { result ≡ min (length (optional_form text.now)) (2 ^ 64 - 1) }
{
    match text {
        None => 1,
        Some(text) => text_length(text).saturating_add(1),
    }
}

/// The length of a record within an encoded group, saturating at 2^64 - 1.
pub fn record_length(item: &Record) -> u64
    ensures { result ≡ min (length (record_form item.now)) (2 ^ 64 - 1) }
{
    let texts = text_length(&item.topic)
        .saturating_add(optional_length(&item.key))
        .saturating_add(optional_length(&item.value))
        .saturating_add(optional_length(&item.newkey))
        .saturating_add(optional_length(&item.oldkey));
    texts.saturating_add(17)
}

/// The length of an encoded group, saturating at 2^64 - 1, also if a text of 2^32 bytes or more
/// makes the group impossible to encode.
pub fn group_length(group: &[Record]) -> u64
    ensures { result ≡ min (length (group_form group.now)) (2 ^ 64 - 1) }
{
    let mut length = 4u64;
    'records: for item in group {
        length = length.saturating_add(record_length(item));
    }
    length
}

#[tactic(auto, unfolding(crate::specs::Groups::record_form))]
fn append_record(out: &mut Vec<u8>, item: &Record) -> Result<(), AllocError>
    requires { IsNarrow item.now }
    ensures appended { OnOk result (Extends out.old.items (record_form item.now) out.new.items) }
    ensures fits { OnOk result (FitsRecord item.now) }
{
    append_number64(out, item.position)?;
    append_number64(out, item.ordinal)?;
    append_truth(out, item.last)?;
    append_text(out, &item.topic)?;
    append_optional(out, &item.key)?;
    append_optional(out, &item.value)?;
    append_optional(out, &item.newkey)?;
    append_optional(out, &item.oldkey)
}

fn append_records(out: &mut Vec<u8>, group: &[Record]) -> Result<(), AllocError>
    requires { AllByRecursion IsNarrow group.now }
    ensures appended { OnOk result
        (Extends out.old.items (flat_map record_form group.now) out.new.items) }
    ensures fits { OnOk result (AllByRecursion FitsRecord group.now) }
{
    'records: for item in group {
        append_record(out, item)?;
    }
    Ok(())
}

/// Appends an encoded group to a buffer.
#[tactic(auto, unfolding(crate::specs::Groups::group_form))]
pub fn append_group(out: &mut Vec<u8>, group: &[Record]) -> Result<(), RecordError>
    requires { HasForm group.now }
    ensures appended { OnOk result (Extends out.old.items (group_form group.now) out.new.items) }
    ensures fits { OnOk result (FitsGroup group.now) }
    ensures memory { OnErr result (result ≡ Err RecordError.Memory) }
{
    append_number32(out, group.len() as u32)?;
    append_records(out, group)?;
    Ok(())
}

/// Encodes a group of fewer than 2^32 records whose texts are each shorter than 2^32 bytes.
pub fn write_group(alloc: Global, group: &Vec<Record>) -> Result<Bytes, RecordError>
    requires { HasForm group.now.items }
    ensures written { IfOk result (λ bytes. IsGroup bytes group.now.items) }
    ensures memory { OnErr result (result ≡ Err RecordError.Memory) }
{
    let mut out = Vec::with_capacity(alloc, group_length(group) as usize)?;
    append_group(&mut out, group)?;
    Ok(Bytes::make(out))
}

#[tactic(auto, unfolding(crate::specs::GroupReading::place_at))]
fn read_place(total: usize, bytes: &[u8]) -> Result<((u64, u64, bool), &[u8]), RecordError>
    ensures { Gives (λ x. (x.0, x.1.now)) result (place_at total bytes.now) }
{
    let (position, rest) = read_number64(total, bytes)?;
    let (ordinal, rest) = read_number64(total, rest)?;
    let (last, rest) = read_truth(total, rest)?;
    Ok(((position, ordinal, last), rest))
}

#[tactic(auto, unfolding(crate::specs::GroupReading::pair_at))]
fn read_pair(
    alloc: Global,
    total: usize,
    bytes: &[u8],
) -> Result<((Option<Text>, Option<Text>), &[u8]), RecordError>
    ensures { Gives (λ x. (x.0, x.1.now)) result (pair_at total bytes.now) }
{
    let (first, rest) = read_optional(alloc, total, bytes)?;
    let (second, rest) = read_optional(alloc, total, rest)?;
    Ok(((first, second), rest))
}

#[tactic(auto, unfolding(crate::specs::GroupReading::record_at))]
fn read_record(alloc: Global, total: usize, bytes: &[u8]) -> Result<(Record, &[u8]), RecordError>
    ensures { Gives (λ x. (x.0, x.1.now)) result (record_at total bytes.now) }
{
    let ((position, ordinal, last), rest) = read_place(total, bytes)?;
    let (topic, rest) = read_text(alloc, total, rest)?;
    let ((key, value), rest) = read_pair(alloc, total, rest)?;
    let ((newkey, oldkey), rest) = read_pair(alloc, total, rest)?;
    let item = Record {
        topic,
        key,
        value,
        position,
        ordinal,
        last,
        newkey,
        oldkey,
    };
    Ok((item, rest))
}

// A wrong count takes no more memory than the bytes do.
fn read_records(
    alloc: Global,
    total: usize,
    count: usize,
    bytes: &[u8],
) -> Result<(Vec<Record>, &[u8]), RecordError>
    ensures { Gives (λ x. (x.0.items, x.1.now)) result (many_at (record_at total) count bytes.now) }
{
    let mut records = Vec::with_capacity(alloc, count.min(bytes.len() / RECORD_BYTES))?;
    let mut rest = bytes;
    'reading: for _ in 0..count {
        let (item, after) = read_record(alloc, total, rest)?;
        records.push(item)?;
        rest = after;
    }
    Ok((records, rest))
}

#[tactic(auto, unfolding(crate::specs::GroupReading::whole, crate::specs::GroupReading::group_at, crate::specs::GroupReading::ended))]
fn read_whole(alloc: Global, bytes: &[u8]) -> Result<Vec<Record>, RecordError>
    ensures { Gives (λ x. x.items) result (whole bytes.now) }
{
    let total = bytes.len();
    let (count, rest) = read_number32(total, bytes)?;
    let (records, rest) = read_records(alloc, total, count as usize, rest)?;
    if !rest.is_empty() {
        return Err(RecordError::BadRecord {
            at: place(total, rest),
        });
    }
    Ok(records)
}

/// Decodes a group, or returns the first offset at which the bytes differ from every encoding.
pub fn read_group(alloc: Global, bytes: &[u8]) -> Result<Vec<Record>, RecordError>
    ensures read { IfOk result (λ group. IsGroup bytes.now group.items) }
    ensures written { (group : List Record) → IsGroup bytes.now group →
        MatchResult result (λ read. read.items ≡ group) (λ error. error ≡ RecordError.Memory) }
    ensures refused { IfErr result (λ error. (error ≡ RecordError.Memory) ⊎
        ((at : ℕ) × (error ≡ RecordError.BadRecord at) × IsBadAt bytes.now at)) }
    ensures bad { (at : ℕ) → IsBadAt bytes.now at → (result ≡ Err (RecordError.BadRecord at)) ⊎
        (result ≡ Err RecordError.Memory) }
{
    read_whole(alloc, bytes)
}
