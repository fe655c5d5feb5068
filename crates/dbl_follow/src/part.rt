//! The open transaction of a follower.

ghost use Rattle.std.specs.Prelude.{◌≡◌, ◌++◌, ◌∷◌, ℕ, [], None, option_map, IfOk, IfErr, OnOk};
ghost use Rattle.dbl_model_event.specs.OpenEvents.{unmarked};
ghost use Rattle.dbl_envelope.specs.Clashing.{notices_clash};
ghost use Rattle.dbl_envelope.specs.SoFar.{HasMadeRecords, HasTails, made_by};
ghost use Rattle.dbl_envelope.specs.Suits.{Suits};
ghost use Rattle.dbl_follow.specs.Amid.{ExtendsPart, HoldsLast, held_records};
ghost use Rattle.dbl_follow.specs.Faults.{IsClashOf};
ghost use Rattle.dbl_follow.specs.Followed.{IsOpenPartOf, part_of};

use crate::FollowError;
use dbl_envelope::{EventWriter, OpenRecords};
use dbl_model_table::{Change, Head};
use dbl_record::Record;
use std::alloc::{AllocError, Global};

// The open transaction, of which a change was followed.
#[derive(Drop)]
pub(crate) struct Part {
    pub head: Head,
    // when its records are made
    pub now_ms: i64,
    pub records: OpenRecords,
    // the last of its records so far
    pub held: Record,
}

// Makes the records of the next change, appends them, and holds the last one back.
fn hold_last(
    head: Head,
    now_ms: i64,
    records: OpenRecords,
    alloc: Global,
    writer: &EventWriter,
    change: &Change,
    out: &mut Vec<Record>,
) -> Result<Part, FollowError>
    requires suits { Suits writer.now.infos change.now }
    requires tails { HasTails writer.now records }
    ensures held { (made : ℕ) → HasMadeRecords writer.now head now_ms made records → IfOk result
        (HoldsLast writer.now head now_ms made change.now out.old.items out.new.items) }
    ensures no_clash { OnOk result
        (notices_clash writer.now.identity.placeholder writer.now.infos change.now ≡ None) }
    ensures err { IfErr result (IsClashOf
        (notices_clash writer.now.identity.placeholder writer.now.infos change.now)) }
{
    let mut records = records;
    records.append(alloc, writer, change, out)?;
    match out.pop() {
        Some(held) => Ok(Part {
            head,
            now_ms,
            records,
            held,
        }),
        None => unreachable!(),
    }
}

// Begins a transaction with its first change.
fn begin_part(
    alloc: Global,
    writer: &EventWriter,
    head: &Head,
    change: &Change,
    now_ms: i64,
    out: &mut Vec<Record>,
) -> Result<Part, FollowError>
    requires suits { Suits writer.now.infos change.now }
    ensures held { IfOk result
        (HoldsLast writer.now head.now now_ms 0 change.now out.old.items out.new.items) }
    ensures no_clash { OnOk result
        (notices_clash writer.now.identity.placeholder writer.now.infos change.now ≡ None) }
    ensures err { IfErr result (IsClashOf
        (notices_clash writer.now.identity.placeholder writer.now.infos change.now)) }
{
    let records = OpenRecords::make(alloc, writer, head, now_ms)?;
    hold_last(*head, now_ms, records, alloc, writer, change, out)
}

// Goes on with a transaction. The record that was held isn't its last one any more.
fn extend_part(
    part: Part,
    alloc: Global,
    writer: &EventWriter,
    change: &Change,
    out: &mut Vec<Record>,
) -> Result<Part, FollowError>
    requires suits { Suits writer.now.infos change.now }
    requires made { HasMadeRecords writer.now part.head part.now_ms (made_by part.records)
        part.records }
    ensures held { IfOk result
        (HoldsLast writer.now part.head part.now_ms (made_by part.records) change.now
        (out.old.items ++ unmarked part.held ∷ []) out.new.items) }
    ensures no_clash { OnOk result
        (notices_clash writer.now.identity.placeholder writer.now.infos change.now ≡ None) }
    ensures err { IfErr result (IsClashOf
        (notices_clash writer.now.identity.placeholder writer.now.infos change.now)) }
{
    let Part {
        head,
        now_ms,
        records,
        held,
    } = part;
    out.push(Record {
        last: false,
        ..held
    })?;
    hold_last(head, now_ms, records, alloc, writer, change, out)
}

/// Makes the records of the next change of the open transaction, of which it is the first if none
/// is open, and returns those that aren't held any more: all so far but the last one.
pub(crate) fn follow_change(
    part: &mut Option<Part>,
    alloc: Global,
    writer: &EventWriter,
    head: &Head,
    change: &Change,
    now_ms: i64,
) -> Result<Vec<Record>, FollowError>
    requires suits { Suits writer.now.infos change.now }
    requires part { IsOpenPartOf writer.now part.old }
    ensures extends { IfOk result
        (λ released. ExtendsPart writer.now head.now now_ms change.now (option_map part_of part.old)
        released.items (option_map part_of part.new)) }
    ensures part { IsOpenPartOf writer.now part.new }
    ensures no_clash { OnOk result
        (notices_clash writer.now.identity.placeholder writer.now.infos change.now ≡ None) }
    ensures err { IfErr result (IsClashOf
        (notices_clash writer.now.identity.placeholder writer.now.infos change.now)) }
{
    let mut released = Vec::new(alloc);
    match part.take() {
        None => {
            let next = begin_part(alloc, writer, head, change, now_ms, &mut released)?;
            *part = Some(next);
            Ok(released)
        }
        Some(old) => {
            let next = extend_part(old, alloc, writer, change, &mut released)?;
            *part = Some(next);
            Ok(released)
        }
    }
}

/// Ends the open transaction, if there is one, and returns the record that is held.
pub(crate) fn end_part(part: &mut Option<Part>, alloc: Global) -> Result<Vec<Record>, AllocError>
    ensures held { IfOk result
        (λ records. records.items ≡ held_records (option_map part_of part.old)) }
    ensures none { part.new ≡ None }
{
    let mut records = Vec::new(alloc);
    if let Some(old) = part.take() {
        let Part {
            head: _,
            now_ms: _,
            records: made,
            held,
        } = old;
        drop(made);
        records.push(held)?;
    }
    Ok(records)
}
