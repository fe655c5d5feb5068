//! Appends records to a sink in batches.

ghost use Rattle.std.specs.Prelude.{◌≡◌, ◌⊎◌, ◌<◌, ◌++◌, ◌∷◌, [], None, length, IfErr, IfOk, IfSome};
ghost use Rattle.std.specs.Prelude.{IsErr, IsTrue, OnOk, false};
ghost use Rattle.std.specs.Vec.Iter.{into_iter_items};
ghost use Rattle.dbl_record.specs.Cuts.{IsHandful, begins_batch};
ghost use Rattle.dbl_record.specs.Groups.{group_form};
ghost use Rattle.dbl_topic.specs.Sinks.{told_length, group_limit};
ghost use Rattle.dbl_topic.specs.Keeps.{KeepsSink};
ghost use Rattle.dbl_capture_work.specs.Causes.{HaltsAppending, PutsAll};
ghost use Rattle.dbl_capture_work.specs.Groups.{AppendsMore, BeginsBatch, CountsGroup};
ghost use Rattle.dbl_capture_work.specs.Groups.{HasLastsAtItsEnd, IsGathered, LeavesRecords};
ghost use Rattle.dbl_capture_work.specs.Groups.{PutsGroup, ends_commit, records_in};
ghost use Rattle.dbl_capture_work.specs.Groups.{report_with};

use crate::{Halt, Report};
use dbl_record::{Record, record_length};
use dbl_topic::Sink;
use std::alloc::{AllocError, Global};
use std::vec::IntoIter;

/// The greatest number of records of a batch.
const RECORDS: usize = 1000;

/// The greatest number of bytes of a batch of several records.
const BYTES: u64 = 16_777_216;

/// A batch that is being gathered: records of the open transaction that are appended together, once
/// the next one doesn't fit or the transaction ends.
#[derive(Drop)]
pub struct Gathered {
    pub items: Vec<Record>,
    /// The length of its encoding.
    pub bytes: u64,
    /// The position of its last record.
    pub position: u64,
}

fn begin_group(alloc: Global, item: Record) -> Result<Gathered, AllocError>
    ensures items { IfOk result (λ gathered. gathered.items.items ≡ item ∷ []) }
    ensures gathered { IfOk result IsGathered }
{
    let position = item.position;
    let bytes = record_length(&item).saturating_add(4);
    let mut items = Vec::new(alloc);
    items.push(item)?;
    Ok(Gathered {
        items,
        bytes,
        position,
    })
}

// Whether a record begins a new batch.
#[tactic(auto, unfolding(dbl_record::specs::Cuts::begins_batch))]
fn needs_new_batch(gathered: &Gathered, item: &Record) -> bool
    requires { IsGathered gathered.now }
    ensures { result ≡ begins_batch gathered.now.items.items item.now }
{
    item.position != gathered.position
        || gathered.items.len() >= RECORDS
        || gathered.bytes.saturating_add(record_length(item)) > BYTES
}

// Adds a record to the batch.
fn gather(gathered: &mut Gathered, item: Record) -> Result<(), AllocError>
    requires gathered { IsGathered gathered.old }
    requires joins { begins_batch gathered.old.items.items item ≡ false }
    ensures items { OnOk result (gathered.new.items.items ≡ gathered.old.items.items ++ item ∷ []) }
    ensures gathered { OnOk result (IsGathered gathered.new) }
{
    gathered.position = item.position;
    gathered.bytes = gathered.bytes.saturating_add(record_length(&item));
    gathered.items.push(item)?;
    Ok(())
}

// Whether a batch's last record is the last of its commit.
fn ends_commit(group: &Vec<Record>) -> bool
    requires { IsHandful group.now.items }
    ensures { result ≡ ends_commit group.now.items }
{
    match group.last() {
        Some(item) => item.last,
        None => false,
    }
}

// Adds an appended batch to the counts of a report.
fn count_batch(report: &mut Report, group: &Vec<Record>, snapshot: bool)
    requires { IsHandful group.now.items }
    ensures { HasLastsAtItsEnd group.now.items →
        report.new ≡ report_with snapshot group.now.items report.old }
{
    let count = group.len() as u64;
    // Each count has 64 bits.
    let (chunks, rows) = (report.chunks, report.snapshot_rows);
    report.records = report.records.saturating_add(count);
    if snapshot {
        let ended = if ends_commit(group) { 1 } else { 0 };
        report.chunks = chunks.saturating_add(ended);
        report.snapshot_rows = rows.saturating_add(count - ended);
    }
}

// Appends one batch.
fn put_group<K: Sink>(
    sink: &mut K,
    group: &Vec<Record>,
    snapshot: bool,
    report: &mut Report,
) -> Result<(), Halt>
    requires live { IsTrue (K.is_live sink.old) }
    requires handful { IsHandful group.now.items }
    ensures halt { IfErr result (λ h. (h ≡ Halt.Memory) ⊎ ((h ≡ Halt.Sink)
        ⊎ ((group_limit < length (group_form group.now.items))
        × (h ≡ Halt.RecordTooLong (told_length group.now.items))))) }
    ensures long { group_limit < length (group_form group.now.items) → IsErr result }
    ensures group { PutsGroup K.Sink sink.old sink.new group.now.items result }
    ensures counts { CountsGroup snapshot group.now.items report.old report.new result }
    ensures sink { KeepsSink K.Sink sink.old sink.new result Halt.Sink }
{
    sink.put(group)?;
    count_batch(report, group, snapshot);
    Ok(())
}

// The batch to go on with: the gathered one, or else one that begins with the next record.
fn first_batch(
    alloc: Global,
    batch: &mut Option<Gathered>,
    rest: &mut IntoIter<Record>,
) -> Result<Option<Gathered>, AllocError>
    requires gathered { IfSome batch.old IsGathered }
    ensures none { batch.new ≡ None }
    ensures begins { IfOk result (λ first. BeginsBatch (records_in batch.old)
        (into_iter_items rest.old) first (into_iter_items rest.new)) }
{
    match batch.take() {
        Some(gathered) => Ok(Some(gathered)),
        None => match rest.next() {
            Some(first) => {
                let begun = begin_group(alloc, first)?;
                Ok(Some(begun))
            }
            None => Ok(None),
        },
    }
}

// Goes on with a batch and the records after it, and appends each batch that is full. The last
// batch stays gathered.
fn append_from<K: Sink>(
    alloc: Global,
    sink: &mut K,
    batch: &mut Option<Gathered>,
    mut gathered: Gathered,
    rest: IntoIter<Record>,
    snapshot: bool,
    report: &mut Report,
) -> Result<(), Halt>
    requires live { IsTrue (K.is_live sink.old) }
    requires gathered { IsGathered gathered }
    ensures appends { OnOk result (AppendsMore K.Sink (gathered.items.items ++ into_iter_items rest)
        batch.new snapshot sink.old sink.new report.old report.new) }
    ensures leaves { LeavesRecords K.Sink (gathered.items.items ++ into_iter_items rest) snapshot
        sink.old sink.new report.old report.new result }
    ensures halts { HaltsAppending K.Sink (gathered.items.items ++ into_iter_items rest) snapshot
        sink.old sink.new report.old report.new result }
    ensures sink { KeepsSink K.Sink sink.old sink.new result Halt.Sink }
{
    // Each count has 64 bits.
    let (_records, _chunks, _rows) = (report.records, report.chunks, report.snapshot_rows);
    'records: for item in rest {
        if needs_new_batch(&gathered, &item) {
            put_group(sink, &gathered.items, snapshot, report)?;
            gathered = begin_group(alloc, item)?;
        } else {
            gather(&mut gathered, item)?;
        }
    }
    *batch = Some(gathered);
    Ok(())
}

/// Gathers records, which come after those of the batch, and appends each batch that is full. The
/// last batch stays gathered. `snapshot` says whether they are a window's.
pub fn append_records<K: Sink>(
    alloc: Global,
    sink: &mut K,
    batch: &mut Option<Gathered>,
    records: Vec<Record>,
    snapshot: bool,
    report: &mut Report,
) -> Result<(), Halt>
    requires live { IsTrue (K.is_live sink.old) }
    requires gathered { IfSome batch.old IsGathered }
    ensures appends { OnOk result (AppendsMore K.Sink (records_in batch.old ++ records.items)
        batch.new snapshot sink.old sink.new report.old report.new) }
    ensures leaves { LeavesRecords K.Sink (records_in batch.old ++ records.items) snapshot sink.old
        sink.new report.old report.new result }
    ensures halts { HaltsAppending K.Sink (records_in batch.old ++ records.items) snapshot sink.old
        sink.new report.old report.new result }
    ensures sink { KeepsSink K.Sink sink.old sink.new result Halt.Sink }
{
    // Each count has 64 bits.
    let (_records, _chunks, _rows) = (report.records, report.chunks, report.snapshot_rows);
    let mut rest = records.into_iter();
    let first = first_batch(alloc, batch, &mut rest)?;
    match first {
        Some(gathered) => append_from(alloc, sink, batch, gathered, rest, snapshot, report),
        None => Ok(()),
    }
}

/// Appends records in batches, after those of the batch that is gathered, of which none stays
/// gathered.
pub fn put_all<K: Sink>(
    alloc: Global,
    sink: &mut K,
    batch: &mut Option<Gathered>,
    records: Vec<Record>,
    snapshot: bool,
    report: &mut Report,
) -> Result<(), Halt>
    requires live { IsTrue (K.is_live sink.old) }
    requires gathered { IfSome batch.old IsGathered }
    ensures none { OnOk result (batch.new ≡ None) }
    ensures puts { PutsAll K.Sink (records_in batch.old ++ records.items) snapshot sink.old sink.new
        report.old report.new result }
    ensures sink { KeepsSink K.Sink sink.old sink.new result Halt.Sink }
{
    // Each count has 64 bits.
    let (_records, _chunks, _rows) = (report.records, report.chunks, report.snapshot_rows);
    append_records(alloc, sink, batch, records, snapshot, report)?;
    match batch.take() {
        Some(gathered) => put_group(sink, &gathered.items, snapshot, report),
        None => Ok(()),
    }
}
