//! The listing of `compact`: the records of a topic log that a new consumer needs. A pass from the
//! last group to the first marks records, and a pass forward prints those; the log isn't in memory.
ghost use Rattle.std.specs.Prelude.{◌≡◌, ◌⊎◌, ◌+◌, ◌∷◌, ℕ, List, Bool, [], Option, Ok, Err, length};
ghost use Rattle.std.specs.Prelude.{drop, IfOk, IfErr, OnOk, MatchResult, IsTrue, map};
ghost use Rattle.dbl_base.specs.Streams.{FailsOnlyIfCounted};
ghost use Rattle.dbl_lines.specs.Gathering.{IsPut, PutsLines};
ghost use Rattle.dbl_record.specs.declared.record.Record.{Record};
ghost use Rattle.dbl_record.specs.Line.{line_of};
ghost use Rattle.dbl_compact.specs.Marks.{marked};
ghost use Rattle.dbl_topic.specs.Held.{HoldsGroups};
ghost use Rattle.dblog_stores.specs.declared.listing.Listing.TheVariants.{KeptRecords};
ghost use Rattle.dblog_stores.specs.Applying.{AppliesGroups};
ghost use Rattle.dblog_stores.specs.Compacting.{HasMarked, HasMarkedAll, HasMarkedPart};
ghost use Rattle.dblog_stores.specs.Compacting.{line_if, marked_lines};
ghost use Rattle.dblog_stores.specs.Consuming.{RefusesAt};
ghost use Rattle.dblog_stores.specs.Ends.{CutsLines, Ends, IsAfterJournalOpening, IsErrorOf};
ghost use Rattle.dblog_stores.specs.Ends.{IsExternalCommandError, IsRefusal};
ghost use Rattle.dbl_journal.specs.Calls.{Keeps};

use crate::opening::read_group;
use crate::{CommandError, Store};
use dbl_base::{Output, Text};
use dbl_compact::{Compactor, Marks};
use dbl_consume::ConsumeError;
use dbl_disk::Disk;
use dbl_lines::{LineWriter, PrintError};
use dbl_record::Record;
use dbl_topic::TopicLog;
use std::alloc::Global;

/// A pass over a topic log from its last record to the first: a mark for each record, and the
/// number of the first group with a record that a consumer refuses.
#[derive(Drop)]
struct Marking {
    compactor: Compactor,
    marks: Marks,
    refused: Option<u64>,
}

fn begin_marking(alloc: Global, placeholder: &Text) -> Result<Marking, CommandError>
    ensures begun { (number : ℕ) → IfOk result (HasMarked placeholder.now number []) }
    ensures memory { IfErr result (λ error. error ≡ CommandError.Memory) }
{
    match Compactor::make(alloc, placeholder) {
        Ok(compactor) => Ok(Marking {
            compactor,
            marks: Marks::new(alloc),
            refused: None,
        }),
        Err(_) => Err(CommandError::Memory),
    }
}

fn push_mark(marks: &mut Marks, mark: bool) -> Result<(), CommandError>
    ensures pushed { OnOk result (marks.new ≡ mark ∷ marks.old) }
    ensures memory { IfErr result (λ error. error ≡ CommandError.Memory) }
{
    match marks.push(mark) {
        Ok(()) => Ok(()),
        Err(_) => Err(CommandError::Memory),
    }
}

// Marks the record before those that were marked.
fn mark_record(marking: &mut Marking, item: &Record, number: u64) -> Result<(), CommandError>
    ensures marked { (placeholder : List ℕ) (part : List Record) (groups : List (List Record)) →
        HasMarkedPart placeholder number part groups marking.old →
        OnOk result (HasMarkedPart placeholder number (item.now ∷ part) groups marking.new) }
    ensures memory { IfErr result (λ error. error ≡ CommandError.Memory) }
{
    match marking.compactor.read(item) {
        Ok(mark) => push_mark(&mut marking.marks, mark),
        Err(ConsumeError::Memory) => Err(CommandError::Memory),
        Err(error) => {
            drop(error);
            marking.refused = Some(number);
            push_mark(&mut marking.marks, false)
        }
    }
}

// Marks the records of the group before those that were marked.
fn mark_group(marking: &mut Marking, group: &Vec<Record>, number: u64) -> Result<(), CommandError>
    ensures marked { (placeholder : List ℕ) (groups : List (List Record)) →
        HasMarked placeholder (number + 1) groups marking.old →
        OnOk result (HasMarked placeholder number (group.now.items ∷ groups) marking.new) }
    ensures memory { IfErr result (λ error. error ≡ CommandError.Memory) }
{
    'records: for index in (0..group.len()).rev() {
        match mark_record(marking, &group[index], number) {
            Ok(()) => {}
            Err(error) => return Err(error),
        }
    }
    Ok(())
}

fn mark_groups<D: Disk>(
    log: &mut TopicLog<D>,
    marking: &mut Marking,
    placeholder: &Text,
) -> Result<(), CommandError>
    requires live { IsTrue log.old.live }
    requires begun { (number : ℕ) → HasMarked placeholder.now number [] marking.old }
    ensures told { (groups : List (List Record)) → HoldsGroups D.Disk log.old groups →
        OnOk result (HasMarked placeholder.now 0 groups marking.new) }
    ensures outside { (groups : List (List Record)) → HoldsGroups D.Disk log.old groups →
        IfErr result IsExternalCommandError }
    ensures holds { (groups : List (List Record)) → HoldsGroups D.Disk log.old groups →
        HoldsGroups D.Disk log.new groups }
    ensures live { log.new.live ≡ log.old.live }
    ensures keeps { Keeps D.Disk
        (result ≡ Err (CommandError.Failed Store.Topics)) log.old.disk log.new.disk }
    ensures kinds { IfErr result (IsErrorOf Store.Topics) }
    ensures a_store { IfErr result IsAfterJournalOpening }
{
    'each: for number in (0..log.groups()).rev() {
        let group = match read_group(log, number) {
            Ok(group) => group,
            Err(error) => return Err(error),
        };
        match mark_group(marking, &group, number) {
            Ok(()) => {}
            Err(error) => return Err(error),
        }
    }
    Ok(())
}

fn marks_of(marking: Marking) -> Marks
    ensures { result ≡ marking.marks }
{
    let Marking {
        compactor,
        marks,
        ..
    } = marking;
    drop(compactor);
    marks
}

// The marks of the records of a topic log, or the first group with one that a consumer refuses.
fn mark_log<D: Disk>(
    alloc: Global,
    log: &mut TopicLog<D>,
    placeholder: &Text,
) -> Result<Marks, CommandError>
    requires { IsTrue log.old.live }
    ensures told { (groups : List (List Record)) → HoldsGroups D.Disk log.old groups →
        MatchResult result (HasMarkedAll placeholder.now groups)
        (RefusesAt placeholder.now groups) }
    ensures holds { (groups : List (List Record)) → HoldsGroups D.Disk log.old groups →
        OnOk result (HoldsGroups D.Disk log.new groups) }
    ensures live { log.new.live ≡ log.old.live }
    ensures keeps { Keeps D.Disk
        (result ≡ Err (CommandError.Failed Store.Topics)) log.old.disk log.new.disk }
    ensures kinds { IfErr result (IsErrorOf Store.Topics) }
    ensures a_store { IfErr result IsAfterJournalOpening }
{
    let mut marking = match begin_marking(alloc, placeholder) {
        Ok(marking) => marking,
        Err(error) => return Err(error),
    };
    match mark_groups(log, &mut marking, placeholder) {
        Ok(()) => match marking.refused {
            Some(index) => {
                drop(marking);
                Err(CommandError::BadEntry {
                    store: Store::Topics,
                    index,
                })
            }
            None => Ok(marks_of(marking)),
        },
        Err(error) => {
            drop(marking);
            Err(error)
        }
    }
}

// Appends the line of a record if its mark is true.
fn put_record<O: Output>(
    output: &mut O,
    lines: &mut LineWriter,
    mark: Option<bool>,
    item: &Record,
) -> Result<(), PrintError>
    ensures puts { PutsLines (line_if mark item.now) result lines.old lines.new
        (O.written output.old) (O.written output.new) }
    ensures cause { FailsOnlyIfCounted (result ≡ Err PrintError.OutputFailed)
        (O.faults output.old) (O.faults output.new) }
{
    match mark {
        Some(true) => lines.put(output, item),
        _ => Ok(()),
    }
}

// Appends the lines of the records that are marked, and takes the marks of all.
fn put_marked<O: Output>(
    output: &mut O,
    lines: &mut LineWriter,
    marks: &mut Marks,
    group: &Vec<Record>,
) -> Result<(), PrintError>
    ensures puts { PutsLines (map line_of (marked marks.old group.now.items)) result
        lines.old lines.new (O.written output.old) (O.written output.new) }
    ensures taken { OnOk result (marks.new ≡ drop (length group.now.items) marks.old) }
    ensures cause { FailsOnlyIfCounted (result ≡ Err PrintError.OutputFailed)
        (O.faults output.old) (O.faults output.new) }
{
    'records: for item in group {
        let mark = marks.pop();
        match put_record(output, lines, mark, item) {
            Ok(()) => {}
            Err(error) => return Err(error),
        }
    }
    Ok(())
}

// Appends the lines of the marked records of all groups to the writer, which may not have written
// the last ones yet.
fn gather_marked<D: Disk, O: Output>(
    log: &mut TopicLog<D>,
    marks: &mut Marks,
    lines: &mut LineWriter,
    output: &mut O,
) -> Result<(), CommandError>
    requires { IsTrue log.old.live }
    ensures told { (groups : List (List Record)) → HoldsGroups D.Disk log.old groups →
        (start : Option (List ℕ)) → IsPut start (O.written output.old) lines.old [] →
        MatchResult result
        (λ done. IsPut start (O.written output.new) lines.new (marked_lines marks.old groups))
        (λ error. CutsLines (marked_lines marks.old groups) error start (O.written output.new)) }
    ensures keeps { Keeps D.Disk
        (result ≡ Err (CommandError.Failed Store.Topics)) log.old.disk log.new.disk }
    ensures kinds { IfErr result
        (λ error. (error ≡ CommandError.OutputFailed) ⊎ IsErrorOf Store.Topics error) }
    ensures a_store { IfErr result IsAfterJournalOpening }
    ensures output { FailsOnlyIfCounted (result ≡ Err CommandError.OutputFailed)
        (O.faults output.old) (O.faults output.new) }
{
    'each: for number in 0..log.groups() {
        let group = match read_group(log, number) {
            Ok(group) => group,
            Err(error) => return Err(error),
        };
        match put_marked(output, lines, marks, &group) {
            Ok(()) => {}
            Err(error) => return Err(CommandError::from(error)),
        }
    }
    Ok(())
}

// Prints the lines of the marked records.
fn print_marked<D: Disk, O: Output>(
    alloc: Global,
    log: &mut TopicLog<D>,
    marks: &mut Marks,
    output: &mut O,
) -> Result<(), CommandError>
    requires { IsTrue log.old.live }
    ensures told { (groups : List (List Record)) → HoldsGroups D.Disk log.old groups →
        Ends (Ok (marked_lines marks.old groups)) result
        (O.written output.old) (O.written output.new) }
    ensures keeps { Keeps D.Disk
        (result ≡ Err (CommandError.Failed Store.Topics)) log.old.disk log.new.disk }
    ensures kinds { IfErr result
        (λ error. (error ≡ CommandError.OutputFailed) ⊎ IsErrorOf Store.Topics error) }
    ensures a_store { IfErr result IsAfterJournalOpening }
    ensures output { FailsOnlyIfCounted (result ≡ Err CommandError.OutputFailed)
        (O.faults output.old) (O.faults output.new) }
{
    let mut lines = match LineWriter::make(alloc) {
        Ok(lines) => lines,
        Err(_) => return Err(CommandError::Memory),
    };
    match gather_marked(log, marks, &mut lines, output) {
        Ok(()) => match lines.finish(output) {
            Ok(()) => Ok(()),
            Err(error) => Err(CommandError::from(error)),
        },
        Err(error) => Err(error),
    }
}

/// Prints the lines of the records that a compaction of the topic log keeps, in the memory of one
/// group, a buffer, the keys of rows that are ended, and a bit for each record.
pub(crate) fn print_kept<D: Disk, O: Output>(
    alloc: Global,
    log: &mut TopicLog<D>,
    placeholder: &Text,
    output: &mut O,
) -> Result<(), CommandError>
    requires { IsTrue log.old.live }
    ensures told { (groups : List (List Record)) → HoldsGroups D.Disk log.old groups →
        AppliesGroups KeptRecords placeholder.now groups result
        (O.written output.old) (O.written output.new) }
    ensures keeps { Keeps D.Disk
        (result ≡ Err (CommandError.Failed Store.Topics)) log.old.disk log.new.disk }
    ensures kinds { IfErr result
        (λ error. (error ≡ CommandError.OutputFailed) ⊎ IsErrorOf Store.Topics error) }
    ensures a_store { IfErr result IsAfterJournalOpening }
    ensures unwritten { (groups : List (List Record)) → HoldsGroups D.Disk log.old groups →
        IfErr result (λ error. IsRefusal error → output.new ≡ output.old) }
    ensures output { FailsOnlyIfCounted (result ≡ Err CommandError.OutputFailed)
        (O.faults output.old) (O.faults output.new) }
{
    match mark_log(alloc, log, placeholder) {
        Ok(mut marks) => print_marked(alloc, log, &mut marks, output),
        Err(error) => Err(error),
    }
}
