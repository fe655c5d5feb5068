//! The commands that only read the stores: `topics`, `offsets`, `compact`, and `apply` of the topic
//! log.
ghost use Rattle.std.specs.Prelude.{◌≡◌, ◌≢◌, ◌⊎◌, ℕ, ◌≤◌, List, Err, Some};
ghost use Rattle.dbl_lines.specs.declared.status.Status.TheVariants.{Done, StartMismatch};
ghost use Rattle.dbl_lines.specs.declared.status.Status.TheVariants.{TopicsFailed, OffsetsFailed};
ghost use Rattle.dbl_lines.specs.declared.status.Status.TheVariants.{StdinFailed, StdoutFailed};
ghost use Rattle.dbl_lines.specs.declared.status.Status.TheVariants.{InvalidStore};
ghost use Rattle.dbl_base.specs.Streams.{FaultCounted};
ghost use Rattle.dbl_record.specs.declared.record.Record.{Record};
ghost use Rattle.dbl_topic.specs.Logs.{IsLog};
ghost use Rattle.dblog_stores.specs.Answers.{AnswersListing, AnswersOffsets, AnswersTopics};
ghost use Rattle.dblog_stores.specs.Ends.{IsSynced};
ghost use Rattle.dblog_run_stores.specs.Disks.{Finishes, IsOnlyRead, OfDisk, RunsStores, SaysError};
ghost use Rattle.dblog_run_stores.specs.Runs.{HasOpenedTopics, IsOffsetsStatus};
ghost use Rattle.dblog_run_stores.specs.Runs.{IsRowsStatus, IsTopicsStatus};

use dbl_base::Output;
use dbl_disk::Disk;
use dbl_lines::{OUT_OF_MEMORY, Status, write_text};
use dblog_init::{Disks, Outcome};
use dblog_stores::{
    Applied, CommandError, Ended, Listing, print_listing, print_offset, print_topics,
};
use std::alloc::Global;

/// Writes the lines of the topic log's records.
pub fn run_topics<O: Output, W, T: Disk, F>(
    alloc: Global,
    output: &mut O,
    disks: Disks<W, T, F>,
) -> Outcome<W, T, F, Status>
    ensures told { (bytes : List ℕ) → T.seen disks.topics ≡ Some bytes →
        RunsStores (AnswersTopics bytes)
        (OfDisk (FaultCounted (T.faults disks.topics) (T.faults result.disks.topics)) ⊥)
        result.end (O.written output.old) (O.written output.new) }
    ensures known { IsTopicsStatus result.end }
    ensures topics_synced { HasOpenedTopics result.end →
        IsSynced T.Disk disks.topics result.disks.topics }
    ensures topics_read { IsOnlyRead T.Disk
        TopicsFailed result.end disks.topics result.disks.topics }
    ensures wal_stays { result.disks.wal ≡ disks.wal }
    ensures offsets_stay { result.disks.offsets ≡ disks.offsets }
    ensures not_input { result.end ≢ StdinFailed }
    ensures output_failed { result.end ≡ StdoutFailed →
        FaultCounted (O.faults output.old) (O.faults output.new) }
{
    let Disks {
        wal,
        topics,
        offsets,
    } = disks;
    let ended = print_topics(alloc, topics, output);
    let Ended { disk, end } = ended;
    Outcome {
        disks: Disks {
            wal,
            topics: disk,
            offsets,
        },
        end: finish(alloc, end, output),
    }
}

/// Writes the text of the stored offset.
pub fn run_offsets<O: Output, W, T, F: Disk>(
    alloc: Global,
    output: &mut O,
    disks: Disks<W, T, F>,
) -> Outcome<W, T, F, Status>
    ensures told { (bytes : List ℕ) → F.seen disks.offsets ≡ Some bytes →
        RunsStores (AnswersOffsets bytes)
        (OfDisk ⊥ (FaultCounted (F.faults disks.offsets) (F.faults result.disks.offsets)))
        result.end (O.written output.old) (O.written output.new) }
    ensures known { IsOffsetsStatus result.end }
    ensures offsets_synced { (result.end ≡ Done) ⊎
        ((result.end ≡ StartMismatch) ⊎ (result.end ≡ InvalidStore)) →
        IsSynced F.Disk disks.offsets result.disks.offsets }
    ensures offsets_read { IsOnlyRead F.Disk
        OffsetsFailed result.end disks.offsets result.disks.offsets }
    ensures wal_stays { result.disks.wal ≡ disks.wal }
    ensures topics_stay { result.disks.topics ≡ disks.topics }
    ensures not_input { result.end ≢ StdinFailed }
    ensures output_failed { result.end ≡ StdoutFailed →
        FaultCounted (O.faults output.old) (O.faults output.new) }
{
    let Disks {
        wal,
        topics,
        offsets,
    } = disks;
    let ended = print_offset(alloc, offsets, output);
    let Ended { disk, end } = ended;
    Outcome {
        disks: Disks {
            wal,
            topics,
            offsets: disk,
        },
        end: finish(alloc, end, output),
    }
}

/// Writes a listing of the topic log, with the stored placeholder.
pub fn run_listing<O: Output, W, T: Disk, F: Disk>(
    alloc: Global,
    listing: Listing,
    output: &mut O,
    disks: Disks<W, T, F>,
) -> Outcome<W, T, F, Status>
    ensures told { (t f : List ℕ) → T.seen disks.topics ≡ Some t →
        ((groups : List (List Record)) → ¬ IsLog t groups) ⊎ (F.seen disks.offsets ≡ Some f) →
        RunsStores (AnswersListing listing t f)
        (OfDisk (FaultCounted (T.faults disks.topics) (T.faults result.disks.topics))
        (FaultCounted (F.faults disks.offsets) (F.faults result.disks.offsets)))
        result.end (O.written output.old) (O.written output.new) }
    ensures known { IsRowsStatus result.end }
    ensures topics_synced { HasOpenedTopics result.end →
        IsSynced T.Disk disks.topics result.disks.topics }
    ensures offsets_synced { (result.end ≡ Done) ⊎ (result.end ≡ StartMismatch) →
        IsSynced F.Disk disks.offsets result.disks.offsets }
    ensures topics_read { IsOnlyRead T.Disk
        TopicsFailed result.end disks.topics result.disks.topics }
    ensures offsets_read { IsOnlyRead F.Disk
        OffsetsFailed result.end disks.offsets result.disks.offsets }
    ensures unopened { (t : List ℕ) → T.seen disks.topics ≡ Some t →
        ((groups : List (List Record)) → ¬ IsLog t groups) → result.disks.offsets ≡ disks.offsets }
    ensures wal_stays { result.disks.wal ≡ disks.wal }
    ensures not_input { result.end ≢ StdinFailed }
    ensures output_failed { result.end ≡ StdoutFailed →
        FaultCounted (O.faults output.old) (O.faults output.new) }
{
    let Disks {
        wal,
        topics,
        offsets,
    } = disks;
    let applied = print_listing(alloc, listing, topics, offsets, output);
    let Applied {
        topics: log,
        offsets: store,
        end,
    } = applied;
    Outcome {
        disks: Disks {
            wal,
            topics: log,
            offsets: store,
        },
        end: finish(alloc, end, output),
    }
}

// Writes the line of the error of a command, unless the output failed, and returns the status.
fn finish<O: Output>(alloc: Global, end: Result<(), CommandError>, output: &mut O) -> Status
    ensures finishes { Finishes end result (O.written output.old) (O.written output.new) }
    ensures output_failed { result ≡ StdoutFailed →
        (end ≡ Err CommandError.OutputFailed)
        ⊎ FaultCounted (O.faults output.old) (O.faults output.new) }
    ensures later { O.faults output.old ≤ O.faults output.new }
{
    match end {
        Ok(()) => Status::Done,
        Err(error) => end_with(alloc, error, output),
    }
}

fn end_with<O: Output>(alloc: Global, error: CommandError, output: &mut O) -> Status
    ensures finishes { Finishes (Err error) result (O.written output.old) (O.written output.new) }
    ensures output_failed { result ≡ StdoutFailed →
        (error ≡ CommandError.OutputFailed)
        ⊎ FaultCounted (O.faults output.old) (O.faults output.new) }
    ensures later { O.faults output.old ≤ O.faults output.new }
{
    match error {
        CommandError::OutputFailed => Status::StdoutFailed,
        _ => say_error(alloc, error, output),
    }
}

fn say_error<O: Output>(alloc: Global, error: CommandError, output: &mut O) -> Status
    requires { error ≢ CommandError.OutputFailed }
    ensures says { SaysError error result (O.written output.old) (O.written output.new) }
    ensures output_failed { result ≡ StdoutFailed →
        FaultCounted (O.faults output.old) (O.faults output.new) }
    ensures later { O.faults output.old ≤ O.faults output.new }
{
    match error.text(alloc) {
        Ok(text) => write_text(text.as_str(), error.status(), output),
        Err(_) => write_text(OUT_OF_MEMORY, Status::OutOfMemory, output),
    }
}
