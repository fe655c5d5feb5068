//! The command `init`: the stores of a workload, made on empty disks.
ghost use Rattle.std.specs.Prelude.{◌≡◌, ◌⊎◌, ℕ, List, [], Some, Ok, Err};
ghost use Rattle.dbl_lines.specs.declared.status.Status.TheVariants.{Done, StdinFailed};
ghost use Rattle.dbl_lines.specs.declared.status.Status.TheVariants.{StdoutFailed, InvalidStore};
ghost use Rattle.dbl_base.specs.Streams.{FaultCounted};
ghost use Rattle.dblog_init.specs.DemoLaws.Made.{IsFreshWal};
ghost use Rattle.dblog_init.specs.declared.error.Store.TheVariants.{Wal, Topics, Offsets};
ghost use Rattle.dblog_init.specs.Answers.{AnswersInput, InitInput};
ghost use Rattle.dblog_init.specs.Disks.{HasStoredBytes, HoldSomeBytes};
ghost use Rattle.dblog_init.specs.Fresh.{IsEmptyLog, IsEmptyStore};
ghost use Rattle.dblog_run_stores.specs.Disks.{OfDisk};
ghost use Rattle.dblog_run_stores.specs.Inits.{FailsSource, FinishesInit, IsInitAnswer};
ghost use Rattle.dblog_run_stores.specs.Inits.{IsInitLeft, IsInitStatus, AreUntouched};
ghost use Rattle.dblog_run_stores.specs.Runs.{RunsInit};
ghost use Rattle.dblog_streams.specs.Answers.{FailsReading};

use dbl_base::{Input, Output};
use dbl_disk::Disk;
use dbl_lines::Status;
use dblog_capture_text::say_init;
use dblog_init::{Disks, InitError, Outcome, init};
use std::alloc::Global;

/// Makes the stores of the input's workload, and writes nothing; or writes the line of the error.
pub fn run_init<I: Input, O: Output, W: Disk, T: Disk, F: Disk>(
    alloc: Global,
    input: &mut I,
    output: &mut O,
    disks: Disks<W, T, F>,
) -> Outcome<W, T, F, Status>
    ensures told { (given : InitInput) → I.left input.old ≡ Some given.input
        → W.seen disks.wal ≡ Some given.wal → T.seen disks.topics ≡ Some given.topics
        → F.seen disks.offsets ≡ Some given.offsets
        → RunsInit given
        (OfDisk (FaultCounted (T.faults disks.topics) (T.faults result.disks.topics))
        (FaultCounted (F.faults disks.offsets) (F.faults result.disks.offsets)))
        result.end (O.written output.old) (O.written output.new)
        ⊎ (FailsReading (I.faults input.old) (I.faults input.new)
        result.end (O.written output.old) (O.written output.new)
        ⊎ FailsSource (W.faults disks.wal) (W.faults result.disks.wal)
        result.end (O.written output.old) (O.written output.new)) }
    ensures known { IsInitStatus result.end }
    ensures whole { (bytes : List ℕ) → I.left input.old ≡ Some bytes
        → IsInitAnswer result.end
        → AnswersInput bytes (Err InitError.InputTooLong) ⊎ (I.left input.new ≡ Some []) }
    ensures unread { result.end ≡ InvalidStore → input.new ≡ input.old }
    ensures wal_made { (bytes before : List ℕ) → I.left input.old ≡ Some bytes
        → W.seen disks.wal ≡ Some before → result.end ≡ Done
        → HasStoredBytes W.Disk (IsFreshWal bytes) result.disks.wal }
    ensures topics_made { (before : List ℕ) → T.seen disks.topics ≡ Some before
        → result.end ≡ Done
        → HasStoredBytes T.Disk IsEmptyLog result.disks.topics }
    ensures offsets_made { (before : List ℕ) → F.seen disks.offsets ≡ Some before
        → result.end ≡ Done
        → HasStoredBytes F.Disk IsEmptyStore result.disks.offsets }
    ensures full_stay { HoldSomeBytes W.Disk T.Disk F.Disk disks
        → AreUntouched W.Disk T.Disk F.Disk disks result.disks }
    ensures full_unread { HoldSomeBytes W.Disk T.Disk F.Disk disks → input.new ≡ input.old }
    ensures wal_left { IsInitLeft W.Disk Wal result.end disks.wal result.disks.wal }
    ensures topics_left { IsInitLeft T.Disk Topics
        result.end disks.topics result.disks.topics }
    ensures offsets_left { IsInitLeft F.Disk Offsets
        result.end disks.offsets result.disks.offsets }
    ensures input_failed { result.end ≡ StdinFailed
        → FaultCounted (I.faults input.old) (I.faults input.new) }
    ensures output_failed { result.end ≡ StdoutFailed
        → FaultCounted (O.faults output.old) (O.faults output.new) }
{
    let begun = init(alloc, input, disks);
    let Outcome { disks, end } = begun;
    Outcome {
        disks,
        end: finish_init(alloc, end, output),
    }
}

fn finish_init<O: Output>(alloc: Global, end: Result<(), InitError>, output: &mut O) -> Status
    ensures finishes { FinishesInit end result (O.written output.old) (O.written output.new) }
    ensures output_failed { result ≡ StdoutFailed
        → FaultCounted (O.faults output.old) (O.faults output.new) }
{
    match end {
        Ok(()) => Status::Done,
        Err(error) => say_init(alloc, error, output),
    }
}
