//! `topics`: the lines of a topic log's records.
ghost use Rattle.std.specs.Prelude.{◌≡◌, ◌≢◌, ◌⊎◌, ℕ, List, [], Option, Ok, Err};
ghost use Rattle.std.specs.Prelude.{Some, IfErr, MatchResult, IsTrue, false};
ghost use Rattle.dbl_base.specs.Streams.{FailsOnlyIfCounted};
ghost use Rattle.dbl_lines.specs.Gathering.{IsPut};
ghost use Rattle.dbl_record.specs.declared.record.Record.{Record};
ghost use Rattle.dbl_topic.specs.Held.{HoldsGroups};
ghost use Rattle.dblog_stores.specs.Answers.{AnswersTopics, topic_lines};
ghost use Rattle.dblog_stores.specs.Ends.{CutsLines, Ends, IsErrorOf, IsRefusal, IsSynced, Runs};
ghost use Rattle.dbl_journal.specs.Calls.{Keeps};

use crate::opening::{open_topics, read_group};
use crate::{CommandError, Ended, Store};
use dbl_base::Output;
use dbl_disk::{Disk, Refused};
use dbl_lines::LineWriter;
use dbl_topic::TopicLog;
use std::alloc::Global;

/// Syncs the disk, and writes the line of each record of its topic log, in order, in the memory of
/// one group and a buffer.
pub fn print_topics<D: Disk, O: Output>(alloc: Global, disk: D, output: &mut O) -> Ended<D>
    // For a disk with known contents, the output and the answer follow from these.
    ensures told { (bytes : List ℕ) → D.seen disk ≡ Some bytes →
        Runs (AnswersTopics bytes) result.end (O.written output.old) (O.written output.new) }
    ensures unwritten { (bytes : List ℕ) → D.seen disk ≡ Some bytes →
        IfErr result.end (λ error. IsRefusal error → output.new ≡ output.old) }

    // Unless the disk failed, it was synced: a crash leaves only its known contents.
    ensures stable { result.end ≢ Err (CommandError.Failed Store.Topics) →
        IsSynced D.Disk disk result.disk }

    // The disk is only read, for any contents, and the error is of the disk, the output or memory.
    ensures keeps { Keeps D.Disk
        (result.end ≡ Err (CommandError.Failed Store.Topics)) disk result.disk }
    ensures kinds { IfErr result.end
        (λ error. (error ≡ CommandError.OutputFailed) ⊎ IsErrorOf Store.Topics error) }
    ensures output { FailsOnlyIfCounted (result.end ≡ Err CommandError.OutputFailed)
        (O.faults output.old) (O.faults output.new) }
{
    match open_topics(alloc, disk) {
        Ok(mut log) => {
            let end = put_groups(alloc, &mut log, output);
            Ended {
                disk: log.into_disk(),
                end,
            }
        }
        Err(Refused { disk, error }) => Ended {
            disk,
            end: Err(error),
        },
    }
}

fn put_groups<D: Disk, O: Output>(
    alloc: Global,
    log: &mut TopicLog<D>,
    output: &mut O,
) -> Result<(), CommandError>
    requires { IsTrue log.old.live }
    ensures told { (groups : List (List Record)) → HoldsGroups D.Disk log.old groups →
        Ends (Ok (topic_lines groups)) result (O.written output.old) (O.written output.new) }
    ensures keeps { Keeps D.Disk
        (result ≡ Err (CommandError.Failed Store.Topics)) log.old.disk log.new.disk }
    ensures kinds { IfErr result
        (λ error. (error ≡ CommandError.OutputFailed) ⊎ IsErrorOf Store.Topics error) }
    ensures output { FailsOnlyIfCounted (result ≡ Err CommandError.OutputFailed)
        (O.faults output.old) (O.faults output.new) }
{
    let mut lines = match LineWriter::make(alloc) {
        Ok(lines) => lines,
        Err(_) => return Err(CommandError::Memory),
    };
    match gather_groups(log, &mut lines, output) {
        Ok(()) => match lines.finish(output) {
            Ok(()) => Ok(()),
            Err(error) => Err(CommandError::from(error)),
        },
        Err(error) => Err(error),
    }
}

// Appends the lines of all groups to the writer, which may not have written the last ones yet.
fn gather_groups<D: Disk, O: Output>(
    log: &mut TopicLog<D>,
    lines: &mut LineWriter,
    output: &mut O,
) -> Result<(), CommandError>
    requires { IsTrue log.old.live }
    ensures told { (groups : List (List Record)) → HoldsGroups D.Disk log.old groups →
        (start : Option (List ℕ)) → IsPut start (O.written output.old) lines.old [] →
        MatchResult result
        (λ done. IsPut start (O.written output.new) lines.new (topic_lines groups))
        (λ error. CutsLines (topic_lines groups) error start (O.written output.new)) }
    ensures keeps { Keeps D.Disk
        (result ≡ Err (CommandError.Failed Store.Topics)) log.old.disk log.new.disk }
    ensures kinds { IfErr result
        (λ error. (error ≡ CommandError.OutputFailed) ⊎ IsErrorOf Store.Topics error) }
    ensures output { FailsOnlyIfCounted (result ≡ Err CommandError.OutputFailed)
        (O.faults output.old) (O.faults output.new) }
{
    'each: for number in 0..log.groups() {
        let group = match read_group(log, number) {
            Ok(group) => group,
            Err(error) => return Err(error),
        };
        match lines.put_records(output, &group) {
            Ok(()) => {}
            Err(error) => return Err(CommandError::from(error)),
        }
    }
    Ok(())
}
