ghost use Rattle.std.specs.Prelude.{◌≡◌, ◌⊎◌, true, false, ℕ, ◌≤◌};
ghost use Rattle.std.specs.Prelude.{List, [], length, Some, IsSome, Err};
ghost use Rattle.dbl_base.specs.Streams.{FaultCounted, input_limit};
ghost use Rattle.dbl_cli_commands.specs.declared.commands.Command.{Command};
ghost use Rattle.dbl_cli.specs.Commands.{Spells};
ghost use Rattle.dbl_cli_commands.specs.Limits.{IsWithin};
ghost use Rattle.dblog_stores.specs.Ends.{IsSynced};
ghost use Rattle.dblog_run.specs.Means.{ReadsGivenInput, RunInput, HasOpenedOffsets};
ghost use Rattle.dblog_run.specs.Means.{HasOpenedTopics, InputFails, Runs, RunsCommand, SpellNone};
ghost use Rattle.dblog_run.specs.Means.{SpellSome, Tell, WalFails, connects, makes, reads, writes};
ghost use Rattle.dblog_run.specs.Means.{opens_offsets, opens_topics, uses_offsets, uses_topics};
ghost use Rattle.dblog_run.specs.Means.{StandsAlone, ReportsInputStatus, IsStatusOf};
ghost use Rattle.dblog_init.specs.DemoLaws.Made.{IsFreshWal};
ghost use Rattle.dblog_init.specs.declared.error.Store.TheVariants.{Wal, Topics, Offsets};
ghost use Rattle.dblog_init.specs.Disks.{HasStoredBytes, HoldSomeBytes};
ghost use Rattle.dblog_init.specs.Fresh.{IsEmptyLog, IsEmptyStore};
ghost use Rattle.dblog_capture.specs.Connect.declared.asked.Asked.{Asked as SpecAsked};
ghost use Rattle.dblog_capture.specs.Connect.Promise.Bounds.{IsBounded, IsStoreBounded};
ghost use Rattle.dblog_capture.specs.Connect.Promise.Headline.{GuaranteesAfterCrash};
ghost use Rattle.dblog_capture.specs.Connect.Disks.{AreKeptDisks, IsTrueAfterCrash};
ghost use Rattle.dblog_capture.specs.Connect.Ends.{AreSteady};
ghost use Rattle.dblog_run_stores.specs.Inits.{AreUntouched, FailsSource, IsInitLeft};
ghost use Rattle.dblog_capture.specs.Ends.{IsNormalStatus};
ghost use Rattle.dblog_capture.specs.Runs.{RunsConnected, RunsSessionOn};
ghost use Rattle.dblog_capture.specs.Connect.Asked.{asks_in};
ghost use Rattle.dbl_gen.specs.Workload.{workload};
ghost use Rattle.dblog_capture.specs.Generated.{EndsGenerated, HasMade, IsMadeShort};
ghost use Rattle.dblog_capture.specs.Generated.{IsStoreShort, RunsGenerated, plainly};
ghost use Rattle.dblog_run.specs.Sessions.{IsCompleteRun, asked_by, asks_by};
ghost use Rattle.dblog_run_stores.specs.Disks.{IsOnlyRead, OfDisk};
ghost use Rattle.dbl_record.specs.declared.record.Record.{Record};
ghost use Rattle.dbl_topic.specs.Logs.{IsLog};
ghost use Rattle.dblog_streams.specs.Answers.{RunAnswer, FailsReading, EndsAs};
ghost use Rattle.dbl_lines.specs.declared.status.Status.TheVariants.{Done, SourceFailed};
ghost use Rattle.dbl_lines.specs.declared.status.Status.TheVariants.{TopicsFailed, OffsetsFailed};
ghost use Rattle.dbl_lines.specs.declared.status.Status.TheVariants.{StdinFailed, StdoutFailed};
ghost use Rattle.dbl_lines.specs.declared.status.Status.TheVariants.{InvalidStore};
ghost use Rattle.dbl_lines.specs.Says.{Says};

use dbl_base::{Input, Output, Text};
use dbl_cli::{CliError, Command};
use dbl_disk::Disk;
use dbl_lines::{RunError, Status, say};
use dblog_capture::{Asked, run_generated, run_session};
use dblog_init::{Disks, Outcome};
use dblog_run_stores::{run_init, run_listing, run_offsets, run_topics};
use dblog_stores::Listing;
use dblog_streams::{apply_lines, print_workload, replay_input};
use std::alloc::Global;

/// Runs the program on its arguments, at a time in milliseconds since 1970, over the disks of the
/// source's log, of the topic log and of the offset. Returns the exit status and the disks in any
/// case.
pub fn run<I: Input, O: Output, W: Disk, T: Disk, F: Disk>(
    alloc: Global,
    words: &Vec<Text>,
    now_ms: i64,
    input: &mut I,
    output: &mut O,
    disks: Disks<W, T, F>,
) -> Outcome<W, T, F, Status>
    // Unless the arguments request a session: if what the command reads has known contents, the
    // output and the status are the meaning of the arguments with these, or report that the input
    // or a disk failed, whose count of faults rose. Memory may run out, also after some of the
    // lines, and the output may fail within them.
    ensures told { (given : RunInput) → SpellNone words.now.items connects →
        Tell words.now.items
        (I.left input.old) (W.seen disks.wal) (T.seen disks.topics) (F.seen disks.offsets) given →
        Runs words.now.items now_ms given
        (OfDisk
        (SpellSome words.now.items uses_topics ×
        FaultCounted (T.faults disks.topics) (T.faults result.disks.topics))
        (SpellSome words.now.items uses_offsets ×
        FaultCounted (F.faults disks.offsets) (F.faults result.disks.offsets)))
        result.end (O.written output.old) (O.written output.new)
        ⊎ (InputFails words.now.items (I.faults input.old) (I.faults input.new) result.end
        (O.written output.old) (O.written output.new)
        ⊎ WalFails words.now.items (W.faults disks.wal) (W.faults result.disks.wal) result.end
        (O.written output.old) (O.written output.new)) }

    // Invalid arguments are reported as a usage error, or as out of memory, for all streams and
    // disks; the output may fail within that line.
    ensures usage { ((command : Command) → Spells words.now.items command → ⊥) →
        Says RunError.Usage result.end (O.written output.old) (O.written output.new) }

    // A command that reads neither the input nor a disk has this answer for all streams and disks,
    // unless memory ran out or the output failed.
    ensures alone { (command : Command) (answer : RunAnswer) → Spells words.now.items command →
        StandsAlone command answer →
        EndsAs answer result.end (O.written output.old) (O.written output.new) }

    // If the arguments are of no command that reads the input, nothing is read.
    ensures unread { ((command : Command) → Spells words.now.items command →
        reads command ≡ false) → input.new ≡ input.old }

    // If a store is refused, or a disk that isn't empty, the input isn't read.
    ensures refused_unread { result.end ≡ InvalidStore → input.new ≡ input.old }

    // If the status is one of an answer about the contents of the input, an input with known
    // contents within the limit was read to its end.
    ensures whole { (bytes : List ℕ) (command : Command) → I.left input.old ≡ Some bytes →
        Spells words.now.items command → length bytes ≤ input_limit →
        ReportsInputStatus command result.end → I.left input.new ≡ Some [] }

    // The status is one of the command's, for every behaviour of the streams and the disks. That of
    // a failed input, output or source's log is returned only if its count of faults rose.
    ensures status { (command : Command) → Spells words.now.items command →
        IsStatusOf command result.end }
    ensures input_failed { result.end ≡ StdinFailed →
        FaultCounted (I.faults input.old) (I.faults input.new) }
    ensures output_failed { result.end ≡ StdoutFailed →
        FaultCounted (O.faults output.old) (O.faults output.new) }
    ensures wal_failed { result.end ≡ SourceFailed →
        FaultCounted (W.faults disks.wal) (W.faults result.disks.wal) }

    // A disk that the command neither reads nor writes is returned as it was passed; so is the
    // offset's if `apply` or `compact` finds known contents that are no topic log.
    ensures wal_stays { SpellNone words.now.items writes → result.disks.wal ≡ disks.wal }
    ensures topics_stay { SpellNone words.now.items uses_topics →
        result.disks.topics ≡ disks.topics }
    ensures offsets_stay { SpellNone words.now.items uses_offsets →
        result.disks.offsets ≡ disks.offsets }
    ensures unopened { (command : Command) (bytes : List ℕ) → Spells words.now.items command →
        opens_topics command ≡ true → T.seen disks.topics ≡ Some bytes →
        ((groups : List (List Record)) → ¬ IsLog bytes groups) →
        result.disks.offsets ≡ disks.offsets }

    // A disk with known contents that the command only reads was synced if it was opened, by the
    // status: a crash leaves only these contents.
    ensures topics_synced { (command : Command) → Spells words.now.items command →
        opens_topics command ≡ true → HasOpenedTopics result.end →
        IsSynced T.Disk disks.topics result.disks.topics }
    ensures offsets_synced { (command : Command) → Spells words.now.items command →
        opens_offsets command ≡ true → HasOpenedOffsets command result.end →
        IsSynced F.Disk disks.offsets result.disks.offsets }

    // A command that doesn't write the disks only reads them, and each has failed if the status
    // says so.
    ensures topics_read { SpellNone words.now.items writes →
        IsOnlyRead T.Disk
        TopicsFailed result.end disks.topics result.disks.topics }
    ensures offsets_read { SpellNone words.now.items writes →
        IsOnlyRead F.Disk
        OffsetsFailed result.end disks.offsets result.disks.offsets }

    // An `init` that is done leaves the store of its input on each disk whose contents were known
    // (for the source's log, those of the input too), and a crash leaves only that store.
    ensures wal_made { (bytes before : List ℕ) → Spells words.now.items Command.Init →
        I.left input.old ≡ Some bytes → W.seen disks.wal ≡ Some before → result.end ≡ Done →
        HasStoredBytes W.Disk (IsFreshWal bytes) result.disks.wal }
    ensures topics_made { (before : List ℕ) → Spells words.now.items Command.Init →
        T.seen disks.topics ≡ Some before → result.end ≡ Done →
        HasStoredBytes T.Disk IsEmptyLog result.disks.topics }
    ensures offsets_made { (before : List ℕ) → Spells words.now.items Command.Init →
        F.seen disks.offsets ≡ Some before → result.end ≡ Done →
        HasStoredBytes F.Disk IsEmptyStore result.disks.offsets }

    // After an `init` that is done the disks are crash-consistent if the contents of the input and
    // of all disks were known, and they stay so by `kept` below.
    ensures made { (bytes w t f : List ℕ) → Spells words.now.items Command.Init →
        I.left input.old ≡ Some bytes → W.seen disks.wal ≡ Some w → T.seen disks.topics ≡ Some t →
        F.seen disks.offsets ≡ Some f → result.end ≡ Done →
        AreKeptDisks W.Disk T.Disk F.Disk result.disks }

    // If one of the disks has known contents and isn't empty, a command that makes the stores
    // neither writes nor syncs any of them, and reads no input.
    ensures full_stay { SpellSome words.now.items makes →
        HoldSomeBytes W.Disk T.Disk F.Disk disks →
        AreUntouched W.Disk T.Disk F.Disk disks result.disks }
    ensures full_unread { Spells words.now.items Command.Init →
        HoldSomeBytes W.Disk T.Disk F.Disk disks → input.new ≡ input.old }

    // What an `init` with any status leaves of a disk: what was there, unsynced, if the input
    // failed, was invalid or unsupported, if a disk wasn't empty, or if one that is written earlier
    // failed.
    // Known contents don't get longer than they were, or than 2^30 bytes.
    ensures wal_left { Spells words.now.items Command.Init →
        IsInitLeft W.Disk Wal result.end disks.wal result.disks.wal }
    ensures topics_left { Spells words.now.items Command.Init →
        IsInitLeft T.Disk Topics result.end disks.topics result.disks.topics }
    ensures offsets_left { Spells words.now.items Command.Init →
        IsInitLeft F.Disk Offsets result.end disks.offsets result.disks.offsets }

    // THE HEADLINE. For crash-consistent (kept) disks, everything that a crash at any point of the
    // run may leave satisfies the connector's promise, and extends what was stored before by what
    // the arguments request; a command without a session changes nothing. The disks stay
    // crash-consistent.
    ensures headline { (command : Command) → Spells words.now.items command →
        AreKeptDisks W.Disk T.Disk F.Disk disks →
        IsTrueAfterCrash W.Disk T.Disk F.Disk result.disks
        (GuaranteesAfterCrash (IsCompleteRun command result.end) (asks_by command)
        (W.may_leave disks.wal) (T.may_leave disks.topics) (F.may_leave disks.offsets)) }
    ensures kept { AreKeptDisks W.Disk T.Disk F.Disk disks →
        AreKeptDisks W.Disk T.Disk F.Disk result.disks }

    // The result of a session is written (its report, or the line of its error), unless memory ran
    // out or the output failed; and the reason for it, as far as the disks have known contents.
    ensures session { (command : Command) (asked : SpecAsked) → Spells words.now.items command →
        asked_by command ≡ Some asked →
        RunsSessionOn W.Disk T.Disk F.Disk asked now_ms disks result.disks
        result.end (O.written output.old) (O.written output.new) }

    // If a session ended normally, no call of a disk with known contents failed.
    ensures steady { (command : Command) (asked : SpecAsked) → Spells words.now.items command →
        asked_by command ≡ Some asked → IsNormalStatus result.end →
        AreSteady W.Disk T.Disk F.Disk disks result.disks }

    // After the `init` part of `gen --run` on empty disks, everything that a crash may leave
    // satisfies the connector's promise for a capture without arguments, and extends the stores of
    // the generated workload. Disks with known contents are then crash-consistent.
    ensures generated { (number rows groups : ℕ) →
        Spells words.now.items (Command.Gen number rows groups true) →
        HasMade W.Disk T.Disk F.Disk disks result.disks →
        IsTrueAfterCrash W.Disk T.Disk F.Disk result.disks
        (GuaranteesAfterCrash (result.end ≡ Done) (asks_in plainly)
        (IsFreshWal (workload number rows groups)) IsEmptyLog IsEmptyStore) }
    ensures generated_kept { (number rows groups : ℕ) →
        Spells words.now.items (Command.Gen number rows groups true) →
        HasMade W.Disk T.Disk F.Disk disks result.disks →
        IsSome (W.seen result.disks.wal) → IsSome (T.seen result.disks.topics) →
        IsSome (F.seen result.disks.offsets) →
        AreKeptDisks W.Disk T.Disk F.Disk result.disks }

    // The result of `gen --run` on any disks: as by `init` of that workload, or, if that was done,
    // as by a session over its stores.
    ensures generating { (number rows groups : ℕ) →
        Spells words.now.items (Command.Gen number rows groups true) →
        EndsGenerated W.Disk T.Disk F.Disk (workload number rows groups) now_ms
        disks result.disks result.end (O.written output.old) (O.written output.new) }

    // A failure of a disk is reported only if its count of faults rose. Known contents of a disk
    // don't get longer than they were, or than 2^30 bytes past their journal's unset commit byte,
    // or (of the offset, and by `init` and `gen --run`) than 2^30 bytes.
    ensures topics_failed { result.end ≡ TopicsFailed →
        FaultCounted (T.faults disks.topics) (T.faults result.disks.topics) }
    ensures offsets_failed { result.end ≡ OffsetsFailed →
        FaultCounted (F.faults disks.offsets) (F.faults result.disks.offsets) }
    ensures wal_bounded { SpellNone words.now.items makes →
        IsBounded (W.seen disks.wal) (W.seen result.disks.wal) }
    ensures topics_bounded { SpellNone words.now.items makes →
        IsBounded (T.seen disks.topics) (T.seen result.disks.topics) }
    ensures offsets_bounded { SpellNone words.now.items makes →
        IsStoreBounded (F.seen disks.offsets) (F.seen result.disks.offsets) }
    ensures wal_short { SpellSome words.now.items makes →
        IsMadeShort (W.seen disks.wal) (W.seen result.disks.wal) }
    ensures topics_short { SpellSome words.now.items makes →
        IsMadeShort (T.seen disks.topics) (T.seen result.disks.topics) }
    ensures offsets_short { SpellSome words.now.items makes →
        IsStoreShort (F.seen disks.offsets) (F.seen result.disks.offsets) }
{
    match dbl_cli::command(alloc, words) {
        Ok(command) => run_command(alloc, command, &now_ms, input, output, disks),
        Err(CliError::Usage) => Outcome {
            disks,
            end: say(alloc, RunError::Usage, output),
        },
        Err(CliError::Memory) => Outcome {
            disks,
            end: say(alloc, RunError::Memory, output),
        },
    }
}

fn run_command<I: Input, O: Output, W: Disk, T: Disk, F: Disk>(
    alloc: Global,
    command: Command,
    now_ms: &i64,
    input: &mut I,
    output: &mut O,
    disks: Disks<W, T, F>,
) -> Outcome<W, T, F, Status>
    requires { IsWithin command }
    ensures told { (given : RunInput) → connects command ≡ false →
        ReadsGivenInput command
        (I.left input.old) (W.seen disks.wal) (T.seen disks.topics) (F.seen disks.offsets) given →
        RunsCommand command now_ms.now given
        (OfDisk ((uses_topics command ≡ true) ×
        FaultCounted (T.faults disks.topics) (T.faults result.disks.topics))
        ((uses_offsets command ≡ true) ×
        FaultCounted (F.faults disks.offsets) (F.faults result.disks.offsets)))
        result.end (O.written output.old) (O.written output.new)
        ⊎ (((reads command ≡ true) × FailsReading (I.faults input.old) (I.faults input.new)
        result.end (O.written output.old) (O.written output.new))
        ⊎ ((makes command ≡ true) × FailsSource (W.faults disks.wal) (W.faults result.disks.wal)
        result.end (O.written output.old) (O.written output.new))) }
    ensures alone { (answer : RunAnswer) → StandsAlone command answer →
        EndsAs answer result.end (O.written output.old) (O.written output.new) }
    ensures unread { reads command ≡ false → input.new ≡ input.old }
    ensures refused_unread { command ≡ Command.Init → result.end ≡ InvalidStore →
        input.new ≡ input.old }
    ensures whole { (bytes : List ℕ) → I.left input.old ≡ Some bytes →
        length bytes ≤ input_limit → ReportsInputStatus command result.end →
        I.left input.new ≡ Some [] }
    ensures known { IsStatusOf command result.end }
    ensures input_failed { result.end ≡ StdinFailed →
        FaultCounted (I.faults input.old) (I.faults input.new) }
    ensures output_failed { result.end ≡ StdoutFailed →
        FaultCounted (O.faults output.old) (O.faults output.new) }
    ensures wal_stays { writes command ≡ false → result.disks.wal ≡ disks.wal }
    ensures topics_stay { uses_topics command ≡ false → result.disks.topics ≡ disks.topics }
    ensures offsets_stay { uses_offsets command ≡ false → result.disks.offsets ≡ disks.offsets }
    ensures wal_made { (bytes before : List ℕ) → command ≡ Command.Init →
        I.left input.old ≡ Some bytes → W.seen disks.wal ≡ Some before → result.end ≡ Done →
        HasStoredBytes W.Disk (IsFreshWal bytes) result.disks.wal }
    ensures topics_made { (before : List ℕ) → command ≡ Command.Init →
        T.seen disks.topics ≡ Some before → result.end ≡ Done →
        HasStoredBytes T.Disk IsEmptyLog result.disks.topics }
    ensures offsets_made { (before : List ℕ) → command ≡ Command.Init →
        F.seen disks.offsets ≡ Some before → result.end ≡ Done →
        HasStoredBytes F.Disk IsEmptyStore result.disks.offsets }
    ensures full_stay { command ≡ Command.Init →
        HoldSomeBytes W.Disk T.Disk F.Disk disks →
        AreUntouched W.Disk T.Disk F.Disk disks result.disks }
    ensures full_unread { command ≡ Command.Init →
        HoldSomeBytes W.Disk T.Disk F.Disk disks → input.new ≡ input.old }
    ensures wal_left { command ≡ Command.Init →
        IsInitLeft W.Disk Wal result.end disks.wal result.disks.wal }
    ensures topics_left { command ≡ Command.Init →
        IsInitLeft T.Disk Topics result.end disks.topics result.disks.topics }
    ensures offsets_left { command ≡ Command.Init →
        IsInitLeft F.Disk Offsets result.end disks.offsets result.disks.offsets }
    ensures unopened { (bytes : List ℕ) → opens_topics command ≡ true →
        T.seen disks.topics ≡ Some bytes → ((groups : List (List Record)) → ¬ IsLog bytes groups) →
        result.disks.offsets ≡ disks.offsets }
    ensures topics_synced { opens_topics command ≡ true → HasOpenedTopics result.end →
        IsSynced T.Disk disks.topics result.disks.topics }
    ensures offsets_synced { opens_offsets command ≡ true →
        HasOpenedOffsets command result.end →
        IsSynced F.Disk disks.offsets result.disks.offsets }
    ensures topics_read { opens_topics command ≡ true → IsOnlyRead T.Disk
        TopicsFailed result.end disks.topics result.disks.topics }
    ensures offsets_read { opens_offsets command ≡ true → IsOnlyRead F.Disk
        OffsetsFailed result.end disks.offsets result.disks.offsets }
    ensures generated { (number rows groups : ℕ) →
        command ≡ Command.Gen number rows groups true → RunsGenerated
        W.Disk T.Disk F.Disk (workload number rows groups) now_ms.now
        disks result.disks result.end (O.written output.old) (O.written output.new) }
    ensures connected { (asked : SpecAsked) → asked_by command ≡ Some asked → RunsConnected
        W.Disk T.Disk F.Disk asked now_ms.now disks result.disks
        result.end (O.written output.old) (O.written output.new) }
{
    match command {
        Command::Replay { options } => Outcome {
            disks,
            end: replay_input(alloc, options, now_ms, input, output),
        },
        Command::Apply {
            lines: true,
            placeholder,
        } => Outcome {
            disks,
            end: apply_lines(alloc, placeholder, input, output),
        },
        Command::Gen {
            number,
            rows,
            groups,
            run: is_run,
        } => {
            if is_run {
                run_generated(alloc, number, rows, groups, now_ms, output, disks)
            } else {
                Outcome {
                    disks,
                    end: print_workload(alloc, number, rows, groups, output),
                }
            }
        }
        Command::Init => run_init(alloc, input, output, disks),
        Command::Topics => run_topics(alloc, output, disks),
        Command::Offsets => run_offsets(alloc, output, disks),
        Command::Capture { options } => {
            let asked = Asked::First { options };
            run_session(alloc, asked, now_ms, output, disks)
        }
        Command::Resume { options } => {
            let asked = Asked::Again { options };
            run_session(alloc, asked, now_ms, output, disks)
        }
        Command::Apply { .. } => run_listing(alloc, Listing::Rows, output, disks),
        Command::Compact => run_listing(alloc, Listing::KeptRecords, output, disks),
    }
}
