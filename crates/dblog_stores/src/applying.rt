//! `apply` and `compact`: what the topic log is to a consumer with the stored placeholder.
ghost use Rattle.std.specs.Prelude.{◌≡◌, ◌≢◌, ◌⊎◌, ℕ, List, Ok, Err, Some, None, IfErr};
ghost use Rattle.std.specs.Prelude.{IfSome, MatchResult, IsTrue, option_map, map};
ghost use Rattle.dbl_base.specs.Streams.{FailsOnlyIfCounted};
ghost use Rattle.dbl_record.specs.declared.record.Record.{Record};
ghost use Rattle.dbl_record.specs.Acts.{Reading};
ghost use Rattle.dbl_record.specs.Consumers.{consumer_of};
ghost use Rattle.dbl_consume.specs.Holdings.{Took, placeholder_of};
ghost use Rattle.dbl_topic.specs.Held.{HoldsGroups};
ghost use Rattle.dbl_topic.specs.Logs.{IsLog};
ghost use Rattle.dbl_offset_content.specs.declared.offset.Offset.{Offset};
ghost use Rattle.dblog_stores.specs.declared.listing.Listing.TheVariants.{Rows};
ghost use Rattle.dblog_stores.specs.Answers.{AnswersListing};
ghost use Rattle.dblog_stores.specs.Applying.{AppliesStores, AppliesGroups, PrintedRows};
ghost use Rattle.dblog_stores.specs.Ends.{HasOpenedOffset, IsAfterJournalOpening};
ghost use Rattle.dblog_stores.specs.Ends.{IsErrorOf, IsRefusal, IsSynced, Runs};
ghost use Rattle.dbl_journal.specs.Calls.{Keeps};

use crate::compacting::print_kept;
use crate::consuming::consume;
use crate::opening::{open_offsets, open_topics};
use crate::{Applied, CommandError, Listing, Store};
use dbl_base::{Output, Text};
use dbl_consume::Consumer;
use dbl_disk::{Disk, Refused};
use dbl_offset::Offset;
use dbl_topic::TopicLog;
use std::alloc::Global;

/// Writes the lines of a listing of the topic log, with the placeholder of the stored offset. Syncs
/// each disk that it opens, first the topic log's.
pub fn print_listing<T: Disk, F: Disk, O: Output>(
    alloc: Global,
    listing: Listing,
    topics: T,
    offsets: F,
    output: &mut O,
) -> Applied<T, F>
    // For disks with known contents, the output and the answer follow from these.
    ensures told { (t f : List ℕ) → T.seen topics ≡ Some t → F.seen offsets ≡ Some f →
        Runs (AnswersListing listing t f) result.end (O.written output.old) (O.written output.new) }

    // If the topics disk has no valid log, that is the answer, and the offsets disk isn't called.
    ensures no_log { (t f : List ℕ) → T.seen topics ≡ Some t →
        ((groups : List (List Record)) → ¬ IsLog t groups) →
        Runs (AnswersListing listing t f) result.end (O.written output.old) (O.written output.new) }
    ensures unopened { (t : List ℕ) → T.seen topics ≡ Some t →
        ((groups : List (List Record)) → ¬ IsLog t groups) → result.offsets ≡ offsets }
    ensures no_store { (at : ℕ) → result.end ≡ Err (CommandError.NotAStore Store.Topics at) →
        result.offsets ≡ offsets }

    // A disk that was opened was synced: a crash leaves only its known contents.
    ensures topics_stable { result.end ≢ Err (CommandError.Failed Store.Topics) →
        IsSynced T.Disk topics result.topics }
    ensures offsets_stable { HasOpenedOffset result.end →
        IsSynced F.Disk offsets result.offsets }

    // The disks are only read, for any contents.
    ensures keeps_topics { Keeps T.Disk
        (result.end ≡ Err (CommandError.Failed Store.Topics)) topics result.topics }
    ensures keeps_offsets { Keeps F.Disk
        (result.end ≡ Err (CommandError.Failed Store.Offsets)) offsets result.offsets }
    ensures unwritten { listing ≡ Rows →
        IfErr result.end (λ error. IsRefusal error → output.new ≡ output.old) }
    ensures known_unwritten { (t f : List ℕ) → T.seen topics ≡ Some t → F.seen offsets ≡ Some f →
        IfErr result.end (λ error. IsRefusal error → output.new ≡ output.old) }
    ensures output { FailsOnlyIfCounted (result.end ≡ Err CommandError.OutputFailed)
        (O.faults output.old) (O.faults output.new) }
{
    let mut log = match open_topics(alloc, topics) {
        Ok(log) => log,
        Err(Refused { disk, error }) => {
            return Applied {
                topics: disk,
                offsets,
                end: Err(error),
            };
        }
    };
    match open_offsets(alloc, offsets) {
        Ok(store) => {
            let end = print_stored(alloc, listing, &mut log, store.load(), output);
            Applied {
                topics: log.into_disk(),
                offsets: store.into_disk(),
                end,
            }
        }
        Err(Refused { disk, error }) => Applied {
            topics: log.into_disk(),
            offsets: disk,
            end: Err(error),
        },
    }
}

fn print_stored<D: Disk, O: Output>(
    alloc: Global,
    listing: Listing,
    log: &mut TopicLog<D>,
    loaded: Option<&Offset>,
    output: &mut O,
) -> Result<(), CommandError>
    requires { IsTrue log.old.live }
    ensures told { (groups : List (List Record)) → HoldsGroups D.Disk log.old groups →
        AppliesStores listing groups (option_map (λ offset. offset.now) loaded.entry) result
        (O.written output.old) (O.written output.new) }
    ensures keeps { Keeps D.Disk
        (result ≡ Err (CommandError.Failed Store.Topics)) log.old.disk log.new.disk }
    ensures kinds { IfErr result
        (λ error. (error ≡ CommandError.OutputFailed) ⊎
        ((error ≡ CommandError.NotStarted) ⊎ IsErrorOf Store.Topics error)) }
    ensures a_store { IfErr result IsAfterJournalOpening }
    ensures unwritten { listing ≡ Rows →
        IfErr result (λ error. IsRefusal error → output.new ≡ output.old) }
    ensures known_unwritten { (groups : List (List Record)) →
        HoldsGroups D.Disk log.old groups →
        IfErr result (λ error. IsRefusal error → output.new ≡ output.old) }
    ensures output { FailsOnlyIfCounted (result ≡ Err CommandError.OutputFailed)
        (O.faults output.old) (O.faults output.new) }
{
    match loaded {
        Some(offset) => print_listed(alloc, listing, log, &offset.identity.placeholder, output),
        None => Err(CommandError::NotStarted),
    }
}

fn print_listed<D: Disk, O: Output>(
    alloc: Global,
    listing: Listing,
    log: &mut TopicLog<D>,
    placeholder: &Text,
    output: &mut O,
) -> Result<(), CommandError>
    requires { IsTrue log.old.live }
    ensures told { (groups : List (List Record)) → HoldsGroups D.Disk log.old groups →
        AppliesGroups listing placeholder.now groups result
        (O.written output.old) (O.written output.new) }
    ensures keeps { Keeps D.Disk
        (result ≡ Err (CommandError.Failed Store.Topics)) log.old.disk log.new.disk }
    ensures kinds { IfErr result
        (λ error. (error ≡ CommandError.OutputFailed) ⊎ IsErrorOf Store.Topics error) }
    ensures a_store { IfErr result IsAfterJournalOpening }
    ensures unwritten { listing ≡ Rows →
        IfErr result (λ error. IsRefusal error → output.new ≡ output.old) }
    ensures known_unwritten { (groups : List (List Record)) →
        HoldsGroups D.Disk log.old groups →
        IfErr result (λ error. IsRefusal error → output.new ≡ output.old) }
    ensures output { FailsOnlyIfCounted (result ≡ Err CommandError.OutputFailed)
        (O.faults output.old) (O.faults output.new) }
{
    match listing {
        Listing::Rows => print_groups(alloc, log, placeholder, output),
        Listing::KeptRecords => print_kept(alloc, log, placeholder, output),
    }
}

fn print_groups<D: Disk, O: Output>(
    alloc: Global,
    log: &mut TopicLog<D>,
    placeholder: &Text,
    output: &mut O,
) -> Result<(), CommandError>
    requires { IsTrue log.old.live }
    ensures told { (groups : List (List Record)) → HoldsGroups D.Disk log.old groups →
        AppliesGroups Rows placeholder.now groups result
        (O.written output.old) (O.written output.new) }
    ensures keeps { Keeps D.Disk
        (result ≡ Err (CommandError.Failed Store.Topics)) log.old.disk log.new.disk }
    ensures kinds { IfErr result
        (λ error. (error ≡ CommandError.OutputFailed) ⊎ IsErrorOf Store.Topics error) }
    ensures a_store { IfErr result IsAfterJournalOpening }
    ensures unwritten { IfErr result (λ error. IsRefusal error → output.new ≡ output.old) }
    ensures output { FailsOnlyIfCounted (result ≡ Err CommandError.OutputFailed)
        (O.faults output.old) (O.faults output.new) }
{
    match consume(alloc, log, placeholder) {
        Ok(held) => print_rows(&held, output),
        Err(error) => Err(error),
    }
}

fn print_rows<O: Output>(held: &Consumer, output: &mut O) -> Result<(), CommandError>
    ensures told { (taken : List Reading) → Took taken held.now →
        PrintedRows (consumer_of (placeholder_of held.now) taken) result
        (O.written output.old) (O.written output.new) }
    ensures kinds { IfErr result
        (λ error. (error ≡ CommandError.OutputFailed) ⊎ (error ≡ CommandError.Memory)) }
    ensures a_store { IfErr result IsAfterJournalOpening }
    ensures output { FailsOnlyIfCounted (result ≡ Err CommandError.OutputFailed)
        (O.faults output.old) (O.faults output.new) }
{
    match held.print(output) {
        Ok(()) => Ok(()),
        Err(error) => Err(CommandError::from(error)),
    }
}
