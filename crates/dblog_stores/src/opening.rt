//! Opens stores and reads groups, with the errors of a command.
ghost use Rattle.std.specs.Prelude.{◌≡◌, ◌≢◌, ◌⊎◌, ℕ, ◌<◌, List, Some, Err, IfOk};
ghost use Rattle.std.specs.Prelude.{IfErr, MatchResult, IsTrue, slice_get};
ghost use Rattle.dbl_journal.specs.Stored.{count_of};
ghost use Rattle.dbl_record.specs.declared.record.Record.{Record};
ghost use Rattle.dbl_topic.specs.Held.{HoldsGroups};
ghost use Rattle.dbl_topic.specs.Logs.{IsLog};
ghost use Rattle.dbl_offset.specs.Stores.{IsLive, IsStore, disk_of};
ghost use Rattle.dblog_stores.specs.Answers.{HasNoOffset, IsNoLog};
ghost use Rattle.dblog_stores.specs.Ends.{IsAfterJournalOpening, IsErrorOf};
ghost use Rattle.dblog_stores.specs.Ends.{IsExternalCommandError, IsSynced};
ghost use Rattle.dbl_journal.specs.Calls.{Keeps};

use crate::{CommandError, Store};
use dbl_disk::{Disk, Refused};
use dbl_offset::OffsetStore;
use dbl_record::Record;
use dbl_topic::TopicLog;
use std::alloc::Global;

/// The topic log on a disk, which is synced first.
pub(crate) fn open_topics<D: Disk>(
    alloc: Global,
    disk: D,
) -> Result<TopicLog<D>, Refused<D, CommandError>>
    ensures opened { (bytes : List ℕ) → D.seen disk ≡ Some bytes →
        IfOk result (λ log. (groups : List (List Record)) × IsLog bytes groups ×
        HoldsGroups D.Disk log groups) }
    ensures live { IfOk result (λ log. IsTrue log.live) }
    ensures refused { (bytes : List ℕ) → D.seen disk ≡ Some bytes →
        IfErr result (λ refused. IsExternalCommandError refused.error
        ⊎ IsNoLog bytes refused.error) }
    ensures kinds { IfErr result (λ refused. IsErrorOf Store.Topics refused.error) }
    ensures stable { MatchResult result (λ log. IsSynced D.Disk disk log.disk)
        (λ refused. refused.error ≢ CommandError.Failed Store.Topics →
        IsSynced D.Disk disk refused.disk) }
    ensures keeps { MatchResult result (λ log. Keeps D.Disk ⊥ disk log.disk)
        (λ refused. Keeps D.Disk (refused.error ≡ CommandError.Failed Store.Topics) disk
        refused.disk) }
{
    match TopicLog::open(alloc, disk) {
        Ok(log) => Ok(log),
        Err(Refused { disk, error }) => Err(Refused {
            disk,
            error: CommandError::from(error),
        }),
    }
}

/// The offset on a disk, which is synced first.
pub(crate) fn open_offsets<D: Disk>(
    alloc: Global,
    disk: D,
) -> Result<OffsetStore<D>, Refused<D, CommandError>>
    ensures opened { (bytes : List ℕ) → D.seen disk ≡ Some bytes →
        IfOk result (λ store. IsStore bytes store.offset) }
    ensures live { IfOk result IsLive }
    ensures refused { (bytes : List ℕ) → D.seen disk ≡ Some bytes →
        IfErr result (λ refused. IsExternalCommandError refused.error
        ⊎ HasNoOffset bytes refused.error) }
    ensures kinds { IfErr result (λ refused. IsErrorOf Store.Offsets refused.error) }
    ensures stable { MatchResult result
        (λ store. IsSynced D.Disk disk (disk_of store))
        (λ refused. refused.error ≢ CommandError.Failed Store.Offsets →
        IsSynced D.Disk disk refused.disk) }
    ensures keeps { MatchResult result
        (λ store. Keeps D.Disk ⊥ disk (disk_of store))
        (λ refused. Keeps D.Disk
        (refused.error ≡ CommandError.Failed Store.Offsets) disk refused.disk) }
{
    match OffsetStore::open(alloc, disk) {
        Ok(store) => Ok(store),
        Err(Refused { disk, error }) => Err(Refused {
            disk,
            error: CommandError::from(error),
        }),
    }
}

/// The group with this number.
pub(crate) fn read_group<D: Disk>(
    log: &mut TopicLog<D>,
    number: u64,
) -> Result<Vec<Record>, CommandError>
    requires live { IsTrue log.old.live }
    requires within { number < count_of log.old }
    ensures found { (groups : List (List Record)) → HoldsGroups D.Disk log.old groups →
        IfOk result (λ group. slice_get groups number ≡ Some group.items) }
    ensures cut { (groups : List (List Record)) → HoldsGroups D.Disk log.old groups →
        IfErr result IsExternalCommandError }
    ensures holds { (groups : List (List Record)) → HoldsGroups D.Disk log.old groups →
        HoldsGroups D.Disk log.new groups }
    ensures kinds { IfErr result (IsErrorOf Store.Topics) }
    ensures a_store { IfErr result IsAfterJournalOpening }
    ensures same { log.new ≡ record log.old { disk = log.new.disk } }
    ensures keeps { Keeps D.Disk
        (result ≡ Err (CommandError.Failed Store.Topics)) log.old.disk log.new.disk }
{
    match log.group(number) {
        Ok(group) => Ok(group),
        Err(error) => Err(CommandError::from(error)),
    }
}
