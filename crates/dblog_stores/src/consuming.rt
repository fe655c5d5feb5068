//! A consumer of a topic log's records.
ghost use Rattle.std.specs.Prelude.{◌≡◌, ◌≢◌, ◌⊎◌, ◌++◌, ◌∷◌, ℕ, List, [], Err, Some, None, true};
ghost use Rattle.std.specs.Prelude.{false, codes, map, IfErr, IfOk, OnOk, MatchResult, IsTrue};
ghost use Rattle.dbl_record.specs.declared.record.Record.{Record};
ghost use Rattle.dbl_record.specs.declared.acts.ConsumeError.TheVariants.{Memory};
ghost use Rattle.dbl_record.specs.Acts.{Reading, reading_of};
ghost use Rattle.dbl_record.specs.Line.{text_or_null};
ghost use Rattle.dbl_record.specs.Reading.{as_line};
ghost use Rattle.dbl_consume.specs.Holdings.{Took, placeholder_of};
ghost use Rattle.dbl_topic.specs.Held.{HoldsGroups};
ghost use Rattle.dblog_stores.specs.Answers.{accepts, first_refused, takes};
ghost use Rattle.dblog_stores.specs.Consuming.{HasTakenRecords, RefusesAt, readings_of};
ghost use Rattle.dblog_stores.specs.Ends.{IsAfterJournalOpening, IsErrorOf};
ghost use Rattle.dbl_journal.specs.Calls.{Keeps};

use crate::opening::read_group;
use crate::{CommandError, Store};
use dbl_base::Text;
use dbl_consume::{ConsumeError, Consumer};
use dbl_disk::Disk;
use dbl_record::Record;
use dbl_topic::TopicLog;
use std::alloc::Global;

fn text_or<'a>(text: &'a Option<Text>, null: &'a Text) -> &'a Text
    requires { null.now ≡ codes "null" }
    ensures { result.now ≡ text_or_null text.now }
{
    match text {
        Some(text) => text,
        None => null,
    }
}

fn take_record(held: &mut Consumer, item: &Record, null: &Text) -> Result<(), ConsumeError>
    requires { null.now ≡ codes "null" }
    ensures took { (taken : List Reading) → Took taken held.old →
        OnOk result (Took (taken ++ reading_of (as_line item.now) ∷ []) held.new) }
    ensures accepted { OnOk result (accepts (placeholder_of held.old) item.now ≡ true) }
    ensures refused { IfErr result (λ error. error ≢ Memory →
        accepts (placeholder_of held.old) item.now ≡ false) }
    ensures placeholder { placeholder_of held.new ≡ placeholder_of held.old }
{
    let key = text_or(&item.key, null);
    let value = text_or(&item.value, null);
    match held.apply(&item.topic, key, value) {
        Ok(()) => Ok(()),
        Err(error) => Err(error),
    }
}

fn take_group(
    held: &mut Consumer,
    group: &Vec<Record>,
    null: &Text,
    number: u64,
) -> Result<(), CommandError>
    requires { null.now ≡ codes "null" }
    ensures took { (taken : List Reading) → Took taken held.old →
        OnOk result (Took (taken ++ readings_of group.now.items) held.new) }
    ensures taken { OnOk result (takes (placeholder_of held.old) group.now.items ≡ true) }
    ensures refused { IfErr result
        (λ error. (error ≡ CommandError.Memory) ⊎
        ((error ≡ CommandError.BadEntry Store.Topics number) ×
        (takes (placeholder_of held.old) group.now.items ≡ false))) }
    ensures placeholder { placeholder_of held.new ≡ placeholder_of held.old }
{
    'records: for item in group {
        match take_record(held, item, null) {
            Ok(()) => {}
            Err(ConsumeError::Memory) => return Err(CommandError::Memory),
            Err(_) => {
                return Err(CommandError::BadEntry {
                    store: Store::Topics,
                    index: number,
                });
            }
        }
    }
    Ok(())
}

fn empty_consumer(alloc: Global, placeholder: &Text) -> Result<Consumer, CommandError>
    ensures took { IfOk result (Took []) }
    ensures placeholder { IfOk result (λ held. placeholder_of held ≡ placeholder.now) }
    ensures memory { IfErr result (λ error. error ≡ CommandError.Memory) }
{
    match placeholder.copy(alloc) {
        Ok(own) => match Consumer::make(alloc, own) {
            Ok(held) => Ok(held),
            Err(_) => Err(CommandError::Memory),
        },
        Err(_) => Err(CommandError::Memory),
    }
}

fn take_groups<D: Disk>(
    log: &mut TopicLog<D>,
    held: &mut Consumer,
    null: &Text,
) -> Result<(), CommandError>
    requires live { IsTrue log.old.live }
    requires null { null.now ≡ codes "null" }
    requires empty { Took [] held.old }
    ensures told { (groups : List (List Record)) → HoldsGroups D.Disk log.old groups →
        MatchResult result (λ done. HasTakenRecords (placeholder_of held.old) groups held.new)
        (RefusesAt (placeholder_of held.old) groups) }
    ensures keeps { Keeps D.Disk
        (result ≡ Err (CommandError.Failed Store.Topics)) log.old.disk log.new.disk }
    ensures kinds { IfErr result (IsErrorOf Store.Topics) }
    ensures a_store { IfErr result IsAfterJournalOpening }
{
    'each: for number in 0..log.groups() {
        let group = match read_group(log, number) {
            Ok(group) => group,
            Err(error) => return Err(error),
        };
        match take_group(held, &group, null, number) {
            Ok(()) => {}
            Err(error) => return Err(error),
        }
    }
    Ok(())
}

/// A consumer that applied the records of a topic log, or the first group with one that it refuses.
pub(crate) fn consume<D: Disk>(
    alloc: Global,
    log: &mut TopicLog<D>,
    placeholder: &Text,
) -> Result<Consumer, CommandError>
    requires { IsTrue log.old.live }
    ensures told { (groups : List (List Record)) → HoldsGroups D.Disk log.old groups →
        MatchResult result (HasTakenRecords placeholder.now groups)
        (RefusesAt placeholder.now groups) }
    ensures keeps { Keeps D.Disk
        (result ≡ Err (CommandError.Failed Store.Topics)) log.old.disk log.new.disk }
    ensures kinds { IfErr result (IsErrorOf Store.Topics) }
    ensures a_store { IfErr result IsAfterJournalOpening }
{
    let null = match Text::of(alloc, "null") {
        Ok(null) => null,
        Err(_) => return Err(CommandError::Memory),
    };
    let mut held = match empty_consumer(alloc, placeholder) {
        Ok(held) => held,
        Err(error) => return Err(error),
    };
    match take_groups(log, &mut held, &null) {
        Ok(()) => Ok(held),
        Err(error) => Err(error),
    }
}
