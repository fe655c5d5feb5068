//! The next message of a commit that is being read, and the position of its reader after it.

ghost use Rattle.std.specs.Prelude.{◌≡◌, ◌⊎◌, ◌+◌, ◌<◌, ◌^◌, ℕ, List, ◌∷◌, take, false, true, Some};
ghost use Rattle.std.specs.Prelude.{None, IfOk, IfErr, OnOk, OnErr, MatchOption, slice_get};
ghost use Rattle.dbl_pgmsg.specs.declared.messages.RelationColumn.{RelationColumn};
ghost use Rattle.dbl_source_model.specs.ModelCommit.declared.message_parts.Relation.{Relation};
ghost use Rattle.dbl_pgmsg.specs.declared.messages.Message.{Message};
ghost use Rattle.dbl_pgmsg.specs.Grammar.{Fits, Spells};
ghost use Rattle.dbl_source_log.specs.declared.logged.LogTable.{LogTable};
ghost use Rattle.dbl_source_log.specs.declared.logged.Logged.{Logged};
ghost use Rattle.dbl_source_log.specs.declared.logged.Logged.TheVariants.{Mark};
ghost use Rattle.dbl_source_log.specs.Sent.{is_described, oids_of, messages_in, onto_relations};
ghost use Rattle.dbl_source_log.specs.Sent.{index_of, tables_at, told_at, IsPlaceIn};
ghost use Rattle.dbl_source_log.specs.Readings.{description_in, Describes, Steps};
ghost use Rattle.dbl_source_log.specs.Readings.{FindsMissingRelation, LeadsTo};
ghost use Rattle.dbl_source_log.specs.Numbers.{number_limit};

use crate::relations::has_columns;
use crate::{
    LogTable, Logged, ReaderPosition, SourceError, begin_message, commit_message, mark_message,
    oid_at, relation_at,
};
use dbl_base::{Bytes, Seq, Text};
use dbl_pgmsg::{Message, RelationColumn, encode};
use std::alloc::{AllocError, Global};
use std::collections::BTreeMap;

/// The columns of each table as the last Relation of its OID described them.
pub type Described = BTreeMap<u32, Seq<RelationColumn>>;

/// The OID and the columns that a Relation has.
#[derive(Drop)]
pub struct Description {
    pub oid: u32,
    pub columns: Seq<RelationColumn>,
}

/// The next message: its bytes, the reader's position after it, and the table that it describes.
#[derive(Drop)]
pub struct Step {
    pub bytes: Bytes,
    pub place: ReaderPosition,
    pub described: Option<Description>,
}

/// The Relation of a table that a change names and that is due before it. `table` counts the tables
/// up to it.
#[derive(Drop)]
struct Missing {
    relation: Message,
    table: usize,
}

fn copy_columns(
    alloc: Global,
    columns: &Seq<RelationColumn>,
) -> Result<Seq<RelationColumn>, AllocError>
    ensures { IfOk result (λ copy. copy ≡ columns.now) }
{
    let mut copy = Vec::new(alloc);
    for column in columns.items() {
        copy.push(RelationColumn {
            flags: column.flags,
            name: column.name.copy(alloc)?,
            oid: column.oid,
            modifier: column.modifier,
        })?;
    }
    Ok(Seq::make(copy))
}

fn description_of(alloc: Global, message: &Message) -> Result<Option<Description>, AllocError>
    ensures { IfOk result (λ described. described ≡ description_in message.now) }
{
    match message {
        Message::Relation { oid, columns, .. } => Ok(Some(Description {
            oid: *oid,
            columns: copy_columns(alloc, columns)?,
        })),
        _ => Ok(None),
    }
}

fn is_described(tables: &[LogTable], described: &Described, oid: u32) -> bool
    ensures { (past : List Message) → Describes described.now past
        → result ≡ is_described tables.now oid past }
{
    match described.get(&oid) {
        Some(columns) => has_columns(tables, oid, columns.items()),
        None => false,
    }
}

// Fails if the message has no encoding.
fn step_to(alloc: Global, message: &Message, place: ReaderPosition) -> Result<Step, SourceError>
    ensures leads { IfOk result (LeadsTo message.now place) }
    ensures fault { IfErr result (λ e. (e ≡ SourceError.Memory)
        ⊎ ((e ≡ SourceError.Failed) × (¬ Fits message.now))) }
{
    if !message.fits() {
        return Err(SourceError::Failed);
    }
    match encode(alloc, message) {
        Ok(bytes) => Ok(Step {
            bytes,
            place,
            described: description_of(alloc, message)?,
        }),
        Err(_) => Err(SourceError::Memory),
    }
}

// The first table, from an index on, of those that the change names, that has a Relation and isn't
// described as it is now.
fn next_missing(
    alloc: Global,
    tables: &[LogTable],
    described: &Described,
    message: &Message,
    from: usize,
) -> Result<Option<Missing>, SourceError>
    ensures next { (base : List Message)
        → Describes described.now (onto_relations tables.now (take from (oids_of message.now)) base)
        → IfOk result (FindsMissingRelation tables.now (oids_of message.now) from base) }
    ensures memory { IfErr result (λ e. e ≡ SourceError.Memory) }
{
    let mut table = from;
    while let Some(oid) = oid_at(message, table) {
        table += 1;
        if is_described(tables, described, oid) {
            continue;
        }
        if let Some(relation) = relation_at(alloc, tables, oid)? {
            return Ok(Some(Missing { relation, table }));
        }
    }
    Ok(None)
}

// The commit begins.
fn first_step(alloc: Global, place: ReaderPosition, number: u64) -> Result<Step, SourceError>
    requires { number < number_limit }
    ensures { (tables : List LogTable) (log : List Logged) (entry : Logged)
        → number ≡ index_of place + 1 → place.begun ≡ false
        → slice_get log (index_of place) ≡ Some entry
        → IsPlaceIn log place → Steps tables log place result }
{
    step_to(
        alloc,
        &begin_message(number),
        ReaderPosition {
            begun: true,
            change: 0,
            table: 0,
            ..place
        },
    )
}

// A change is read, or the Relation of one of its tables before it.
fn change_step(
    alloc: Global,
    tables: &[LogTable],
    described: &Described,
    place: ReaderPosition,
    message: &Message,
) -> Result<Step, SourceError>
    requires { place.change + 1 < 2 ^ 64 }
    ensures { (opening : List LogTable) (log : List Logged) (entry : Logged)
        → tables.now ≡ tables_at opening log place → place.begun ≡ true
        → slice_get log (index_of place) ≡ Some entry
        → slice_get (messages_in entry) place.change ≡ Some message.now
        → IsPlaceIn log place → Describes described.now (told_at opening log place)
        → Steps opening log place result }
{
    match next_missing(alloc, tables, described, message, place.table)? {
        Some(Missing { relation, table }) => step_to(
            alloc,
            &relation,
            ReaderPosition {
                begun: true,
                table,
                ..place
            },
        ),
        None => step_to(
            alloc,
            message,
            ReaderPosition {
                begun: true,
                change: place.change + 1,
                table: 0,
                ..place
            },
        ),
    }
}

// The commit ends.
fn last_step(alloc: Global, place: ReaderPosition, number: u64) -> Result<Step, SourceError>
    requires number { number < number_limit }
    requires place { place.commits + 1 < 2 ^ 64 }
    ensures { (tables : List LogTable) (log : List Logged) (entry : Logged)
        → number ≡ index_of place + 1 → place.begun ≡ true
        → slice_get log (index_of place) ≡ Some entry
        → slice_get (messages_in entry) place.change ≡ None → IsPlaceIn log place
        → Steps tables log place result }
{
    step_to(
        alloc,
        &commit_message(number),
        ReaderPosition {
            commits: place.commits + 1,
            begun: false,
            change: 0,
            table: 0,
            ..place
        },
    )
}

// The one change of a watermark is read.
fn mark_step(
    alloc: Global,
    tables: &[LogTable],
    described: &Described,
    place: ReaderPosition,
    value: &Text,
) -> Result<Step, SourceError>
    requires { place.change ≡ 0 }
    ensures { (opening : List LogTable) (log : List Logged)
        → tables.now ≡ tables_at opening log place → place.begun ≡ true
        → slice_get log (index_of place) ≡ Some (Mark value.now)
        → IsPlaceIn log place → Describes described.now (told_at opening log place)
        → Steps opening log place result }
{
    let message = mark_message(alloc, value)?;
    change_step(alloc, tables, described, place, &message)
}

// The change at this index, or the end of the commit.
fn inner_step(
    alloc: Global,
    tables: &[LogTable],
    entry: &Logged,
    described: &Described,
    place: ReaderPosition,
    number: u64,
) -> Result<Step, SourceError>
    requires number { number < number_limit }
    requires place { place.commits + 1 < 2 ^ 64 }
    ensures { (opening : List LogTable) (log : List Logged)
        → tables.now ≡ tables_at opening log place
        → number ≡ index_of place + 1 → place.begun ≡ true
        → slice_get log (index_of place) ≡ Some entry.now → IsPlaceIn log place
        → Describes described.now (told_at opening log place)
        → Steps opening log place result }
{
    match entry {
        Logged::Changes(messages) => match messages.items().get(place.change) {
            Some(message) => change_step(alloc, tables, described, place, message),
            None => last_step(alloc, place, number),
        },
        Logged::Mark(value) => {
            if place.change > 0 {
                last_step(alloc, place, number)
            } else {
                mark_step(alloc, tables, described, place, value)
            }
        }
        Logged::Alter { .. } => last_step(alloc, place, number),
    }
}

/// The next message of this commit, for a reader at this position to whom tables have been described
/// so. `tables` are the log's as they are just before the commit. Returns `Failed` if that message
/// has no encoding, which counts no fault.
pub fn next_step(
    alloc: Global,
    tables: &[LogTable],
    entry: &Logged,
    described: &Described,
    place: ReaderPosition,
    number: u64,
) -> Result<Step, SourceError>
    requires number { number < number_limit }
    requires place { place.commits + 1 < 2 ^ 64 }
    ensures { (opening : List LogTable) (log : List Logged)
        → tables.now ≡ tables_at opening log place → number ≡ index_of place + 1
        → slice_get log (index_of place) ≡ Some entry.now → IsPlaceIn log place
        → Describes described.now (told_at opening log place)
        → Steps opening log place result }
{
    if place.begun {
        inner_step(alloc, tables, entry, described, place, number)
    } else {
        first_step(alloc, place, number)
    }
}

/// Records that a message was read: the table that it describes, if any, is described so from now
/// on.
pub fn remember(
    described: &mut Described,
    description: Option<Description>,
) -> Result<(), AllocError>
    ensures ok { OnOk result ((message : Message) (past : List Message)
        → description_in message ≡ description
        → Describes described.old past → Describes described.new (message ∷ past)) }
    ensures err { OnErr result ((past : List Message)
        → Describes described.old past → Describes described.new past) }
{
    match description {
        Some(Description { oid, columns }) => {
            described.insert(oid, columns)?;
            Ok(())
        }
        None => Ok(()),
    }
}
