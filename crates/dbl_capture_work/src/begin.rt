//! How a session begins: with the first offset of a connector, or with the stored one.

ghost use Rattle.std.specs.Prelude.{◌≡◌, ◌≢◌, ◌⊎◌, ◌^◌, ◌<◌, ◌≤◌, ◌∷◌, [], Contains, Option, None};
ghost use Rattle.std.specs.Prelude.{Some, IfOk, IfErr, IfSome, IsTrue, OnOk, OnErr, length, map};
ghost use Rattle.dbl_model_table.specs.Configs.{IsGoodConfig};
ghost use Rattle.dbl_source_model.specs.Standings.{SourceState, MovesTo};
ghost use Rattle.dbl_source_model.specs.Calls.{Moved, IsHead, IsBegun};
ghost use Rattle.dbl_source_model.specs.Leaves.{Leaves, LeavesSome, MayFollow};
ghost use Rattle.dbl_source_model.specs.Trace.{Began, Head, IsTakenBy, IsTakenAnew, LastAnswerIs};
ghost use Rattle.dbl_offset_content.specs.declared.offset.Offset.{Offset as SpecOffset};
ghost use Rattle.dbl_offset.specs.Entries.{offset_bytes_form};
ghost use Rattle.dbl_offset.specs.Measures.{capped, offset_limit};
ghost use Rattle.dbl_offset.specs.Offsets.{IsOffset};
ghost use Rattle.dbl_offset.specs.Stores.{HoldsOffset, IsLive, LeavesOffset, disk_of};
ghost use Rattle.dbl_source.specs.Keeps.{KeepsSource, ReadsNothing};
ghost use Rattle.dbl_offset.specs.Keeps.{KeepsStore};
ghost use Rattle.dbl_capture_work.specs.Begins.{AreCounted, AreInfosAt, AreUnread};
ghost use Rattle.dbl_capture_work.specs.Begins.{IsAbsentAfter, IsAgain};
ghost use Rattle.dbl_capture_work.specs.Begins.{IsDescribedAs, IsExhausted, IsFaultless};
ghost use Rattle.dbl_capture_work.specs.Begins.{IsFirstOffsetAtHead, IsGoneFrom, IsModelFault};
ghost use Rattle.dbl_capture_work.specs.Begins.{IsOffsetFor, IsTooLong, MayRest};

use crate::Halt;
use dbl_base::{Lsn, Seq};
use dbl_disk::Disk;
use dbl_model_history::Cursor;
use dbl_model_table::{Config, TableInfo, TableName};
use dbl_offset::{Offset, OffsetStore, SharedInfos};
use dbl_source::Source;
use dbl_source_model::Started;
use std::alloc::{AllocError, Global};

// A described table: its description, and its version.
#[derive(Drop)]
struct Described {
    info: TableInfo,
    version: u64,
}

// Describes a table, as the catalogue has it at one time during the call, with its version then.
// Versions are counted from 1: an answer of 0 counts as 1.
fn describe_table<S: Source>(
    alloc: Global,
    src: &mut S,
    name: &TableName,
) -> Result<Described, Halt>
    requires { IsTrue (S.is_live src.old) }
    ensures described { MovesTo S.stands src.old src.new result
        (λ table. IsDescribedAs name.now table.info table.version) }
    ensures named { IfOk result (λ table. table.info.name ≡ name.now) }
    ensures counted { IfOk result
        (λ table. (1 ≤ table.version) × (table.version < 2 ^ 64)) }
    ensures faultless { OnOk result (IsFaultless name.now (S.told src.new)) }
    ensures fault { IfErr result (λ h. (h ≡ Halt.Memory) ⊎ ((h ≡ Halt.Source)
        ⊎ IsModelFault name.now (S.told src.new) h)) }
    ensures absent { (s : SourceState) → S.stands src.old s →
        IfErr result (IsAbsentAfter (S.stands src.new) s (name.now ∷ [])) }
    ensures rests { ReadsNothing S.Source src.old src.new MayFollow }
    ensures source { KeepsSource S.Source src.old src.new result Halt.Source }
{
    match src.describe(name)? {
        Some(raw) => Ok(Described {
            info: TableInfo::make(alloc, &raw)?,
            version: raw.version.max(1),
        }),
        None => Err(Halt::UnknownTable {
            table: name.copy(alloc)?,
        }),
    }
}

// The described tables, each with its version at the same index.
#[derive(Drop)]
struct Tables {
    infos: Vec<TableInfo>,
    versions: Vec<u64>,
}

// Describes each of the tables, in order.
fn describe_tables<S: Source>(
    alloc: Global,
    src: &mut S,
    names: &Vec<TableName>,
) -> Result<Tables, Halt>
    requires { IsTrue (S.is_live src.old) }
    ensures described { MovesTo S.stands src.old src.new result (λ tables s t. Moved s t
        × AreInfosAt t.history (length s.history.commits)
        tables.infos.items tables.versions.items) }
    ensures named { IfOk result
        (λ tables. map (λ info. info.name) tables.infos.items ≡ names.now.items) }
    ensures counted { IfOk result
        (λ tables. AreCounted tables.infos.items tables.versions.items) }
    ensures fault { IfErr result (λ h. (h ≡ Halt.Memory) ⊎ ((h ≡ Halt.Source)
        ⊎ ((name : _) × Contains names.now.items name × IsModelFault name (S.told src.new) h))) }
    ensures absent { (s : SourceState) → S.stands src.old s →
        IfErr result (IsAbsentAfter (S.stands src.new) s names.now.items) }
    ensures rests { ReadsNothing S.Source src.old src.new MayRest }
    ensures source { KeepsSource S.Source src.old src.new result Halt.Source }
{
    let mut infos = Vec::with_capacity(alloc, names.len())?;
    let mut versions = Vec::with_capacity(alloc, names.len())?;
    'tables: for name in names {
        let table = describe_table(alloc, src, name)?;
        infos.push(table.info)?;
        versions.push(table.version)?;
    }
    Ok(Tables { infos, versions })
}

// Makes cursors of so many tables, of which nothing was read yet.
fn unread_cursors(alloc: Global, count: usize) -> Result<Vec<Cursor>, AllocError>
    ensures { IfOk result (λ cursors. AreUnread count cursors.items) }
{
    let mut cursors = Vec::with_capacity(alloc, count)?;
    for _table in 0..count {
        cursors.push(Cursor {
            last: None,
            done: false,
        })?;
    }
    Ok(cursors)
}

// Makes a connector's first offset, at this head of the log.
fn offset_at(
    alloc: Global,
    config: &Config,
    tables: Tables,
    head: Lsn,
) -> Result<Offset, AllocError>
    ensures first { IfOk result (IsFirstOffsetAtHead config.now tables.infos.items head) }
    ensures versions { IfOk result (λ offset. offset.versions ≡ tables.versions.items) }
{
    let Tables { infos, versions } = tables;
    let cursors = unread_cursors(alloc, infos.len())?;
    let infos = SharedInfos::make(alloc, infos)?;
    Ok(Offset {
        identity: config.identity.copy(alloc)?,
        incarnation: 1,
        start: head,
        lsn: head,
        end_lsn: head,
        infos,
        cursors: Seq::make(cursors),
        versions: Seq::make(versions),
    })
}

/// Makes the first offset of a connector: describes each table, and then requests the head of the
/// log. Each table's description and version in the offset are those of one time during the call.
pub fn first_offset<S: Source>(alloc: Global, config: &Config, src: &mut S) -> Result<Offset, Halt>
    requires live { IsTrue (S.is_live src.old) }
    requires config { IsGoodConfig config.now }
    ensures first { MovesTo S.stands src.old src.new result (λ offset s t. Moved s t
        × ((infos : _) × (head : _) × IsFirstOffsetAtHead config.now infos head offset
        × (map (λ info. info.name) infos ≡ config.now.tables) × IsHead head s t)) }
    ensures described { MovesTo S.stands src.old src.new result (λ offset s t.
        AreInfosAt t.history (length s.history.commits) offset.infos offset.versions) }
    ensures of { IfOk result (IsOffsetFor config.now None) }
    ensures asked { IfOk result IsOffset }
    ensures headed { IfOk result (λ offset. LastAnswerIs (S.told src.new) (Head offset.start)) }
    ensures fault { IfErr result (λ h. (h ≡ Halt.Memory) ⊎ ((h ≡ Halt.Source)
        ⊎ ((name : _) × Contains config.now.tables name × IsModelFault name (S.told src.new) h))) }
    ensures absent { (s : SourceState) → S.stands src.old s →
        IfErr result (IsAbsentAfter (S.stands src.new) s config.now.tables) }
    ensures rests { ReadsNothing S.Source src.old src.new MayRest }
    ensures source { KeepsSource S.Source src.old src.new result Halt.Source }
{
    let tables = describe_tables(alloc, src, config.tables.items())?;
    let head = src.head()?;
    Ok(offset_at(alloc, config, tables, head)?)
}

/// Returns the stored offset with the next incarnation, or None if none is stored.
pub fn next_incarnation<D: Disk>(
    alloc: Global,
    store: &OffsetStore<D>,
) -> Result<Option<Offset>, Halt>
    requires { IsLive store.now }
    ensures again { IfOk result (IsAgain store.now.offset) }
    ensures asked { IfOk result (λ offset. IfSome offset IsOffset) }
    ensures exhausted { IfSome store.now.offset (λ stored. 2 ^ 63 ≤ stored.incarnation →
        result ≡ Err (Halt.Exhausted stored.incarnation)) }
    ensures halt { IfErr result (λ h. (h ≡ Halt.Memory) ⊎ IsExhausted store.now.offset h) }
{
    let Some(stored) = store.load() else {
        return Ok(None);
    };
    if stored.incarnation >= 1 << 63 {
        return Err(Halt::Exhausted {
            incarnation: stored.incarnation,
        });
    }
    let mut offset = stored.copy(alloc)?;
    offset.incarnation += 1;
    Ok(Some(offset))
}

/// Stores an offset.
pub fn put_offset<D: Disk>(
    alloc: Global,
    store: &mut OffsetStore<D>,
    offset: Offset,
) -> Result<(), Halt>
    requires live { IsLive store.old }
    requires offset { IsOffset offset }
    ensures stored { (old : Option SpecOffset) → HoldsOffset D.Disk store.old old →
        OnOk result (HoldsOffset D.Disk store.new (Some offset)) }
    ensures left { (old : Option SpecOffset) → HoldsOffset D.Disk store.old old →
        LeavesOffset D.Disk (disk_of store.new) (λ left. (left ≡ old) ⊎ (left ≡ Some offset)) }
    ensures loads { OnOk result (store.new.offset ≡ Some offset) }
    ensures kept { OnErr result (result ≢ Err Halt.Offsets → store.new ≡ store.old) }
    ensures keeps { OnErr result (store.new.offset ≡ store.old.offset) }
    ensures halt { IfErr result (λ h. (h ≡ Halt.Memory) ⊎ ((h ≡ Halt.Offsets)
        ⊎ IsTooLong offset h)) }
    ensures long { offset_limit < length (offset_bytes_form offset) →
        result ≡ Err (Halt.OffsetTooLong (capped (length (offset_bytes_form offset)))) }
    ensures store { KeepsStore D.Disk store.old store.new result Halt.Offsets }
{
    store.store(alloc, offset)?;
    Ok(())
}

/// Starts reading after an LSN.
pub fn start_reading<S: Source>(src: &mut S, after: Lsn) -> Result<(), Halt>
    requires { IsTrue (S.is_live src.old) }
    ensures started { MovesTo S.stands src.old src.new result (λ done. IsBegun after) }
    ensures gone { (asked first : _) → result ≡ Err (Halt.Gone asked first) → (asked ≡ after)
        × LastAnswerIs (S.told src.new) (Began (Started.Gone first)) }
    ensures never { (s : SourceState) → S.stands src.old s → s.confirmed.0 ≤ after.0 →
        (asked first : _) → result ≢ Err (Halt.Gone asked first) }
    ensures gone_stood { (s : SourceState) → S.stands src.old s → (asked first : _) →
        result ≡ Err (Halt.Gone asked first) → (after.0 < first.0) × (first.0 ≤ s.confirmed.0) }
    ensures kept { (s : SourceState) → S.stands src.old s → OnOk result (S.keeps_from s after) }
    ensures dropped { (s : SourceState) → S.stands src.old s → (asked first : _) →
        result ≡ Err (Halt.Gone asked first) → (¬ S.keeps_from s asked) × S.begins_at s first }
    ensures halt { IfErr result (λ h. (h ≡ Halt.Memory) ⊎ ((h ≡ Halt.Source)
        ⊎ IsGoneFrom after h)) }
    ensures reading { OnOk result (IsTrue (S.is_reading src.new)) }
    ensures left { Leaves S.stands S.may_leave src.old src.new MayFollow }
    ensures some { LeavesSome S.stands S.may_leave src.old src.new }
    ensures unread { (s t : SourceState) → S.stands src.old s → S.stands src.new t →
        IfSome t.reading (λ r. (r.after ≡ after) × (r.messages ≡ [])) }
    ensures taken { OnOk result (IsTakenAnew (S.told src.old) (S.told src.new)) }
    ensures fell { OnErr result (IsTakenBy [] (S.told src.old) (S.told src.new)
        ⊎ IsTakenAnew (S.told src.old) (S.told src.new)) }
    ensures source { KeepsSource S.Source src.old src.new result Halt.Source }
{
    match src.start(after)? {
        Started::Ready => Ok(()),
        Started::Gone { first } => Err(Halt::Gone {
            asked: after,
            first,
        }),
    }
}
