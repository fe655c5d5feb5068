ghost use Rattle.std.specs.Prelude.{◌≡◌, ◌≢◌, ◌⊎◌, ◌↔◌, ℕ, ◌+◌, ◌<◌, ◌≤◌, List, [], length, max};
ghost use Rattle.std.specs.Prelude.{option_map, Option, Some, None, Ok, Err, IfOk, IfErr};
ghost use Rattle.std.specs.Prelude.{IfSome, OnOk, OnErr, MatchResult};
ghost use Rattle.dbl_disk.specs.Calls.{Keeps, Makes};
ghost use Rattle.dbl_disk.specs.Disks.{Follows, IsOnly};
ghost use Rattle.dbl_offset_content.specs.declared.offset.Offset.{Offset};
ghost use Rattle.dbl_offset_content.specs.Entries.{offset_bytes_form, slot_content};
ghost use Rattle.dbl_offset_content.specs.Measures.{capped, offset_limit};
ghost use Rattle.dbl_offset_content.specs.Offsets.{EncodesOffset, IsOffset, IsOffsetEntry};
ghost use Rattle.dbl_offset.specs.Slots.{HasSelectedEntry, empty_store};
ghost use Rattle.dbl_offset.specs.Stores.{BeginsTorn, ExtendsOffsets, HasBadOffset, HasEntry};
ghost use Rattle.dbl_offset.specs.Stores.{HoldsOffset, IsLive, IsNoStoreAt, IsSlotEntry, IsStore};
ghost use Rattle.dbl_offset.specs.Stores.{LeavesOffset, PutLeaves, disk_of, least_room, room_of};

use crate::OffsetError;
use crate::finding::find;
use crate::slots::{start, write_slot};
use dbl_base::Failed;
use dbl_disk::{Disk, Refused};
use dbl_offset_content::{FORMAT, LENGTH_BYTES, OFFSET_LIMIT, Offset, decode, encode, measure};
use dbl_record::RecordError;
use std::alloc::Global;
use std::marker::Model;

/// The offset of a connector, on a disk. A crash while an offset is stored leaves the old one or
/// the new one.
///
/// The disk has the bytes `DBLOFFS2`, a selector, seven bytes that are ignored, and then two slots
/// whose blocks of 4,096 bytes alternate. The selector's lowest bit is the selected slot. A slot's
/// content is a length in four bytes, big-endian, and an entry of that length: an offset's bytes,
/// or none. An entry is written in format 2; one of format 1 is read as well, with version 1 for
/// each table.
#[derive(Drop)]
pub struct OffsetStore<D: Disk> {
    disk: D,
    slot: u64,
    offset: Option<Offset>,
    live: bool,
}

impl<D: Disk> Model for OffsetStore<D> {
    ghost use Rattle.std.specs.Prelude.{◌<◌, IfSome};
    ghost use Rattle.dbl_offset_content.specs.Offsets.{IsOffset};
    ghost use Rattle.dbl_offset.specs.Stores.{StoreOn};

    ghost Value = { StoreOn D };

    ghost view = { λ s.
        record { disk = s.disk; slot = s.slot; offset = s.offset; live = s.live } };

    ghost invariant = { λ s. (s.slot < 2) × IfSome s.offset IsOffset };
}

// The offset of a slot's entry, or none if it is empty.
fn offset_in(alloc: Global, slot: u64, entry: &[u8]) -> Result<Option<Offset>, OffsetError>
    ensures read { IfOk result (λ offset. IsSlotEntry entry.now offset) }
    ensures good { IfOk result (λ offset. IfSome offset IsOffset) }
    ensures refused { IfErr result (λ error. (error ≡ OffsetError.Memory) ⊎
        ((error ≡ OffsetError.BadOffset slot) × (entry.now ≢ []) × ¬ IsOffsetEntry entry.now)) }
{
    if entry.is_empty() {
        return Ok(None);
    }
    match decode(alloc, entry) {
        Ok(offset) => Ok(Some(offset)),
        Err(RecordError::BadRecord { at: _ }) => Err(OffsetError::BadOffset { index: slot }),
        Err(RecordError::Memory) => Err(OffsetError::Memory),
    }
}

// The selected slot, and the stored offset.
#[derive(Drop)]
struct Stored {
    slot: u64,
    offset: Option<Offset>,
}

// Finds the stored offset, after a sync.
fn read_store<D: Disk>(alloc: Global, disk: &mut D) -> Result<Stored, OffsetError>
    ensures read { (bytes : List ℕ) → D.seen disk.old ≡ Some bytes →
        IfOk result (λ stored. (entry : List ℕ) × HasSelectedEntry bytes stored.slot entry ×
        IsSlotEntry entry stored.offset) }
    ensures shape { IfOk result (λ stored. (stored.slot < 2) × IfSome stored.offset IsOffset) }
    ensures not_a_store { (bytes : List ℕ) (at : ℕ) → D.seen disk.old ≡ Some bytes →
        result ≡ Err (OffsetError.NotAStore at) → IsNoStoreAt bytes at }
    ensures bad_offset { (bytes : List ℕ) (index : ℕ) → D.seen disk.old ≡ Some bytes →
        result ≡ Err (OffsetError.BadOffset index) → HasBadOffset bytes index }
    ensures short { (len : ℕ) → result ≢ Err (OffsetError.TooLong len) }
    ensures only { (bytes : List ℕ) → D.seen disk.old ≡ Some bytes →
        result ≢ Err OffsetError.Failed → IsOnly bytes (D.may_leave disk.new) }
    ensures keeps { Keeps D.Disk (result ≡ Err OffsetError.Failed) disk.old disk.new }
{
    let found = find(alloc, disk)?;
    let entry = &found.content.as_slice()[LENGTH_BYTES..];
    let offset = offset_in(alloc, found.slot, entry)?;
    Ok(Stored {
        slot: found.slot,
        offset,
    })
}

// The content of a slot with the offset.
fn content_of(alloc: Global, offset: &Offset) -> Result<Vec<u8>, OffsetError>
    requires { IsOffset offset.now }
    ensures content { IfOk result
        (λ content. (content.items ≡ slot_content (offset_bytes_form offset.now)) ×
        EncodesOffset (offset_bytes_form offset.now) offset.now) }
    ensures short { IfOk result (λ content. length content.items ≤ offset_limit + 4) }
    ensures too_long { (len : ℕ) → (result ≡ Err (OffsetError.TooLong len)) ↔
        ((offset_limit < length (offset_bytes_form offset.now))
        × (len ≡ capped (length (offset_bytes_form offset.now)))) }
    ensures kinds { IfErr result (λ error. (error ≡ OffsetError.Memory) ⊎
        ((len : ℕ) × (error ≡ OffsetError.TooLong len))) }
{
    let count = measure(offset);
    if count > OFFSET_LIMIT {
        return Err(OffsetError::TooLong { len: count });
    }
    Ok(encode(alloc, count as usize, FORMAT, offset)?)
}

impl<D: Disk> OffsetStore<D> {
    /// Makes a store without an offset on an empty disk, by a write and a sync.
    pub fn make(mut disk: D) -> Result<OffsetStore<D>, Refused<D, OffsetError>>
        requires { (bytes : List ℕ) → D.seen disk ≡ Some bytes → bytes ≡ [] }
        ensures made { D.seen disk ≡ Some [] →
            IfOk result (λ store. HoldsOffset D.Disk store None) }
        ensures bytes { D.seen disk ≡ Some [] →
            IfOk result (λ store. D.seen (disk_of store) ≡ Some empty_store) }
        ensures live { IfOk result IsLive }
        ensures empty { IfOk result (λ store. store.offset ≡ None) }
        ensures refused { IfErr result (λ refused. refused.error ≡ OffsetError.Failed) }
        ensures left { IfErr result
            (λ refused. Follows BeginsTorn (D.may_leave disk) (D.may_leave refused.disk)) }
        ensures makes { MatchResult result
            (λ store. Makes D.Disk least_room ⊥ disk (disk_of store))
            (λ refused. Makes D.Disk least_room
            (refused.error ≡ OffsetError.Failed) disk refused.disk) }
    {
        match start(&mut disk, b"DBLOFFS2\0\0\0\0\0\0\0\0\0\0\0\0") {
            Ok(()) => Ok(OffsetStore {
                disk,
                slot: 0,
                offset: None,
                live: true,
            }),
            Err(Failed) => Err(Refused {
                disk,
                error: OffsetError::Failed,
            }),
        }
    }

    /// Opens the store on the disk, as a crash may have left it. Begins with a sync, and reads the
    /// head and the selected slot. Unless the result is `Failed`, a crash from then on leaves
    /// exactly the disk's contents, if they are known.
    pub fn open(alloc: Global, mut disk: D) -> Result<OffsetStore<D>, Refused<D, OffsetError>>
        ensures opened { (bytes : List ℕ) → D.seen disk ≡ Some bytes →
            IfOk result (λ store. IsStore bytes store.offset) }
        ensures holds { (bytes : List ℕ) → D.seen disk ≡ Some bytes →
            IfOk result (λ store. HoldsOffset D.Disk store store.offset) }
        ensures not_a_store { (bytes : List ℕ) (at : ℕ) → D.seen disk ≡ Some bytes → IfErr result
            (λ refused. refused.error ≡ OffsetError.NotAStore at → IsNoStoreAt bytes at) }
        ensures bad_offset { (bytes : List ℕ) (index : ℕ) → D.seen disk ≡ Some bytes → IfErr result
            (λ refused. refused.error ≡ OffsetError.BadOffset index → HasBadOffset bytes index) }
        ensures short { IfErr result
            (λ refused. (len : ℕ) → refused.error ≢ OffsetError.TooLong len) }
        ensures live { IfOk result IsLive }
        ensures stable { (bytes : List ℕ) → D.seen disk ≡ Some bytes →
            MatchResult result (λ store. IsOnly bytes (D.may_leave (disk_of store)))
            (λ refused. refused.error ≢ OffsetError.Failed →
            IsOnly bytes (D.may_leave refused.disk)) }
        ensures keeps { MatchResult result
            (λ store. Keeps D.Disk ⊥ disk (disk_of store))
            (λ refused. Keeps D.Disk (refused.error ≡ OffsetError.Failed) disk refused.disk) }
    {
        match read_store(alloc, &mut disk) {
            Ok(stored) => Ok(OffsetStore {
                disk,
                slot: stored.slot,
                offset: stored.offset,
                live: true,
            }),
            Err(error) => Err(Refused { disk, error }),
        }
    }

    /// The stored offset. Takes no memory.
    pub fn load(&self) -> Option<&Offset>
        requires { IsLive self.now }
        ensures offset { option_map (λ offset. offset.now) result ≡ self.now.offset }
        ensures asked { IfSome result (λ offset. IsOffset offset.now) }
    {
        self.offset.as_ref()
    }

    /// Replaces the stored offset: writes it, in format 2, into the slot that isn't selected, a
    /// write for each block, and syncs; then selects that slot by a write and a sync. After `Failed`
    /// the store isn't live; the other errors come before the first call and change nothing.
    pub fn store(&mut self, alloc: Global, offset: Offset) -> Result<(), OffsetError>
        requires live { IsLive self.old }
        requires offset { IsOffset offset }
        ensures stored { (old : Option Offset) → HoldsOffset D.Disk self.old old →
            OnOk result (HoldsOffset D.Disk self.new (Some offset)) }
        ensures format { (old : Option Offset) → HoldsOffset D.Disk self.old old →
            OnOk result (HasEntry D.Disk self.new (offset_bytes_form offset)) }
        ensures left { (old : Option Offset) → HoldsOffset D.Disk self.old old →
            LeavesOffset D.Disk (disk_of self.new) (λ left. (left ≡ old) ⊎ (left ≡ Some offset)) }
        ensures grows { (before after : List ℕ) → D.seen (disk_of self.old) ≡ Some before →
            D.seen (disk_of self.new) ≡ Some after →
            length after ≤ max (length before) (room_of offset) }
        ensures comes { ExtendsOffsets D.Disk self.old self.new }
        ensures puts { PutLeaves D.Disk (result ≡ Err OffsetError.Failed) self.old self.new }
        ensures loads { OnOk result (self.new.offset ≡ Some offset) }
        ensures keeps { OnErr result (self.new.offset ≡ self.old.offset) }
        ensures live { OnOk result (IsLive self.new) }
        ensures too_long { (len : ℕ) → (result ≡ Err (OffsetError.TooLong len)) ↔
            ((offset_limit < length (offset_bytes_form offset))
            × (len ≡ capped (length (offset_bytes_form offset)))) }
        ensures unchanged { OnErr result (result ≢ Err OffsetError.Failed → self.new ≡ self.old) }
        ensures a_store { (at : ℕ) → result ≢ Err (OffsetError.NotAStore at) }
        ensures no_bad_offset { (index : ℕ) → result ≢ Err (OffsetError.BadOffset index) }
    {
        let content = match content_of(alloc, &offset) {
            Ok(content) => content,
            Err(error) => {
                drop(offset);
                return Err(error);
            }
        };
        let other = 1 - self.slot;
        self.live = false;
        match write_slot(&mut self.disk, other, content.as_slice()) {
            Ok(()) => {
                self.slot = other;
                self.live = true;
                drop(self.offset.replace(offset));
                Ok(())
            }
            Err(Failed) => {
                drop(offset);
                Err(OffsetError::Failed)
            }
        }
    }

    /// The disk in its present state. Takes no memory and makes no call of the disk.
    pub fn into_disk(self) -> D
        ensures { result ≡ disk_of self }
    {
        let OffsetStore {
            disk,
            slot: _,
            offset: _,
            live: _,
        } = self;
        disk
    }
}
