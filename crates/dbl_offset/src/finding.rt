//! Reading a store: the selected slot, and its content.

ghost use Rattle.std.specs.Prelude.{◌≡◌, ◌≢◌, ◌⊎◌, ◌↔◌, ℕ, ◌+◌, ◌-◌, ◌*◌, ◌/◌, ◌%◌, ◌^◌, ◌<◌};
ghost use Rattle.std.specs.Prelude.{◌≤◌, List, length, take, slice_index, Some, Err, IfOk, IfErr};
ghost use Rattle.std.specs.Int.{to_be_bytes, w32};
ghost use Rattle.dbl_base.specs.Streams.{FailsOnlyIfCounted};
ghost use Rattle.dbl_disk.specs.Disks.{IsOnly};
ghost use Rattle.dbl_offset_content.specs.Entries.{slot_content};
ghost use Rattle.dbl_offset_content.specs.Measures.{offset_limit};
ghost use Rattle.dbl_offset.specs.Slots.{HasByteAt, HasNoSelector};
ghost use Rattle.dbl_offset.specs.Slots.{HasSelectedEntry, HasSlotContent, HasWrongMagic};
ghost use Rattle.dbl_offset.specs.Slots.{ReachesInSlot, SelectsSlot, block_start};
ghost use Rattle.dbl_offset.specs.Slots.{store_magic};
ghost use Rattle.dbl_offset.specs.Stores.{IsNoStoreAt};

use crate::OffsetError;
use crate::slots::{BLOCK, block_end};
use dbl_disk::Disk;
use dbl_offset_content::{LENGTH_BYTES, OFFSET_LIMIT};
use std::alloc::Global;

const MAGIC: [u8; 8] = *b"DBLOFFS2";

// The number of leading bytes that agree with the magic.
#[tactic(auto, unfolding(crate::specs::Slots::store_magic))]
fn matching(bytes: &[u8]) -> u64
    ensures within { result ≤ 8 }
    ensures same { take result bytes.now ≡ take result store_magic }
    ensures differs { result < 8 →
        take (result + 1) bytes.now ≢ take (result + 1) store_magic }
{
    let mut count = 0;
    'bytes: while count < MAGIC.len() && count < bytes.len() && bytes[count] == MAGIC[count] {
        count += 1;
    }
    count as u64
}

// The slot that is selected.
fn read_slot<D: Disk>(disk: &mut D) -> Result<u64, OffsetError>
    ensures read { (bytes : List ℕ) → D.seen disk.old ≡ Some bytes →
        IfOk result (λ slot. SelectsSlot bytes slot) }
    ensures small { IfOk result (λ slot. slot < 2) }
    ensures none { (bytes : List ℕ) (at : ℕ) → D.seen disk.old ≡ Some bytes →
        result ≡ Err (OffsetError.NotAStore at) →
        HasWrongMagic bytes at ⊎ HasNoSelector bytes at }
    ensures kinds { IfErr result
        (λ e. (e ≡ OffsetError.Failed) ⊎ ((at : ℕ) × (e ≡ OffsetError.NotAStore at))) }
    ensures seen { D.seen disk.new ≡ D.seen disk.old }
    ensures crash { (crashed : List ℕ) →
        D.may_leave disk.new crashed ↔ D.may_leave disk.old crashed }
    ensures cause { FailsOnlyIfCounted (result ≡ Err OffsetError.Failed)
        (D.faults disk.old) (D.faults disk.new) }
    ensures steady { (bytes : List ℕ) → D.seen disk.old ≡ Some bytes →
        result ≢ Err OffsetError.Failed → D.faults disk.new ≡ D.faults disk.old }
{
    let mut head = [0u8; 9];
    let got = disk.read_at(0, &mut head)?;
    let at = matching(&head[..got]);
    if at < 8 {
        return Err(OffsetError::NotAStore { at });
    }
    if got < 9 {
        return Err(OffsetError::NotAStore { at: 8 });
    }
    Ok((head[8] % 2) as u64)
}

// The position of the last of a content's `total` bytes.
fn last_position(slot: u64, total: u64) -> u64
    requires slot { slot < 2 }
    requires some { 1 ≤ total }
    requires short { total ≤ offset_limit + 4 }
    ensures { result ≡ block_start slot ((total - 1) / 4096) + (total - 1) % 4096 }
{
    let last = total - 1;
    16 + 8192 * (last / 4096) + 4096 * slot + last % 4096
}

// The number that the four bytes encode.
fn length_in(head: &[u8]) -> u32
    requires { length head.now ≡ 4 }
    ensures spelled { head.now ≡ to_be_bytes w32 result }
    ensures fits { result < 2 ^ 32 }
{
    u32::from_be_bytes([head[0], head[1], head[2], head[3]])
}

// The length with which a slot's content begins.
fn read_length<D: Disk>(disk: &mut D, slot: u64) -> Result<u32, OffsetError>
    requires { slot < 2 }
    ensures read { (bytes : List ℕ) → D.seen disk.old ≡ Some bytes →
        IfOk result (λ n. (at : ℕ) → at < 4 →
        HasByteAt bytes (block_start slot 0 + at) (slice_index (to_be_bytes w32 n) at)) }
    ensures none { (bytes entry : List ℕ) (at : ℕ) → D.seen disk.old ≡ Some bytes →
        result ≡ Err (OffsetError.NotAStore at) →
        ¬ HasSlotContent bytes slot (slot_content entry) }
    ensures kinds { IfErr result (λ e. (e ≡ OffsetError.Failed) ⊎
        (e ≡ OffsetError.NotAStore (block_start slot 0))) }
    ensures seen { D.seen disk.new ≡ D.seen disk.old }
    ensures crash { (crashed : List ℕ) →
        D.may_leave disk.new crashed ↔ D.may_leave disk.old crashed }
    ensures cause { FailsOnlyIfCounted (result ≡ Err OffsetError.Failed)
        (D.faults disk.old) (D.faults disk.new) }
    ensures steady { (bytes : List ℕ) → D.seen disk.old ≡ Some bytes →
        result ≢ Err OffsetError.Failed → D.faults disk.new ≡ D.faults disk.old }
{
    let mut head = [0u8; 4];
    let got = disk.read_at(16 + 4096 * slot, &mut head)?;
    if got < 4 {
        return Err(OffsetError::NotAStore {
            at: 16 + 4096 * slot,
        });
    }
    Ok(length_in(&head))
}

// The first `total` bytes of a slot's content, up to which the disk has to reach.
fn read_blocks<D: Disk>(
    alloc: Global,
    disk: &mut D,
    slot: u64,
    total: usize,
) -> Result<Vec<u8>, OffsetError>
    requires slot { slot < 2 }
    requires short { total ≤ offset_limit + 4 }
    ensures long { IfOk result (λ content. length content.items ≡ total) }
    ensures read { (bytes : List ℕ) → D.seen disk.old ≡ Some bytes →
        ReachesInSlot bytes slot total →
        IfOk result (λ content. HasSlotContent bytes slot content.items) }
    ensures reached { (bytes : List ℕ) (at : ℕ) → D.seen disk.old ≡ Some bytes →
        ReachesInSlot bytes slot total → result ≢ Err (OffsetError.NotAStore at) }
    ensures kinds { IfErr result (λ e. (e ≡ OffsetError.Failed) ⊎ ((e ≡ OffsetError.Memory) ⊎
        (e ≡ OffsetError.NotAStore (block_start slot 0)))) }
    ensures seen { D.seen disk.new ≡ D.seen disk.old }
    ensures crash { (crashed : List ℕ) →
        D.may_leave disk.new crashed ↔ D.may_leave disk.old crashed }
    ensures cause { FailsOnlyIfCounted (result ≡ Err OffsetError.Failed)
        (D.faults disk.old) (D.faults disk.new) }
    ensures steady { (bytes : List ℕ) → D.seen disk.old ≡ Some bytes →
        result ≢ Err OffsetError.Failed → D.faults disk.new ≡ D.faults disk.old }
{
    let mut content = Vec::with_capacity(alloc, total)?;
    let mut buffer = [0u8; BLOCK];
    let mut block: u64 = 0;
    'each: while content.len() < total {
        let count = block_end(content.len(), total) - content.len();
        let got = disk.read_at(16 + 8192 * block + 4096 * slot, &mut buffer)?;
        if got < count {
            return Err(OffsetError::NotAStore {
                at: 16 + 4096 * slot,
            });
        }
        content.extend_from_slice(&buffer[..count])?;
        block += 1;
    }
    Ok(content)
}

// The content of a slot of a disk with `len` bytes. It takes memory only if the disk reaches as far
// as the content's length says.
fn read_content<D: Disk>(
    alloc: Global,
    disk: &mut D,
    slot: u64,
    len: u64,
) -> Result<Vec<u8>, OffsetError>
    requires { slot < 2 }
    ensures read { (bytes : List ℕ) → D.seen disk.old ≡ Some bytes → len ≡ length bytes →
        IfOk result (λ content. (entry : List ℕ) × (content.items ≡ slot_content entry) ×
        (length entry ≤ offset_limit) × HasSlotContent bytes slot content.items) }
    ensures long { IfOk result (λ content. 4 ≤ length content.items) }
    ensures none { (bytes entry : List ℕ) (at : ℕ) → D.seen disk.old ≡ Some bytes →
        len ≡ length bytes → result ≡ Err (OffsetError.NotAStore at) →
        length entry ≤ offset_limit → ¬ HasSlotContent bytes slot (slot_content entry) }
    ensures kinds { IfErr result (λ e. (e ≡ OffsetError.Failed) ⊎ ((e ≡ OffsetError.Memory) ⊎
        (e ≡ OffsetError.NotAStore (block_start slot 0)))) }
    ensures seen { D.seen disk.new ≡ D.seen disk.old }
    ensures crash { (crashed : List ℕ) →
        D.may_leave disk.new crashed ↔ D.may_leave disk.old crashed }
    ensures cause { FailsOnlyIfCounted (result ≡ Err OffsetError.Failed)
        (D.faults disk.old) (D.faults disk.new) }
    ensures steady { (bytes : List ℕ) → D.seen disk.old ≡ Some bytes →
        result ≢ Err OffsetError.Failed → D.faults disk.new ≡ D.faults disk.old }
{
    let n = read_length(disk, slot)? as u64;
    if n > OFFSET_LIMIT {
        return Err(OffsetError::NotAStore {
            at: 16 + 4096 * slot,
        });
    }
    if last_position(slot, n + 4) >= len {
        return Err(OffsetError::NotAStore {
            at: 16 + 4096 * slot,
        });
    }
    read_blocks(alloc, disk, slot, n as usize + LENGTH_BYTES)
}

/// The selected slot of a store, and its content.
#[derive(Drop)]
pub(crate) struct Found {
    pub(crate) slot: u64,
    pub(crate) content: Vec<u8>,
}

/// Finds the selected slot and its content. It syncs first, so from then on a crash leaves exactly
/// what was found.
pub(crate) fn find<D: Disk>(alloc: Global, disk: &mut D) -> Result<Found, OffsetError>
    ensures read { (bytes : List ℕ) → D.seen disk.old ≡ Some bytes →
        IfOk result (λ found. (entry : List ℕ) × (found.content.items ≡ slot_content entry) ×
        HasSelectedEntry bytes found.slot entry) }
    ensures shape { IfOk result (λ found. (found.slot < 2) × (4 ≤ length found.content.items)) }
    ensures none { (bytes : List ℕ) (at : ℕ) → D.seen disk.old ≡ Some bytes →
        result ≡ Err (OffsetError.NotAStore at) → IsNoStoreAt bytes at }
    ensures kinds { IfErr result (λ e. (e ≡ OffsetError.Failed) ⊎ ((e ≡ OffsetError.Memory) ⊎
        ((at : ℕ) × (e ≡ OffsetError.NotAStore at)))) }
    ensures only { (bytes : List ℕ) → D.seen disk.old ≡ Some bytes →
        result ≢ Err OffsetError.Failed → IsOnly bytes (D.may_leave disk.new) }
    ensures seen { D.seen disk.new ≡ D.seen disk.old }
    ensures crash { (crashed : List ℕ) →
        D.may_leave disk.new crashed → D.may_leave disk.old crashed }
    ensures cause { FailsOnlyIfCounted (result ≡ Err OffsetError.Failed)
        (D.faults disk.old) (D.faults disk.new) }
    ensures steady { (bytes : List ℕ) → D.seen disk.old ≡ Some bytes →
        result ≢ Err OffsetError.Failed → D.faults disk.new ≡ D.faults disk.old }
{
    disk.sync()?;
    let len = disk.len()?;
    let slot = read_slot(disk)?;
    let content = read_content(alloc, disk, slot, len)?;
    Ok(Found { slot, content })
}
