//! Writing the slots of a store: its first bytes, a slot's content, and the selector.

ghost use Rattle.std.specs.Prelude.{◌≡◌, ◌⊎◌, ℕ, ◌+◌, ◌-◌, ◌<◌, ◌≤◌, List, [], ◌∷◌};
ghost use Rattle.std.specs.Prelude.{length, max, Some, IsErr, OnOk};
ghost use Rattle.dbl_base.specs.Streams.{FailsOnlyIfCounted};
ghost use Rattle.dbl_disk.specs.Disks.{Follows, IsOnly, Torn, written};
ghost use Rattle.dbl_offset_content.specs.Entries.{slot_content};
ghost use Rattle.dbl_offset_content.specs.Measures.{offset_limit};
ghost use Rattle.dbl_offset.specs.Slots.{HasSelectedEntry, HasSlotContent, KeepsOutsideSlot};
ghost use Rattle.dbl_offset.specs.Slots.{content_end, empty_store};

use dbl_base::Failed;
use dbl_disk::Disk;

/// The number of bytes of a block.
pub(crate) const BLOCK: usize = 4096;

// The end of the block that begins at `from`, in a content of `len` bytes.
pub(crate) fn block_end(from: usize, len: usize) -> usize
    requires { from ≤ len }
    ensures within { result ≤ len }
    ensures forward { from ≤ result }
    ensures few { result ≤ from + 4096 }
    ensures whole { result < from + 4096 → result ≡ len }
{
    if len - from < BLOCK {
        len
    } else {
        from + BLOCK
    }
}

/// Writes the bytes of a store without an offset on an empty disk, and syncs.
pub(crate) fn start<D: Disk>(disk: &mut D, bytes: &[u8]) -> Result<(), Failed>
    requires { bytes.now ≡ empty_store }
    ensures stored { D.seen disk.old ≡ Some [] → OnOk result
        ((D.seen disk.new ≡ Some empty_store) × IsOnly empty_store (D.may_leave disk.new)) }
    ensures crash { Follows (Torn 0 20) (D.may_leave disk.old) (D.may_leave disk.new) }
    ensures longest { (new : List ℕ) → D.seen disk.old ≡ Some [] → D.seen disk.new ≡ Some new →
        length new ≤ 20 }
    ensures cause { FailsOnlyIfCounted (IsErr result) (D.faults disk.old) (D.faults disk.new) }
    ensures steady { (old : List ℕ) → D.seen disk.old ≡ Some old →
        OnOk result (D.faults disk.new ≡ D.faults disk.old) }
{
    disk.write_at(0, bytes)?;
    disk.sync()
}

// Writes the content into the slot, by one write for each block.
fn write_content<D: Disk>(disk: &mut D, slot: u64, content: &[u8]) -> Result<(), Failed>
    requires slot { slot < 2 }
    requires short { length content.now ≤ offset_limit + 4 }
    ensures keeps { (old : List ℕ) → D.seen disk.old ≡ Some old →
        (new : List ℕ) × (D.seen disk.new ≡ Some new) × KeepsOutsideSlot slot old new }
    ensures grows { (old new : List ℕ) → D.seen disk.old ≡ Some old → D.seen disk.new ≡ Some new →
        length new ≤ max (length old) (content_end (length content.now)) }
    ensures crash { Follows (KeepsOutsideSlot slot) (D.may_leave disk.old) (D.may_leave disk.new) }
    ensures written { (old : List ℕ) → D.seen disk.old ≡ Some old →
        OnOk result ((new : List ℕ) × (D.seen disk.new ≡ Some new) ×
        KeepsOutsideSlot slot old new × HasSlotContent new slot content.now) }
    ensures cause { FailsOnlyIfCounted (IsErr result) (D.faults disk.old) (D.faults disk.new) }
    ensures steady { (old : List ℕ) → D.seen disk.old ≡ Some old →
        OnOk result (D.faults disk.new ≡ D.faults disk.old) }
{
    let mut block: usize = 0;
    'each: while block * BLOCK < content.len() {
        let from = block * BLOCK;
        let upto = block_end(from, content.len());
        disk.write_at(16 + 8192 * block as u64 + 4096 * slot, &content[from..upto])?;
        block += 1;
    }
    Ok(())
}

// Writes the slot's number over the selector, and syncs.
fn select<D: Disk>(disk: &mut D, slot: u64) -> Result<(), Failed>
    requires { slot < 2 }
    ensures crash { Follows (Torn 8 1) (D.may_leave disk.old) (D.may_leave disk.new) }
    ensures told { (old : List ℕ) → D.seen disk.old ≡ Some old → (new : List ℕ) ×
        (D.seen disk.new ≡ Some new) × Torn 8 1 old new }
    ensures selected { (old : List ℕ) → D.seen disk.old ≡ Some old → OnOk result
        ((D.seen disk.new ≡ Some (written old 8 (slot ∷ []))) ×
        IsOnly (written old 8 (slot ∷ [])) (D.may_leave disk.new)) }
    ensures cause { FailsOnlyIfCounted (IsErr result) (D.faults disk.old) (D.faults disk.new) }
    ensures steady { (old : List ℕ) → D.seen disk.old ≡ Some old →
        OnOk result (D.faults disk.new ≡ D.faults disk.old) }
{
    disk.write_at(8, &[slot as u8])?;
    disk.sync()
}

/// Writes the content into the slot that isn't selected, syncs, and selects it. Until the selector
/// is synced, and after a fault, a crash leaves the old entry or the new one.
pub(crate) fn write_slot<D: Disk>(disk: &mut D, slot: u64, content: &[u8]) -> Result<(), Failed>
    requires slot { slot < 2 }
    requires short { length content.now ≤ offset_limit + 4 }
    ensures stored { (bytes old entry : List ℕ) → D.seen disk.old ≡ Some bytes →
        HasSelectedEntry bytes (1 - slot) old → content.now ≡ slot_content entry →
        OnOk result ((new : List ℕ) × (D.seen disk.new ≡ Some new) ×
        IsOnly new (D.may_leave disk.new) × HasSelectedEntry new slot entry) }
    ensures left { (bytes old entry crashed : List ℕ) → D.seen disk.old ≡ Some bytes →
        IsOnly bytes (D.may_leave disk.old) → HasSelectedEntry bytes (1 - slot) old →
        content.now ≡ slot_content entry → D.may_leave disk.new crashed →
        HasSelectedEntry crashed (1 - slot) old ⊎ HasSelectedEntry crashed slot entry }
    ensures grows { (old new : List ℕ) → D.seen disk.old ≡ Some old → D.seen disk.new ≡ Some new →
        length new ≤ max (length old) (content_end (length content.now)) }
    ensures told { (old : List ℕ) → D.seen disk.old ≡ Some old →
        (new : List ℕ) × (D.seen disk.new ≡ Some new) }
    ensures cause { FailsOnlyIfCounted (IsErr result) (D.faults disk.old) (D.faults disk.new) }
    ensures steady { (old : List ℕ) → D.seen disk.old ≡ Some old →
        OnOk result (D.faults disk.new ≡ D.faults disk.old) }
{
    write_content(disk, slot, content)?;
    disk.sync()?;
    select(disk, slot)
}
