ghost use Rattle.std.specs.Prelude.{◌≡◌, ◌⊎◌, ℕ, ◌+◌, ◌<◌, ◌≤◌, ◌++◌, List, [], ◌∷◌};
ghost use Rattle.std.specs.Prelude.{length, drop, max, Some, IfOk, OnOk, IsErr};
ghost use Rattle.std.specs.Int.{to_be_bytes, w32};
ghost use Rattle.dbl_base.specs.Streams.{FailsOnlyIfCounted};
ghost use Rattle.dbl_disk.specs.Disks.{Follows, IsOnly, Torn, disk_limit};
ghost use Rattle.dbl_journal.specs.Calls.{WasCalled};
ghost use Rattle.dbl_journal.specs.Form.{IsEntry, IsJournal, body, up_to_gate, entry_limit};
ghost use Rattle.dbl_journal.specs.Steps.{Stages};
ghost use Rattle.dbl_journal.specs.Stored.{LeavesEntries};

use crate::journal::ENTRY_ROOM;
use dbl_base::Failed;
use dbl_disk::Disk;
use std::alloc::{AllocError, Global};

// The entry after room for its length, with capacity for the next commit byte.
pub(crate) fn entry_after_room(alloc: Global, entry: &[u8]) -> Result<Vec<u8>, AllocError>
    requires { IsEntry entry.now }
    ensures entry { IfOk result (λ bytes. drop 4 bytes.items ≡ entry.now) }
    ensures room { IfOk result (λ bytes. 4 ≤ length bytes.items) }
{
    let mut bytes = Vec::with_capacity(alloc, ENTRY_ROOM + entry.len() + 1)?;
    bytes.extend_from_slice(&[0; ENTRY_ROOM])?;
    bytes.extend_from_slice(entry)?;
    Ok(bytes)
}

// Writes the entry's length into the room before it.
fn write_length(bytes: &mut [u8], len: u32)
    requires { 4 ≤ length bytes.old }
    ensures { bytes.new ≡ to_be_bytes w32 len ++ drop 4 bytes.old }
{
    bytes[..ENTRY_ROOM].copy_from_slice(&len.to_be_bytes());
}

// Frames an entry: writes its length into the room before it, and appends the next commit byte,
// unset.
pub(crate) fn frame_entry(bytes: &mut Vec<u8>) -> Result<(), AllocError>
    requires room { 4 ≤ length bytes.old.items }
    requires short { IsEntry (drop 4 bytes.old.items) }
    ensures bytes { OnOk result (bytes.new.items ≡ body (drop 4 bytes.old.items) ++ 0 ∷ []) }
    ensures long { OnOk result (length bytes.new.items ≡ length (drop 4 bytes.old.items) + 5) }
{
    let len = (bytes.len() - ENTRY_ROOM) as u32;
    bytes.push(0)?;
    write_length(bytes, len);
    Ok(())
}

// Writes the entry after the unset commit byte, and syncs. Until that, and after a fault, a crash
// leaves the same list.
pub(crate) fn write_entry<D: Disk>(disk: &mut D, gate: u64, bytes: &[u8]) -> Result<(), Failed>
    requires small { gate < disk_limit }
    requires short { length bytes.now ≤ entry_limit + 5 }
    requires there { (old : List ℕ) → D.seen disk.old ≡ Some old → gate < length old }
    ensures room { OnOk result (gate + 1 + length bytes.now < disk_limit) }
    ensures kept { (old : List ℕ) (entries : List (List ℕ)) → IsOnly old (D.may_leave disk.old) →
        IsJournal old entries → gate ≡ length (up_to_gate entries) →
        LeavesEntries D.Disk disk.new (λ left. left ≡ entries) }
    ensures staged { (old : List ℕ) (entries : List (List ℕ)) (entry : List ℕ) →
        D.seen disk.old ≡ Some old → IsOnly old (D.may_leave disk.old) → IsJournal old entries →
        gate ≡ length (up_to_gate entries) → bytes.now ≡ body entry ++ 0 ∷ [] →
        OnOk result (Stages D.Disk disk.new entries entry) }
    ensures reaches { (new : List ℕ) → D.seen disk.new ≡ Some new →
        OnOk result (gate + 1 + length bytes.now ≤ length new) }
    ensures told { (old : List ℕ) → D.seen disk.old ≡ Some old → (new : List ℕ) ×
        (D.seen disk.new ≡ Some new) }
    ensures longest { (old new : List ℕ) → D.seen disk.old ≡ Some old → D.seen disk.new ≡ Some new →
        length new ≤ max (length old) (gate + 1 + length bytes.now) }
    ensures cause { FailsOnlyIfCounted (IsErr result) (D.faults disk.old) (D.faults disk.new) }
    ensures steady { (old : List ℕ) → D.seen disk.old ≡ Some old →
        OnOk result (D.faults disk.new ≡ D.faults disk.old) }
    ensures calls { OnOk result (WasCalled D.Disk 2 disk.old disk.new) }
{
    disk.write_at(gate + 1, bytes)?;
    disk.sync()
}

// Sets the commit byte before a written entry. Until that is synced, and after a fault, a crash
// leaves the list with or without the entry.
pub(crate) fn set_commit_byte<D: Disk>(disk: &mut D, gate: u64) -> Result<(), Failed>
    requires { gate + 1 < disk_limit }
    ensures one_of { (entries : List (List ℕ)) (entry : List ℕ) →
        Stages D.Disk disk.old entries entry → gate ≡ length (up_to_gate entries) → IsEntry entry →
        LeavesEntries D.Disk disk.new (λ left. (left ≡ entries) ⊎ (left ≡ entries ++ entry ∷ [])) }
    ensures opened { (entries : List (List ℕ)) (entry : List ℕ) →
        Stages D.Disk disk.old entries entry → gate ≡ length (up_to_gate entries) → IsEntry entry →
        OnOk result ((new : List ℕ) × (D.seen disk.new ≡ Some new) ×
        IsOnly new (D.may_leave disk.new) × IsJournal new (entries ++ entry ∷ [])) }
    ensures told { (old : List ℕ) → D.seen disk.old ≡ Some old → (new : List ℕ) ×
        (D.seen disk.new ≡ Some new) }
    ensures longest { (old new : List ℕ) → D.seen disk.old ≡ Some old → D.seen disk.new ≡ Some new →
        length new ≤ max (length old) (gate + 1) }
    ensures reaches { (new : List ℕ) → D.seen disk.new ≡ Some new →
        OnOk result ((old : List ℕ) × (D.seen disk.old ≡ Some old) × (length old ≤ length new)) }
    ensures cause { FailsOnlyIfCounted (IsErr result) (D.faults disk.old) (D.faults disk.new) }
    ensures steady { (old : List ℕ) → D.seen disk.old ≡ Some old →
        OnOk result (D.faults disk.new ≡ D.faults disk.old) }
    ensures calls { OnOk result (WasCalled D.Disk 2 disk.old disk.new) }
{
    disk.write_at(gate, &[1])?;
    disk.sync()
}

// Writes the magic and an unset commit byte on an empty disk.
pub(crate) fn start<D: Disk>(disk: &mut D, bytes: &[u8]) -> Result<(), Failed>
    requires { bytes.now ≡ up_to_gate [] ++ 0 ∷ [] }
    ensures stored { D.seen disk.old ≡ Some [] → OnOk result ((new : List ℕ) ×
        (D.seen disk.new ≡ Some new) × IsOnly new (D.may_leave disk.new) × IsJournal new []) }
    ensures crash { Follows (Torn 0 9) (D.may_leave disk.old) (D.may_leave disk.new) }
    ensures reaches { (new : List ℕ) → D.seen disk.new ≡ Some new → OnOk result (9 ≤ length new) }
    ensures longest { (new : List ℕ) → D.seen disk.old ≡ Some [] → D.seen disk.new ≡ Some new →
        length new ≤ 9 }
    ensures cause { FailsOnlyIfCounted (IsErr result) (D.faults disk.old) (D.faults disk.new) }
    ensures steady { (old : List ℕ) → D.seen disk.old ≡ Some old →
        OnOk result (D.faults disk.new ≡ D.faults disk.old) }
    ensures calls { OnOk result (WasCalled D.Disk 2 disk.old disk.new) }
{
    disk.write_at(0, bytes)?;
    disk.sync()
}
