ghost use Rattle.std.specs.Prelude.{◌≡◌, ◌≢◌, ◌↔◌, ℕ, ◌+◌, ◌^◌, ◌<◌, ◌≤◌, ◌++◌};
ghost use Rattle.std.specs.Prelude.{List, [], ◌∷◌, length, take, drop, slice_index};
ghost use Rattle.std.specs.Prelude.{Some, IfOk, IfSome, IfNone, OnOk};
ghost use Rattle.std.specs.Int.{to_be_bytes, w32};
ghost use Rattle.dbl_base.specs.Streams.{FailsOnlyIfCounted, incremented};
ghost use Rattle.dbl_disk.specs.Disks.{IsOnly, disk_limit};
ghost use Rattle.dbl_journal.specs.Form.{IsBroken, IsFaultAt, IsJournal, up_to_gate, magic};
ghost use Rattle.dbl_journal.specs.Steps.{AreRead, IsStep};
ghost use Rattle.dbl_journal.specs.Stored.{places_from};

use crate::JournalError;
use crate::journal::{ENTRY_LIMIT, MAGIC};
use dbl_disk::{Disk, Extent};
use std::alloc::Global;

// The offset of the unset commit byte, and the extent of each entry.
#[derive(Drop)]
pub(crate) struct Found {
    pub(crate) gate: u64,
    pub(crate) places: Vec<Extent>,
}

// The number of leading bytes that agree with the magic.
#[tactic(auto, unfolding(crate::specs::Form::magic))]
fn matching(bytes: &[u8]) -> u64
    ensures within { result ≤ 8 }
    ensures same { take result bytes.now ≡ take result magic }
    ensures differs { result < 8 → take (result + 1) bytes.now ≢ take (result + 1) magic }
{
    let mut count = 0;
    'bytes: while count < MAGIC.len() && count < bytes.len() && bytes[count] == MAGIC[count] {
        count += 1;
    }
    count as u64
}

// The length after a set commit byte.
fn open_length(head: &[u8]) -> Option<u32>
    requires { length head.now ≡ 5 }
    ensures open { IfSome result (λ n. head.now ≡ 1 ∷ to_be_bytes w32 n) }
    ensures fits { IfSome result (λ n. n < 2 ^ 32) }
    ensures closed { IfNone result (slice_index head.now 0 ≢ 1) }
{
    if head[0] != 1 {
        return None;
    }
    Some(u32::from_be_bytes([head[1], head[2], head[3], head[4]]))
}

// One step over the entries: the extent of the next one, or none at an unset commit byte.
fn next_place<D: Disk>(disk: &mut D, gate: u64, total: u64) -> Result<Option<Extent>, JournalError>
    requires small { total < disk_limit }
    requires within { gate ≤ total }
    ensures step { (bytes : List ℕ) → D.seen disk.old ≡ Some bytes → total ≡ length bytes →
        IfOk result (λ place. IsStep bytes gate place) }
    ensures broken { (bytes : List ℕ) (at : ℕ) → D.seen disk.old ≡ Some bytes →
        total ≡ length bytes → result ≡ Err (JournalError.NotAJournal at) → (at ≡ gate) ×
        IsBroken (drop gate bytes) }
    ensures forward { IfOk result
        (λ place. IfSome place (λ p. (p.at ≡ gate + 5) × (p.at + p.length ≤ total))) }
    ensures seen { D.seen disk.new ≡ D.seen disk.old }
    ensures crash { (crashed : List ℕ) →
        D.may_leave disk.new crashed ↔ D.may_leave disk.old crashed }
    ensures cause { FailsOnlyIfCounted (result ≡ Err JournalError.Failed)
        (D.faults disk.old) (D.faults disk.new) }
    ensures short { (len : ℕ) → result ≢ Err (JournalError.EntryTooLong len) }
    ensures steady { (bytes : List ℕ) → D.seen disk.old ≡ Some bytes →
        result ≢ Err JournalError.Failed → D.faults disk.new ≡ D.faults disk.old }
{
    let mut head = [0u8; 5];
    let got = disk.read_at(gate, &mut head)?;
    if got == 0 {
        return Err(JournalError::NotAJournal { at: gate });
    }
    let Some(length) = open_length(&head) else {
        return Ok(None);
    };
    let length = length as u64;
    if got < 5 || length > ENTRY_LIMIT as u64 || length + 5 > total - gate {
        return Err(JournalError::NotAJournal { at: gate });
    }
    Ok(Some(Extent {
        at: gate + 5,
        length,
    }))
}

fn read_magic<D: Disk>(disk: &mut D) -> Result<(), JournalError>
    ensures right { (bytes : List ℕ) → D.seen disk.old ≡ Some bytes →
        OnOk result (bytes ≡ magic ++ drop 8 bytes) }
    ensures wrong { (bytes : List ℕ) (at : ℕ) → D.seen disk.old ≡ Some bytes →
        result ≡ Err (JournalError.NotAJournal at) → IsFaultAt bytes at }
    ensures seen { D.seen disk.new ≡ D.seen disk.old }
    ensures crash { (crashed : List ℕ) →
        D.may_leave disk.new crashed ↔ D.may_leave disk.old crashed }
    ensures cause { FailsOnlyIfCounted (result ≡ Err JournalError.Failed)
        (D.faults disk.old) (D.faults disk.new) }
    ensures short { (len : ℕ) → result ≢ Err (JournalError.EntryTooLong len) }
    ensures steady { (bytes : List ℕ) → D.seen disk.old ≡ Some bytes →
        result ≢ Err JournalError.Failed → D.faults disk.new ≡ D.faults disk.old }
{
    let mut head = [0u8; 8];
    let got = disk.read_at(0, &mut head)?;
    let at = matching(&head[..got]);
    if at < 8 {
        return Err(JournalError::NotAJournal { at });
    }
    Ok(())
}

// Scans the entries after the magic.
fn read_places<D: Disk>(alloc: Global, disk: &mut D, total: u64) -> Result<Found, JournalError>
    requires { total < disk_limit }
    ensures read { (bytes : List ℕ) → D.seen disk.old ≡ Some bytes → total ≡ length bytes →
        bytes ≡ magic ++ drop 8 bytes → IfOk result
        (λ found. (entries : List (List ℕ)) × IsJournal bytes entries ×
        (found.gate ≡ length (up_to_gate entries)) × (found.places.items ≡ places_from 8 entries)) }
    ensures broken { (bytes : List ℕ) (at : ℕ) → D.seen disk.old ≡ Some bytes →
        total ≡ length bytes → bytes ≡ magic ++ drop 8 bytes →
        result ≡ Err (JournalError.NotAJournal at) → IsFaultAt bytes at }
    ensures inside { IfOk result (λ found. found.gate ≤ total) }
    ensures few { IfOk result (λ found. length found.places.items ≤ found.gate) }
    ensures seen { D.seen disk.new ≡ D.seen disk.old }
    ensures crash { (crashed : List ℕ) →
        D.may_leave disk.new crashed ↔ D.may_leave disk.old crashed }
    ensures cause { FailsOnlyIfCounted (result ≡ Err JournalError.Failed)
        (D.faults disk.old) (D.faults disk.new) }
    ensures short { (len : ℕ) → result ≢ Err (JournalError.EntryTooLong len) }
    ensures steady { (bytes : List ℕ) → D.seen disk.old ≡ Some bytes →
        result ≢ Err JournalError.Failed → D.faults disk.new ≡ D.faults disk.old }
{
    if total < 8 {
        return Err(JournalError::NotAJournal { at: total });
    }
    let mut places = Vec::new(alloc);
    let mut gate: u64 = 8;
    'entries: while let Some(place) = next_place(disk, gate, total)? {
        places.push(place)?;
        gate = place.at + place.length;
    }
    Ok(Found { gate, places })
}

// Finds the entries that a crash may have left. It syncs first, so from then on a crash leaves
// exactly what was found.
pub(crate) fn scan<D: Disk>(alloc: Global, disk: &mut D) -> Result<Found, JournalError>
    ensures read { (bytes : List ℕ) → D.seen disk.old ≡ Some bytes →
        IfOk result (λ found. (entries : List (List ℕ)) × IsJournal bytes entries ×
        (found.gate ≡ length (up_to_gate entries)) × (found.places.items ≡ places_from 8 entries)) }
    ensures only { (bytes : List ℕ) → D.seen disk.old ≡ Some bytes →
        result ≢ Err JournalError.Failed → IsOnly bytes (D.may_leave disk.new) }
    ensures first { (bytes : List ℕ) (calls : ℕ) → D.seen disk.old ≡ Some bytes →
        D.calls disk.old ≡ Some calls → D.calls disk.new ≢ Some (incremented calls) →
        IsOnly bytes (D.may_leave disk.new) }
    ensures broken { (bytes : List ℕ) (at : ℕ) → D.seen disk.old ≡ Some bytes →
        result ≡ Err (JournalError.NotAJournal at) → IsFaultAt bytes at }
    ensures small { IfOk result (λ found. found.gate < disk_limit) }
    ensures few { IfOk result (λ found. length found.places.items ≤ found.gate) }
    ensures seen { D.seen disk.new ≡ D.seen disk.old }
    ensures crash { (crashed : List ℕ) →
        D.may_leave disk.new crashed → D.may_leave disk.old crashed }
    ensures cause { FailsOnlyIfCounted (result ≡ Err JournalError.Failed)
        (D.faults disk.old) (D.faults disk.new) }
    ensures short { (len : ℕ) → result ≢ Err (JournalError.EntryTooLong len) }
    ensures steady { (bytes : List ℕ) → D.seen disk.old ≡ Some bytes →
        result ≢ Err JournalError.Failed → D.faults disk.new ≡ D.faults disk.old }
{
    disk.sync()?;
    let total = disk.len()?;
    read_magic(disk)?;
    read_places(alloc, disk, total)
}
