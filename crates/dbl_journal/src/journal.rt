ghost use Rattle.std.specs.Prelude.{◌≡◌, ◌≢◌, ◌⊎◌, ◌↔◌, ℕ, ◌+◌, ◌<◌, ◌≤◌, ◌++◌, List};
ghost use Rattle.std.specs.Prelude.{[], ◌∷◌, length, drop, max, Some, IsTrue, IfOk};
ghost use Rattle.std.specs.Prelude.{IfErr, OnOk, OnErr, MatchResult, slice_get};
ghost use Rattle.dbl_base.specs.Streams.{FailsOnlyIfCounted, incremented};
ghost use Rattle.dbl_disk.specs.Disks.{Follows, IsOnly, Torn, disk_limit};
ghost use Rattle.dbl_journal.specs.Form.{IsFaultAt, IsJournal, entry_limit};
ghost use Rattle.dbl_journal.specs.Growth.{ExtendsJournal};
ghost use Rattle.dbl_journal.specs.Stored.{IsSteady, LeavesEntries, Lists, count_of, size};
ghost use Rattle.dbl_journal.specs.Calls.{Keeps, Makes, PutLeaves, WasCalled};

use crate::JournalError;
use crate::appending::{entry_after_room, frame_entry, set_commit_byte, start, write_entry};
use crate::scanning::scan;
use dbl_base::{Bytes, Failed};
use dbl_disk::{Disk, Extent, Refused};
use std::alloc::Global;
use std::marker::Model;

/// The maximum length of an entry in bytes: 2^28.
pub const ENTRY_LIMIT: usize = 1 << 28;

/// The number of bytes before the entry in a buffer passed to `append_built`, which receive the
/// entry's length.
pub const ENTRY_ROOM: usize = 4;

pub(crate) const MAGIC: [u8; 8] = *b"DBLJRNL1";

/// A list of entries on a disk. A crash during an append leaves the list with or without the entry.
///
/// The disk contains the bytes `DBLJRNL1`, then for each entry a commit byte of 1, the length in
/// four bytes, big-endian, and the entry's bytes. After the last entry is an unset commit byte: any
/// byte but 1.
#[derive(Drop)]
pub struct Journal<D: Disk> {
    disk: D,
    gate: u64,
    places: Vec<Extent>,
    live: bool,
}

impl<D: Disk> Model for Journal<D> {
    ghost use Rattle.dbl_journal.specs.Stored.{IsPlaced, OnDisk};

    ghost Value = { OnDisk D };

    ghost view = { λ j.
        record { disk = j.disk; gate = j.gate; places = j.places.items; live = j.live } };

    ghost invariant = { λ j. IsPlaced D.Disk j.disk j.gate j.places.items j.live };
}

impl<D: Disk> Journal<D> {
    /// Makes an empty journal on an empty disk by a write and a sync. The allocator is for the
    /// index of entries; this call takes no memory.
    pub fn make(alloc: Global, mut disk: D) -> Result<Journal<D>, Refused<D, JournalError>>
        requires { (bytes : List ℕ) → D.seen disk ≡ Some bytes → bytes ≡ [] }
        ensures made { D.seen disk ≡ Some [] →
            IfOk result (λ journal. Lists D.Disk journal []) }
        ensures live { IfOk result (λ journal. IsTrue journal.live) }
        ensures count { IfOk result (λ journal. count_of journal ≡ 0) }
        ensures calls { IfOk result (λ journal. WasCalled D.Disk 2 disk journal.disk) }
        ensures refused { IfErr result (λ refused. refused.error ≡ JournalError.Failed) }
        ensures left { IfErr result
            (λ refused. Follows (Torn 0 9) (D.may_leave disk) (D.may_leave refused.disk)) }
        ensures makes { MatchResult result
            (λ journal. Makes D.Disk (size []) ⊥ disk journal.disk)
            (λ refused. Makes D.Disk (size [])
            (refused.error ≡ JournalError.Failed) disk refused.disk) }
    {
        match start(&mut disk, b"DBLJRNL1\0") {
            Ok(()) => Ok(Journal {
                disk,
                gate: 8,
                places: Vec::new(alloc),
                live: true,
            }),
            Err(Failed) => Err(Refused {
                disk,
                error: JournalError::Failed,
            }),
        }
    }

    /// Opens the journal on the disk, as a crash may have left it: a sync, and then a few bytes of
    /// each entry are read. A crash then leaves exactly the disk's contents, if they are known and
    /// the first call didn't fail. It stops at the first failed call.
    pub fn open(alloc: Global, mut disk: D) -> Result<Journal<D>, Refused<D, JournalError>>
        ensures opened { (bytes : List ℕ) → D.seen disk ≡ Some bytes →
            IfOk result (λ journal. (entries : List (List ℕ)) × IsJournal bytes entries ×
            Lists D.Disk journal entries) }
        ensures refused { (bytes : List ℕ) → D.seen disk ≡ Some bytes →
            IfErr result (λ refused. (at : ℕ) → refused.error ≡ JournalError.NotAJournal at →
            IsFaultAt bytes at) }
        ensures stable { (bytes : List ℕ) → D.seen disk ≡ Some bytes →
            IfErr result (λ refused. refused.error ≢ JournalError.Failed →
            IsOnly bytes (D.may_leave refused.disk)) }
        ensures first { (bytes : List ℕ) (calls : ℕ) → D.seen disk ≡ Some bytes →
            D.calls disk ≡ Some calls →
            IfErr result (λ refused. D.calls refused.disk ≢ Some (incremented calls) →
            IsOnly bytes (D.may_leave refused.disk)) }
        ensures live { IfOk result (λ journal. IsTrue journal.live) }
        ensures short { IfErr result
            (λ refused. (len : ℕ) → refused.error ≢ JournalError.EntryTooLong len) }
        ensures keeps { MatchResult result
            (λ journal. Keeps D.Disk ⊥ disk journal.disk)
            (λ refused. Keeps D.Disk (refused.error ≡ JournalError.Failed) disk refused.disk) }
    {
        match scan(alloc, &mut disk) {
            Ok(found) => Ok(Journal {
                disk,
                gate: found.gate,
                places: found.places,
                live: true,
            }),
            Err(error) => Err(Refused { disk, error }),
        }
    }

    /// Appends an entry: a write and a sync after the unset commit byte, then a write and a sync of
    /// that byte. After `Failed` the journal isn't live; the other errors come before the first
    /// disk call.
    pub fn append(&mut self, alloc: Global, entry: &[u8]) -> Result<(), JournalError>
        requires { IsTrue self.old.live }
        ensures added { (entries : List (List ℕ)) → Lists D.Disk self.old entries →
            OnOk result (Lists D.Disk self.new (entries ++ entry.now ∷ [])) }
        ensures left { (entries : List (List ℕ)) → Lists D.Disk self.old entries →
            LeavesEntries D.Disk self.new.disk (λ left. (left ≡ entries) ⊎
            (left ≡ entries ++ entry.now ∷ [])) }
        ensures grows { (entries : List (List ℕ)) (old new : List ℕ) →
            Lists D.Disk self.old entries → D.seen self.old.disk ≡ Some old →
            D.seen self.new.disk ≡ Some new →
            length new ≤ max (length old) (size (entries ++ entry.now ∷ [])) }
        ensures comes { ExtendsJournal D.Disk self.old self.new }
        ensures puts { PutLeaves D.Disk (result ≡ Err JournalError.Failed) self.old self.new }
        ensures live { OnOk result (IsTrue self.new.live) }
        ensures count { OnOk result (count_of self.new ≡ count_of self.old + 1) }
        ensures calls { OnOk result (WasCalled D.Disk 4 self.old.disk self.new.disk) }
        ensures too_long { (len : ℕ) → (result ≡ Err (JournalError.EntryTooLong len)) ↔
            ((entry_limit < length entry.now) × (len ≡ length entry.now)) }
        ensures journal { (at : ℕ) → result ≢ Err (JournalError.NotAJournal at) }
        ensures unchanged { OnErr result (result ≢ Err JournalError.Failed → self.new ≡ self.old) }
    {
        if entry.len() > ENTRY_LIMIT {
            return Err(JournalError::EntryTooLong {
                len: entry.len() as u64,
            });
        }
        let bytes = entry_after_room(alloc, entry)?;
        self.append_built(bytes)
    }

    /// Appends the entry after the first `ENTRY_ROOM` bytes of the buffer, of any value, as
    /// `append` does but without copying it. The buffer grows by a byte.
    pub fn append_built(&mut self, mut bytes: Vec<u8>) -> Result<(), JournalError>
        requires live { IsTrue self.old.live }
        requires room { 4 ≤ length bytes.items }
        ensures added { (entries : List (List ℕ)) → Lists D.Disk self.old entries →
            OnOk result (Lists D.Disk self.new (entries ++ drop 4 bytes.items ∷ [])) }
        ensures left { (entries : List (List ℕ)) → Lists D.Disk self.old entries →
            LeavesEntries D.Disk self.new.disk (λ left. (left ≡ entries) ⊎
            (left ≡ entries ++ drop 4 bytes.items ∷ [])) }
        ensures grows { (entries : List (List ℕ)) (old new : List ℕ) →
            Lists D.Disk self.old entries → D.seen self.old.disk ≡ Some old →
            D.seen self.new.disk ≡ Some new →
            length new ≤ max (length old) (size (entries ++ drop 4 bytes.items ∷ [])) }
        ensures comes { ExtendsJournal D.Disk self.old self.new }
        ensures puts { PutLeaves D.Disk (result ≡ Err JournalError.Failed) self.old self.new }
        ensures live { OnOk result (IsTrue self.new.live) }
        ensures count { OnOk result (count_of self.new ≡ count_of self.old + 1) }
        ensures calls { OnOk result (WasCalled D.Disk 4 self.old.disk self.new.disk) }
        ensures too_long { (len : ℕ) → (result ≡ Err (JournalError.EntryTooLong len)) ↔
            ((entry_limit < length (drop 4 bytes.items)) × (len ≡ length (drop 4 bytes.items))) }
        ensures journal { (at : ℕ) → result ≢ Err (JournalError.NotAJournal at) }
        ensures unchanged { OnErr result (result ≢ Err JournalError.Failed → self.new ≡ self.old) }
    {
        let len = (bytes.len() - ENTRY_ROOM) as u64;
        if len > ENTRY_LIMIT as u64 {
            return Err(JournalError::EntryTooLong { len });
        }
        frame_entry(&mut bytes)?;
        self.places.push(Extent {
            at: self.gate + 5,
            length: len,
        })?;
        self.live = false;
        write_entry(&mut self.disk, self.gate, &bytes)?;
        set_commit_byte(&mut self.disk, self.gate)?;
        self.gate += bytes.len() as u64;
        self.live = true;
        Ok(())
    }

    /// Reads the entry with this number, counted from 0, and no other. The journal stays live.
    pub fn entry(&mut self, alloc: Global, number: u64) -> Result<Bytes, JournalError>
        requires live { IsTrue self.old.live }
        requires within { number < count_of self.old }
        ensures found { (entries : List (List ℕ)) → Lists D.Disk self.old entries →
            IfOk result (λ bytes. slice_get entries number ≡ Some bytes) }
        ensures lists { (entries : List (List ℕ)) → Lists D.Disk self.old entries →
            Lists D.Disk self.new entries }
        ensures same { self.new ≡ record self.old { disk = self.new.disk } }
        ensures seen { D.seen self.new.disk ≡ D.seen self.old.disk }
        ensures crash { (crashed : List ℕ) → D.may_leave self.new.disk crashed ↔
            D.may_leave self.old.disk crashed }
        ensures cause { FailsOnlyIfCounted (result ≡ Err JournalError.Failed)
            (D.faults self.old.disk) (D.faults self.new.disk) }
        ensures journal { (at : ℕ) → result ≢ Err (JournalError.NotAJournal at) }
        ensures short { (len : ℕ) → result ≢ Err (JournalError.EntryTooLong len) }
        ensures steady { result ≢ Err JournalError.Failed →
            IsSteady D.Disk self.old.disk self.new.disk }
        ensures calls { OnOk result (WasCalled D.Disk 1 self.old.disk self.new.disk) }
    {
        let place = self.places[number as usize];
        let mut bytes = vec![in alloc; 0u8; place.length as usize]?;
        self.disk.read_at(place.at, &mut bytes)?;
        Ok(Bytes::make(bytes))
    }

    /// The number of entries.
    pub fn count(&self) -> u64
        requires { IsTrue self.now.live }
        ensures count { result ≡ count_of self.now }
        ensures few { result < disk_limit }
    {
        self.places.len() as u64
    }

    /// Whether the journal is usable, that is no append has ended with `Failed`.
    pub fn is_live(&self) -> bool
        ensures { result ≡ self.now.live }
    {
        self.live
    }

    /// Unwraps the disk in its current state, without a disk call.
    pub fn into_disk(self) -> D
        ensures { result ≡ self.disk }
    {
        let Journal {
            disk,
            gate: _,
            places: _,
            live: _,
        } = self;
        disk
    }
}
