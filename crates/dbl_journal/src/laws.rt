//! Theorems about journals; the functions have empty bodies.

ghost use Rattle.std.specs.Prelude.{◌≡◌, ◌⊎◌, ◌++◌, ◌∷◌, [], ℕ, List, length};
ghost use Rattle.dbl_journal.specs.Form.{IsFaultAt, IsJournal};
ghost use Rattle.dbl_journal.specs.Stored.{LeavesEntries, Lists, MayLeaveEntries, OnDisk, count_of};

use dbl_disk::Disk;

/// Bytes are a journal of at most one list of entries.
pub fn journals_are_read_once()
    ensures { (bytes : List ℕ) (first second : List (List ℕ)) → IsJournal bytes first →
        IsJournal bytes second → first ≡ second }
{}

/// Bytes are never both a journal and invalid, and the offset at which they are invalid is unique.
pub fn journals_or_faults()
    ensures not_both { (bytes : List ℕ) (entries : List (List ℕ)) (at : ℕ) →
        IsJournal bytes entries → ¬ IsFaultAt bytes at }
    ensures one_fault { (bytes : List ℕ) (first second : ℕ) → IsFaultAt bytes first →
        IsFaultAt bytes second → first ≡ second }
{}

/// A journal has at most one list of entries, of known count; a crash leaves exactly that list, or,
/// during an append, that list with or without the entry.
pub fn lists_are_one<D: Disk>()
    ensures one { (journal : OnDisk D) (first second : List (List ℕ)) →
        Lists D.Disk journal first → Lists D.Disk journal second → first ≡ second }
    ensures counted { (journal : OnDisk D) (entries : List (List ℕ)) →
        Lists D.Disk journal entries → count_of journal ≡ length entries }
    ensures left { (journal : OnDisk D) (entries left : List (List ℕ)) →
        Lists D.Disk journal entries → MayLeaveEntries D.Disk journal.disk left → left ≡ entries }
    ensures listed { (journal : OnDisk D) (entries : List (List ℕ)) →
        Lists D.Disk journal entries → MayLeaveEntries D.Disk journal.disk entries }
    ensures one_of { (disk : D) (entries left : List (List ℕ)) (entry : List ℕ) →
        LeavesEntries D.Disk disk (λ l. (l ≡ entries) ⊎ (l ≡ entries ++ entry ∷ [])) →
        MayLeaveEntries D.Disk disk left → (left ≡ entries) ⊎ (left ≡ entries ++ entry ∷ []) }
{}
