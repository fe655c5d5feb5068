//! Theorems about entries. The functions do nothing: their contracts are the theorems.

ghost use Rattle.std.specs.Prelude.{◌≡◌, ℕ, List};
ghost use Rattle.dbl_demo_wal.specs.declared.entry.Entry.{Entry};
ghost use Rattle.dbl_demo_wal.specs.Entries.{FitsWalEntry, IsWalEntry, EncodesEntry};
ghost use Rattle.dbl_demo_wal.specs.Entries.{entry_form, workload_form};

/// Bytes encode one entry at most, and each valid entry has an encoding.
pub fn entries_are_read_once()
    ensures one { (bytes : List ℕ) (first second : Entry) → EncodesEntry bytes first →
        EncodesEntry bytes second → first ≡ second }
    ensures spelled { (entry : Entry) → FitsWalEntry entry → EncodesEntry (entry_form entry) entry }
{}

/// A log's first entry is of one workload, and encodes no other entry.
pub fn workloads_are_told_apart()
    ensures one { (first second : List ℕ) → workload_form first ≡ workload_form second →
        first ≡ second }
    ensures apart { (workload : List ℕ) → ¬ IsWalEntry (workload_form workload) }
{}
