//! Theorems about logs of workloads. The functions do nothing: their contracts are the theorems.

ghost use Rattle.std.specs.Prelude.{◌≡◌, ℕ, List};
ghost use Rattle.dbl_journal.specs.Form.{IsFaultAt};
ghost use Rattle.dbl_demo_wal.specs.Contents.{GoodScriptsHaveFewTables, ScriptsAreFilled};
ghost use Rattle.dbl_demo_wal.specs.SoundLaws.{CommitsStay, SoundLogsRelease, SoundWalsAreSerial};
ghost use Rattle.dbl_demo_wal.specs.SoundLaws.{SoundWalsGoOn, WalsAreFair, WalsAreFit};
ghost use Rattle.dbl_demo_wal.specs.SoundLaws.{WalsAreReadOnce, WalsHaveFitHistories};
ghost use Rattle.dbl_demo_wal.specs.SoundLaws.{WorkloadsAreInRange, WorkloadsAreReadOnce};
ghost use Rattle.dbl_demo_wal.specs.Wals.{HasBadWalEntry, IsWal, Wal};

/// Bytes encode one workload at most, and one log of it.
pub fn wals_are_read_once()
    ensures workload { WorkloadsAreReadOnce }
    ensures wal { WalsAreReadOnce }
{}

/// Bytes are at most one of these: a source's log, no journal, a journal with one first bad entry.
pub fn wals_or_faults()
    ensures no_fault { (bytes : List ℕ) (wal : Wal) (at : ℕ) → IsWal bytes wal →
        ¬ IsFaultAt bytes at }
    ensures not_bad { (bytes : List ℕ) (wal : Wal) (index : ℕ) → IsWal bytes wal →
        ¬ HasBadWalEntry bytes index }
    ensures not_both { (bytes : List ℕ) (at index : ℕ) → IsFaultAt bytes at →
        ¬ HasBadWalEntry bytes index }
    ensures one_bad { (bytes : List ℕ) (first second : ℕ) → HasBadWalEntry bytes first →
        HasBadWalEntry bytes second → first ≡ second }
{}

/// The commits of a log without its watermarks are the serial run of its steps.
pub fn sound_wals_are_serial()
    ensures { SoundWalsAreSerial }
{}

/// A log with one more entry that may follow is a log again.
pub fn sound_wals_go_on()
    ensures { SoundWalsGoOn }
{}

/// More steps remove no commit.
pub fn commits_stay()
    ensures { CommitsStay }
{}

/// Running more steps keeps a log sound.
pub fn sound_logs_release()
    ensures { SoundLogsRelease }
{}

/// A script has short names of columns, UTF-8 texts, and truncates that name tables; one with no
/// bad line has at most 64 tables, of different names.
pub fn workloads_are_filled()
    ensures filled { ScriptsAreFilled }
    ensures few { GoodScriptsHaveFewTables }
{}

/// A workload's tables can be described, and its cells have UTF-8 texts.
pub fn workloads_are_in_range()
    ensures { WorkloadsAreInRange }
{}

/// The log of every workload is valid, and so is its history.
pub fn wals_are_fit()
    ensures log { WalsAreFit }
    ensures history { WalsHaveFitHistories }
{}

/// A reader of a source's log reads its history.
pub fn wals_are_fair()
    ensures { WalsAreFair }
{}
