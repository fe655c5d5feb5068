//! Theorems about topic logs; the functions have empty bodies.

ghost use Rattle.std.specs.Prelude.{◌≡◌, ◌⊎◌, ◌+◌, ◌≤◌, ◌++◌, ◌∷◌, []};
ghost use Rattle.std.specs.Prelude.{ℕ, Some, IsTrue, List, length, max};
ghost use Rattle.dbl_journal.specs.Form.{IsFaultAt, IsJournal, up_to_gate};
ghost use Rattle.dbl_journal.specs.Stored.{OnDisk, count_of, size};
ghost use Rattle.dbl_record.specs.declared.record.Record.{Record};
ghost use Rattle.dbl_topic.specs.Held.{ExtendsTopics, HoldsGroups, LeavesGroups, MayLeaveGroups};
ghost use Rattle.dbl_topic.specs.Logs.{HasBadEntry, HoldRecords, IsLog, log_size};
ghost use Rattle.dbl_topic.specs.Sinks.{IsLeftByWhole};
ghost use Rattle.dbl_journal.specs.Growth.{growth_room};

use dbl_disk::Disk;

/// Bytes are a topic log of at most one list of groups, and contain at most one list of records.
pub fn logs_are_read_once()
    ensures groups { (bytes : List ℕ) (first second : List (List Record)) → IsLog bytes first →
        IsLog bytes second → first ≡ second }
    ensures records { (bytes : List ℕ) (first second : List Record) → HoldRecords bytes first →
        HoldRecords bytes second → first ≡ second }
{}

/// Bytes are at most one of: a topic log, a journal with a bad entry, no journal. The first bad
/// entry is unique.
pub fn logs_or_faults()
    ensures not_bad { (bytes : List ℕ) (groups : List (List Record)) (index : ℕ) →
        IsLog bytes groups → ¬ HasBadEntry bytes index }
    ensures not_faulty { (bytes : List ℕ) (groups : List (List Record)) (at : ℕ) →
        IsLog bytes groups → ¬ IsFaultAt bytes at }
    ensures one_cause { (bytes : List ℕ) (index at : ℕ) → HasBadEntry bytes index →
        ¬ IsFaultAt bytes at }
    ensures one_entry { (bytes : List ℕ) (first second : ℕ) → HasBadEntry bytes first →
        HasBadEntry bytes second → first ≡ second }
{}

/// A topic log has at most one list of groups, of known count; a crash leaves exactly that list,
/// or, during an append, that list with or without the group.
pub fn held_groups_are_one<D: Disk>()
    ensures one { (log : OnDisk D) (first second : List (List Record)) →
        HoldsGroups D.Disk log first → HoldsGroups D.Disk log second → first ≡ second }
    ensures counted { (log : OnDisk D) (groups : List (List Record)) →
        HoldsGroups D.Disk log groups → count_of log ≡ length groups }
    ensures bytes { (log : OnDisk D) (groups : List (List Record)) →
        HoldsGroups D.Disk log groups → (bytes : List ℕ) ×
        (D.seen log.disk ≡ Some bytes) × IsLog bytes groups }
    ensures left { (log : OnDisk D) (groups left : List (List Record)) →
        HoldsGroups D.Disk log groups → MayLeaveGroups D.Disk log.disk left → left ≡ groups }
    ensures held { (log : OnDisk D) (groups : List (List Record)) →
        HoldsGroups D.Disk log groups → MayLeaveGroups D.Disk log.disk groups }
    ensures whole { (log : OnDisk D) (groups : List (List Record)) →
        HoldsGroups D.Disk log groups → LeavesGroups D.Disk log.disk (λ left. left ≡ groups) }
    ensures one_of { (disk : D) (groups left : List (List Record)) (group : List Record) →
        LeavesGroups D.Disk disk (IsLeftByWhole groups group) →
        MayLeaveGroups D.Disk disk left → IsLeftByWhole groups group left }
{}

/// A log that extends one with groups has known contents: a journal with at least as many valid
/// bytes as one of these groups, which grew to at most 2^30 bytes past its unset commit byte. If
/// usable it has a list of groups, and a crash leaves a topic log.
pub fn logs_come_of_logs<D: Disk>()
    ensures told { (old new : OnDisk D) (groups : List (List Record)) →
        ExtendsTopics D.Disk old new → HoldsGroups D.Disk old groups →
        (after : List ℕ) × (D.seen new.disk ≡ Some after) }
    ensures grown { (old new : OnDisk D) (groups : List (List Record)) (before after : List ℕ) →
        ExtendsTopics D.Disk old new → HoldsGroups D.Disk old groups →
        D.seen old.disk ≡ Some before → D.seen new.disk ≡ Some after →
        (entries : List (List ℕ)) × IsJournal after entries × (log_size groups ≤ size entries) ×
        (length after ≤ max (length before) (length (up_to_gate entries) + growth_room)) }
    ensures holds { (old new : OnDisk D) (groups : List (List Record)) →
        ExtendsTopics D.Disk old new → HoldsGroups D.Disk old groups →
        IsTrue new.live → (now : List (List Record)) × HoldsGroups D.Disk new now }
    ensures leaves { (old new : OnDisk D) (groups : List (List Record)) →
        ExtendsTopics D.Disk old new → HoldsGroups D.Disk old groups →
        LeavesGroups D.Disk new.disk (λ left. Unit {0}) }
{}
