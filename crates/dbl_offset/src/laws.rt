//! Theorems about stores of offsets, as contracts of empty functions.

ghost use Rattle.std.specs.Prelude.{◌≡◌, ◌⊎◌, ℕ, ◌<◌, ◌≤◌, Option, Some, None, List, [], length};
ghost use Rattle.std.specs.Prelude.{max, slice_index};
ghost use Rattle.dbl_offset_content.specs.declared.offset.Offset.{Offset};
ghost use Rattle.dbl_offset.specs.Stores.{BeginsTorn, ExtendsOffsets, HasBadOffset};
ghost use Rattle.dbl_offset.specs.Stores.{HoldsOffset, IsNoStoreAt, IsStore, LeavesOffset};
ghost use Rattle.dbl_offset.specs.Stores.{MayLeaveOffset, StoreOn, disk_of, greatest_room};

use dbl_disk::Disk;

/// Bytes are a store of at most one offset, or of none.
pub fn stores_are_read_once()
    ensures { (bytes : List ℕ) (first second : Option Offset) → IsStore bytes first →
        IsStore bytes second → first ≡ second }
{}

/// Bytes are at most one of: a store, no store at a position, a store with a bad offset. The
/// position is unique, and so is the bad offset's number.
pub fn stores_or_faults()
    ensures no_fault { (bytes : List ℕ) (offset : Option Offset) (at : ℕ) → IsStore bytes offset →
        ¬ IsNoStoreAt bytes at }
    ensures no_bad_offset { (bytes : List ℕ) (offset : Option Offset) (index : ℕ) →
        IsStore bytes offset → ¬ HasBadOffset bytes index }
    ensures not_both { (bytes : List ℕ) (at index : ℕ) → IsNoStoreAt bytes at →
        ¬ HasBadOffset bytes index }
    ensures one_no_store { (bytes : List ℕ) (first second : ℕ) → IsNoStoreAt bytes first →
        IsNoStoreAt bytes second → first ≡ second }
    ensures one_bad_offset { (bytes : List ℕ) (first second : ℕ) → HasBadOffset bytes first →
        HasBadOffset bytes second → first ≡ second }
{}

/// Bytes are at least one of: a store, no store at a position, a store with a bad offset.
pub fn bytes_are_a_store_or_not()
    ensures { (bytes : List ℕ) → ((i : ℕ) → slice_index bytes i < 256) →
        ((offset : Option Offset) × IsStore bytes offset) ⊎
        (((at : ℕ) × IsNoStoreAt bytes at) ⊎ ((index : ℕ) × HasBadOffset bytes index)) }
{}

/// What a store leaves on an empty disk while it is made is no store yet, or one without an offset.
pub fn torn_stores_are_empty()
    ensures torn { (bytes : List ℕ) (offset : Option Offset) → BeginsTorn [] bytes →
        IsStore bytes offset → offset ≡ None }
    ensures empty { (offset : Option Offset) → ¬ IsStore [] offset }
{}

/// A store has at most one offset, the one that its bytes encode and that a crash may leave. While
/// an offset is stored a crash leaves the old one or the new one.
pub fn stores_hold_one_offset<D: Disk>()
    ensures one { (store : StoreOn D) (first second : Option Offset) →
        HoldsOffset D.Disk store first → HoldsOffset D.Disk store second → first ≡ second }
    ensures bytes { (store : StoreOn D) (offset : Option Offset) →
        HoldsOffset D.Disk store offset → (bytes : List ℕ) ×
        (D.seen (disk_of store) ≡ Some bytes) × IsStore bytes offset }
    ensures left { (store : StoreOn D) (offset left : Option Offset) →
        HoldsOffset D.Disk store offset → MayLeaveOffset D.Disk (disk_of store) left →
        left ≡ offset }
    ensures held { (store : StoreOn D) (offset : Option Offset) →
        HoldsOffset D.Disk store offset → MayLeaveOffset D.Disk (disk_of store) offset }
    ensures one_of { (disk : D) (old left : Option Offset) (new : Offset) →
        LeavesOffset D.Disk disk (λ l. (l ≡ old) ⊎ (l ≡ Some new)) →
        MayLeaveOffset D.Disk disk left → (left ≡ old) ⊎ (left ≡ Some new) }
{}

/// `ExtendsOffsets` is reflexive and transitive, keeps the disk's contents known, and bounds their
/// number of bytes.
pub fn stores_come_of_stores<D: Disk>()
    ensures itself { (store : StoreOn D) → ExtendsOffsets D.Disk store store }
    ensures on { (first second third : StoreOn D) → ExtendsOffsets D.Disk first second →
        ExtendsOffsets D.Disk second third → ExtendsOffsets D.Disk first third }
    ensures told { (old new : StoreOn D) (offset : Option Offset) →
        ExtendsOffsets D.Disk old new → HoldsOffset D.Disk old offset →
        (after : List ℕ) × (D.seen (disk_of new) ≡ Some after) }
    ensures grown { (old new : StoreOn D) (before after : List ℕ) →
        ExtendsOffsets D.Disk old new → D.seen (disk_of old) ≡ Some before →
        D.seen (disk_of new) ≡ Some after → length after ≤ max (length before) greatest_room }
{}
