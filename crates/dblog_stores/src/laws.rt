//! Theorems about the stores. The functions do nothing: their contracts are the theorems.

ghost use Rattle.std.specs.Prelude.{◌≡◌, ℕ, Option, Some, List};
ghost use Rattle.dbl_record.specs.declared.record.Record.{Record};
ghost use Rattle.dbl_journal.specs.Stored.{OnDisk};
ghost use Rattle.dbl_topic.specs.Held.{HoldsGroups};
ghost use Rattle.dbl_offset_content.specs.declared.offset.Offset.{Offset};
ghost use Rattle.dbl_offset.specs.Stores.{HoldsOffset, StoreOn, disk_of};
ghost use Rattle.dblog_stores.specs.Stores.{ReadAsStores};
ghost use Rattle.dblog_stores.specs.Laws.{ListingAnswersOnce, ListingAnswersStand};
ghost use Rattle.dblog_stores.specs.Laws.{OffsetsAnswerOnce, OffsetsAnswersStand};
ghost use Rattle.dblog_stores.specs.Laws.{StoresAreReadOnce, TopicsAnswerOnce, TopicsAnswersStand};

use dbl_disk::Disk;

/// The contents of the disks represent one pair of stores at most.
pub fn stores_are_read_once()
    ensures { StoresAreReadOnce }
{}

/// The disks of a log with groups and of a store with an offset, or none, represent these.
pub fn held_stores_are_read<T: Disk, F: Disk>()
    ensures { (log : OnDisk T) (store : StoreOn F) (groups : List (List Record))
        (offset : Option Offset) → HoldsGroups T.Disk log groups → HoldsOffset F.Disk store offset →
        (t f : List ℕ) × (T.seen log.disk ≡ Some t) × (F.seen (disk_of store) ≡ Some f) ×
        ReadAsStores t f (record { groups = groups; offset = offset }) }
{}

/// Each command that only reads the stores has one answer at most, for any contents of their disks.
pub fn answers_are_one()
    ensures topics { TopicsAnswerOnce }
    ensures offsets { OffsetsAnswerOnce }
    ensures listing { ListingAnswersOnce }
{}

/// Each of these commands has an answer, for any contents of their disks.
pub fn answers_stand()
    ensures topics { TopicsAnswersStand }
    ensures offsets { OffsetsAnswersStand }
    ensures listing { ListingAnswersStand }
{}
