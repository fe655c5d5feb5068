ghost use Rattle.std.specs.Prelude.{◌≡◌, ◌⊎◌, ◌<◌, ◌^◌, ℕ, List, length};
ghost use Rattle.std.specs.List.{AllByRecursion};
ghost use Rattle.dbl_record.specs.Whole.{ReadsBack, TextsTellData};
ghost use Rattle.dbl_record.specs.Laws.{LinesReadBack};
ghost use Rattle.dbl_record.specs.Places.{TopsAreOne, TopsStand};
ghost use Rattle.dbl_record.specs.Cuts.{CutsAreHandfuls, CutsJoin, CutsPart, CutsTear};
ghost use Rattle.dbl_record.specs.GroupFaults.{IsBadAt};
ghost use Rattle.dbl_record.specs.Groups.{HasForm, IsGroup, group_form};
ghost use Rattle.dbl_record.specs.declared.record.Record.{Record};
ghost use Rattle.dbl_record.specs.Reading.{LinesReadOnce, LinesTellRecords, RecordsTellData};

/// Data is parsed back from its compact text.
pub fn compact_texts_read_back()
    ensures { ReadsBack }
{}

/// Data with equal compact texts are equal.
pub fn texts_tell_data()
    ensures { TextsTellData }
{}

/// A record's line is parsed as its topic, key and value.
pub fn lines_read_back()
    ensures { LinesReadBack }
{}

/// A line is read as exactly the record that it encodes.
pub fn lines_tell_records()
    ensures { LinesTellRecords }
{}

/// A line whose numbers are 64-bit integers is read as at most one record.
pub fn lines_read_once()
    ensures { LinesReadOnce }
{}

/// A record's texts are parsed as the data that they were printed from.
pub fn records_tell_data()
    ensures { RecordsTellData }
{}

/// Records have at most one greatest log position.
pub fn tops_are_one()
    ensures { TopsAreOne }
{}

/// A nonempty list of records has a greatest log position.
pub fn tops_stand()
    ensures { TopsStand }
{}

/// Bytes are the encoding of at most one group, and a group has at most one encoding.
pub fn groups_are_read_once()
    ensures one_group { (bytes : List ℕ) (first second : List Record) → IsGroup bytes first →
        IsGroup bytes second → first ≡ second }
    ensures one_form { (first second : List ℕ) (group : List Record) → IsGroup first group →
        IsGroup second group → first ≡ second }
{}

/// Bytes either encode a group or differ from every encoding, never both, and the first offset at
/// which they differ is unique.
pub fn groups_or_faults()
    ensures one_of { (bytes : List ℕ) → AllByRecursion (λ b. b < 2 ^ 8) bytes →
        ((group : List Record) × IsGroup bytes group) ⊎ ((at : ℕ) × IsBadAt bytes at) }
    ensures not_both { (bytes : List ℕ) (group : List Record) (at : ℕ) → IsGroup bytes group →
        ¬ IsBadAt bytes at }
    ensures one_place { (bytes : List ℕ) (first second : ℕ) → IsBadAt bytes first →
        IsBadAt bytes second → first ≡ second }
{}

/// A group can be encoded if the encoding has fewer than 2^32 bytes.
pub fn short_groups_have_a_form()
    ensures { (group : List Record) → length (group_form group) < 2 ^ 32 → HasForm group }
{}

/// The batches of records, joined, are the records, and a sink accepts each of them; records of
/// different positions are batched separately, and tearing a batch doesn't change those before it.
pub fn cuts_join()
    ensures joined { CutsJoin }
    ensures handfuls { CutsAreHandfuls }
    ensures part { CutsPart }
    ensures tear { CutsTear }
{}
