//! What the first bytes of an entry say, before all of it is read. Takes no memory.

ghost use Rattle.std.specs.Prelude.{◌≡◌, ◌↔◌, ℕ, List, Some, option_map};
ghost use Rattle.std.specs.Int.{w64};
ghost use Rattle.dbl_record.specs.GroupReading.{number_at};
ghost use Rattle.dbl_demo_wal.specs.declared.entry.Entry.{Entry};
ghost use Rattle.dbl_demo_wal.specs.Claims.{BeginsAsCommit, steps_of_commit};
ghost use Rattle.dbl_demo_wal.specs.Entries.{EncodesEntry, workload_form};
ghost use Rattle.dbl_demo_wal.specs.Reading.{claim_of, number_of, workload_of};

fn workload_of(entry: &[u8]) -> Option<&[u8]>
    ensures { option_map (λ bytes. bytes.now) result ≡ workload_of entry.now }
{
    match entry {
        [] => None,
        [b'S', workload @ ..] => Some(workload),
        [_, ..] => None,
    }
}

/// The bytes of the workload in a log's first entry; none if the bytes are another entry.
pub fn workload_in(entry: &[u8]) -> Option<&[u8]>
    ensures { (workload : List ℕ) → (option_map (λ bytes. bytes.now) result ≡ Some workload) ↔
        (entry.now ≡ workload_form workload) }
{
    workload_of(entry)
}

// The number with which the bytes begin.
#[tactic(auto, unfolding(dbl_record::specs::GroupReading::number_at))]
fn number_of(bytes: &[u8]) -> Option<u64>
    ensures { result ≡ number_of (number_at w64 0 bytes.now) }
{
    if bytes.len() < 8 {
        return None;
    }
    let (front, _) = bytes.split_at(8);
    Some(u64::from_be_bytes([
        front[0], front[1], front[2], front[3], front[4], front[5], front[6], front[7],
    ]))
}

fn claim_of(entry: &[u8]) -> Option<u64>
    ensures { result ≡ claim_of entry.now }
{
    match entry {
        [] => None,
        [b'C', rest @ ..] => number_of(rest),
        [_, ..] => None,
    }
}

/// How many steps an entry that begins as a commit's reports as done with it.
pub fn commit_steps(entry: &[u8]) -> Option<u64>
    ensures begins { (steps : ℕ) → (result ≡ Some steps) ↔ BeginsAsCommit entry.now steps }
    // For a valid entry, the result is its number of steps.
    ensures told { (e : Entry) → EncodesEntry entry.now e → result ≡ steps_of_commit e }
{
    claim_of(entry)
}
