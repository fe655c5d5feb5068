ghost use Rattle.std.specs.Prelude.{◌≡◌, ◌↔◌, ℕ, ◌+◌, ◌-◌, ◌<◌, ◌≤◌, List, length, take, drop};
ghost use Rattle.std.specs.Prelude.{min, Option, Some, None, IsErr, IfOk, OnOk, OnErr};
ghost use Rattle.dbl_base.specs.Streams.{FailsOnlyIfCounted};
ghost use Rattle.dbl_disk.specs.Disks.{Follows, IsCalled, IsOnly, Torn};
ghost use Rattle.dbl_disk.specs.Disks.{written, half_limit, disk_limit};

use dbl_base::Failed;

/// The limit on a disk's length in bytes: a disk is shorter than 2^40.
pub const DISK_LIMIT: u64 = 1 << 40;

/// A byte-addressed device, which may stop at any call.
///
/// A disk with known contents counts a fault only for a call that fails. Other disks may count one
/// and retry.
pub trait Disk {
    /// The contents that a read returns, if known.
    ghost seen: { Self → Option (List ℕ) };

    /// The contents that a crash now may leave.
    ghost may_leave: { Self → List ℕ → Type 0 };

    /// The number of faults; it saturates at 2^64 - 1.
    ghost faults: { Self → ℕ };

    /// The number of calls made, if known; it saturates at 2^64 - 1.
    ghost calls: { Self → Option ℕ };

    /// The length in bytes.
    fn len(&mut self) -> Result<u64, Failed>
        ensures below { IfOk result (λ n. n < disk_limit) }
        ensures told { (bytes : List ℕ) → seen self.old ≡ Some bytes →
            IfOk result (λ n. n ≡ length bytes) }
        ensures seen { seen self.new ≡ seen self.old }
        ensures crash { (crashed : List ℕ) →
            may_leave self.new crashed ↔ may_leave self.old crashed }
        ensures cause { FailsOnlyIfCounted (IsErr result) (faults self.old) (faults self.new) }
        ensures steady { (bytes : List ℕ) → seen self.old ≡ Some bytes →
            OnOk result (faults self.new ≡ faults self.old) }
        ensures called { IsCalled (calls self.old) (calls self.new) };

    /// Reads bytes from the offset on until the buffer is full or the disk ends, and returns their
    /// number. After `Failed` the buffer's contents are unspecified.
    fn read_at(&mut self, at: u64, buffer: &mut [u8]) -> Result<usize, Failed>
        ensures bound { IfOk result (λ n. n ≤ length buffer.old) }
        ensures told { (bytes : List ℕ) → seen self.old ≡ Some bytes →
            IfOk result (λ n. n ≡ min (length buffer.old) (length bytes - at)) }
        ensures moved { (bytes : List ℕ) → seen self.old ≡ Some bytes →
            IfOk result (λ n. take n buffer.new ≡ take n (drop at bytes)) }
        ensures seen { seen self.new ≡ seen self.old }
        ensures crash { (crashed : List ℕ) →
            may_leave self.new crashed ↔ may_leave self.old crashed }
        ensures cause { FailsOnlyIfCounted (IsErr result) (faults self.old) (faults self.new) }
        ensures steady { (bytes : List ℕ) → seen self.old ≡ Some bytes →
            OnOk result (faults self.new ≡ faults self.old) }
        ensures called { IsCalled (calls self.old) (calls self.new) };

    /// Writes the bytes at the offset; a gap before them reads as zeros. Until a sync a crash may
    /// leave any bytes there and past the old end; after `Failed` a read may return such too.
    ///
    /// A write whose end would reach `DISK_LIMIT` fails and changes no contents.
    fn write_at(&mut self, at: u64, bytes: &[u8]) -> Result<(), Failed>
        requires { (old : List ℕ) → seen self.old ≡ Some old → disk_limit ≤ at + length bytes.now →
            half_limit ≤ length old }
        ensures room { OnOk result (at + length bytes.now < disk_limit) }
        ensures written { (old : List ℕ) → seen self.old ≡ Some old →
            OnOk result (seen self.new ≡ Some (written old at bytes.now)) }
        ensures torn { (old : List ℕ) → seen self.old ≡ Some old → OnErr result
            ((new : List ℕ) × (seen self.new ≡ Some new) × Torn at (length bytes.now) old new) }
        ensures crash { Follows (Torn at (length bytes.now)) (may_leave self.old)
            (may_leave self.new) }
        ensures beyond { disk_limit ≤ at + length bytes.now → seen self.new ≡ seen self.old }
        ensures silent { seen self.old ≡ None → seen self.new ≡ None }
        ensures untried { disk_limit ≤ at + length bytes.now → (crashed : List ℕ) →
            may_leave self.new crashed ↔ may_leave self.old crashed }
        ensures cause { FailsOnlyIfCounted (IsErr result) (faults self.old) (faults self.new) }
        ensures steady { (bytes : List ℕ) → seen self.old ≡ Some bytes →
            OnOk result (faults self.new ≡ faults self.old) }
        ensures called { IsCalled (calls self.old) (calls self.new) };

    /// Makes the contents stable: after `Ok` a crash leaves exactly them, if they are known.
    fn sync(&mut self) -> Result<(), Failed>
        ensures stable { (bytes : List ℕ) → seen self.old ≡ Some bytes →
            OnOk result (IsOnly bytes (may_leave self.new)) }
        ensures seen { seen self.new ≡ seen self.old }
        ensures crash { (crashed : List ℕ) →
            may_leave self.new crashed → may_leave self.old crashed }
        ensures cause { FailsOnlyIfCounted (IsErr result) (faults self.old) (faults self.new) }
        ensures steady { (bytes : List ℕ) → seen self.old ≡ Some bytes →
            OnOk result (faults self.new ≡ faults self.old) }
        ensures called { IsCalled (calls self.old) (calls self.new) };

    /// A crash may leave the contents that a read returns, if they are known.
    ghost seen_may_be_left: { (disk : Self) (bytes : List ℕ) → seen disk ≡ Some bytes
        → may_leave disk bytes };
}
