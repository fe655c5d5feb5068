ghost use Rattle.std.specs.Prelude.{◌≡◌, ℕ, ◌++◌, List, length, take};
ghost use Rattle.std.specs.Prelude.{Option, Some, OnOk, OnErr, IsErr};
ghost use Rattle.dbl_base.specs.Streams.{FailsOnlyIfCounted};

use crate::Failed;

/// A byte stream that is written.
pub trait Output {
    /// The bytes written, if known.
    ghost written: { Self → Option (List ℕ) };

    /// The number of faults; it saturates at 2^64 - 1.
    ghost faults: { Self → ℕ };

    /// Appends the piece. After `Failed` a prefix of the piece has been appended.
    fn write(&mut self, piece: &[u8]) -> Result<(), Failed>
        ensures ok { (bytes : List ℕ) → written self.old ≡ Some bytes →
            OnOk result (written self.new ≡ Some (bytes ++ piece.now)) }
        ensures prefix { (bytes : List ℕ) → written self.old ≡ Some bytes →
            OnErr result ((n : ℕ) × (written self.new ≡ Some (bytes ++ take n piece.now))) }
        ensures cause { FailsOnlyIfCounted (IsErr result) (faults self.old) (faults self.new) };
}
