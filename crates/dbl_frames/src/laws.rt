//! Theorems about the frames of a stream; the functions have empty bodies.

ghost use Rattle.std.specs.Prelude.{◌≡◌, ◌++◌, ℕ, List};
ghost use Rattle.dbl_frames_heads.specs.declared.error.FrameError.{FrameError};
ghost use Rattle.dbl_frames_heads.specs.declared.frame.Frame.{Frame};
ghost use Rattle.dbl_frames_heads.specs.Form.{AreBytes};
ghost use Rattle.dbl_frames.specs.Stream.{AreFramesOf, Faulty, Rest};

/// Bytes have exactly one list of frames before the first fault, and one rest.
pub fn frames_are_one()
    ensures some { (bytes : List ℕ) → AreBytes bytes → (frames : List Frame) × (rest : Rest) ×
        AreFramesOf bytes frames rest }
    ensures one { (bytes : List ℕ) (first second : List Frame) (end other : Rest) →
        AreFramesOf bytes first end → AreFramesOf bytes second other →
        (first ≡ second) × (end ≡ other) }
{}

/// The first fault, and the frames before it, stay the same when more bytes follow.
pub fn faults_stay()
    ensures { (bytes more : List ℕ) (frames : List Frame) (error : FrameError) →
        AreFramesOf bytes frames (Faulty error) →
        AreFramesOf (bytes ++ more) frames (Faulty error) }
{}
