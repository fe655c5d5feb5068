//! Theorems about the grammar and its faults; the functions have empty bodies.

ghost use Rattle.std.specs.Prelude.{◌≡◌, ◌≢◌, ◌⊎◌, ◌↔◌, ◌≤◌, ◌++◌, ℕ, List, [], length};
ghost use Rattle.dbl_pgmsg.specs.declared.error.MsgError.{MsgError};
ghost use Rattle.dbl_pgmsg.specs.declared.messages.Message.{Message};
ghost use Rattle.dbl_pgmsg.specs.Grammar.{spelling, Fits, FitsFields, Spells, message_limit};
ghost use Rattle.dbl_pgmsg.specs.Faults.{AreBytes, IsFault, Trails};

/// A message has at most one encoding.
pub fn one_spelling()
    ensures { (first second : List ℕ) (message : Message) → Spells first message →
        Spells second message → first ≡ second }
{}

/// Bytes encode at most one message.
pub fn one_message()
    ensures { (bytes : List ℕ) (first second : Message) → Spells bytes first → Spells bytes second →
        first ≡ second }
{}

/// Bytes either encode a message or have a fault, never both, and the fault is unique.
pub fn spelled_or_faulty()
    ensures one_of { (bytes : List ℕ) → AreBytes bytes →
        ((message : Message) × Spells bytes message) ⊎ ((error : MsgError) × IsFault bytes error) }
    ensures not_both { (bytes : List ℕ) (message : Message) (error : MsgError) →
        Spells bytes message → ¬ IsFault bytes error }
    ensures one_fault { (bytes : List ℕ) (first second : MsgError) → IsFault bytes first →
        IsFault bytes second → first ≡ second }
{}

/// Truncation is reported at the end of the bytes, and every proper prefix of an encoding within
/// the length limit is truncated.
pub fn truncated_bytes()
    ensures place { (bytes : List ℕ) (at : ℕ) → IsFault bytes (MsgError.Truncated at) →
        at ≡ length bytes }
    ensures cut { (bytes rest : List ℕ) (message : Message) → AreBytes bytes →
        length bytes ≤ message_limit → FitsFields message → bytes ++ rest ≡ spelling message →
        rest ≢ [] → IsFault bytes (MsgError.Truncated (length bytes)) }
{}

/// Bytes have trailing bytes if and only if a proper prefix of them is an encoding; the offset is
/// that encoding's length.
pub fn trailing_bytes()
    ensures { (bytes : List ℕ) (at : ℕ) → IsFault bytes (MsgError.TrailingBytes at) ↔
        (length bytes ≤ message_limit) × Trails bytes (MsgError.TrailingBytes at) }
{}

/// A message can be encoded if and only if some bytes encode it, and its encoding is decoded as
/// that message.
pub fn round_trip()
    ensures spelled { (message : Message) → Fits message ↔
        ((bytes : List ℕ) × Spells bytes message) }
    ensures again { (bytes : List ℕ) (message other : Message) → Spells bytes message →
        Spells bytes other → other ≡ message }
{}
