//! Theorems about the messages of protocol version 2; the functions have empty bodies.

ghost use Rattle.std.specs.Prelude.{◌≡◌, ◌⊎◌, ◌∷◌, ℕ, Bool, List, None};
ghost use Rattle.std.specs.List.{AllByRecursion};
ghost use Rattle.dbl_pgmsg.specs.declared.error.MsgError.{MsgError};
ghost use Rattle.dbl_pgmsg.specs.Grammar.{FitsFields};
ghost use Rattle.dbl_pgmsg.specs.Faults.{AreBytes};
ghost use Rattle.dbl_stream2.specs.declared.messages.StreamMessage.{StreamMessage};
ghost use Rattle.dbl_stream2.specs.declared.error.StreamError.{StreamError};
ghost use Rattle.dbl_stream2.specs.Flat.{is_inside, stream_fault, flat_part};
ghost use Rattle.dbl_stream2.specs.State.{IsStreamRefusal};
ghost use Rattle.dbl_stream2.specs.Wire.{Encodes, AreEncoded, IsBytesFault};

/// Inside a block or outside, bytes either encode one message or have one fault.
pub fn stream_message_or_fault()
    ensures one_of { (inside : Bool) (bytes : List ℕ) → AreBytes bytes →
        ((message : StreamMessage) × Encodes inside bytes message) ⊎
        ((error : MsgError) × IsBytesFault inside bytes error) }
    ensures not_both { (inside : Bool) (bytes : List ℕ) (message : StreamMessage)
        (error : MsgError) → Encodes inside bytes message → ¬ IsBytesFault inside bytes error }
    ensures one_message { (inside : Bool) (bytes : List ℕ) (first second : StreamMessage) →
        Encodes inside bytes first → Encodes inside bytes second → first ≡ second }
    ensures one_fault { (inside : Bool) (bytes : List ℕ) (first second : MsgError) →
        IsBytesFault inside bytes first → IsBytesFault inside bytes second → first ≡ second }
{}

/// Bytes of a message without a fault aren't refused, and other bytes for one reason.
pub fn one_refusal()
    ensures none { (past : List StreamMessage) (bytes : List ℕ) (message : StreamMessage)
        (error : StreamError) → Encodes (is_inside past) bytes message →
        stream_fault past message ≡ None → ¬ IsStreamRefusal past bytes error }
    ensures one { (past : List StreamMessage) (bytes : List ℕ) (first second : StreamError) →
        IsStreamRefusal past bytes first → IsStreamRefusal past bytes second → first ≡ second }
{}

/// What a message adds to the flattened stream is within the formats' ranges.
pub fn flat_messages_fit()
    ensures { (past : List StreamMessage) (message : StreamMessage) →
        AreEncoded (message ∷ past) → AllByRecursion FitsFields (flat_part past message) }
{}
