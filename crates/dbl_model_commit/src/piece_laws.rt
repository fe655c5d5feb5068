//! Theorems about the pieces of transactions, as contracts of empty functions.

ghost use Rattle.dbl_model_commit.specs.Pieces.{PiecesAreJoined, EachMessageHasOnePiece};

/// The pieces of messages without an error, joined, are the commits that the messages state and the
/// changes of the open transaction.
pub fn pieces_are_joined()
    ensures { PiecesAreJoined }
{}

/// A message without an error has exactly one piece.
pub fn each_message_has_one_piece()
    ensures { EachMessageHasOnePiece }
{}
