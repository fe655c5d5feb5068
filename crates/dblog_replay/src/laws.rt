//! Theorems about the stages of `replay`; the functions have empty bodies.

ghost use Rattle.dblog_replay.specs.Pieces.{MessagesAreSpelled, PiecesAreOne};
ghost use Rattle.dblog_replay.specs.Pieces.{PiecesExist, PiecesFit};
ghost use Rattle.dblog_replay.specs.Streams.{StreamPiecesAreOne, StreamPiecesExist};
ghost use Rattle.dblog_replay.specs.Streams.{StreamPiecesFit, StreamsAreFlattened};
ghost use Rattle.dblog_replay.specs.Masked.{MaskedPiecesFit};
ghost use Rattle.dblog_replay.specs.Replay.{CommitsAreWritten, KeptColumnsStateLines};
ghost use Rattle.dblog_replay.specs.Replay.{ReplaysAreOne, ReplaysExist};

/// Byte strings are read as exactly one list of pieces, whose messages are within their formats'
/// ranges.
pub fn pieces_are_read()
    ensures one { PiecesAreOne }
    ensures some { PiecesExist }
    ensures fit { PiecesFit }
{}

/// Byte strings of a log of protocol version 2 are read as exactly one list of pieces, whose
/// messages are within their formats' ranges.
pub fn streams_are_read()
    ensures one { StreamPiecesAreOne }
    ensures some { StreamPiecesExist }
    ensures fit { StreamPiecesFit }
{}

/// The messages that a log of protocol version 2 is read as are the flattened stream of its
/// messages, up to the first refusal.
pub fn streams_are_flattened()
    ensures { StreamsAreFlattened }
{}

/// The messages of the first pieces are the first byte strings, each at its index, and the others
/// are numbered on.
pub fn messages_are_spelled()
    ensures { MessagesAreSpelled }
{}

/// Masked messages are within their formats' ranges if the messages are.
pub fn masked_pieces_fit()
    ensures { MaskedPiecesFit }
{}

/// The lines that are written of a log, message by message, are exactly those of all commits before
/// the first error.
pub fn commits_are_written()
    ensures { CommitsAreWritten }
{}

/// The lines of a log whose tables keep their columns are those of the commits that it states with
/// all its tables captured.
pub fn kept_columns_state_lines()
    ensures { KeptColumnsStateLines }
{}

/// Pieces are replayed to exactly one list of lines and one end.
pub fn pieces_are_replayed()
    ensures one { ReplaysAreOne }
    ensures some { ReplaysExist }
{}
