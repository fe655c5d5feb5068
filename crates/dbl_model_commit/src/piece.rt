use dbl_base::Seq;
use dbl_model_table::{Change, Ended};

/// What a message adds to the open transaction. The changes since a transaction's Begin are those
/// of the commit that its end states.
#[derive(Drop)]
pub enum Piece {
    /// Nothing: a Begin, or a message without a change of a captured table.
    Nothing,
    /// Changes of captured tables, at least one.
    Changed(Seq<Change>),
    /// The end of the transaction.
    Ended(Ended),
}
