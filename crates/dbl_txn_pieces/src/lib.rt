//! Messages read one by one, each as its piece of the open transaction.
#![tactic(auto)]

mod reader;

pub use reader::PieceReader;
