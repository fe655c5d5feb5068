//! Transactions assembled from the messages of a log in which captured tables may get other
//! columns: each table is read in the columns of its last Relation.
#![tactic(auto)]

mod names;
mod oids;
mod reader;
mod shape;

pub use dbl_model_commit::{Piece, TxnError};
pub use names::{is_named, is_watermark, place_of, schema_of};
pub use oids::TableOids;
pub use reader::{Read, ShapedPiece, ShapingAssembler};
pub use shape::{entry_in, raw_columns};
