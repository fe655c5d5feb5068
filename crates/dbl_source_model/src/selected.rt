use dbl_base::Seq;
use dbl_model_table::RawRow;

/// The answer of a source to a request for rows of a table: the table's version when they were
/// read, and the rows.
#[derive(Drop)]
pub struct Selected {
    pub version: u64,
    pub rows: Seq<RawRow>,
}
