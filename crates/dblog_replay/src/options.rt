use dbl_base::Seq;
use dbl_hooks_masks::Masking;
use dbl_model_table::{Identity, TableKey};

/// How a log is replayed: for which connector, with which keys, and with which masked column.
#[derive(Drop)]
pub struct LogOptions {
    pub identity: Identity,
    /// The keys of tables that aren't to be read from the log. Of two for one table the first
    /// counts.
    pub keys: Seq<TableKey>,
    /// The column that is masked in the messages before they are replayed.
    pub mask: Option<Masking>,
}
