use crate::mask::Mask;
use dbl_base::Text;
use dbl_model_table::TableName;

/// A column whose texts are masked.
#[derive(Drop)]
pub struct Masking {
    pub table: TableName,
    pub column: Text,
    pub mask: Mask,
}
