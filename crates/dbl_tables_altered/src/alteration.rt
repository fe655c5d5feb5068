use dbl_base::Text;
use dbl_model_table::RawColumn;

/// A change of a table's columns: one more after the others, with the same cell in every row, or
/// one less.
#[derive(Drop)]
pub enum Alteration {
    Add {
        column: RawColumn,
        text: Option<Text>,
    },
    Remove {
        column: Text,
    },
}
