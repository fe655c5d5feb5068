ghost use Rattle.std.specs.Prelude.{◌≡◌, IfOk, length};
ghost use Rattle.dbl_model_event.specs.ModelHistory.Image.{key_text};

use crate::keys::cells_text;
use crate::layout::key_cells_in_order;
use dbl_base::Text;
use dbl_model_table::{Key, TableInfo};
use std::alloc::{AllocError, Global};

/// The text of a key of this table: a JSON object of its cells, the columns in byte order of their
/// names. Takes O(n log n) time for n key columns.
pub fn key_text(alloc: Global, info: &TableInfo, key: &Key) -> Result<Text, AllocError>
    requires { length key.now.cells ≡ length info.now.key }
    ensures { IfOk result (λ text. text ≡ key_text info.now key.now) }
{
    let places = key_cells_in_order(alloc, info)?;
    cells_text(alloc, &places, &key.cells)
}
