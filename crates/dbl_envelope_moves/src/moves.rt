ghost use Rattle.std.specs.Prelude.{◌≡◌, length, not};
ghost use Rattle.dbl_model_table.specs.Infos.{width};
ghost use Rattle.dbl_model_table.specs.Keys.{new_key_of, same_key};

use dbl_base::Seq;
use dbl_envelope_json::is_key_of;
use dbl_model_table::{Cell, Key, TableInfo};

/// Whether an update to these cells moves the row away from its key.
pub fn is_moved(info: &TableInfo, key: &Key, cells: &Seq<Cell>) -> bool
    requires long { length key.now.cells ≡ length info.now.key }
    requires wide { length cells.now ≡ width info.now }
    ensures { result ≡ not (same_key key.now (new_key_of info.now cells.now)) }
{
    !is_key_of(info, key, cells)
}
