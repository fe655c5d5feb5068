//! The keys that a session may have locked, listed so that it can release them.

ghost use Rattle.std.specs.Prelude.{◌≡◌, ℕ, true, OnOk};
ghost use Rattle.dbl_model_table.specs.declared.row.Key.{Key};
ghost use Rattle.dbl_tables_rows.specs.Listed.{is_listed};

use dbl_model_table::Key;
use std::alloc::{AllocError, Global};

/// A key that the session may have locked, with the index of its table.
#[derive(Drop)]
pub struct HeldKey {
    pub table: usize,
    pub key: Key,
}

/// Lists a key of the table at an index among those that the session may have locked.
pub fn list_key(
    alloc: Global,
    keys: &mut Vec<HeldKey>,
    table: usize,
    key: &Key,
) -> Result<(), AllocError>
    ensures more { (place : ℕ) (other : Key) → is_listed place other keys.old.items ≡ true
        → is_listed place other keys.new.items ≡ true }
    ensures listed { OnOk result (is_listed table key.now keys.new.items ≡ true) }
{
    let key = key.copy(alloc)?;
    keys.push(HeldKey { table, key })?;
    Ok(())
}
