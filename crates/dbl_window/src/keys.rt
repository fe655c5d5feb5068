//! Keys of rows and of updates.

ghost use Rattle.std.specs.Prelude.{◌≡◌, IfOk, map, Some, None};
ghost use Rattle.std.specs.List.{list_all};
ghost use Rattle.std.specs.Option.{option_copied};
ghost use Rattle.dbl_model_table.specs.Keys.{key_of, new_key_of, cell_or_null, given_or_null};
ghost use Rattle.dbl_model_history.specs.PlainRows.{is_sent};
ghost use Rattle.dbl_window.specs.Reading.{is_of_key, comes_after};

use dbl_base::Seq;
use dbl_model_history::key_at;
use dbl_model_table::{Cell, Key, TableInfo, compare};
use dbl_value::Val;
use std::alloc::{AllocError, Global};

/// Whether the column at an index is one of the key.
pub(crate) fn is_of_key(info: &TableInfo, place: usize) -> bool
    ensures { result ≡ is_of_key info.now place }
{
    info.key.items().iter().any(|key| place == *key as usize)
}

/// Whether a key is after the last one, if there is one.
pub(crate) fn comes_after(last: Option<&Key>, key: &Key) -> bool
    ensures { result ≡ comes_after (option_copied last.entry) key.now }
{
    match last {
        Some(last) => compare(last, key).is_lt(),
        None => true,
    }
}

/// The key of a row's cells.
pub(crate) fn key_of(alloc: Global, info: &TableInfo, cells: &Seq<Val>) -> Result<Key, AllocError>
    ensures { IfOk result (λ key. key ≡ key_of info.now cells.now) }
{
    key_at(alloc, info.key.items().as_slice(), cells)
}

fn given_or_null(alloc: Global, cells: &Seq<Cell>, place: u32) -> Result<Val, AllocError>
    ensures { IfOk result (λ cell. cell ≡ cell_or_null (map given_or_null cells.now) place) }
{
    match cells.items().get(place as usize) {
        Some(Cell::Given(value)) => value.copy(alloc),
        Some(Cell::Unchanged) => Ok(Val::Null),
        None => Ok(Val::Null),
    }
}

/// The key of an update's cells. No other cell is copied.
pub(crate) fn new_key_of(
    alloc: Global,
    info: &TableInfo,
    cells: &Seq<Cell>,
) -> Result<Key, AllocError>
    ensures { IfOk result (λ key. key ≡ new_key_of info.now cells.now) }
{
    let mut key = Vec::with_capacity(alloc, info.key.items().len())?;
    for place in info.key.items() {
        key.push(given_or_null(alloc, cells, *place)?)?;
    }
    Ok(Key {
        cells: Seq::make(key),
    })
}

fn is_sent(cell: &Cell) -> bool
    ensures { result ≡ is_sent cell.now }
{
    match cell {
        Cell::Given(_) => true,
        Cell::Unchanged => false,
    }
}

/// Whether an update sends all cells.
pub(crate) fn gives_all(cells: &Seq<Cell>) -> bool
    ensures { result ≡ list_all is_sent cells.now }
{
    cells.items().iter().all(is_sent)
}
