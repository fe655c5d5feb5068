//! Keys of rows, and the cells of an update as a row.

ghost use Rattle.std.specs.Prelude.{◌≡◌, IfOk, map};
ghost use Rattle.dbl_model_table.specs.Keys.{same_key, key_at, cell_or_null, given_or_null};

use dbl_base::Seq;
use dbl_model_table::{Cell, Key, compare};
use dbl_value_types::Val;
use std::alloc::{AllocError, Global};

fn cell_or_null(alloc: Global, cells: &Seq<Val>, place: u32) -> Result<Val, AllocError>
    ensures { IfOk result (λ cell. cell ≡ cell_or_null cells.now place) }
{
    match cells.items().get(place as usize) {
        Some(cell) => cell.copy(alloc),
        None => Ok(Val::Null),
    }
}

/// The key whose cells are at these indices of a row.
pub fn key_at(alloc: Global, places: &[u32], cells: &Seq<Val>) -> Result<Key, AllocError>
    ensures { IfOk result (λ key. key ≡ key_at places.now cells.now) }
{
    let mut key = Vec::new(alloc);
    for place in places {
        key.push(cell_or_null(alloc, cells, *place)?)?;
    }
    Ok(Key {
        cells: Seq::make(key),
    })
}

/// Whether two keys are equal.
pub fn is_same(a: &Key, b: &Key) -> bool
    ensures { result ≡ same_key a.now b.now }
{
    compare(a, b).is_eq()
}

fn given_or_null(alloc: Global, cell: &Cell) -> Result<Val, AllocError>
    ensures { IfOk result (λ v. v ≡ given_or_null cell.now) }
{
    match cell {
        Cell::Given(v) => v.copy(alloc),
        Cell::Unchanged => Ok(Val::Null),
    }
}

/// The row of an update's cells, with Null for each unsent one.
pub fn given_or_nulls(alloc: Global, cells: &Seq<Cell>) -> Result<Seq<Val>, AllocError>
    ensures { IfOk result (λ row. row ≡ map given_or_null cells.now) }
{
    let mut row = Vec::new(alloc);
    for cell in cells.items() {
        row.push(given_or_null(alloc, cell)?)?;
    }
    Ok(Seq::make(row))
}
