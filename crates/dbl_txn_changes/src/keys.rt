//! Keys of rows, and their columns.

ghost use Rattle.std.specs.Prelude.{◌≡◌, IfOk, map};
ghost use Rattle.dbl_model_table.specs.Keys.{key_of, new_key_of, cell_or_null};
ghost use Rattle.dbl_model_table.specs.Keys.{given_or_null, same_key};
ghost use Rattle.dbl_model_commit.specs.Tuples.{is_key_place, is_flagged};
ghost use Rattle.dbl_model_commit.specs.Tuples.{key_in_identity, key_before};

use dbl_base::Seq;
use dbl_model_commit::Relation;
use dbl_model_table::{Cell, Key, Row, TableInfo, compare};
use dbl_value::Val;
use std::alloc::{AllocError, Global};

/// Whether the column at an index is a key column.
pub fn has_key_place(info: &TableInfo, place: usize) -> bool
    ensures { result ≡ is_key_place info.now place }
{
    info.key.items().iter().any(|key| place == *key as usize)
}

/// Whether the column at an index is one of the replica identity.
pub fn has_flag(relation: &Relation, place: usize) -> bool
    ensures { result ≡ is_flagged relation.now place }
{
    match relation.columns.items().get(place) {
        Some(column) => column.flags % 2 == 1,
        None => false,
    }
}

/// Whether all key columns are in the replica identity.
#[tactic(auto, unfolding(dbl_model_commit::specs::Tuples::key_in_identity))]
pub fn identifies_key(info: &TableInfo, relation: &Relation) -> bool
    ensures { result ≡ key_in_identity info.now relation.now }
{
    let key = info.key.items();
    key.iter().all(|place| has_flag(relation, *place as usize))
}

fn cell_or_null(alloc: Global, cells: &Seq<Val>, place: u32) -> Result<Val, AllocError>
    ensures { IfOk result (λ cell. cell ≡ cell_or_null cells.now place) }
{
    match cells.items().get(place as usize) {
        Some(cell) => cell.copy(alloc),
        None => Ok(Val::Null),
    }
}

/// The key of a row, given its cells.
pub fn key_of(alloc: Global, info: &TableInfo, cells: &Seq<Val>) -> Result<Key, AllocError>
    ensures { IfOk result (λ key. key ≡ key_of info.now cells.now) }
{
    let mut key = Vec::with_capacity(alloc, info.key.items().len())?;
    for place in info.key.items() {
        key.push(cell_or_null(alloc, cells, *place)?)?;
    }
    Ok(Key {
        cells: Seq::make(key),
    })
}

fn given_or_null(alloc: Global, cells: &Seq<Cell>, place: u32) -> Result<Val, AllocError>
    ensures { IfOk result (λ cell. cell ≡ cell_or_null (map given_or_null cells.now) place) }
{
    match cells.items().get(place as usize) {
        Some(Cell::Given(value)) => value.copy(alloc),
        Some(Cell::Unchanged) => Ok(Val::Null),
        None => Ok(Val::Null),
    }
}

/// The new key of an update, given its cells.
pub fn new_key_of(alloc: Global, info: &TableInfo, cells: &Seq<Cell>) -> Result<Key, AllocError>
    ensures { IfOk result (λ key. key ≡ new_key_of info.now cells.now) }
{
    let mut key = Vec::with_capacity(alloc, info.key.items().len())?;
    for place in info.key.items() {
        key.push(given_or_null(alloc, cells, *place)?)?;
    }
    Ok(Key {
        cells: Seq::make(key),
    })
}

/// The row's key before an update to these cells.
#[tactic(auto, unfolding(dbl_model_commit::specs::Tuples::key_before))]
pub fn key_before(
    alloc: Global,
    info: &TableInfo,
    old: &Option<Row>,
    cells: &Seq<Cell>,
) -> Result<Key, AllocError>
    ensures { IfOk result (λ key. key ≡ key_before info.now old.now cells.now) }
{
    match old {
        Some(row) => key_of(alloc, info, &row.cells),
        None => new_key_of(alloc, info, cells),
    }
}

/// Whether two keys are equal.
pub fn is_same(a: &Key, b: &Key) -> bool
    ensures { result ≡ same_key a.now b.now }
{
    compare(a, b).is_eq()
}
