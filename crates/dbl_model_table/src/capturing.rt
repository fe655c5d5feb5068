ghost use Rattle.std.specs.Prelude.{◌≡◌, ◌⊎◌, ℕ, IfOk, IfErr, OnOk, MatchResult, None};
ghost use Rattle.std.specs.Prelude.{Some, List, [], map, option_map, true, false};
ghost use Rattle.std.specs.List.{find};
ghost use Rattle.std.specs.Ordering.{nat_cmp};
ghost use Rattle.std.specs.Cmp.Lexicographic.{slice_cmp};
ghost use Rattle.std.specs.BTreeMap.{IsEmpty, get_by};
ghost use Rattle.dbl_model_table.specs.declared.error.ModelError.TheVariants.{FloatColumn};
ghost use Rattle.dbl_model_table.specs.Tables.{type_at, is_key_type, are_typed, is_unfit};
ghost use Rattle.dbl_model_table.specs.Infos.{raw_column, name_at, IsInfoOf};
ghost use Rattle.dbl_model_table.specs.Made.{raw_names, place_of, first_repeated, first_float};
ghost use Rattle.dbl_model_table.specs.Made.{has_key, column_fault, key_type_fault, table_fault};

use crate::ModelError;
use crate::table::{Column, RawColumn, RawTable, TableInfo, TableName};
use dbl_base::{Seq, Text};
use dbl_value_types::PgType;
use std::alloc::{AllocError, Global};
use std::collections::BTreeMap;

/// Records the index of each column under its name.
fn enter_columns<'a>(
    alloc: Global,
    raw: &'a RawTable,
    places: &mut BTreeMap<&'a str, u32>,
) -> Result<(), ModelError>
    requires { IsEmpty places.old }
    ensures places { OnOk result ((q : List ℕ) → get_by
        (λ k. slice_cmp nat_cmp q k.now) places.new ≡ place_of (raw_names raw.now.columns) q) }
    ensures distinct { OnOk result (first_repeated [] (raw_names raw.now.columns) ≡ None) }
    ensures err { IfErr result (λ e. (e ≡ ModelError.Memory) ⊎ (column_fault raw.now ≡ Some e)) }
{
    for (i, column) in raw.columns.items().iter().enumerate() {
        let name = column.name.as_str();
        if places.contains_key(name) {
            return Err(ModelError::DuplicateColumn {
                table: raw.name.copy(alloc)?,
                column: column.name.copy(alloc)?,
            });
        }
        let Ok(place) = u32::try_from(i) else {
            return Err(ModelError::Memory);
        };
        places.insert(name, place)?;
    }
    Ok(())
}

/// The indices of the key's columns. Each that is found is removed, so that a repeated name isn't
/// found.
fn key_places<'a>(
    alloc: Global,
    raw: &RawTable,
    mut places: BTreeMap<&'a str, u32>,
) -> Result<Vec<u32>, ModelError>
    requires { (q : List ℕ) →
        get_by (λ k. slice_cmp nat_cmp q k.now) places ≡ place_of (raw_names raw.now.columns) q }
    ensures ok { IfOk result
        (λ key. map (place_of (raw_names raw.now.columns)) raw.now.key ≡ map Some key.items) }
    ensures has_key { OnOk result (has_key raw.now ≡ true) }
    ensures err { IfErr result (λ e. (e ≡ ModelError.Memory) ⊎
        ((e ≡ ModelError.NoKey raw.now.name) × (has_key raw.now ≡ false))) }
{
    let mut key = Vec::new(alloc);
    for name in raw.key.items() {
        let Some(place) = places.remove(name.as_str()) else {
            return Err(ModelError::NoKey {
                table: raw.name.copy(alloc)?,
            });
        };
        key.push(place)?;
    }
    if key.is_empty() {
        return Err(ModelError::NoKey {
            table: raw.name.copy(alloc)?,
        });
    }
    Ok(key)
}

/// The columns with their types, or the first column of a float type as an error.
fn typed_columns(
    alloc: Global,
    table: &TableName,
    columns: &[RawColumn],
) -> Result<Vec<Column>, ModelError>
    ensures columns { IfOk result (λ typed. map raw_column typed.items ≡ columns.now) }
    ensures typed { IfOk result (λ typed. are_typed typed.items ≡ true) }
    ensures none { OnOk result (first_float columns.now ≡ None) }
    ensures err { IfErr result (λ e. (e ≡ ModelError.Memory) ⊎
        (option_map (FloatColumn table.now) (first_float columns.now) ≡ Some e)) }
{
    let mut typed = Vec::new(alloc);
    for column in columns {
        let Ok(ty) = dbl_value_types::of(column.oid) else {
            return Err(ModelError::FloatColumn {
                table: table.copy(alloc)?,
                column: column.name.copy(alloc)?,
            });
        };
        let name = column.name.copy(alloc)?;
        typed.push(Column { name, ty })?;
    }
    Ok(typed)
}

fn may_be_key(ty: PgType) -> bool
    ensures { result ≡ is_key_type ty }
{
    match ty {
        PgType::Int2
        | PgType::Int4
        | PgType::Int8
        | PgType::Uuid
        | PgType::Text
        | PgType::Varchar => true,
        _ => false,
    }
}

fn has_key_type(columns: &[Column], place: u32) -> bool
    ensures { result ≡ is_key_type (type_at columns.now place) }
{
    match columns.get(place as usize) {
        Some(column) => may_be_key(column.ty),
        None => true,
    }
}

/// The first of some column indices whose column's type is not allowed in a key.
pub(crate) fn first_unfit(columns: &[Column], key: &[u32]) -> Option<u32>
    ensures { result ≡ find (is_unfit columns.now) key.now }
{
    for place in key {
        if !has_key_type(columns, *place) {
            return Some(*place);
        }
    }
    None
}

/// The name of the column at an index, empty if there is no such column.
pub fn name_at(alloc: Global, columns: &[Column], place: u32) -> Result<Text, AllocError>
    ensures { IfOk result (λ name. name ≡ name_at columns.now place) }
{
    match columns.get(place as usize) {
        Some(column) => column.name.copy(alloc),
        None => Text::of(alloc, ""),
    }
}

/// Refuses the first column of a key whose type is not allowed in a key.
fn check_key(
    alloc: Global,
    raw: &RawTable,
    columns: &[Column],
    key: &[u32],
) -> Result<(), ModelError>
    requires columns { map raw_column columns.now ≡ raw.now.columns }
    requires typed { are_typed columns.now ≡ true }
    requires places { map (place_of (raw_names raw.now.columns)) raw.now.key ≡ map Some key.now }
    ensures fit { OnOk result (find (is_unfit columns.now) key.now ≡ None) }
    ensures none { OnOk result (key_type_fault raw.now ≡ None) }
    ensures err { IfErr result (λ e. (e ≡ ModelError.Memory) ⊎ (key_type_fault raw.now ≡ Some e)) }
{
    match first_unfit(columns, key) {
        Some(place) => Err(ModelError::KeyType {
            table: raw.name.copy(alloc)?,
            column: name_at(alloc, columns, place)?,
        }),
        None => Ok(()),
    }
}

impl TableInfo {
    /// The capture description of a catalogue entry, or the first error of the entry. A table of
    /// more than 2^32 columns counts as out of memory.
    pub fn make(alloc: Global, raw: &RawTable) -> Result<TableInfo, ModelError>
        ensures ok { IfOk result (λ info. IsInfoOf raw.now info) }
        ensures fault { MatchResult result (λ _. table_fault raw.now ≡ None)
            (λ e. (e ≡ ModelError.Memory) ⊎ (table_fault raw.now ≡ Some e)) }
    {
        if !raw.name.is_good() {
            return Err(ModelError::BadName {
                name: raw.name.copy(alloc)?,
            });
        }
        let mut places = BTreeMap::new(alloc);
        enter_columns(alloc, raw, &mut places)?;
        let columns = typed_columns(alloc, &raw.name, raw.columns.items().as_slice())?;
        let key = key_places(alloc, raw, places)?;
        check_key(alloc, raw, columns.as_slice(), key.as_slice())?;
        Ok(TableInfo {
            name: raw.name.copy(alloc)?,
            columns: Seq::make(columns),
            key: Seq::make(key),
        })
    }
}
