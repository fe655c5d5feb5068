//! The columns of a table, and the keys of its rows.

ghost use Rattle.std.specs.Prelude.{◌≡◌, IfOk, None, unwrap_or, slice_get, bytes_eq};
ghost use Rattle.std.specs.List.{list_any};
ghost use Rattle.dbl_model_table.specs.Tables.{type_at};
ghost use Rattle.dbl_model_table.specs.Infos.{catalogue_of, name_at};
ghost use Rattle.dbl_source_log.specs.ModelHistory.Typed.{typed_cell};
ghost use Rattle.dbl_source_log.specs.Texts.{raw_key, key_from, key_in};
ghost use Rattle.dbl_tables_rows.specs.Cells.{is_key_name};
ghost use Rattle.dbl_tables_rows.specs.Given.{HasColumns};

use dbl_base::{Seq, Text};
use dbl_model_table::{Column, Key, RawRow, TableInfo};
use dbl_value::{PgType, Val, ValueError, read};
use std::alloc::{AllocError, Global};
use std::collections::BTreeMap;

fn is_name_at(columns: &[Column], place: u32, name: &Text) -> bool
    ensures { result ≡ bytes_eq name.now (name_at columns.now place) }
{
    match columns.get(place as usize) {
        Some(column) => *name == column.name,
        None => name.as_str() == "",
    }
}

fn is_among(columns: &[Column], places: &[u32], name: &Text) -> bool
    ensures { result ≡ list_any (λ at. bytes_eq name.now (name_at columns.now at)) places.now }
{
    places.iter().any(|place| is_name_at(columns, *place, name))
}

/// Whether the key has a column of this name.
pub fn is_key_name(info: &TableInfo, name: &Text) -> bool
    ensures { result ≡ is_key_name (catalogue_of info.now) name.now }
{
    is_among(info.columns.items(), info.key.items(), name)
}

/// The index of each column by its name.
pub fn column_places(alloc: Global, info: &TableInfo) -> Result<BTreeMap<Text, usize>, AllocError>
    ensures { IfOk result (λ places. HasColumns info.now places) }
{
    let mut places = BTreeMap::new(alloc);
    for (i, column) in info.columns.items().iter().enumerate() {
        places.insert(column.name.copy(alloc)?, i)?;
    }
    Ok(places)
}

fn type_at(columns: &[Column], place: u32) -> PgType
    ensures { result ≡ type_at columns.now place }
{
    match columns.get(place as usize) {
        Some(column) => column.ty,
        None => PgType::Text,
    }
}

// A text that parses as no value of the type stays a text.
fn typed_cell(alloc: Global, ty: PgType, text: &Option<Text>) -> Result<Val, AllocError>
    ensures { IfOk result (λ value. value ≡ typed_cell ty text.now) }
{
    let Some(text) = text else {
        return Ok(Val::Null);
    };
    match read(alloc, ty, text) {
        Ok(value) => Ok(value),
        Err(ValueError::Memory) => Err(AllocError),
        Err(_) => Ok(Val::Text(text.copy(alloc)?)),
    }
}

/// The key with these texts, in key order.
pub fn key_from(alloc: Global, info: &TableInfo, texts: &[Option<Text>]) -> Result<Key, AllocError>
    ensures { IfOk result (λ key. key ≡ key_from (catalogue_of info.now) texts.now) }
{
    let mut cells = Vec::new(alloc);
    for (i, text) in texts.iter().enumerate() {
        let ty = match info.key.items().get(i) {
            Some(place) => type_at(info.columns.items(), *place),
            None => PgType::Text,
        };
        cells.push(typed_cell(alloc, ty, text)?)?;
    }
    Ok(Key {
        cells: Seq::make(cells),
    })
}

fn cell_at(alloc: Global, row: &RawRow, place: u32) -> Result<Option<Text>, AllocError>
    ensures { IfOk result (λ text. text ≡ unwrap_or (slice_get row.now.cells place) None) }
{
    match row.cells.items().get(place as usize) {
        Some(Some(text)) => Ok(Some(text.copy(alloc)?)),
        Some(None) => Ok(None),
        None => Ok(None),
    }
}

/// The texts of a row's key, in key order.
pub fn row_key(
    alloc: Global,
    info: &TableInfo,
    row: &RawRow,
) -> Result<Vec<Option<Text>>, AllocError>
    ensures { IfOk result (λ t. t.items ≡ raw_key (catalogue_of info.now) row.now.cells) }
{
    let mut texts = Vec::new(alloc);
    for place in info.key.items() {
        texts.push(cell_at(alloc, row, *place)?)?;
    }
    Ok(texts)
}

/// The key of a row.
pub fn key_in(alloc: Global, info: &TableInfo, row: &RawRow) -> Result<Key, AllocError>
    ensures { IfOk result (λ key. key ≡ key_in (catalogue_of info.now) row.now.cells) }
{
    let texts = row_key(alloc, info, row)?;
    key_from(alloc, info, texts.as_slice())
}
