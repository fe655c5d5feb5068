//! Rows and keys made from cells that name their columns.

ghost use Rattle.std.specs.Prelude.{◌≡◌, ◌≢◌, false, IsTrue, IfOk, option_copied};
ghost use Rattle.std.specs.Prelude.{option_and_then, is_some, bytes_eq};
ghost use Rattle.std.specs.BTreeMap.{IsEmpty};
ghost use Rattle.dbl_value_types.specs.Values.{value_of};
ghost use Rattle.dbl_model_table.specs.Tables.{are_distinct};
ghost use Rattle.dbl_model_table.specs.Infos.{catalogue_of};
ghost use Rattle.dbl_tables_rows.specs.Cells.{cell_named, text_given, row_given, key_texts};
ghost use Rattle.dbl_tables_rows.specs.Cells.{text_set, row_set, key_texts_set};
ghost use Rattle.dbl_tables_rows.specs.Cells.{spells_cell, is_readable, are_each_readable};
ghost use Rattle.dbl_tables_rows.specs.Cells.{are_of_key, keep_key, has_key_texts};
ghost use Rattle.dbl_tables_rows.specs.Given.{HasCells, HasColumns, given_names};

use crate::columns::is_key_name;
use dbl_base::{Seq, Text};
use dbl_model_table::{NamedCell, RawRow, TableInfo};
use dbl_value::{PgType, ValueError, read};
use std::alloc::{AllocError, Global};
use std::collections::BTreeMap;

/// Enters the index of each cell by its column's name, and returns whether no column is named
/// twice.
pub fn enter_cells<'a>(
    cells: &'a [NamedCell],
    places: &mut BTreeMap<&'a str, usize>,
) -> Result<bool, AllocError>
    requires { IsEmpty places.old }
    ensures distinct { IfOk result (λ d. d ≡ are_distinct bytes_eq (given_names cells.now)) }
    ensures places { IfOk result (λ d. IsTrue d → HasCells cells.now places.new) }
{
    for (i, cell) in cells.iter().enumerate() {
        let name = cell.column.as_str();
        if places.contains_key(name) {
            return Ok(false);
        }
        places.insert(name, i)?;
    }
    Ok(true)
}

fn cell_named<'a>(
    cells: &'a [NamedCell],
    places: &BTreeMap<&str, usize>,
    name: &Text,
) -> Option<&'a NamedCell>
    requires { HasCells cells.now places.now }
    ensures { option_copied result ≡ cell_named cells.now name.now }
{
    match places.get(name.as_str()) {
        Some(place) => cells.get(*place),
        None => None,
    }
}

/// An equal cell.
pub fn copy_text(alloc: Global, text: &Option<Text>) -> Result<Option<Text>, AllocError>
    ensures { IfOk result (λ copied. copied ≡ text.now) }
{
    match text {
        Some(text) => Ok(Some(text.copy(alloc)?)),
        None => Ok(None),
    }
}

fn text_given(
    alloc: Global,
    cells: &[NamedCell],
    places: &BTreeMap<&str, usize>,
    name: &Text,
) -> Result<Option<Text>, AllocError>
    requires { HasCells cells.now places.now }
    ensures { IfOk result (λ text. text ≡ text_given cells.now name.now) }
{
    match cell_named(cells, places, name) {
        Some(cell) => copy_text(alloc, &cell.text),
        None => Ok(None),
    }
}

fn text_set(
    alloc: Global,
    cells: &[NamedCell],
    places: &BTreeMap<&str, usize>,
    name: &Text,
    before: &Option<Text>,
) -> Result<Option<Text>, AllocError>
    requires { HasCells cells.now places.now }
    ensures { IfOk result (λ text. text ≡ text_set cells.now name.now before.now) }
{
    match cell_named(cells, places, name) {
        Some(cell) => copy_text(alloc, &cell.text),
        None => copy_text(alloc, before),
    }
}

/// The row with these cells, and null in each other column.
pub fn row_given(
    alloc: Global,
    info: &TableInfo,
    cells: &[NamedCell],
    places: &BTreeMap<&str, usize>,
) -> Result<RawRow, AllocError>
    requires { HasCells cells.now places.now }
    ensures { IfOk result (λ row. row.cells ≡ row_given (catalogue_of info.now) cells.now) }
{
    let mut row = Vec::new(alloc);
    for column in info.columns.items() {
        row.push(text_given(alloc, cells, places, &column.name)?)?;
    }
    Ok(RawRow {
        cells: Seq::make(row),
    })
}

/// The row with these cells set.
pub fn row_set(
    alloc: Global,
    info: &TableInfo,
    cells: &[NamedCell],
    places: &BTreeMap<&str, usize>,
    before: &RawRow,
) -> Result<RawRow, AllocError>
    requires { HasCells cells.now places.now }
    ensures { IfOk result (λ row.
        row.cells ≡ row_set (catalogue_of info.now).columns cells.now before.now.cells) }
{
    let mut row = Vec::new(alloc);
    for (i, column) in info.columns.items().iter().enumerate() {
        let Some(text) = before.cells.items().get(i) else {
            break;
        };
        row.push(text_set(alloc, cells, places, &column.name, text)?)?;
    }
    Ok(RawRow {
        cells: Seq::make(row),
    })
}

/// The key's texts among these cells, in key order.
pub fn key_texts(
    alloc: Global,
    info: &TableInfo,
    cells: &[NamedCell],
    places: &BTreeMap<&str, usize>,
) -> Result<Vec<Option<Text>>, AllocError>
    requires { HasCells cells.now places.now }
    ensures { IfOk result (λ texts. texts.items ≡ key_texts (catalogue_of info.now) cells.now) }
{
    let mut texts = Vec::new(alloc);
    for place in info.key.items() {
        let text = match info.columns.items().get(*place as usize) {
            Some(column) => text_given(alloc, cells, places, &column.name)?,
            None => None,
        };
        texts.push(text)?;
    }
    Ok(texts)
}

/// The texts of a key after these cells are set.
pub fn key_texts_set(
    alloc: Global,
    info: &TableInfo,
    cells: &[NamedCell],
    places: &BTreeMap<&str, usize>,
    before: &[Option<Text>],
) -> Result<Vec<Option<Text>>, AllocError>
    requires { HasCells cells.now places.now }
    ensures { IfOk result (λ texts.
        texts.items ≡ key_texts_set cells.now (catalogue_of info.now).key before.now) }
{
    let mut texts = Vec::new(alloc);
    for (i, place) in info.key.items().iter().enumerate() {
        let Some(text) = before.get(i) else {
            break;
        };
        let set = match info.columns.items().get(*place as usize) {
            Some(column) => text_set(alloc, cells, places, &column.name, text)?,
            None => None,
        };
        texts.push(set)?;
    }
    Ok(texts)
}

/// Whether each column of the key has a text.
pub fn has_key_texts(info: &TableInfo, cells: &[NamedCell], places: &BTreeMap<&str, usize>) -> bool
    requires { HasCells cells.now places.now }
    ensures { result ≡ has_key_texts (catalogue_of info.now) cells.now }
{
    for place in info.key.items() {
        let has_text = match info.columns.items().get(*place as usize) {
            Some(column) => has_text(cell_named(cells, places, &column.name)),
            None => false,
        };
        if !has_text {
            return false;
        }
    }
    true
}

fn has_text(cell: Option<&NamedCell>) -> bool
    ensures { result ≡ is_some (option_and_then (λ c. c.text) (option_copied cell.entry)) }
{
    match cell {
        Some(cell) => cell.text.is_some(),
        None => false,
    }
}

// Converts an error of the reader of values: the text parses as no value, unless memory ran out.
fn judge_fault(error: ValueError) -> Result<bool, AllocError>
    ensures { IfOk result (λ spelled. (spelled ≡ false) × (error ≢ ValueError.Memory)) }
{
    match error {
        ValueError::Memory => Err(AllocError),
        _ => Ok(false),
    }
}

fn spells_text(alloc: Global, ty: PgType, text: &Text) -> Result<bool, AllocError>
    ensures { IfOk result (λ spelled. spelled ≡ is_some (value_of ty text.now)) }
{
    match read(alloc, ty, text) {
        Ok(_value) => Ok(true),
        Err(error) => judge_fault(error),
    }
}

/// Whether a cell is null or a text that parses as a value of the type.
pub fn spells(alloc: Global, ty: PgType, text: &Option<Text>) -> Result<bool, AllocError>
    ensures { IfOk result (λ spelled. spelled ≡ spells_cell ty text.now) }
{
    match text {
        Some(text) => spells_text(alloc, ty, text),
        None => Ok(true),
    }
}

fn is_readable(
    alloc: Global,
    info: &TableInfo,
    columns: &BTreeMap<Text, usize>,
    cell: &NamedCell,
) -> Result<bool, AllocError>
    ensures { HasColumns info.now columns.now →
        IfOk result (λ r. r ≡ is_readable (catalogue_of info.now) cell.now) }
{
    let Some(place) = columns.get(&cell.column) else {
        return Ok(false);
    };
    match info.columns.items().get(*place) {
        Some(column) => spells(alloc, column.ty, &cell.text),
        None => Ok(false),
    }
}

/// Whether each cell is of a column of the table, and is null or a text of its type.
pub fn are_each_readable(
    alloc: Global,
    info: &TableInfo,
    columns: &BTreeMap<Text, usize>,
    cells: &[NamedCell],
) -> Result<bool, AllocError>
    ensures { HasColumns info.now columns.now →
        IfOk result (λ r. r ≡ are_each_readable (catalogue_of info.now) cells.now) }
{
    for cell in cells {
        if !is_readable(alloc, info, columns, cell)? {
            return Ok(false);
        }
    }
    Ok(true)
}

/// Whether all cells are of key columns.
pub fn are_of_key(info: &TableInfo, cells: &[NamedCell]) -> bool
    ensures { result ≡ are_of_key (catalogue_of info.now) cells.now }
{
    cells.iter().all(|cell| is_key_name(info, &cell.column))
}

/// Whether no cell of a key column is null.
pub fn keep_key(info: &TableInfo, cells: &[NamedCell]) -> bool
    ensures { result ≡ keep_key (catalogue_of info.now) cells.now }
{
    cells.iter().all(|cell| cell.text.is_some() || !is_key_name(info, &cell.column))
}
