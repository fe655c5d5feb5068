//! The image's texts at a point in the history, computed by the definition.

ghost use Rattle.std.specs.Prelude.{◌≡◌, IfOk, IfErr, Option, None};
ghost use Rattle.std.specs.Prelude.{option_map, option_and_then, slice_get};
ghost use Rattle.dbl_value_types.specs.Values.{json_of};
ghost use Rattle.dbl_model_table.specs.Infos.{column_of, columns_of};
ghost use Rattle.dbl_model_table.specs.Rows.{rows};
ghost use Rattle.dbl_model_history.specs.Image.{row_json_texts, image_at};

use crate::plain_rows::row_at;
use dbl_base::{Seq, Text};
use dbl_model_table::{Column, Commit, Key, ModelError, Row, TableInfo};
use dbl_value::{Val, json};
use std::alloc::Global;

fn place_of_column(columns: &[Column], name: &Text) -> Option<usize>
    ensures { result ≡ column_of columns.now name.now }
{
    for (i, column) in columns.iter().enumerate() {
        if name.as_str() == column.name.as_str() {
            return Some(i);
        }
    }
    None
}

/// The columns of a table, none if no table is captured at its index.
pub fn columns_of(infos: &Vec<TableInfo>, table: u32) -> &[Column]
    ensures { result.now ≡ columns_of infos.now.items table }
{
    match infos.get(table as usize) {
        Some(info) => info.columns.items().as_slice(),
        None => &[],
    }
}

fn cell_text(alloc: Global, cell: &Val) -> Result<Text, ModelError>
    ensures ok { IfOk result (λ text. text ≡ json_of cell.now) }
    ensures err { IfErr result (λ e. e ≡ ModelError.Memory) }
{
    match json(alloc, cell) {
        Ok(text) => Ok(text),
        Err(_) => Err(ModelError::Memory),
    }
}

fn row_text(
    alloc: Global,
    columns: &[Column],
    row: &Row,
    column: &Text,
) -> Result<Option<Text>, ModelError>
    ensures ok { IfOk result (λ text. text ≡ row_json_texts columns.now row.now.cells column.now) }
    ensures err { IfErr result (λ e. e ≡ ModelError.Memory) }
{
    let Some(place) = place_of_column(columns, column) else {
        return Ok(None);
    };
    let Some(cell) = row.cells.items().get(place) else {
        return Ok(None);
    };
    Ok(Some(cell_text(alloc, cell)?))
}

/// The JSON text that the image at a point in the history has in a column at a table and key.
pub fn image_text(
    alloc: Global,
    infos: &Vec<TableInfo>,
    commits: &Vec<Commit>,
    moment: u64,
    table: u32,
    key: &Key,
    column: &Text,
) -> Result<Option<Text>, ModelError>
    ensures ok { IfOk result (λ text. text ≡ image_at infos.now.items
        (rows infos.now.items commits.now.items moment) table key.now column.now) }
    ensures err { IfErr result (λ e. e ≡ ModelError.Memory) }
{
    match row_at(alloc, infos, commits, moment, table, key)? {
        Some(row) => row_text(alloc, columns_of(infos, table), &row, column),
        None => Ok(None),
    }
}
