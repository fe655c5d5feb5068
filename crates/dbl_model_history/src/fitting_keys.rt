//! Whether a key is of its table's key types.

ghost use Rattle.std.specs.Prelude.{◌≡◌, ◌↔◌, IsTrue, map};
ghost use Rattle.std.specs.List.{AllByRecursion};
ghost use Rattle.dbl_value_types.specs.Decimals.{is_within};
ghost use Rattle.dbl_value_types.specs.Time.Shapes.{stands_for, has_shape};
ghost use Rattle.dbl_model_table.specs.Tables.{type_at};
ghost use Rattle.dbl_model_history.specs.KeyFits.{is_integer, is_text, is_uuid_text};
ghost use Rattle.dbl_model_history.specs.KeyFits.{is_key_cell, are_key_cells, HasUtf8};
ghost use Rattle.dbl_model_history.specs.Fit.{IsKeyOf};

use dbl_model_table::{Column, Key, TableInfo};
use dbl_value_types::{PgType, Val};

fn is_within(limit: u64, number: i64) -> bool
    ensures { result ≡ is_within limit number }
{
    let size = number.unsigned_abs();
    if number < 0 {
        size <= limit
    } else {
        size < limit
    }
}

fn is_integer(limit: u64, val: &Val) -> bool
    ensures is { result ≡ is_integer limit val.now }
    ensures utf8 { IsTrue result → HasUtf8 val.now }
{
    match val {
        Val::Int(number) => is_within(limit, *number),
        _ => false,
    }
}

fn is_text(val: &Val) -> bool
    ensures is { result ≡ is_text val.now }
    ensures utf8 { IsTrue result → HasUtf8 val.now }
{
    match val {
        Val::Text(text) => {
            // Reading a text shows the prover that it is UTF-8.
            let _text = text.as_str();
            true
        }
        _ => false,
    }
}

fn may_stand(place: u8, byte: u8) -> bool
    ensures { result ≡ stands_for place byte }
{
    match place {
        b'9' => byte.is_ascii_digit(),
        b'x' => byte.is_ascii_digit() || (byte >= b'a' && byte <= b'f'),
        _ => byte == place,
    }
}

/// Whether a text matches a shape, byte for byte.
fn is_shaped(shape: &[u8], text: &[u8]) -> bool
    ensures { result ≡ has_shape shape.now text.now }
{
    if shape.len() != text.len() {
        return false;
    }
    for (place, byte) in text.iter().enumerate() {
        if !may_stand(shape[place], *byte) {
            return false;
        }
    }
    true
}

fn is_uuid_text(val: &Val) -> bool
    ensures is { result ≡ is_uuid_text val.now }
    ensures utf8 { IsTrue result → HasUtf8 val.now }
{
    match val {
        Val::Text(text) => {
            let text = text.as_str();
            is_shaped(b"xxxxxxxx-xxxx-xxxx-xxxx-xxxxxxxxxxxx", text.as_bytes())
        }
        _ => false,
    }
}

fn is_key_cell(ty: PgType, val: &Val) -> bool
    ensures is { result ≡ is_key_cell ty val.now }
    ensures utf8 { IsTrue result → HasUtf8 val.now }
{
    match ty {
        PgType::Int2 => is_integer(1 << 15, val),
        PgType::Int4 => is_integer(1 << 31, val),
        PgType::Int8 => is_integer(1 << 63, val),
        PgType::Uuid => is_uuid_text(val),
        PgType::Text | PgType::Varchar => is_text(val),
        _ => false,
    }
}

fn type_at(columns: &[Column], place: u32) -> PgType
    ensures { result ≡ type_at columns.now place }
{
    match columns.get(place as usize) {
        Some(column) => column.ty,
        None => PgType::Text,
    }
}

fn are_key_cells(columns: &[Column], places: &[u32], cells: &[Val]) -> bool
    ensures is { result ≡ are_key_cells (map (type_at columns.now) places.now) cells.now }
    ensures utf8 { IsTrue result → AllByRecursion HasUtf8 cells.now }
{
    if places.len() != cells.len() {
        return false;
    }
    for (i, place) in places.iter().enumerate() {
        if !is_key_cell(type_at(columns, *place), &cells[i]) {
            return false;
        }
    }
    true
}

/// Whether the key is of the table's key types, with no cell Null. Takes no memory.
pub fn key_fits(info: &TableInfo, key: &Key) -> bool
    ensures { IsTrue result ↔ IsKeyOf info.now key.now }
{
    are_key_cells(info.columns.items(), info.key.items(), key.cells.items())
}
