ghost use Rattle.std.specs.Prelude.{◌≡◌, ◌<◌, ◌≤◌, All, IfOk, length, map};
ghost use Rattle.serde_json.specs.Data.{object};
ghost use Rattle.serde_json.specs.Written.{compact_text};
ghost use Rattle.std.specs.Ordering.{is_eq};
ghost use Rattle.dbl_value_types.specs.Order.{val_cmp};
ghost use Rattle.dbl_model_event.specs.EventJson.{sent};
ghost use Rattle.dbl_model_event.specs.ModelHistory.Image.{key_text};
ghost use Rattle.dbl_model_table.specs.Infos.{width};
ghost use Rattle.dbl_model_table.specs.Keys.{key_of, new_key_of, same_key, given_or_null};
ghost use Rattle.dbl_envelope_json.specs.Frames.{Framed};
ghost use Rattle.dbl_envelope_json.specs.Layouts.{members_at};

use crate::frame::Frame;
use crate::layout::Place;
use crate::tokens::{write_cells, write_sent, written_text};
use dbl_base::{Seq, Text};
use dbl_model_table::{Cell, Key, TableInfo};
use dbl_value::Val;
use json::Writer;
use std::alloc::{AllocError, Global};
use std::cmp::Ordering;

/// The initial capacity of a key's text.
const KEY_CAPACITY: usize = 64;

/// The JSON object of the cells at these indices, as text.
pub(crate) fn cells_text(
    alloc: Global,
    places: &Seq<Place>,
    cells: &Seq<Val>,
) -> Result<Text, AllocError>
    requires places { All (λ p. p.index < length cells.now) places.now }
    ensures { IfOk result (λ text. text ≡ compact_text (object (members_at cells.now places.now))) }
{
    let mut writer = Writer::new(Vec::with_capacity(alloc, KEY_CAPACITY)?);
    write_cells(alloc, &mut writer, places, cells)?;
    Ok(Text::make(written_text(writer)))
}

fn sent_text(
    alloc: Global,
    placeholder: &Text,
    places: &Seq<Place>,
    cells: &Seq<Cell>,
) -> Result<Text, AllocError>
    requires places { All (λ p. p.index < length cells.now) places.now }
    ensures { IfOk result (λ text. text
        ≡ compact_text (object (members_at (map (sent placeholder.now) cells.now) places.now))) }
{
    let mut writer = Writer::new(Vec::with_capacity(alloc, KEY_CAPACITY)?);
    write_sent(alloc, &mut writer, placeholder, places, cells)?;
    Ok(Text::make(written_text(writer)))
}

/// The text of a row's key, given the row's cells.
pub(crate) fn row_key(
    alloc: Global,
    frame: &Frame<'_>,
    cells: &Seq<Val>,
) -> Result<Text, AllocError>
    requires framed { Framed frame.now }
    requires wide { length cells.now ≡ width frame.now.info.now }
    ensures { IfOk result
        (λ text. text ≡ key_text frame.now.info.now (key_of frame.now.info.now cells.now)) }
{
    cells_text(alloc, &frame.layout.key, cells)
}

/// The text of an update's new key, given its cells.
pub(crate) fn sent_key(
    alloc: Global,
    frame: &Frame<'_>,
    cells: &Seq<Cell>,
) -> Result<Text, AllocError>
    requires framed { Framed frame.now }
    requires wide { length cells.now ≡ width frame.now.info.now }
    ensures { IfOk result (λ text. text
        ≡ key_text frame.now.info.now
        (key_of frame.now.info.now (map (sent frame.now.identity.now.placeholder) cells.now))) }
{
    sent_text(alloc, &frame.identity.placeholder, &frame.layout.key, cells)
}

/// The text of a key of the frame's table, as in its records.
pub fn key_json(alloc: Global, frame: &Frame<'_>, key: &Key) -> Result<Text, AllocError>
    requires framed { Framed frame.now }
    requires long { length key.now.cells ≡ length frame.now.info.now.key }
    ensures { IfOk result (λ text. text ≡ key_text frame.now.info.now key.now) }
{
    cells_text(alloc, &frame.layout.key_cells, &key.cells)
}

fn is_given(value: &Val, cell: &Cell) -> bool
    ensures { result ≡ is_eq (val_cmp value.now (given_or_null cell.now)) }
{
    match cell {
        Cell::Given(given) => value.cmp(given) == Ordering::Equal,
        Cell::Unchanged => value.cmp(&Val::Null) == Ordering::Equal,
    }
}

/// Whether the cells have this key.
pub fn is_key_of(info: &TableInfo, key: &Key, cells: &Seq<Cell>) -> bool
    requires long { length key.now.cells ≡ length info.now.key }
    requires wide { length cells.now ≡ width info.now }
    ensures { result ≡ same_key key.now (new_key_of info.now cells.now) }
{
    let places = info.key.items();
    let values = key.cells.items();
    let cells = cells.items();
    for at in 0..places.len() {
        if !is_given(&values[at], &cells[places[at] as usize]) {
            return false;
        }
    }
    true
}
