ghost use Rattle.std.specs.Prelude.{◌≡◌, ◌<◌, ◌++◌, [], ◌∷◌, OnOk, All, length, map, decimal};
ghost use Rattle.std.specs.Fmt.{signed_decimal};
ghost use Rattle.json.specs.Token.{begin_object, key, string, number, null};
ghost use Rattle.json.specs.Tree.{json_tokens};
ghost use Rattle.serde_json.specs.Data.{object};
ghost use Rattle.serde_json.specs.Written.{outline};
ghost use Rattle.std.specs.String.{string_bytes};
ghost use Rattle.json.specs.Print.{print as print_tokens};
ghost use Rattle.dbl_value_types.specs.Values.{json_data};
ghost use Rattle.dbl_model_event.specs.EventJson.{sent};
ghost use Rattle.dbl_envelope_json.specs.Layouts.{members_at};

use crate::layout::Place;
use dbl_base::{Seq, Text};
use dbl_model_table::Cell;
use dbl_value::{Val, write_json};
use json::Writer;
use std::alloc::{AllocError, Global};

pub(crate) fn text_member(writer: &mut Writer, name: &str, text: &str) -> Result<(), AllocError>
    ensures ok { OnOk result
        (writer.new.tokens ≡ writer.old.tokens ++ key name.now ∷ string text.now ∷ []) }
    ensures before { writer.new.before ≡ writer.old.before }
{
    writer.key(name)?;
    writer.string(text)
}

pub(crate) fn u64_member(writer: &mut Writer, name: &str, value: u64) -> Result<(), AllocError>
    ensures ok { OnOk result
        (writer.new.tokens ≡ writer.old.tokens ++ key name.now ∷ number (decimal value) ∷ []) }
    ensures before { writer.new.before ≡ writer.old.before }
{
    writer.key(name)?;
    writer.u64(value)
}

pub(crate) fn i64_member(writer: &mut Writer, name: &str, value: &i64) -> Result<(), AllocError>
    ensures ok { OnOk result (writer.new.tokens
        ≡ writer.old.tokens ++ key name.now ∷ number (signed_decimal value.now) ∷ []) }
    ensures before { writer.new.before ≡ writer.old.before }
{
    writer.key(name)?;
    writer.i64(*value)
}

pub(crate) fn null_member(writer: &mut Writer, name: &str) -> Result<(), AllocError>
    ensures ok { OnOk result (writer.new.tokens ≡ writer.old.tokens ++ key name.now ∷ null ∷ []) }
    ensures before { writer.new.before ≡ writer.old.before }
{
    writer.key(name)?;
    writer.null()
}

/// Writes the object of the cells at these indices, under their names.
pub(crate) fn write_cells(
    alloc: Global,
    writer: &mut Writer,
    order: &Seq<Place>,
    cells: &Seq<Val>,
) -> Result<(), AllocError>
    requires places { All (λ p. p.index < length cells.now) order.now }
    ensures ok { OnOk result (writer.new.tokens
        ≡ writer.old.tokens ++ json_tokens (outline (object (members_at cells.now order.now)))) }
    ensures before { writer.new.before ≡ writer.old.before }
{
    let cells = cells.items();
    writer.begin_object()?;
    for place in order.items() {
        writer.key(place.name.as_str())?;
        write_json(alloc, writer, &cells[place.index])?;
    }
    writer.end_object()
}

/// Writes a cell of an update; an unsent one is the placeholder.
fn write_cell(
    alloc: Global,
    writer: &mut Writer,
    placeholder: &Text,
    cell: &Cell,
) -> Result<(), AllocError>
    ensures ok { OnOk result (writer.new.tokens
        ≡ writer.old.tokens ++ json_tokens (outline (json_data (sent placeholder.now cell.now)))) }
    ensures before { writer.new.before ≡ writer.old.before }
{
    match cell {
        Cell::Given(value) => write_json(alloc, writer, value),
        Cell::Unchanged => writer.string(placeholder.as_str()),
    }
}

/// Writes the object of an update's cells at these indices, under their names.
pub(crate) fn write_sent(
    alloc: Global,
    writer: &mut Writer,
    placeholder: &Text,
    order: &Seq<Place>,
    cells: &Seq<Cell>,
) -> Result<(), AllocError>
    requires places { All (λ p. p.index < length cells.now) order.now }
    ensures ok { OnOk result (writer.new.tokens
        ≡ writer.old.tokens ++ json_tokens
        (outline (object (members_at (map (sent placeholder.now) cells.now) order.now)))) }
    ensures before { writer.new.before ≡ writer.old.before }
{
    let cells = cells.items();
    writer.begin_object()?;
    for place in order.items() {
        writer.key(place.name.as_str())?;
        write_cell(alloc, writer, placeholder, &cells[place.index])?;
    }
    writer.end_object()
}

pub(crate) fn written_text(writer: Writer) -> String
    requires { writer.before ≡ [] }
    ensures { string_bytes result ≡ print_tokens writer.tokens }
{
    String::from_utf8(writer.into_inner()).unwrap()
}
