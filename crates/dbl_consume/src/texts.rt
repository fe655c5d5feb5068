//! The compact JSON texts of cells and keys.
ghost use Rattle.std.specs.Prelude.{◌≡◌, ◌++◌, [], ◌∷◌, None, true, false, IfOk, OnOk};
ghost use Rattle.json.specs.Print.{print as print_tokens};
ghost use Rattle.json.specs.Token.{number as number_token};
ghost use Rattle.json.specs.Tree.{json_tokens};
ghost use Rattle.serde_json.specs.Data.{object};
ghost use Rattle.serde_json.specs.Find.{is_float};
ghost use Rattle.serde_json.specs.Written.{number_text, outline, compact_text};
ghost use Rattle.dbl_record.specs.Acts.{first_error};
ghost use Rattle.dbl_consume.specs.Cells.{cells_data, is_supported};
ghost use Rattle.dbl_consume.specs.JsonValues.{num_of, data_at};

use crate::numbers::{JsonNumber, number_in};
use crate::part::{Part, ValueKind};
use dbl_base::Text;
use json::Writer;
use std::alloc::{AllocError, Global};

fn write_number(writer: &mut Writer, number: &JsonNumber) -> Result<(), AllocError>
    requires { is_float (num_of number.now) ≡ false }
    ensures ok { OnOk result (writer.new.tokens
        ≡ writer.old.tokens ++ number_token (number_text (num_of number.now)) ∷ []) }
    ensures before { writer.new.before ≡ writer.old.before }
{
    match number {
        JsonNumber::Unsigned(n) => writer.u64(*n),
        JsonNumber::Negative(n) => writer.i64(*n),
        JsonNumber::Float(_) => unreachable!(),
    }
}

fn write_cell<'t, 'a>(writer: &mut Writer, cell: &Part<'t, 'a>) -> Result<(), AllocError>
    requires { is_supported (data_at cell.now) ≡ true }
    ensures ok { OnOk result (writer.new.tokens
        ≡ writer.old.tokens ++ json_tokens (outline (data_at cell.now))) }
    ensures before { writer.new.before ≡ writer.old.before }
{
    match cell.kind() {
        ValueKind::Null => writer.null(),
        ValueKind::Bool(truth) => writer.boolean(truth),
        ValueKind::Number(text) => write_number(writer, &number_in(text)),
        ValueKind::Text(text) => writer.string(text),
        ValueKind::Nested => unreachable!(),
    }
}

fn write_cells<'t, 'a>(
    writer: &mut Writer,
    cells: &[(&'a str, Part<'t, 'a>)],
) -> Result<(), AllocError>
    requires { first_error (cells_data cells.now) ≡ None }
    ensures ok { OnOk result (writer.new.tokens
        ≡ writer.old.tokens ++ json_tokens (outline (object (cells_data cells.now)))) }
    ensures before { writer.new.before ≡ writer.old.before }
{
    writer.begin_object()?;
    for cell in cells {
        writer.key(cell.0)?;
        write_cell(writer, &cell.1)?;
    }
    writer.end_object()
}

fn text_of(writer: Writer) -> Text
    requires { writer.before ≡ [] }
    ensures { result ≡ print_tokens writer.tokens }
{
    Text::make(String::from_utf8(writer.into_inner()).unwrap())
}

// The room that the text of a cell takes in a writer if no byte of it is escaped.
fn cell_room<'t, 'a>(cell: &Part<'t, 'a>) -> usize {
    match cell.kind() {
        ValueKind::Number(text) => text.len().saturating_add(1),
        ValueKind::Text(text) => text.len().saturating_add(3),
        _ => 6,
    }
}

// The room that the text of an object takes in a writer if no byte of it is escaped.
fn object_room<'t, 'a>(cells: &[(&'a str, Part<'t, 'a>)]) -> usize {
    let mut room = 3usize;
    for cell in cells {
        room = room.saturating_add(cell.0.len()).saturating_add(4);
        room = room.saturating_add(cell_room(&cell.1));
    }
    room
}

/// The compact text of a supported cell.
pub(crate) fn cell_text<'t, 'a>(alloc: Global, cell: &Part<'t, 'a>) -> Result<Text, AllocError>
    requires { is_supported (data_at cell.now) ≡ true }
    ensures { IfOk result (λ text. text ≡ compact_text (data_at cell.now)) }
{
    let mut writer = Writer::new(Vec::with_capacity(alloc, cell_room(cell))?);
    write_cell(&mut writer, cell)?;
    Ok(text_of(writer))
}

/// The compact text of an object of supported cells.
pub(crate) fn object_text<'t, 'a>(
    alloc: Global,
    cells: &[(&'a str, Part<'t, 'a>)],
) -> Result<Text, AllocError>
    requires { first_error (cells_data cells.now) ≡ None }
    ensures { IfOk result (λ text. text ≡ compact_text (object (cells_data cells.now))) }
{
    let mut writer = Writer::new(Vec::with_capacity(alloc, object_room(cells))?);
    write_cells(&mut writer, cells)?;
    Ok(text_of(writer))
}
