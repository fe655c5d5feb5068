ghost use Rattle.std.specs.Prelude.{◌≡◌, ◌++◌, ◌∷◌, OnOk, IfOk};
ghost use Rattle.std.specs.String.{string_bytes};
ghost use Rattle.json.specs.Print.{print as print_tokens};
ghost use Rattle.json.specs.Tree.{json_tokens};
ghost use Rattle.serde_json.specs.Written.{outline, compact_text};
ghost use Rattle.dbl_envelope_json.specs.Tokens.{head_tokens};
ghost use Rattle.dbl_envelope_json.specs.Frames.{Framed, FitsPlaces, IsWide};
ghost use Rattle.dbl_envelope_json.specs.Frames.{side_data, side_row, framed_event};

use crate::frame::Frame;
use crate::layout::Place;
use crate::side::Side;
use crate::tokens::{null_member, text_member, write_cells, write_sent, written_text};
use dbl_base::{Seq, Text};
use json::Writer;
use std::alloc::{AllocError, Global};

/// The initial capacity of an event's value.
const VALUE_CAPACITY: usize = 640;

fn write_side(
    alloc: Global,
    writer: &mut Writer,
    placeholder: &Text,
    columns: &Seq<Place>,
    side: &Side<'_>,
) -> Result<(), AllocError>
    requires places { FitsPlaces columns.now side.now }
    ensures ok { OnOk result (writer.new.tokens
        ≡ writer.old.tokens ++ json_tokens
        (outline (side_data placeholder.now columns.now side.now))) }
    ensures before { writer.new.before ≡ writer.old.before }
{
    match side {
        Side::Nothing => writer.null(),
        Side::Row(cells) => write_cells(alloc, writer, columns, cells),
        Side::Sent(cells) => write_sent(alloc, writer, placeholder, columns, cells),
    }
}

fn write_head(
    alloc: Global,
    writer: &mut Writer,
    placeholder: &Text,
    columns: &Seq<Place>,
    after: &Side<'_>,
    before: &Side<'_>,
    op: &str,
) -> Result<(), AllocError>
    requires after { FitsPlaces columns.now after.now }
    requires before { FitsPlaces columns.now before.now }
    ensures ok { OnOk result (writer.new.tokens ≡ writer.old.tokens
        ++ head_tokens (json_tokens (outline (side_data placeholder.now columns.now after.now)))
        (json_tokens (outline (side_data placeholder.now columns.now before.now))) op.now) }
    ensures before { writer.new.before ≡ writer.old.before }
{
    writer.begin_object()?;
    writer.key("after")?;
    write_side(alloc, writer, placeholder, columns, after)?;
    writer.key("before")?;
    write_side(alloc, writer, placeholder, columns, before)?;
    text_member(writer, "op", op)
}

fn head_text(
    alloc: Global,
    placeholder: &Text,
    columns: &Seq<Place>,
    after: &Side<'_>,
    before: &Side<'_>,
    op: &str,
) -> Result<String, AllocError>
    requires after { FitsPlaces columns.now after.now }
    requires before { FitsPlaces columns.now before.now }
    ensures { IfOk result (λ text. string_bytes text ≡ print_tokens
        (head_tokens (json_tokens (outline (side_data placeholder.now columns.now after.now)))
        (json_tokens (outline (side_data placeholder.now columns.now before.now))) op.now)) }
{
    let mut writer = Writer::new(Vec::with_capacity(alloc, VALUE_CAPACITY)?);
    write_head(alloc, &mut writer, placeholder, columns, after, before, op)?;
    Ok(written_text(writer))
}

/// The value of an event with these parts, as JSON (RFC 8259); `op` is the letter in the
/// connector's field `op`.
pub fn value_json(
    alloc: Global,
    frame: &Frame<'_>,
    after: &Side<'_>,
    before: &Side<'_>,
    op: &str,
) -> Result<Text, AllocError>
    requires framed { Framed frame.now }
    requires after { IsWide frame.now.info.now after.now }
    requires before { IsWide frame.now.info.now before.now }
    ensures { IfOk result (λ text. text ≡ compact_text (framed_event frame.now
        (side_row frame.now.identity.now frame.now.info.now before.now) op.now
        (side_row frame.now.identity.now frame.now.info.now after.now))) }
{
    let placeholder = &frame.identity.placeholder;
    let columns = &frame.layout.columns;
    let mut text = head_text(alloc, placeholder, columns, after, before, op)?;
    text.push_str(",")?;
    text.push_str(frame.tail.as_str())?;
    Ok(Text::make(text))
}
