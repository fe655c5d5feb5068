ghost use Rattle.std.specs.Prelude.{◌≡◌, ◌++◌, OnOk, OnErr, IfOk, IfErr};
ghost use Rattle.json.specs.Tree.{json_tokens};
ghost use Rattle.serde_json.specs.Written.{outline};
ghost use Rattle.dbl_value_types.specs.Values.{json_data, json_of};

use base64::engine::general_purpose::STANDARD;
use dbl_base::{Bytes, Text};
use dbl_time::{is_in_years, push_zulu};
use dbl_value_types::{Val, ValueError};
use json::Writer;
use std::alloc::{AllocError, Global};

fn write_bytes(alloc: Global, writer: &mut Writer, bytes: &Bytes) -> Result<(), AllocError>
    ensures ok { OnOk result (writer.new.tokens
        ≡ writer.old.tokens ++ json_tokens (outline (json_data (Val.Bytes bytes.now)))) }
    ensures err { OnErr result (writer.new.tokens ≡ writer.old.tokens) }
    ensures before { writer.new.before ≡ writer.old.before }
{
    let text = STANDARD.encode(alloc, bytes.items().as_slice())?;
    writer.string(text.as_str())
}

fn write_instant(alloc: Global, writer: &mut Writer, instant: &i64) -> Result<(), AllocError>
    ensures ok { OnOk result (writer.new.tokens
        ≡ writer.old.tokens ++ json_tokens (outline (json_data (Val.StampTz instant.now)))) }
    ensures err { OnErr result (writer.new.tokens ≡ writer.old.tokens) }
    ensures before { writer.new.before ≡ writer.old.before }
{
    if !is_in_years(instant) {
        return writer.i64(*instant);
    }
    let mut text = String::new(alloc);
    push_zulu(&mut text, instant)?;
    writer.string(text.as_str())
}

/// Appends a value's JSON; the caller writes the separators around it.
pub fn write_json(alloc: Global, writer: &mut Writer, val: &Val) -> Result<(), AllocError>
    ensures ok { OnOk result (writer.new.tokens
        ≡ writer.old.tokens ++ json_tokens (outline (json_data val.now))) }
    ensures err { OnErr result (writer.new.tokens ≡ writer.old.tokens) }
    ensures before { writer.new.before ≡ writer.old.before }
{
    match val {
        Val::Null => writer.null(),
        Val::Bool(truth) => writer.boolean(*truth),
        Val::Int(number) => writer.i64(*number),
        Val::Text(text) => writer.string(text.as_str()),
        Val::Bytes(bytes) => write_bytes(alloc, writer, bytes),
        Val::Date(day) => writer.i64(*day as i64),
        Val::Time(micros) => writer.i64(*micros),
        Val::Stamp(moment) => writer.i64(*moment),
        Val::StampTz(instant) => write_instant(alloc, writer, instant),
    }
}

/// The JSON text of a value.
pub fn json(alloc: Global, val: &Val) -> Result<Text, ValueError>
    ensures ok { IfOk result (λ text. text ≡ json_of val.now) }
    ensures err { IfErr result (λ e. e ≡ ValueError.Memory) }
{
    let mut writer = Writer::new(Vec::new(alloc));
    write_json(alloc, &mut writer, val)?;
    match String::from_utf8(writer.into_inner()) {
        Ok(text) => Ok(Text::make(text)),
        Err(_) => unreachable!(),
    }
}
