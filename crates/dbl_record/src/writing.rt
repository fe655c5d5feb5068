ghost use Rattle.std.specs.Prelude.{◌≡◌, ◌++◌, OnOk, IfOk, IfErr, decimal};
ghost use Rattle.std.specs.Str.{IsUtf8};
ghost use Rattle.json.specs.Print.{quoted};
ghost use Rattle.dbl_record.specs.declared.error.RecordError.TheVariants.{Memory};
ghost use Rattle.dbl_record.specs.Line.{Appends, line_of, truth_text, text_or_null, key_piece};
ghost use Rattle.dbl_record.specs.Line.{place_pieces, headers_pieces, head_pieces, tail_pieces};

use crate::error::RecordError;
use crate::record::Record;
use dbl_base::Text;
use json::Writer;
use std::alloc::{AllocError, Global};

fn append(out: &mut Vec<u8>, text: &str) -> Result<(), AllocError>
    ensures { OnOk result (Appends out.old.items out.new.items text.now) }
{
    out.extend_from_slice(text.as_bytes())?;
    Ok(())
}

fn append_truth(out: &mut Vec<u8>, truth: bool) -> Result<(), AllocError>
    ensures { OnOk result (Appends out.old.items out.new.items (truth_text truth)) }
{
    if truth {
        append(out, "true")
    } else {
        append(out, "false")
    }
}

/// Appends a name with its punctuation, and a number.
fn append_number(out: &mut Vec<u8>, name: &str, number: u64) -> Result<(), AllocError>
    ensures { OnOk result (Appends out.old.items out.new.items (name.now ++ decimal number)) }
{
    let mut buffer = itoa::Buffer::new();
    append(out, name)?;
    append(out, buffer.format(number))
}

fn append_or_null(out: &mut Vec<u8>, text: &Option<Text>) -> Result<(), AllocError>
    ensures { OnOk result (Appends out.old.items out.new.items (text_or_null text.now)) }
{
    match text {
        Some(text) => append(out, text.as_str()),
        None => append(out, "null"),
    }
}

/// Appends a header with a key and a comma, if there is a key. `name` is quoted and has its colon.
fn append_key_header(out: &mut Vec<u8>, name: &str, key: &Option<Text>) -> Result<(), AllocError>
    ensures { OnOk result (Appends out.old.items out.new.items (key_piece name.now key.now)) }
{
    match key {
        Some(key) => {
            append(out, name)?;
            append(out, key.as_str())?;
            append(out, ",")
        }
        None => Ok(()),
    }
}

fn append_place(out: &mut Vec<u8>, item: &Record) -> Result<(), AllocError>
    ensures { OnOk result (Appends out.old.items out.new.items (place_pieces item.now)) }
{
    append(out, "\"dblog.last\":")?;
    append_truth(out, item.last)?;
    append_number(out, ",\"dblog.ordinal\":", item.ordinal)?;
    append_number(out, ",\"dblog.position\":", item.position)?;
    append(out, "}")
}

fn append_headers(out: &mut Vec<u8>, item: &Record) -> Result<(), AllocError>
    ensures { OnOk result (Appends out.old.items out.new.items (headers_pieces item.now)) }
{
    append(out, "{")?;
    append_key_header(out, "\"__debezium.newkey\":", &item.newkey)?;
    append_key_header(out, "\"__debezium.oldkey\":", &item.oldkey)?;
    append_place(out, item)
}

fn append_head(out: &mut Vec<u8>, item: &Record) -> Result<(), AllocError>
    ensures { OnOk result (Appends out.old.items out.new.items (head_pieces item.now)) }
{
    append(out, "{\"headers\":")?;
    append_headers(out, item)?;
    append(out, ",\"key\":")?;
    append_or_null(out, &item.key)?;
    append(out, ",\"topic\":")
}

/// Appends a text as a JSON string; takes the buffer and returns it.
pub fn append_quoted(out: Vec<u8>, text: &str) -> Result<Vec<u8>, AllocError>
    ensures { IfOk result (λ done. Appends out.items done.items (quoted text.now)) }
{
    let mut writer = Writer::new(out);
    writer.string(text)?;
    Ok(writer.into_inner())
}

fn append_tail(out: &mut Vec<u8>, item: &Record) -> Result<(), AllocError>
    ensures { OnOk result (Appends out.old.items out.new.items (tail_pieces item.now)) }
{
    append(out, ",\"value\":")?;
    append_or_null(out, &item.value)?;
    append(out, "}")
}

/// Appends a record's line, without its newline; takes the buffer and returns it.
pub fn append_line(mut out: Vec<u8>, item: &Record) -> Result<Vec<u8>, RecordError>
    ensures line { IfOk result (λ done. done.items ≡ out.items ++ line_of item.now) }
    ensures utf8 { OnOk result (IsUtf8 (line_of item.now)) }
    ensures memory { IfErr result (λ error. error ≡ Memory) }
{
    append_head(&mut out, item)?;
    let mut quoted = append_quoted(out, item.topic.as_str())?;
    append_tail(&mut quoted, item)?;
    Ok(quoted)
}

/// Prints a record's line, without its newline.
pub fn line(alloc: Global, item: &Record) -> Result<Text, RecordError>
    ensures line { IfOk result (λ text. text ≡ line_of item.now) }
    ensures memory { IfErr result (λ error. error ≡ Memory) }
{
    let bytes = append_line(Vec::new(alloc), item)?;
    match String::from_utf8(bytes) {
        Ok(text) => Ok(Text::make(text)),
        Err(_) => unreachable!(),
    }
}
