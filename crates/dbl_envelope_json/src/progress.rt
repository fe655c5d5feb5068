//! The progress record of a table's snapshot.

ghost use Rattle.std.specs.Prelude.{◌≡◌, ◌++◌, ◌∷◌, [], ◌<◌, OnOk, IfOk, IfSome, All, length};
ghost use Rattle.std.specs.String.{string_bytes};
ghost use Rattle.json.specs.Token.{boolean};
ghost use Rattle.json.specs.Tree.{json_tokens};
ghost use Rattle.serde_json.specs.Written.{outline, compact_text};
ghost use Rattle.dbl_model_table.specs.Tables.{full_name};
ghost use Rattle.dbl_model_event.specs.Snapshots.{progress_topic, progress_data, progress_record};
ghost use Rattle.dbl_envelope_json.specs.Tokens.{progress_tokens};
ghost use Rattle.dbl_envelope_json.specs.Frames.{Framed, table_data, through_data};

use crate::frame::Frame;
use crate::layout::Layout;
use crate::tokens::{text_member, write_cells, written_text};
use dbl_base::Text;
use dbl_model_table::{Identity, Key, TableName};
use dbl_record::Record;
use json::Writer;
use std::alloc::{AllocError, Global};

/// The initial capacities of the key's and the value's texts.
const KEY_CAPACITY: usize = 64;

const VALUE_CAPACITY: usize = 192;

fn full_name(alloc: Global, name: &TableName) -> Result<String, AllocError>
    ensures { IfOk result (λ text. string_bytes text ≡ full_name name.now) }
{
    format!(in alloc; "{name}")
}

fn write_key(writer: &mut Writer, table: &str) -> Result<(), AllocError>
    ensures ok { OnOk result
        (writer.new.tokens ≡ writer.old.tokens ++ json_tokens (outline (table_data table.now))) }
    ensures before { writer.new.before ≡ writer.old.before }
{
    writer.begin_object()?;
    text_member(writer, "table", table)?;
    writer.end_object()
}

fn key_text(alloc: Global, table: &str) -> Result<Text, AllocError>
    ensures { IfOk result (λ text. text ≡ compact_text (table_data table.now)) }
{
    let mut writer = Writer::new(Vec::with_capacity(alloc, KEY_CAPACITY)?);
    write_key(&mut writer, table)?;
    Ok(Text::make(written_text(writer)))
}

/// Writes the last key that was read, `null` if there is none.
fn write_last(
    alloc: Global,
    writer: &mut Writer,
    layout: &Layout,
    through: &Option<Key>,
) -> Result<(), AllocError>
    requires places { IfSome through.now
        (λ key. All (λ p. p.index < length key.cells) layout.now.key_cells) }
    ensures ok { OnOk result (writer.new.tokens ≡ writer.old.tokens
        ++ json_tokens (outline (through_data layout.now.key_cells through.now))) }
    ensures before { writer.new.before ≡ writer.old.before }
{
    match through {
        Some(key) => write_cells(alloc, writer, &layout.key_cells, &key.cells),
        None => writer.null(),
    }
}

fn write_value(
    alloc: Global,
    writer: &mut Writer,
    layout: &Layout,
    through: &Option<Key>,
    done: bool,
    table: &str,
) -> Result<(), AllocError>
    requires places { IfSome through.now
        (λ key. All (λ p. p.index < length key.cells) layout.now.key_cells) }
    ensures ok { OnOk result (writer.new.tokens ≡ writer.old.tokens
        ++ progress_tokens (boolean done)
        (json_tokens (outline (through_data layout.now.key_cells through.now))) table.now) }
    ensures before { writer.new.before ≡ writer.old.before }
{
    writer.begin_object()?;
    writer.key("done")?;
    writer.boolean(done)?;
    writer.key("last")?;
    write_last(alloc, writer, layout, through)?;
    text_member(writer, "table", table)?;
    writer.end_object()
}

fn value_json(
    alloc: Global,
    frame: &Frame<'_>,
    through: &Option<Key>,
    done: bool,
    table: &str,
) -> Result<Text, AllocError>
    requires framed { Framed frame.now }
    requires long { IfSome through.now (λ key. length key.cells ≡ length frame.now.info.now.key) }
    requires table { table.now ≡ full_name frame.now.info.now.name }
    ensures { IfOk result
        (λ text. text ≡ compact_text (progress_data frame.now.info.now through.now done)) }
{
    let mut writer = Writer::new(Vec::with_capacity(alloc, VALUE_CAPACITY)?);
    write_value(alloc, &mut writer, frame.layout, through, done, table)?;
    Ok(Text::make(written_text(writer)))
}

fn topic_text(alloc: Global, identity: &Identity) -> Result<Text, AllocError>
    ensures { IfOk result (λ text. text ≡ progress_topic identity.now) }
{
    Ok(Text::make(format!(in alloc; "{}.dblog-progress", identity.prefix)?))
}

/// The progress record of the frame's table: the last key that was read, and whether its snapshot
/// is complete.
pub fn progress_record(
    alloc: Global,
    frame: &Frame<'_>,
    ordinal: u64,
    through: &Option<Key>,
    done: bool,
) -> Result<Record, AllocError>
    requires framed { Framed frame.now }
    requires long { IfSome through.now (λ key. length key.cells ≡ length frame.now.info.now.key) }
    ensures { IfOk result (λ made. made ≡ progress_record frame.now.identity.now frame.now.info.now
        frame.now.commit.now ordinal through.now done) }
{
    let table = full_name(alloc, &frame.info.name)?;
    let key = key_text(alloc, table.as_str())?;
    let value = value_json(alloc, frame, through, done, table.as_str())?;
    let topic = topic_text(alloc, frame.identity)?;
    Ok(Record {
        topic,
        key: Some(key),
        value: Some(value),
        position: frame.commit.lsn.0,
        ordinal,
        last: true,
        newkey: None,
        oldkey: None,
    })
}
