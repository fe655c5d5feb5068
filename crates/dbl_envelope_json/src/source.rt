ghost use Rattle.std.specs.Prelude.{◌≡◌, ◌++◌, [], ◌∷◌, OnOk, IfOk, codes};
ghost use Rattle.std.specs.Fmt.{signed_decimal};
ghost use Rattle.json.specs.Token.{begin_object, key, number};
ghost use Rattle.json.specs.Tree.{json_tokens};
ghost use Rattle.serde_json.specs.Written.{outline};
ghost use Rattle.dbl_model_event.specs.EventJson.{source_data, milliseconds_of};
ghost use Rattle.dbl_envelope_json.specs.Tokens.{first_tokens, last_tokens, tail_tokens};
ghost use Rattle.dbl_envelope_json.specs.Frames.{tail_text};

use crate::tokens::{i64_member, null_member, text_member, u64_member, written_text};
use dbl_base::Text;
use dbl_model_event::milliseconds;
use dbl_model_table::{Commit, Identity, TableName};
use json::Writer;
use std::alloc::{AllocError, Global};

/// The initial capacity of a tail.
const TAIL_CAPACITY: usize = 320;

fn write_names(
    writer: &mut Writer,
    identity: &Identity,
    table: &TableName,
    commit: &Commit,
) -> Result<(), AllocError>
    ensures ok { OnOk result (writer.new.tokens
        ≡ writer.old.tokens ++ begin_object ∷ first_tokens identity.now table.now commit.now) }
    ensures before { writer.new.before ≡ writer.old.before }
{
    writer.begin_object()?;
    text_member(writer, "connector", "postgresql")?;
    text_member(writer, "db", identity.db.as_str())?;
    u64_member(writer, "lsn", commit.lsn.0)?;
    text_member(writer, "name", identity.prefix.as_str())?;
    text_member(writer, "schema", table.schema.as_str())
}

fn time_member(writer: &mut Writer, time: &i64) -> Result<(), AllocError>
    ensures ok { OnOk result (writer.new.tokens
        ≡ writer.old.tokens ++ key (codes "ts_ms") ∷ number
        (signed_decimal (milliseconds_of time.now)) ∷ []) }
    ensures before { writer.new.before ≡ writer.old.before }
{
    writer.key("ts_ms")?;
    writer.i64(milliseconds(*time))
}

fn write_place(
    writer: &mut Writer,
    table: &TableName,
    commit: &Commit,
    snapshot: &str,
) -> Result<(), AllocError>
    ensures ok { OnOk result
        (writer.new.tokens ≡ writer.old.tokens ++ last_tokens table.now commit.now snapshot.now) }
    ensures before { writer.new.before ≡ writer.old.before }
{
    text_member(writer, "snapshot", snapshot)?;
    text_member(writer, "table", table.name.as_str())?;
    time_member(writer, &commit.time)?;
    u64_member(writer, "txId", commit.xid as u64)?;
    text_member(writer, "version", "1.0")?;
    null_member(writer, "xmin")?;
    writer.end_object()
}

/// Writes the `source` of the events of a commit on a table.
fn write_source(
    writer: &mut Writer,
    identity: &Identity,
    table: &TableName,
    commit: &Commit,
    snapshot: &str,
) -> Result<(), AllocError>
    ensures ok { OnOk result (writer.new.tokens ≡ writer.old.tokens
        ++ json_tokens (outline (source_data identity.now table.now commit.now snapshot.now))) }
    ensures before { writer.new.before ≡ writer.old.before }
{
    write_names(writer, identity, table, commit)?;
    write_place(writer, table, commit, snapshot)
}

fn write_tail(
    writer: &mut Writer,
    identity: &Identity,
    table: &TableName,
    commit: &Commit,
    snapshot: &str,
    now_ms: &i64,
) -> Result<(), AllocError>
    ensures ok { OnOk result (writer.new.tokens ≡ writer.old.tokens
        ++ tail_tokens identity.now table.now commit.now snapshot.now now_ms.now) }
    ensures before { writer.new.before ≡ writer.old.before }
{
    writer.key("source")?;
    write_source(writer, identity, table, commit, snapshot)?;
    null_member(writer, "transaction")?;
    i64_member(writer, "ts_ms", now_ms)?;
    writer.end_object()
}

/// The JSON text from `source` on that is common to the values of a commit's events of a table;
/// `snapshot` says whether they are snapshot records.
pub fn tail_text(
    alloc: Global,
    identity: &Identity,
    table: &TableName,
    commit: &Commit,
    snapshot: &str,
    now_ms: &i64,
) -> Result<Text, AllocError>
    ensures { IfOk result
        (λ text. text ≡ tail_text identity.now table.now commit.now snapshot.now now_ms.now) }
{
    let mut writer = Writer::new(Vec::with_capacity(alloc, TAIL_CAPACITY)?);
    write_tail(&mut writer, identity, table, commit, snapshot, now_ms)?;
    Ok(Text::make(written_text(writer)))
}
