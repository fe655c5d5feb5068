ghost use Rattle.std.specs.Prelude.{◌≡◌, ◌≢◌, ◌≤◌, ◌⊎◌, Some, None, IfOk};
ghost use Rattle.std.specs.Prelude.{IfErr, option_and_then, codes};
ghost use Rattle.serde_json.specs.Data.{null, depth};
ghost use Rattle.serde_json.specs.View.{view};
ghost use Rattle.dbl_record.specs.declared.error.RecordError.TheVariants.{BadRecord, Memory};
ghost use Rattle.dbl_record.specs.Acts.{json_in};
ghost use Rattle.dbl_record.specs.Reading.{topic_in, reading_in, part_in};
ghost use Rattle.dbl_record.specs.Reading.{parsed_as, Retells, IsReadFrom};

use crate::error::RecordError;
use crate::parsed::ParsedLine;
use dbl_base::Text;
use serde_json::Value;
use std::alloc::{AllocError, Global};

/// A record as a consumer reads it: a topic, and the JSON texts of the key and the value, `null` if
/// absent.
#[derive(Drop)]
pub struct Line {
    pub topic: Text,
    pub key: Text,
    pub value: Text,
}

const BAD_RECORD: RecordError = RecordError::BadRecord { at: 0 };

#[tactic(auto, unfolding(crate::specs::Acts::json_in))]
fn value_of(alloc: Global, text: &str) -> Result<Value, RecordError>
    ensures ok { IfOk result (λ value. json_in text.now ≡ Some (view value)) }
    ensures nests { IfOk result (λ value. depth (view value) ≤ 127) }
    ensures bad { IfErr result
        (λ error. (error ≡ Memory) ⊎ ((error ≡ BadRecord 0) × (json_in text.now ≡ None))) }
{
    match Value::from_str(alloc, text) {
        Ok(value) => Ok(value),
        Err(error) => if error.is_memory() {
            Err(RecordError::Memory)
        } else {
            Err(BAD_RECORD)
        },
    }
}

fn topic_of(alloc: Global, whole: &Value) -> Result<Option<Text>, AllocError>
    ensures { IfOk result (λ topic. topic ≡ topic_in (view whole.now)) }
{
    match whole.get("topic").and_then(Value::as_str) {
        Some(text) => Ok(Some(Text::of(alloc, text)?)),
        None => Ok(None),
    }
}

// The member, or the default if it is absent.
fn part_of<'v>(whole: &'v Value, name: &str, absent: &'v Value) -> &'v Value
    requires { view absent.now ≡ null }
    ensures { view result.now ≡ part_in name.now (view whole.now) }
{
    match whole.get(name) {
        Some(part) => part,
        None => absent,
    }
}

#[tactic(auto, unfolding(crate::specs::Acts::json_in))]
fn text_of(alloc: Global, value: &Value) -> Result<Text, AllocError>
    requires { depth (view value.now) ≤ 127 }
    ensures { IfOk result (Retells (view value.now)) }
{
    Ok(Text::make(value.to_string(alloc)?))
}

fn line_with(alloc: Global, topic: Text, whole: &Value) -> Result<Line, AllocError>
    requires { depth (view whole.now) ≤ 127 }
    ensures topic { IfOk result (λ line. line.topic ≡ topic) }
    ensures key { IfOk result (λ line. Retells (part_in (codes "key") (view whole.now)) line.key) }
    ensures value { IfOk result
        (λ line. Retells (part_in (codes "value") (view whole.now)) line.value) }
{
    let absent = Value::Null;
    let key = text_of(alloc, part_of(whole, "key", &absent))?;
    let value = text_of(alloc, part_of(whole, "value", &absent))?;
    Ok(Line { topic, key, value })
}

impl ParsedLine {
    /// The record's topic.
    pub fn topic(&self) -> &Text
        ensures { result.now ≡ (parsed_as self.now).topic }
    {
        &self.topic
    }

    /// The record's key, `null` if the line has none.
    pub fn key(&self) -> &Value
        ensures { Some (view result.now) ≡ (parsed_as self.now).key }
    {
        part_of(&self.whole, "key", &self.absent)
    }

    /// The record's value, `null` if the line has none.
    pub fn value(&self) -> &Value
        ensures { Some (view result.now) ≡ (parsed_as self.now).value }
    {
        part_of(&self.whole, "value", &self.absent)
    }
}

/// Parses a record's line; members other than `topic`, `key` and `value` are ignored.
pub fn parse_line(alloc: Global, text: &str) -> Result<ParsedLine, RecordError>
    ensures ok { IfOk result (λ parsed. reading_in text.now ≡ Some (parsed_as parsed)) }
    ensures bad { IfErr result
        (λ error. error ≢ Memory → (error ≡ BadRecord 0) × (reading_in text.now ≡ None)) }
{
    let whole = match value_of(alloc, text) {
        Ok(whole) => whole,
        Err(error) => return Err(error),
    };
    match topic_of(alloc, &whole)? {
        Some(topic) => Ok(ParsedLine {
            topic,
            whole,
            absent: Value::Null,
        }),
        None => Err(BAD_RECORD),
    }
}

/// Reads the topic, the key and the value of a record's line as texts. The texts are compact if
/// their numbers are 64-bit integers.
pub fn read_line(alloc: Global, text: &Text) -> Result<Line, RecordError>
    ensures ok { IfOk result (IsReadFrom text.now) }
    ensures bad { IfErr result
        (λ error. error ≢ Memory → (error ≡ BadRecord 0) × (reading_in text.now ≡ None)) }
{
    let whole = match value_of(alloc, text.as_str()) {
        Ok(whole) => whole,
        Err(error) => return Err(error),
    };
    match topic_of(alloc, &whole)? {
        Some(topic) => Ok(line_with(alloc, topic, &whole)?),
        None => Err(BAD_RECORD),
    }
}
