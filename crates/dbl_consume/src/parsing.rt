//! JSON texts and records' lines, parsed without a copy of their texts.
ghost use Rattle.std.specs.Prelude.{◌≡◌, ◌≤◌, IsTrue, IfOk, map, option_map, is_some, codes};
ghost use Rattle.std.specs.Prelude.{if◌then◌else◌};
ghost use Rattle.json.specs.Lex.{tokens};
ghost use Rattle.json.specs.Tape.{node_token};
ghost use Rattle.serde_json.specs.Find.{get};
ghost use Rattle.dbl_record.specs.Acts.{json_in};
ghost use Rattle.dbl_record.specs.Reading.{topic_in, reading_in};
ghost use Rattle.dbl_consume.specs.JsonValues.{data_at, token_is_in_range, tokens_are_in_range};
ghost use Rattle.dbl_consume.specs.JsonValues.{opened_by, opened_in};
ghost use Rattle.dbl_consume.specs.Parts.{IsShallow};
ghost use Rattle.dbl_consume.specs.Records.{recorded_as};

use crate::numbers::number_of;
use crate::parsed::ParsedRecord;
use crate::part::Part;
use dbl_base::Text;
use json::{Error, Node, Scratch, Tape};
use serde_json::Value;
use std::alloc::{AllocError, Global};

/// The number of levels that arrays and objects may nest, which is serde_json's limit.
const MAX_DEPTH: usize = 127;

fn is_in_range<'a>(node: &Node<'a>) -> bool
    ensures { result ≡ token_is_in_range (node_token node.now) }
{
    match node {
        Node::Number(text) => number_of(*text).is_some(),
        _ => true,
    }
}

// Whether no number is beyond the range of 64-bit floats.
fn are_in_range<'a>(nodes: &[Node<'a>]) -> bool
    ensures { result ≡ tokens_are_in_range (map node_token nodes.now) }
{
    for node in nodes {
        if !is_in_range(node) {
            return false;
        }
    }
    true
}

fn is_opening<'a>(node: &Node<'a>) -> bool
    ensures { opened_by (node_token node.now) ≡ (if result then 1 else 0) }
{
    match node {
        Node::Object(_) | Node::Array(_) => true,
        _ => false,
    }
}

// Whether so few arrays and objects begin that they can't nest too deep.
fn are_few_opened<'a>(nodes: &[Node<'a>]) -> bool
    ensures { IsTrue result → opened_in (map node_token nodes.now) ≤ 127 }
{
    let mut left = MAX_DEPTH;
    for node in nodes {
        if is_opening(node) {
            if left == 0 {
                return false;
            }
            left -= 1;
        }
    }
    true
}

#[tactic(auto, unfolding(dbl_record::specs::Acts::json_in))]
fn is_json(alloc: Global, text: &str) -> Result<bool, AllocError>
    ensures { IfOk result (λ is. is ≡ is_some (json_in text.now)) }
{
    match Value::from_str(alloc, text) {
        Ok(_) => Ok(true),
        Err(error) => if error.is_memory() {
            Err(AllocError)
        } else {
            Ok(false)
        },
    }
}

fn is_shallow<'a>(alloc: Global, text: &str, tape: &Tape<'a>) -> Result<bool, AllocError>
    requires { tape.now ≡ tokens text.now }
    ensures { IfOk result (λ shallow. IsShallow shallow text.now) }
{
    if are_few_opened(tape.nodes()) {
        return Ok(true);
    }
    is_json(alloc, text)
}

/// Parses a text as JSON (RFC 8259); none if it isn't JSON, nests more than 127 levels, or has a
/// number beyond the range of 64-bit floats, which serde_json doesn't parse. The tape borrows the
/// text and the scratch. A text of more than 4 GiB is reported as out of memory.
pub(crate) fn parse_json<'a>(
    alloc: Global,
    text: &'a str,
    scratch: &'a mut Scratch,
) -> Result<Option<Tape<'a>>, AllocError>
    ensures { IfOk result (λ found. option_map data_at found ≡ json_in text.now) }
{
    let tape = match Tape::parse(text, scratch, Vec::new(alloc)) {
        Ok(tape) => tape,
        Err(Error::Invalid) => return Ok(None),
        Err(_) => return Err(AllocError),
    };
    let shallow = is_shallow(alloc, text, &tape)?;
    if !shallow {
        return Ok(None);
    }
    if are_in_range(tape.nodes()) {
        Ok(Some(tape))
    } else {
        Ok(None)
    }
}

fn topic_of<'a>(alloc: Global, tape: &Tape<'a>) -> Result<Option<Text>, AllocError>
    ensures { IfOk result (λ topic. topic ≡ topic_in (data_at tape.now)) }
{
    match Part::root(tape).string("topic") {
        Some(text) => Ok(Some(Text::of(alloc, text)?)),
        None => Ok(None),
    }
}

impl<'a> ParsedRecord<'a> {
    /// The record's topic.
    pub(crate) fn topic(&self) -> &Text
        ensures { result.now ≡ (recorded_as self.now).topic }
    {
        &self.topic
    }

    /// The record's key, if the line has one.
    pub(crate) fn key<'t>(&'t self) -> Option<Part<'t, 'a>>
        ensures { option_map data_at result ≡ get (codes "key") (data_at self.now.tape) }
    {
        Part::root(&self.tape).member("key")
    }

    /// The record's value, if the line has one.
    pub(crate) fn value<'t>(&'t self) -> Option<Part<'t, 'a>>
        ensures { option_map data_at result ≡ get (codes "value") (data_at self.now.tape) }
    {
        Part::root(&self.tape).member("value")
    }
}

/// Parses a record's line; members other than `topic`, `key` and `value` are ignored. None if the
/// line isn't a JSON object with a string `topic`. The scratch is for later lines.
pub fn parse_record<'a>(
    alloc: Global,
    line: &'a str,
    scratch: &'a mut Scratch,
) -> Result<Option<ParsedRecord<'a>>, AllocError>
    ensures { IfOk result (λ found. option_map recorded_as found ≡ reading_in line.now) }
{
    let tape = match parse_json(alloc, line, scratch) {
        Ok(Some(tape)) => tape,
        Ok(None) => return Ok(None),
        Err(error) => return Err(error),
    };
    match topic_of(alloc, &tape)? {
        Some(topic) => Ok(Some(ParsedRecord { topic, tape })),
        None => Ok(None),
    }
}
