//! The effect of a record, and why one is refused.
ghost use Rattle.std.specs.Prelude.{◌≡◌, ◌≢◌, List, ℕ, Some, None, IfOk, IfErr, OnOk, MatchResult};
ghost use Rattle.std.specs.Prelude.{option_map, option_and_then, unwrap_or, true, false, ◌==◌};
ghost use Rattle.std.specs.Str.{bytes_eq};
ghost use Rattle.serde_json.specs.Data.{number as number_data, object};
ghost use Rattle.serde_json.specs.Events.{members_len};
ghost use Rattle.serde_json.specs.Find.{get, as_str, as_object};
ghost use Rattle.dbl_record.specs.declared.acts.ConsumeError.TheVariants.{Memory, NoKey, BadJson};
ghost use Rattle.dbl_record.specs.declared.acts.ConsumeError.TheVariants.{BadAfter};
ghost use Rattle.dbl_record.specs.Acts as spec;
ghost use Rattle.dbl_record.specs.Acts.{json_in, or_error};
ghost use Rattle.dbl_consume.specs.Answers.{Answers};
ghost use Rattle.dbl_consume.specs.Cells.{cells_data, is_supported};
ghost use Rattle.dbl_consume.specs.JsonValues.{num_of, data_at, data_or_null};
ghost use Rattle.dbl_consume.specs.Records.{recorded_as};

use crate::cells::object_cells;
use crate::numbers::{JsonNumber, number_in};
use crate::parsed::ParsedRecord;
use crate::parsing::parse_json;
use crate::part::{Part, ValueKind};
use crate::texts::{cell_text, object_text};
use dbl_base::{Seq, Text};
use dbl_record::{Act, ConsumeError, GivenCell, Operation};
use json::{Scratch, Tape};
use std::alloc::{AllocError, Global};

fn has_two<'t, 'a>(alloc: Global, value: &Part<'t, 'a>) -> Result<bool, AllocError>
    ensures { IfOk result (λ two. two ≡ unwrap_or
        (option_map (λ ms. members_len ms == 2) (as_object (data_at value.now))) false) }
{
    match object_cells(alloc, value) {
        Ok(Some(cells)) => Ok(cells.len() == 2),
        Ok(None) => Ok(false),
        Err(error) => Err(error),
    }
}

fn object_member<'t, 'a>(value: &Part<'t, 'a>, name: &str) -> Option<Part<'t, 'a>>
    ensures { option_map data_at result ≡ option_map object
        (option_and_then as_object (get name.now (data_at value.now))) }
{
    let Some(found) = value.member(name) else {
        return None;
    };
    if found.is_object() { Some(found) } else { None }
}

/// The payload of an object that consists of `schema` and `payload`, if that is an object.
fn payload<'t, 'a>(alloc: Global, value: &Part<'t, 'a>) -> Result<Option<Part<'t, 'a>>, AllocError>
    ensures { IfOk result (λ found. option_map data_at found ≡ option_map object
        (option_and_then spec.payload_of (as_object (data_at value.now)))) }
{
    if value.member("schema").is_none() {
        return Ok(None);
    }
    let two = has_two(alloc, value)?;
    if two {
        Ok(object_member(value, "payload"))
    } else {
        Ok(None)
    }
}

/// A key or a value without the schema envelope that it may have.
pub(crate) fn bare_value<'t, 'a>(
    alloc: Global,
    value: Part<'t, 'a>,
) -> Result<Part<'t, 'a>, AllocError>
    ensures { IfOk result (λ bare. data_at bare ≡ spec.bare_value (data_at value.entry)) }
{
    match payload(alloc, &value) {
        Ok(Some(inner)) => Ok(inner),
        Ok(None) => Ok(value),
        Err(error) => Err(error),
    }
}

fn operation_of(op: &str) -> Option<Operation>
    ensures { result ≡ spec.operation_of op.now }
{
    if op == "c" || op == "r" || op == "u" {
        Some(Operation::Put)
    } else if op == "d" {
        Some(Operation::Delete)
    } else if op == "t" {
        Some(Operation::Truncate)
    } else if op == "m" {
        Some(Operation::Message)
    } else {
        None
    }
}

pub(crate) fn operation_in<'t, 'a>(value: &Part<'t, 'a>) -> Result<Operation, ConsumeError>
    ensures { spec.operation_in (data_at value.now) ≡ result }
{
    match value.string("op") {
        Some(op) => match operation_of(op) {
            Some(operation) => Ok(operation),
            None => Err(ConsumeError::UnknownOp),
        },
        None => Err(ConsumeError::NoOp),
    }
}

fn check_number(alloc: Global, column: &str, number: &JsonNumber) -> Result<(), ConsumeError>
    ensures ok { OnOk result
        (spec.cell_error column.now (number_data (num_of number.now)) ≡ None) }
    ensures err { IfErr result (λ e. e ≢ Memory →
        spec.cell_error column.now (number_data (num_of number.now)) ≡ Some e) }
{
    match number {
        JsonNumber::Unsigned(_) | JsonNumber::Negative(_) => Ok(()),
        JsonNumber::Float(_) => Err(ConsumeError::FloatCell {
            column: Text::of(alloc, column)?,
        }),
    }
}

fn check_cell<'t, 'a>(alloc: Global, column: &str, cell: &Part<'t, 'a>) -> Result<(), ConsumeError>
    ensures ok { OnOk result (spec.cell_error column.now (data_at cell.now) ≡ None) }
    ensures err { IfErr result
        (λ e. e ≢ Memory → spec.cell_error column.now (data_at cell.now) ≡ Some e) }
{
    match cell.kind() {
        ValueKind::Null | ValueKind::Bool(_) | ValueKind::Text(_) => Ok(()),
        ValueKind::Number(text) => check_number(alloc, column, &number_in(text)),
        ValueKind::Nested => Err(ConsumeError::NestedCell {
            column: Text::of(alloc, column)?,
        }),
    }
}

pub(crate) fn check_cells<'t, 'a>(
    alloc: Global,
    cells: &[(&'a str, Part<'t, 'a>)],
) -> Result<(), ConsumeError>
    ensures ok { OnOk result (spec.first_error (cells_data cells.now) ≡ None) }
    ensures err { IfErr result
        (λ e. e ≢ Memory → spec.first_error (cells_data cells.now) ≡ Some e) }
{
    for cell in cells {
        match check_cell(alloc, cell.0, &cell.1) {
            Ok(()) => {}
            Err(error) => return Err(error),
        }
    }
    Ok(())
}

pub(crate) fn is_placeholder<'t, 'a>(placeholder: &Text, cell: &Part<'t, 'a>) -> bool
    ensures { result ≡ unwrap_or (option_map (λ s. bytes_eq s placeholder.now)
        (as_str (data_at cell.now))) false }
{
    match cell.kind() {
        ValueKind::Text(text) => text == placeholder.as_str(),
        _ => false,
    }
}

/// The text of a cell, or none if it wasn't sent.
fn sent_text<'t, 'a>(
    alloc: Global,
    placeholder: &Text,
    cell: &Part<'t, 'a>,
) -> Result<Option<Text>, AllocError>
    requires { is_supported (data_at cell.now) ≡ true }
    ensures { IfOk result (λ text. text ≡ spec.sent_text placeholder.now (data_at cell.now)) }
{
    if is_placeholder(placeholder, cell) {
        return Ok(None);
    }
    Ok(Some(cell_text(alloc, cell)?))
}

fn cells_of<'t, 'a>(
    alloc: Global,
    placeholder: &Text,
    cells: &[(&'a str, Part<'t, 'a>)],
) -> Result<Seq<GivenCell>, ConsumeError>
    requires { spec.first_error (cells_data cells.now) ≡ None }
    ensures { MatchResult result (λ given. given ≡ spec.cells_of placeholder.now
        (cells_data cells.now)) (λ e. e ≡ Memory) }
{
    let mut given = Vec::with_capacity(alloc, cells.len())?;
    for cell in cells {
        let column = Text::of(alloc, cell.0)?;
        given.push(GivenCell {
            column,
            text: sent_text(alloc, placeholder, &cell.1)?,
        })?;
    }
    Ok(Seq::make(given))
}

fn key_text_of<'t, 'a>(
    alloc: Global,
    cells: &[(&'a str, Part<'t, 'a>)],
) -> Result<Text, ConsumeError>
    ensures ok { IfOk result (λ text. spec.key_text (object (cells_data cells.now)) ≡ Some text) }
    ensures err { IfErr result (λ e. e ≢ Memory →
        (spec.key_text (object (cells_data cells.now)) ≡ None) × (e ≡ NoKey)) }
{
    match check_cells(alloc, cells) {
        Ok(()) => Ok(object_text(alloc, cells)?),
        Err(ConsumeError::Memory) => Err(ConsumeError::Memory),
        Err(_) => Err(ConsumeError::NoKey),
    }
}

fn key_text_in<'t, 'a>(alloc: Global, key: &Part<'t, 'a>) -> Result<Text, ConsumeError>
    ensures ok { IfOk result (λ text. spec.key_text (data_at key.now) ≡ Some text) }
    ensures err { IfErr result
        (λ e. e ≢ Memory → (spec.key_text (data_at key.now) ≡ None) × (e ≡ NoKey)) }
{
    match object_cells(alloc, key) {
        Ok(Some(cells)) => key_text_of(alloc, cells.as_slice()),
        Ok(None) => Err(ConsumeError::NoKey),
        Err(_) => Err(ConsumeError::Memory),
    }
}

pub(crate) fn key_text<'t, 'a>(
    alloc: Global,
    key: &Option<Part<'t, 'a>>,
) -> Result<Text, ConsumeError>
    ensures ok { IfOk result (λ text. spec.key_text (data_or_null key.now) ≡ Some text) }
    ensures err { IfErr result
        (λ e. e ≢ Memory → (spec.key_text (data_or_null key.now) ≡ None) × (e ≡ NoKey)) }
{
    match key {
        Some(key) => key_text_in(alloc, key),
        None => Err(ConsumeError::NoKey),
    }
}

fn set_of<'t, 'a>(
    alloc: Global,
    placeholder: &Text,
    key: Text,
    cells: &[(&'a str, Part<'t, 'a>)],
) -> Result<Act, ConsumeError>
    ensures { Answers (spec.set_of placeholder.now key (cells_data cells.now)
        (spec.first_error (cells_data cells.now))) result }
{
    match check_cells(alloc, cells) {
        Ok(()) => {}
        Err(error) => return Err(error),
    }
    let cells = cells_of(alloc, placeholder, cells)?;
    Ok(Act::Set { key, cells })
}

fn put_after<'t, 'a>(
    alloc: Global,
    placeholder: &Text,
    key: Text,
    after: &Part<'t, 'a>,
) -> Result<Act, ConsumeError>
    ensures { Answers (or_error BadAfter (λ ms. spec.set_of placeholder.now key ms
        (spec.first_error ms)) (as_object (data_at after.now))) result }
{
    match object_cells(alloc, after) {
        Ok(Some(cells)) => set_of(alloc, placeholder, key, cells.as_slice()),
        Ok(None) => Err(ConsumeError::BadAfter),
        Err(_) => Err(ConsumeError::Memory),
    }
}

fn put_of<'t, 'a>(
    alloc: Global,
    placeholder: &Text,
    key: Text,
    value: &Part<'t, 'a>,
) -> Result<Act, ConsumeError>
    ensures { Answers (spec.put_of placeholder.now (data_at value.now) key) result }
{
    match value.member("after") {
        Some(after) => put_after(alloc, placeholder, key, &after),
        None => Err(ConsumeError::BadAfter),
    }
}

fn act_by<'t, 'a>(
    alloc: Global,
    placeholder: &Text,
    key: &Option<Part<'t, 'a>>,
    value: &Part<'t, 'a>,
    operation: Operation,
) -> Result<Act, ConsumeError>
    ensures { Answers
        (spec.act_by placeholder.now (data_or_null key.now) (data_at value.now) operation) result }
{
    match operation {
        Operation::Put => match key_text(alloc, key) {
            Ok(key) => put_of(alloc, placeholder, key, value),
            Err(error) => Err(error),
        },
        Operation::Delete => match key_text(alloc, key) {
            Ok(key) => Ok(Act::Remove { key }),
            Err(error) => Err(error),
        },
        Operation::Truncate => Ok(Act::Wipe),
        Operation::Message => Ok(Act::Nothing),
    }
}

/// The effect of a record, given its key and value without schema envelopes.
fn act_of_bare<'t, 'a>(
    alloc: Global,
    placeholder: &Text,
    key: &Option<Part<'t, 'a>>,
    value: &Part<'t, 'a>,
) -> Result<Act, ConsumeError>
    ensures { Answers
        (spec.act_of_data placeholder.now (data_or_null key.now) (data_at value.now)) result }
{
    if value.is_null() {
        return Ok(Act::Nothing);
    }
    match operation_in(value) {
        Ok(operation) => act_by(alloc, placeholder, key, value, operation),
        Err(error) => Err(error),
    }
}

pub(crate) fn bare_key<'t, 'a>(
    alloc: Global,
    key: Option<Part<'t, 'a>>,
) -> Result<Option<Part<'t, 'a>>, AllocError>
    ensures { IfOk result (λ bare. data_or_null bare ≡ spec.bare_value (data_or_null key.entry)) }
{
    match key {
        Some(key) => match bare_value(alloc, key) {
            Ok(bare) => Ok(Some(bare)),
            Err(error) => Err(error),
        },
        None => Ok(None),
    }
}

/// The effect of a record, given its key, `null` if absent, and its value.
fn act_of_values<'t, 'a>(
    alloc: Global,
    placeholder: &Text,
    key: Option<Part<'t, 'a>>,
    value: Part<'t, 'a>,
) -> Result<Act, ConsumeError>
    ensures { Answers (spec.act_of_data placeholder.now
        (spec.bare_value (data_or_null key.entry)) (spec.bare_value (data_at value.entry))) result }
{
    let key = match bare_key(alloc, key) {
        Ok(key) => key,
        Err(_) => return Err(ConsumeError::Memory),
    };
    let value = match bare_value(alloc, value) {
        Ok(value) => value,
        Err(_) => return Err(ConsumeError::Memory),
    };
    act_of_bare(alloc, placeholder, &key, &value)
}

pub(crate) fn is_progress(topic: &Text) -> bool
    ensures { result ≡ spec.is_progress topic.now }
{
    topic.as_str().as_bytes().ends_with(b".dblog-progress")
}

/// The effect of a parsed record.
pub(crate) fn act_of_parsed<'a>(
    alloc: Global,
    placeholder: &Text,
    parsed: &ParsedRecord<'a>,
) -> Result<Act, ConsumeError>
    ensures { Answers (spec.act_of placeholder.now (recorded_as parsed.now)) result }
{
    if is_progress(parsed.topic()) {
        return Ok(Act::Nothing);
    }
    match parsed.value() {
        Some(value) => act_of_values(alloc, placeholder, parsed.key(), value),
        None => Ok(Act::Nothing),
    }
}

/// Parses a text as JSON.
pub(crate) fn tape_of<'a>(
    alloc: Global,
    text: &'a Text,
    scratch: &'a mut Scratch,
) -> Result<Tape<'a>, ConsumeError>
    ensures ok { IfOk result (λ tape. json_in text.now ≡ Some (data_at tape)) }
    ensures bad { IfErr result (λ e. e ≢ Memory → (json_in text.now ≡ None) × (e ≡ BadJson)) }
{
    match parse_json(alloc, text.as_str(), scratch) {
        Ok(Some(tape)) => Ok(tape),
        Ok(None) => Err(ConsumeError::BadJson),
        Err(_) => Err(ConsumeError::Memory),
    }
}

// The effect of a record, given its parsed key and the text of its value.
fn act_by_key<'a>(
    alloc: Global,
    placeholder: &Text,
    key: &Tape<'a>,
    value: &Text,
) -> Result<Act, ConsumeError>
    ensures { Answers (or_error BadJson (λ v. spec.act_of_data placeholder.now
        (spec.bare_value (data_at key.now)) (spec.bare_value v)) (json_in value.now)) result }
{
    let mut scratch = Scratch::new(alloc);
    let parsed = tape_of(alloc, value, &mut scratch);
    match parsed {
        Ok(tape) => act_of_values(alloc, placeholder, Some(Part::root(key)), Part::root(&tape)),
        Err(error) => Err(error),
    }
}

/// The effect of a record, given its texts.
#[tactic(auto, unfolding(dbl_record::specs::Acts::act_of))]
pub(crate) fn act(
    alloc: Global,
    placeholder: &Text,
    topic: &Text,
    key: &Text,
    value: &Text,
) -> Result<Act, ConsumeError>
    ensures { Answers (spec.act placeholder.now
        (record { topic = topic.now; key = key.now; value = value.now })) result }
{
    if is_progress(topic) {
        return Ok(Act::Nothing);
    }
    let mut scratch = Scratch::new(alloc);
    let parsed = tape_of(alloc, key, &mut scratch);
    match parsed {
        Ok(tape) => act_by_key(alloc, placeholder, &tape, value),
        Err(error) => Err(error),
    }
}
