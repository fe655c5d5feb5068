//! The kind of a record's effect, for callers that don't need the cells: none is copied.
ghost use Rattle.std.specs.Prelude.{◌≡◌, ◌≢◌, Ok, Err, is_some, IfOk, IfErr};
ghost use Rattle.serde_json.specs.Find.{as_object};
ghost use Rattle.dbl_record.specs.declared.acts.ConsumeError.TheVariants.{Memory, BadJson};
ghost use Rattle.dbl_record.specs.declared.acts.ConsumeError.TheVariants.{BadAfter};
ghost use Rattle.dbl_record.specs.Acts as spec;
ghost use Rattle.dbl_record.specs.Acts.{json_in, or_error};
ghost use Rattle.dbl_consume.specs.Answers.{Answers};
ghost use Rattle.dbl_consume.specs.Cells.{cells_data};
ghost use Rattle.dbl_consume.specs.JsonValues.{data_at, data_or_null};
ghost use Rattle.dbl_consume.specs.Kinds as kinds;
ghost use Rattle.dbl_consume.specs.Kinds.{are_sent, kind_in};

use crate::acting::{
    bare_key, bare_value, check_cells, is_placeholder, is_progress, key_text, operation_in, tape_of,
};
use crate::cells::object_cells;
use crate::kinds::Kind;
use crate::part::Part;
use dbl_base::Text;
use dbl_record::{ConsumeError, Operation};
use json::{Scratch, Tape};
use std::alloc::Global;

fn is_sent<'t, 'a>(placeholder: &Text, cell: &Part<'t, 'a>) -> bool
    ensures { result ≡ is_some (spec.sent_text placeholder.now (data_at cell.now)) }
{
    !is_placeholder(placeholder, cell)
}

fn are_sent<'t, 'a>(placeholder: &Text, cells: &[(&'a str, Part<'t, 'a>)]) -> bool
    ensures { result ≡ are_sent (spec.cells_of placeholder.now (cells_data cells.now)) }
{
    for cell in cells {
        if !is_sent(placeholder, &cell.1) {
            return false;
        }
    }
    true
}

fn set_kind<'t, 'a>(
    alloc: Global,
    placeholder: &Text,
    key: Text,
    cells: &[(&'a str, Part<'t, 'a>)],
) -> Result<Kind, ConsumeError>
    ensures { Answers (kind_in (spec.set_of placeholder.now key (cells_data cells.now)
        (spec.first_error (cells_data cells.now)))) result }
{
    match check_cells(alloc, cells) {
        Ok(()) => {}
        Err(error) => return Err(error),
    }
    Ok(Kind::Set {
        key,
        whole: are_sent(placeholder, cells),
    })
}

fn kind_after<'t, 'a>(
    alloc: Global,
    placeholder: &Text,
    key: Text,
    after: &Part<'t, 'a>,
) -> Result<Kind, ConsumeError>
    ensures { Answers (kind_in (or_error BadAfter (λ ms. spec.set_of placeholder.now key ms
        (spec.first_error ms)) (as_object (data_at after.now)))) result }
{
    match object_cells(alloc, after) {
        Ok(Some(cells)) => set_kind(alloc, placeholder, key, cells.as_slice()),
        Ok(None) => Err(ConsumeError::BadAfter),
        Err(_) => Err(ConsumeError::Memory),
    }
}

fn put_kind<'t, 'a>(
    alloc: Global,
    placeholder: &Text,
    key: Text,
    value: &Part<'t, 'a>,
) -> Result<Kind, ConsumeError>
    ensures { Answers (kind_in (spec.put_of placeholder.now (data_at value.now) key)) result }
{
    match value.member("after") {
        Some(after) => kind_after(alloc, placeholder, key, &after),
        None => Err(ConsumeError::BadAfter),
    }
}

fn kind_by<'t, 'a>(
    alloc: Global,
    placeholder: &Text,
    key: &Option<Part<'t, 'a>>,
    value: &Part<'t, 'a>,
    operation: Operation,
) -> Result<Kind, ConsumeError>
    ensures { Answers (kind_in
        (spec.act_by placeholder.now (data_or_null key.now) (data_at value.now) operation)) result }
{
    match operation {
        Operation::Put => match key_text(alloc, key) {
            Ok(key) => put_kind(alloc, placeholder, key, value),
            Err(error) => Err(error),
        },
        Operation::Delete => match key_text(alloc, key) {
            Ok(key) => Ok(Kind::Remove { key }),
            Err(error) => Err(error),
        },
        Operation::Truncate => Ok(Kind::Wipe),
        Operation::Message => Ok(Kind::Nothing),
    }
}

// The kind of a record's effect, given its key and value without schema envelopes.
fn kind_of_bare<'t, 'a>(
    alloc: Global,
    placeholder: &Text,
    key: &Option<Part<'t, 'a>>,
    value: &Part<'t, 'a>,
) -> Result<Kind, ConsumeError>
    ensures { Answers (kind_in
        (spec.act_of_data placeholder.now (data_or_null key.now) (data_at value.now))) result }
{
    if value.is_null() {
        return Ok(Kind::Nothing);
    }
    match operation_in(value) {
        Ok(operation) => kind_by(alloc, placeholder, key, value, operation),
        Err(error) => Err(error),
    }
}

// The kind of a record's effect, given its key, `null` if absent, and its value.
fn kind_of_values<'t, 'a>(
    alloc: Global,
    placeholder: &Text,
    key: Option<Part<'t, 'a>>,
    value: Part<'t, 'a>,
) -> Result<Kind, ConsumeError>
    ensures { Answers (kind_in (spec.act_of_data placeholder.now
        (spec.bare_value (data_or_null key.entry)) (spec.bare_value (data_at value.entry))))
        result }
{
    let key = match bare_key(alloc, key) {
        Ok(key) => key,
        Err(_) => return Err(ConsumeError::Memory),
    };
    let value = match bare_value(alloc, value) {
        Ok(value) => value,
        Err(_) => return Err(ConsumeError::Memory),
    };
    kind_of_bare(alloc, placeholder, &key, &value)
}

// The kind of a record's effect, given its parsed key and the text of its value.
fn kind_by_key<'a>(
    alloc: Global,
    placeholder: &Text,
    key: &Tape<'a>,
    value: &Text,
) -> Result<Kind, ConsumeError>
    ensures { Answers (kind_in (or_error BadJson (λ v. spec.act_of_data placeholder.now
        (spec.bare_value (data_at key.now)) (spec.bare_value v)) (json_in value.now))) result }
{
    let mut scratch = Scratch::new(alloc);
    let parsed = tape_of(alloc, value, &mut scratch);
    match parsed {
        Ok(tape) => kind_of_values(alloc, placeholder, Some(Part::root(key)), Part::root(&tape)),
        Err(error) => Err(error),
    }
}

/// The kind of the effect of a record: a topic, and the JSON texts of a key and a value. A record
/// is refused for the same reasons as by `Consumer::apply`.
#[tactic(auto, unfolding(dbl_record::specs::Acts::act_of))]
pub fn kind(
    alloc: Global,
    placeholder: &Text,
    topic: &Text,
    key: &Text,
    value: &Text,
) -> Result<Kind, ConsumeError>
    ensures kind { IfOk result (λ kind. kinds.kind placeholder.now
        (record { topic = topic.now; key = key.now; value = value.now }) ≡ Ok kind) }
    ensures refused { IfErr result (λ e. e ≢ Memory → kinds.kind placeholder.now
        (record { topic = topic.now; key = key.now; value = value.now }) ≡ Err e) }
{
    if is_progress(topic) {
        return Ok(Kind::Nothing);
    }
    let mut scratch = Scratch::new(alloc);
    let parsed = tape_of(alloc, key, &mut scratch);
    match parsed {
        Ok(tape) => kind_by_key(alloc, placeholder, &tape, value),
        Err(error) => Err(error),
    }
}
