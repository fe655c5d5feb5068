//! The values in a JSON text, found on a tape of its tokens.
ghost use Rattle.std.specs.Prelude.{◌≡◌, IfOk};
ghost use Rattle.json.specs.Json as spec;
ghost use Rattle.json.specs.Find.{HasValue, InMembers};
ghost use Rattle.dbl_consume.specs.Cells.{cells_data};
ghost use Rattle.dbl_consume.specs.JsonValues.{data_members};
ghost use Rattle.dbl_consume.specs.Parts.{HasMembers};

use json::{Element, Members, Tape};
use std::alloc::{AllocError, Global};
use std::marker::Model;

/// The initial room for an object's members.
const USUAL_MEMBERS: usize = 16;

/// A value in a JSON text, which contracts see as the tokens that begin with it.
#[derive(Drop)]
pub(crate) struct Part<'t, 'a> {
    element: Element<'t, 'a>,
}

impl<'t, 'a> Model for Part<'t, 'a> {
    ghost use Rattle.std.specs.Prelude.{List};
    ghost use Rattle.json.specs.Token.{Token, tokens_code};
    ghost use Rattle.json.specs.Find.{HasValue};

    ghost Value = { List Token };

    ghost coded = { tokens_code };

    ghost view = { λ p. p.element };

    ghost invariant = { λ p. HasValue p.element };
}

/// What a value is.
#[derive(Clone, Copy)]
pub(crate) enum ValueKind<'a> {
    Null,
    Bool(bool),
    /// The number's text.
    Number(&'a str),
    Text(&'a str),
    /// An array or an object.
    Nested,
}

fn part_of<'t, 'a>(element: Element<'t, 'a>) -> Part<'t, 'a>
    requires { HasValue element }
    ensures { result ≡ element.entry }
{
    Part { element }
}

// The members that are left, in the order of the text.
fn members_left<'t, 'a>(
    alloc: Global,
    mut members: Members<'t, 'a>,
) -> Result<Vec<(&'a str, Part<'t, 'a>)>, AllocError>
    requires { HasMembers members }
    ensures { (ms : spec.Members) → InMembers members.entry ms →
        IfOk result (λ cells. cells_data cells.items ≡ data_members ms) }
{
    let mut cells = Vec::with_capacity(alloc, USUAL_MEMBERS)?;
    'members: while let Some((name, element)) = members.next() {
        cells.push((name, part_of(element)))?;
    }
    Ok(cells)
}

impl<'t, 'a> Part<'t, 'a> {
    ghost use Rattle.std.specs.Prelude.{option_map, option_and_then, is_some};
    ghost use Rattle.serde_json.specs.Data.{no_members};
    ghost use Rattle.serde_json.specs.Find.{get, as_str, as_object, as_null};
    ghost use Rattle.dbl_consume.specs.Cells.{IsOfKind};
    ghost use Rattle.dbl_consume.specs.JsonValues.{data_at, put_all};

    /// The value that the whole text is.
    pub(crate) fn root(tape: &'t Tape<'a>) -> Part<'t, 'a>
        ensures { result ≡ tape.now }
    {
        part_of(tape.root())
    }

    pub(crate) fn is_null(&self) -> bool
        ensures { result ≡ is_some (as_null (data_at self.now)) }
    {
        self.element.is_null()
    }

    pub(crate) fn is_object(&self) -> bool
        ensures { result ≡ is_some (as_object (data_at self.now)) }
    {
        self.element.members().is_some()
    }

    pub(crate) fn kind(&self) -> ValueKind<'a>
        ensures { IsOfKind (data_at self.now) result }
    {
        if self.element.is_null() {
            return ValueKind::Null;
        }
        if let Some(truth) = self.element.as_bool() {
            return ValueKind::Bool(truth);
        }
        if let Some(text) = self.element.as_number() {
            return ValueKind::Number(text);
        }
        match self.element.as_str() {
            Some(text) => ValueKind::Text(text),
            None => ValueKind::Nested,
        }
    }

    /// The member of an object, the last of those with this name.
    pub(crate) fn member(&self, name: &str) -> Option<Part<'t, 'a>>
        ensures { option_map data_at result ≡ get name.now (data_at self.now) }
    {
        match self.element.get(name) {
            Some(element) => Some(part_of(element)),
            None => None,
        }
    }

    /// The text of a member, the last of those with this name, if it is a string.
    pub(crate) fn string(&self, name: &str) -> Option<&'a str>
        ensures { option_map (λ s. s.now) result
            ≡ option_and_then as_str (get name.now (data_at self.now)) }
    {
        match self.element.get(name) {
            Some(found) => found.as_str(),
            None => None,
        }
    }

    /// The members of an object, in the order of the text.
    pub(crate) fn members(
        &self,
        alloc: Global,
    ) -> Result<Option<Vec<(&'a str, Part<'t, 'a>)>>, AllocError>
        ensures { IfOk result (λ found.
            option_map (λ cells. put_all (cells_data cells.items) no_members) found
            ≡ as_object (data_at self.now)) }
    {
        let Some(members) = self.element.members() else {
            return Ok(None);
        };
        match members_left(alloc, members) {
            Ok(cells) => Ok(Some(cells)),
            Err(error) => Err(error),
        }
    }
}
