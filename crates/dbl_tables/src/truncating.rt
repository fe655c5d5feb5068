//! Truncates, which look at the named tables only, and at no row.

ghost use Rattle.std.specs.Prelude.{◌≡◌, ◌≤◌, ℕ, List, IfOk, option_copied};
ghost use Rattle.std.specs.Prelude.{replicate, vec_len, length, slice_get};
ghost use Rattle.dbl_tables_rows.specs.declared.demo_table.DemoTable.{DemoTable};
ghost use Rattle.dbl_tables_rows.specs.Acts.{Accepted};
ghost use Rattle.dbl_tables_rows.specs.Steps.Step.{Truncate};
ghost use Rattle.dbl_tables.specs.Stands.{Stands, AnswersStep};
ghost use Rattle.dbl_model_table.specs.declared.table.TableName.{TableName};
ghost use Rattle.dbl_tables.specs.Truncates.{PlacesOf, IsHolderAt, FindsFirst, TruncatesOne};
ghost use Rattle.dbl_tables.specs.Truncates.{TruncatesAll, TruncatesAt, IsCut, Cuts};

use crate::tables::{Tables, oid_of, place_of};
use dbl_base::{Seq, Text};
use dbl_model_table::TableName;
use dbl_pgmsg::Message;
use dbl_tables_changes::pass;
use dbl_tables_rows::{Rows, StepError, grown_size, lesser, table_holder, truncate};
use std::alloc::{AllocError, Global};

// The indices of tables, or a refusal if one doesn't exist.
fn places_of(
    alloc: Global,
    tables: &Vec<Rows>,
    names: &[TableName],
) -> Result<Seq<usize>, StepError>
    ensures { PlacesOf tables.now.items names.now result }
{
    let mut places = Vec::new(alloc);
    for name in names {
        let Some(place) = place_of(tables, name) else {
            return Err(StepError::UnknownTable);
        };
        places.push(place)?;
    }
    Ok(Seq::make(places))
}

fn truncate_message(alloc: Global, places: &[usize]) -> Result<Message, AllocError>
    ensures { IfOk result (λ message. TruncatesAt places.now message) }
{
    let mut oids = Vec::new(alloc);
    for place in places {
        oids.push(oid_of(*place))?;
    }
    Ok(Message::Truncate {
        options: 0,
        oids: Seq::make(oids),
    })
}

fn holder_at<'a>(tables: &'a Vec<Rows>, place: usize, session: &Text) -> Option<&'a Text>
    ensures { IsHolderAt session.now (slice_get tables.now.items place) (option_copied result) }
{
    match tables.get(place) {
        Some(rows) => table_holder(rows, session),
        None => None,
    }
}

fn holder_of<'a>(tables: &'a Vec<Rows>, places: &[usize], session: &Text) -> Option<&'a Text>
    ensures { FindsFirst session.now tables.now.items places.now (option_copied result) }
{
    let mut first = None;
    for place in places {
        first = lesser(first, holder_at(tables, *place, session));
    }
    first
}

fn copies(alloc: Global, name: &Text, count: usize) -> Result<Vec<Text>, AllocError>
    ensures { IfOk result (λ names. names.items ≡ replicate count name.now) }
{
    let mut names = Vec::new(alloc);
    for _place in 0..count {
        names.push(name.copy(alloc)?)?;
    }
    Ok(names)
}

fn truncate_at(alloc: Global, tables: &mut Vec<Rows>, place: usize, name: Text)
    ensures { TruncatesOne name place tables.old.items tables.new.items }
{
    match tables.get_mut(place) {
        Some(rows) => truncate(alloc, rows, name),
        None => {}
    }
}

// Truncates each table once for each index, by a name for each. Takes no memory.
fn truncate_all(alloc: Global, tables: &mut Vec<Rows>, places: &[usize], mut names: Vec<Text>)
    ensures { (session : List ℕ) → names.items ≡ replicate (length places.now) session →
        TruncatesAll session places.now tables.old.items tables.new.items }
{
    for place in places {
        let Some(name) = names.pop() else {
            return;
        };
        truncate_at(alloc, tables, *place, name);
    }
}

/// A planned truncate: its message, the size of the entry with it, the indices of its tables, and
/// the session's name for each.
#[derive(Drop)]
pub struct Cut {
    pub message: Message,
    pub size: u64,
    pub places: Seq<usize>,
    pub names: Vec<Text>,
}

impl Tables {
    // Plans a truncate. Nothing is changed.
    fn plan_truncate(&self, session: &Text, tables: &[TableName]) -> Result<Cut, StepError>
        ensures { (all : List DemoTable) (past : List Accepted) → Stands all past self.now →
            Cuts all past session.now tables.now self.now.tables.items result }
    {
        let alloc = self.alloc;
        let Some(state) = self.sessions.get(session) else {
            return Err(StepError::NotOpen);
        };
        let places = places_of(alloc, &self.tables, tables)?;
        let message = truncate_message(alloc, places.items().as_slice())?;
        let Some(size) = grown_size(state.size, &message) else {
            drop(message);
            return Err(StepError::BadRow);
        };
        match pass(
            alloc,
            holder_of(&self.tables, places.items().as_slice(), session),
        ) {
            Ok(()) => {}
            Err(error) => {
                drop(message);
                return Err(error);
            }
        }
        let Ok(names) = copies(alloc, session, places.items().len()) else {
            drop(message);
            return Err(StepError::Memory);
        };
        Ok(Cut {
            message,
            size,
            places,
            names,
        })
    }

    fn cut(&mut self, session: &Text, cut: Cut) -> Result<(), StepError>
        ensures { (all : List DemoTable) (past : List Accepted) (names : List TableName) →
            Stands all past self.old → IsCut all past session.now names self.old.tables.items cut →
            AnswersStep all past (Truncate session.now names) self.new result }
    {
        let Cut {
            message,
            size,
            places,
            names,
        } = cut;
        let alloc = self.alloc;
        let Some(state) = self.sessions.get_mut(session) else {
            drop(message);
            return Err(StepError::NotOpen);
        };
        state.messages.push(message)?;
        state.size = size;
        truncate_all(alloc, &mut self.tables, places.items().as_slice(), names);
        Ok(())
    }

    /// Truncates tables for a session, all of them or none.
    pub fn truncate(&mut self, session: &Text, tables: &Vec<TableName>) -> Result<(), StepError>
        requires { 1 ≤ vec_len tables.now }
        ensures { (all : List DemoTable) (past : List Accepted) → Stands all past self.old →
            AnswersStep all past (Truncate session.now tables.now.items) self.new result }
    {
        let cut = self.plan_truncate(session, tables.as_slice())?;
        self.cut(session, cut)
    }
}
