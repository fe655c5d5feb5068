//! Readers of rows and steps.

ghost use Rattle.std.specs.Prelude.{◌≡◌, ◌∷◌};
ghost use Rattle.dbl_script.specs.Reads.{Reads, Gives, all_of};
ghost use Rattle.dbl_script.specs.Texts.{table_name_of};
ghost use Rattle.dbl_script.specs.Grammar.{row_in, alone, insert_in, update_in};
ghost use Rattle.dbl_script.specs.Grammar.{delete_in, truncate_in, verb_in, step_in};

use crate::cells::{cells, key_cells};
use crate::fault::Fault;
use crate::parts::Parts;
use crate::words::{is_word, session, table_name};
use crate::{ScriptRow, Step};
use dbl_base::{Seq, Text};
use dbl_model_table::TableName;
use std::alloc::Global;

/// Reads a row from the words after `row`.
#[tactic(auto, unfolding(crate::specs::Grammar::row_in))]
pub fn row(alloc: Global, line: u32, words: &mut Parts<'_>) -> Result<ScriptRow, Fault>
    ensures { Reads (row_in line words.old) result }
{
    let word = words.expect_part()?;
    let table = table_name(alloc, word)?;
    let cells = cells(alloc, words)?;
    Ok(ScriptRow { table, cells, line })
}

/// The step, if no words are left.
pub fn alone(step: Step, words: &mut Parts<'_>) -> Result<Step, Fault>
    ensures { Reads (alone step words.old) result }
{
    match words.next_part() {
        None => Ok(step),
        Some(_) => Err(Fault::Bad),
    }
}

#[tactic(auto, unfolding(crate::specs::Grammar::insert_in))]
fn insert(alloc: Global, session: Text, words: &mut Parts<'_>) -> Result<Step, Fault>
    ensures { Reads (insert_in session words.old) result }
{
    let word = words.expect_part()?;
    let table = table_name(alloc, word)?;
    let cells = cells(alloc, words)?;
    Ok(Step::Insert {
        session,
        table,
        cells,
    })
}

#[tactic(auto, unfolding(crate::specs::Grammar::update_in))]
fn update(alloc: Global, session: Text, words: &mut Parts<'_>) -> Result<Step, Fault>
    ensures { Reads (update_in session words.old) result }
{
    let word = words.expect_part()?;
    let table = table_name(alloc, word)?;
    let key = key_cells(alloc, words)?;
    let set = cells(alloc, words)?;
    Ok(Step::Update {
        session,
        table,
        key,
        set,
    })
}

#[tactic(auto, unfolding(crate::specs::Grammar::delete_in))]
fn delete(alloc: Global, session: Text, words: &mut Parts<'_>) -> Result<Step, Fault>
    ensures { Reads (delete_in session words.old) result }
{
    let word = words.expect_part()?;
    let table = table_name(alloc, word)?;
    let key = cells(alloc, words)?;
    Ok(Step::Delete {
        session,
        table,
        key,
    })
}

fn all_tables(alloc: Global, words: &mut Parts<'_>) -> Result<Vec<TableName>, Fault>
    ensures { Gives (λ v. v.items) result (all_of table_name_of words.old) }
{
    let mut tables = Vec::new(alloc);
    'words: while let Some(word) = words.next_part() {
        let table = table_name(alloc, word)?;
        tables.push(table)?;
    }
    Ok(tables)
}

#[tactic(auto, unfolding(crate::specs::Grammar::truncate_in, crate::specs::Reads::some_of))]
fn truncate(alloc: Global, session: Text, words: &mut Parts<'_>) -> Result<Step, Fault>
    ensures { Reads (truncate_in session words.old) result }
{
    let tables = all_tables(alloc, words)?;
    if tables.is_empty() {
        return Err(Fault::Bad);
    }
    Ok(Step::Truncate {
        session,
        tables: Seq::make(tables),
    })
}

#[tactic(auto, unfolding(crate::specs::Grammar::verb_in))]
fn act(alloc: Global, session: Text, verb: &[u8], words: &mut Parts<'_>) -> Result<Step, Fault>
    ensures { Reads (verb_in session verb.now words.old) result }
{
    if is_word(verb, "begin") {
        alone(Step::Begin { session }, words)
    } else if is_word(verb, "commit") {
        alone(Step::Commit { session }, words)
    } else if is_word(verb, "rollback") {
        alone(Step::Rollback { session }, words)
    } else if is_word(verb, "insert") {
        insert(alloc, session, words)
    } else if is_word(verb, "update") {
        update(alloc, session, words)
    } else if is_word(verb, "delete") {
        delete(alloc, session, words)
    } else if is_word(verb, "truncate") {
        truncate(alloc, session, words)
    } else {
        Err(Fault::Bad)
    }
}

/// Reads a step from the session's name and the words after it.
#[tactic(auto, unfolding(crate::specs::Grammar::step_in))]
pub fn step(alloc: Global, first: &[u8], words: &mut Parts<'_>) -> Result<Step, Fault>
    ensures { Reads (step_in first.now words.old) result }
{
    let verb = words.expect_part()?;
    let session = session(alloc, first)?;
    act(alloc, session, verb, words)
}
