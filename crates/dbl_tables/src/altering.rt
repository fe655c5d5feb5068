//! Alterations of tables, each in a commit of its own.

ghost use Rattle.std.specs.Prelude.{List};
ghost use Rattle.dbl_tables_rows.specs.declared.demo_table.DemoTable.{DemoTable};
ghost use Rattle.dbl_tables_rows.specs.Acts.{Accepted};
ghost use Rattle.dbl_tables_rows.specs.Given.{HasColumns};
ghost use Rattle.dbl_tables.specs.Stands.{Stands};
ghost use Rattle.dbl_tables.specs.Altering.{AltersUnlocked, ReplacesOne, AnswersAlter};

use crate::tables::{Tables, oid_of, place_of};
use dbl_base::Text;
use dbl_model_table::TableName;
use dbl_tables_altered::{Alteration, altered_rows};
use dbl_tables_changes::pass;
use dbl_tables_rows::{Rows, StepError, table_holder};
use std::alloc::Global;

// The table after an alteration, if no other session has a lock in it.
fn unlocked_rows(
    alloc: Global,
    oid: u32,
    session: &Text,
    rows: &Rows,
    alteration: &Alteration,
) -> Result<Rows, StepError>
    ensures { HasColumns rows.now.table.info rows.now.places →
        AltersUnlocked session.now alteration.now oid rows.now result }
{
    let altered = altered_rows(alloc, oid, rows, alteration)?;
    match pass(alloc, table_holder(rows, session)) {
        Ok(()) => Ok(altered),
        Err(error) => {
            drop(altered);
            Err(error)
        }
    }
}

fn replace(tables: &mut Vec<Rows>, place: usize, rows: Rows)
    ensures { ReplacesOne place rows tables.old.items tables.new.items }
{
    match tables.get_mut(place) {
        Some(old) => *old = rows,
        None => {}
    }
}

impl Tables {
    /// Alters a table: all its rows at once, or nothing. The session must not be open, and no other
    /// may have a lock in the table. An alteration is a commit of its own.
    pub fn alter(
        &mut self,
        session: &Text,
        table: &TableName,
        alteration: &Alteration,
    ) -> Result<(), StepError>
        ensures { (tables : List DemoTable) (past : List Accepted) → Stands tables past self.old →
            AnswersAlter tables past session.now table.now alteration.now self.old self.new
            result }
    {
        if self.sessions.contains_key(session) {
            return Err(StepError::AlreadyOpen);
        }
        let Some(place) = place_of(&self.tables, table) else {
            return Err(StepError::UnknownTable);
        };
        let Some(rows) = self.tables.get(place) else {
            return Err(StepError::UnknownTable);
        };
        let altered = unlocked_rows(self.alloc, oid_of(place), session, rows, alteration)?;
        replace(&mut self.tables, place, altered);
        Ok(())
    }
}
