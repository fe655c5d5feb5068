//! Steps of sessions: each is judged and planned whole, and then applied.

ghost use Rattle.std.specs.Prelude.{List};
ghost use Rattle.dbl_tables_rows.specs.declared.demo_table.DemoTable.{DemoTable};
ghost use Rattle.dbl_tables_rows.specs.Acts.{Accepted};
ghost use Rattle.dbl_tables_rows.specs.Steps.{Step, table_judged};
ghost use Rattle.dbl_tables_rows.specs.Steps.Step.{Insert, Update, Delete};
ghost use Rattle.dbl_tables.specs.Stands.{Stands, AnswersStep};
ghost use Rattle.dbl_tables.specs.Places.{PlacesFor, IsPlannedAt};

use crate::tables::{Tables, oid_of, place_of};
use dbl_base::Text;
use dbl_model_table::{NamedCell, TableName};
use dbl_tables_changes::{Planned, plan_delete, plan_insert, plan_update, take};
use dbl_tables_rows::StepError;

impl Tables {
    fn place_for(&self, session: &Text, table: &TableName) -> Result<usize, StepError>
        ensures { (tables : List DemoTable) (past : List Accepted) → Stands tables past self.now →
            PlacesFor (table_judged tables past session.now table.now) self.now.tables.items
            result }
    {
        if !self.sessions.contains_key(session) {
            return Err(StepError::NotOpen);
        }
        match place_of(&self.tables, table) {
            Some(place) => Ok(place),
            None => Err(StepError::UnknownTable),
        }
    }

    fn take_at(&mut self, session: &Text, place: usize, planned: Planned) -> Result<(), StepError>
        ensures { (tables : List DemoTable) (past : List Accepted) (call : Step) →
            Stands tables past self.old → IsPlannedAt tables past call session.now place
            self.old.tables.items planned → AnswersStep tables past call self.new result }
    {
        let alloc = self.alloc;
        let Some(state) = self.sessions.get_mut(session) else {
            drop(planned);
            return Err(StepError::NotOpen);
        };
        let Some(rows) = self.tables.get_mut(place) else {
            drop(planned);
            return Err(StepError::UnknownTable);
        };
        take(alloc, place, rows, state, session, planned)?;
        Ok(())
    }

    /// Inserts a row for a session. A column that isn't named is null.
    pub fn insert(
        &mut self,
        session: &Text,
        table: &TableName,
        cells: &Vec<NamedCell>,
    ) -> Result<(), StepError>
        ensures { (tables : List DemoTable) (past : List Accepted) → Stands tables past self.old →
            AnswersStep tables past (Insert session.now table.now cells.now.items) self.new result }
    {
        let place = self.place_for(session, table)?;
        let Some(state) = self.sessions.get(session) else {
            return Err(StepError::NotOpen);
        };
        let Some(rows) = self.tables.get(place) else {
            return Err(StepError::UnknownTable);
        };
        let oid = oid_of(place);
        let planned = plan_insert(self.alloc, oid, rows, session, state, cells.as_slice())?;
        self.take_at(session, place, planned)
    }

    /// Updates the row with a key for a session: the cells of `set` replace the row's.
    pub fn update(
        &mut self,
        session: &Text,
        table: &TableName,
        key: &Vec<NamedCell>,
        set: &Vec<NamedCell>,
    ) -> Result<(), StepError>
        ensures { (tables : List DemoTable) (past : List Accepted) → Stands tables past self.old →
            AnswersStep tables past
            (Update session.now table.now key.now.items set.now.items) self.new
            result }
    {
        let place = self.place_for(session, table)?;
        let Some(state) = self.sessions.get(session) else {
            return Err(StepError::NotOpen);
        };
        let Some(rows) = self.tables.get(place) else {
            return Err(StepError::UnknownTable);
        };
        let oid = oid_of(place);
        let planned = plan_update(
            self.alloc,
            oid,
            rows,
            session,
            state,
            key.as_slice(),
            set.as_slice(),
        )?;
        self.take_at(session, place, planned)
    }

    /// Deletes the row with a key for a session.
    pub fn delete(
        &mut self,
        session: &Text,
        table: &TableName,
        key: &Vec<NamedCell>,
    ) -> Result<(), StepError>
        ensures { (tables : List DemoTable) (past : List Accepted) → Stands tables past self.old →
            AnswersStep tables past (Delete session.now table.now key.now.items) self.new result }
    {
        let place = self.place_for(session, table)?;
        let Some(state) = self.sessions.get(session) else {
            return Err(StepError::NotOpen);
        };
        let Some(rows) = self.tables.get(place) else {
            return Err(StepError::UnknownTable);
        };
        let oid = oid_of(place);
        let planned = plan_delete(self.alloc, oid, rows, session, state, key.as_slice())?;
        self.take_at(session, place, planned)
    }
}
