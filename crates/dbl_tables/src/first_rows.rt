//! The first rows of a store, in one commit of a session without a name.

ghost use Rattle.std.specs.Prelude.{List, [], ◌∷◌};
ghost use Rattle.dbl_tables_rows.specs.declared.demo_table.DemoTable.{DemoTable};
ghost use Rattle.dbl_tables_rows.specs.Acts.{Accepted};
ghost use Rattle.dbl_tables_rows.specs.Acts.Accepted.{Began};
ghost use Rattle.dbl_tables_rows.specs.Steps.Step.{Commit, Insert};
ghost use Rattle.dbl_tables.specs.FirstRows.{InsertsAfter, AnswersInsert};
ghost use Rattle.dbl_tables.specs.Stands.{IsAccepted, IsGiven, Stands};

use crate::tables::{Tables, oid_of, place_of};
use dbl_base::Seq;
use dbl_model_table::{NamedCell, TableName};
use dbl_pgmsg::Message;
use dbl_tables_changes::insert_first;
use dbl_tables_rows::{StepError, empty_size};

/// A store whose first rows are being inserted, in one commit of a session without a name. No other
/// session is open, and therefore none can block an insert.
#[derive(Drop)]
pub struct FirstRows {
    store: Tables,
    messages: Vec<Message>,
    // The size of the entry of the commit.
    size: u64,
}

impl FirstRows {
    /// Begins the commit in a store without rows and sessions. Takes no memory.
    pub fn begin(store: Tables) -> FirstRows
        ensures { (tables : List DemoTable) → Stands tables [] store →
            InsertsAfter tables (Began [] ∷ []) result }
    {
        let messages = Vec::new(store.alloc);
        FirstRows {
            store,
            messages,
            size: empty_size(),
        }
    }

    /// Inserts a row. A column that isn't named is null. After an error nothing more is known of
    /// the rows.
    pub fn insert(&mut self, table: &TableName, cells: Vec<NamedCell>) -> Result<(), StepError>
        ensures { (tables : List DemoTable) (past : List Accepted) →
            InsertsAfter tables past self.old →
            AnswersInsert tables past (Insert [] table.now cells.items) self.new result }
    {
        let Some(place) = place_of(&self.store.tables, table) else {
            return Err(StepError::UnknownTable);
        };
        let Some(rows) = self.store.tables.get_mut(place) else {
            return Err(StepError::UnknownTable);
        };
        let size = insert_first(
            self.store.alloc,
            oid_of(place),
            rows,
            &mut self.messages,
            self.size,
            cells,
        )?;
        self.size = size;
        Ok(())
    }

    /// Commits the rows, and returns the store and the change messages in order. Takes no memory.
    pub fn commit(self) -> (Tables, Seq<Message>)
        ensures ends { (tables : List DemoTable) (past : List Accepted) →
            InsertsAfter tables past self → IsAccepted tables past (Commit []) result.0 }
        ensures given { (tables : List DemoTable) (past : List Accepted) →
            InsertsAfter tables past self → IsGiven past [] result.1 }
    {
        (self.store, Seq::make(self.messages))
    }
}
