//! The store: its tables and its open sessions.

ghost use Rattle.std.specs.Prelude.{◌≡◌, ◌≤◌, ◌<◌, ◌+◌, [], List, IsTrue, IfOk, IfErr, length, map};
ghost use Rattle.std.specs.List.{position_from};
ghost use Rattle.dbl_model_table.specs.Tables.{same_name, are_distinct};
ghost use Rattle.dbl_tables_rows.specs.SourceLog.Relations.{first_oid, oid_limit};
ghost use Rattle.dbl_tables_rows.specs.declared.demo_table.DemoTable.{DemoTable};
ghost use Rattle.dbl_tables_rows.specs.Acts.{Accepted};
ghost use Rattle.dbl_tables_rows.specs.Steps.Step.{Begin};
ghost use Rattle.dbl_tables.specs.Stands.{AreMade, Stands, AnswersStep};

use dbl_base::Text;
use dbl_model_table::TableName;
use dbl_tables_changes::Session;
use dbl_tables_rows::{DemoTable, Rows, StepError, make_rows};
use std::alloc::Global;
use std::collections::BTreeMap;

/// The OID of the first table.
const FIRST_OID: u32 = 16384;

/// A small transactional store of rows: a change locks its keys, and a truncate its tables, until
/// the session ends.
#[derive(Drop)]
pub struct Tables {
    pub(crate) alloc: Global,
    pub(crate) tables: Vec<Rows>,
    pub(crate) sessions: BTreeMap<Text, Session>,
}

/// The index of the table of a name.
pub fn place_of(tables: &Vec<Rows>, name: &TableName) -> Option<usize>
    ensures { result ≡ position_from (λ rows. same_name rows.table.info.name name.now) 0
        tables.now.items }
{
    tables.iter().position(|rows| rows.table.info.name == *name)
}

/// The OID of the table at an index.
pub fn oid_of(place: usize) -> u32
    ensures { place < oid_limit → result ≡ first_oid + place }
{
    match u32::try_from(place) {
        Ok(place) => FIRST_OID.saturating_add(place),
        Err(_) => FIRST_OID,
    }
}

fn make_tables(alloc: Global, tables: Vec<DemoTable>) -> Result<Vec<Rows>, StepError>
    ensures made { IfOk result (λ made. AreMade tables.items made.items) }
    ensures memory { IfErr result (λ e. e ≡ StepError.Memory) }
{
    let mut made = Vec::new(alloc);
    for table in tables {
        made.push(make_rows(alloc, table)?)?;
    }
    Ok(made)
}

impl Tables {
    /// A store of these tables, without rows.
    pub fn make(alloc: Global, tables: Vec<DemoTable>) -> Result<Tables, StepError>
        requires few { length tables.items ≤ 64 }
        requires distinct { IsTrue (are_distinct same_name (map (λ table. table.info.name)
            tables.items)) }
        ensures stands { IfOk result (Stands tables.items []) }
        ensures memory { IfErr result (λ e. e ≡ StepError.Memory) }
    {
        Ok(Tables {
            alloc,
            tables: make_tables(alloc, tables)?,
            sessions: BTreeMap::new(alloc),
        })
    }

    /// Begins a session.
    pub fn begin(&mut self, session: &Text) -> Result<(), StepError>
        ensures { (tables : List DemoTable) (past : List Accepted) → Stands tables past self.old →
            AnswersStep tables past (Begin session.now) self.new result }
    {
        if self.sessions.contains_key(session) {
            return Err(StepError::AlreadyOpen);
        }
        let name = session.copy(self.alloc)?;
        self.sessions.insert(name, Session::make(self.alloc))?;
        Ok(())
    }
}
