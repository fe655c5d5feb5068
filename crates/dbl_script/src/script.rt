use dbl_base::{Seq, Text};
use dbl_model_table::{NamedCell, RawTable, TableName};

/// A table of the script's database. `full` selects replica identity full instead of default, texts
/// of at least `toast` bytes are stored out of line, and `line` is the number of its line, from 1.
#[derive(Debug, Drop)]
pub struct ScriptTable {
    pub raw: RawTable,
    pub full: bool,
    pub toast: u32,
    pub line: u32,
}

/// A row of the database's initial state, with the number of its line, from 1.
#[derive(Debug, Drop)]
pub struct ScriptRow {
    pub table: TableName,
    pub cells: Seq<NamedCell>,
    pub line: u32,
}

/// A statement of a session, or the end of a group of steps.
#[derive(Debug, Drop)]
pub enum Step {
    Begin {
        session: Text,
    },
    Commit {
        session: Text,
    },
    Rollback {
        session: Text,
    },
    Insert {
        session: Text,
        table: TableName,
        cells: Seq<NamedCell>,
    },
    Update {
        session: Text,
        table: TableName,
        key: Seq<NamedCell>,
        set: Seq<NamedCell>,
    },
    Delete {
        session: Text,
        table: TableName,
        key: Seq<NamedCell>,
    },
    Truncate {
        session: Text,
        tables: Seq<TableName>,
    },
    Tick,
}

/// The contents of a workload's lines, in order.
#[derive(Debug, Drop)]
pub struct Script {
    pub tables: Seq<ScriptTable>,
    pub rows: Seq<ScriptRow>,
    pub steps: Seq<Step>,
}
