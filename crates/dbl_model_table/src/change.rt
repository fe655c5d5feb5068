ghost use Rattle.std.specs.Prelude.{◌≡◌};
ghost use Rattle.dbl_model_table.specs.Heads.{commit_head};
ghost use Rattle.dbl_model_table.specs.Rows.{table_of};

use crate::{Key, Row};
use dbl_base::{Lsn, Seq, Text};
use dbl_value_types::Val;

/// A cell of an update: sent with a value, or left unsent because it is stored out of line and
/// didn't change.
#[derive(Drop)]
pub enum Cell {
    Given(Val),
    Unchanged,
}

/// A change of a captured table. `table` is the table's index among the captured ones.
#[derive(Drop)]
pub enum Change {
    Insert {
        table: u32,
        row: Row,
    },
    /// `key` is the key before the update. `old` is the old row as it was sent, with Null in each
    /// unsent column, or None if no old row was sent.
    Update {
        table: u32,
        key: Key,
        old: Option<Row>,
        cells: Seq<Cell>,
    },
    /// `old` has Null in each column that wasn't sent.
    Delete {
        table: u32,
        key: Key,
        old: Row,
    },
    /// The table was truncated.
    Clear {
        table: u32,
    },
}

impl Change {
    /// The index of its table among the captured ones. Takes no memory.
    pub fn table(&self) -> u32
        ensures { result ≡ table_of self.now }
    {
        match self {
            Change::Insert { table, row: _ } => *table,
            Change::Update {
                table,
                key: _,
                old: _,
                cells: _,
            } => *table,
            Change::Delete {
                table,
                key: _,
                old: _,
            } => *table,
            Change::Clear { table } => *table,
        }
    }
}

/// What a commit did.
#[derive(Drop)]
pub enum Body {
    Changes(Seq<Change>),
    /// The one change was the watermark's, to this value.
    Mark(Text),
}

/// A committed transaction.
#[derive(Drop)]
pub struct Commit {
    /// The LSN of the commit record, which is the commit's position.
    pub lsn: Lsn,
    /// The LSN after the commit record.
    pub end_lsn: Lsn,
    /// Microseconds since 2000-01-01 UTC.
    pub time: i64,
    pub xid: u32,
    pub body: Body,
}

/// The Begin of a transaction.
#[derive(Clone, Copy)]
pub struct Head {
    /// The LSN of the commit record to come.
    pub lsn: Lsn,
    /// The commit's time, in microseconds since 2000-01-01 UTC.
    pub time: i64,
    pub xid: u32,
}

/// The end of a transaction whose changes were handed out before it.
#[derive(Drop)]
pub struct Ended {
    pub head: Head,
    /// The LSN after the commit record.
    pub end_lsn: Lsn,
    /// The value that the transaction wrote to the watermark, if it wrote one.
    pub mark: Option<Text>,
}

impl Commit {
    /// The Begin of its transaction. Takes no memory.
    pub fn head(&self) -> Head
        ensures { result ≡ commit_head self.now }
    {
        Head {
            lsn: self.lsn,
            time: self.time,
            xid: self.xid,
        }
    }
}
