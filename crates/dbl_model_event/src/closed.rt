ghost use Rattle.std.specs.Prelude.{◌≡◌};
ghost use Rattle.dbl_model_event.specs.Snapshots.{AreInKeyOrder};

use dbl_model_table::{Key, Row};
use std::collections::BTreeMap;
use std::marker::Model;

/// Rows of one table by their keys, which contracts see as the list of keys and rows, in key order.
#[derive(Drop)]
pub struct KeyedRows {
    rows: BTreeMap<Key, Row>,
}

impl Model for KeyedRows {
    ghost use Rattle.std.specs.Prelude.{List};
    ghost use Rattle.dbl_model_table.specs.declared.row.Key.{Key as SpecKey};
    ghost use Rattle.dbl_model_table.specs.declared.row.Row.{Row as SpecRow};

    ghost Value = { List (SpecKey × SpecRow) };

    ghost view = { λ r. r.rows.entries };
}

impl KeyedRows {
    /// The rows of a map, as its list of entries. Takes no memory.
    pub fn make(rows: BTreeMap<Key, Row>) -> KeyedRows
        ensures rows { result ≡ rows.entries }
        ensures ordered { AreInKeyOrder result }
    {
        // For the prover alone: the length's contract says that the map's keys ascend.
        let _count = rows.len();
        KeyedRows { rows }
    }

    /// The rows, whose list is in key order. Takes no memory.
    pub fn rows(&self) -> &BTreeMap<Key, Row>
        ensures rows { result.now.entries ≡ self.now }
        ensures ordered { AreInKeyOrder self.now }
    {
        // For the prover alone, as in `make`.
        let _count = self.rows.len();
        &self.rows
    }
}

/// A window of a table's snapshot, closed at its high watermark: the rows that were read and that
/// no change replaced.
#[derive(Drop)]
pub struct Closed {
    /// The table's index among the captured ones.
    pub table: u32,
    pub rows: KeyedRows,
    /// The last key that was read, or that of the window before if none was.
    pub through: Option<Key>,
    /// Whether the table was read to its end.
    pub done: bool,
}
