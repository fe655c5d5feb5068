//! Whether a writer accepts a commit's changes.

ghost use Rattle.std.specs.Prelude.{◌≡◌, ◌⊎◌, All, IfSome, IsSome, length};
ghost use Rattle.std.specs.List.{list_all};
ghost use Rattle.std.specs.Bool.{Decides};
ghost use Rattle.dbl_model_table.specs.Infos.{width};
ghost use Rattle.dbl_model_table.specs.Keys.{new_key_of};
ghost use Rattle.dbl_model_table.specs.Rows.{changes_of, all_given};
ghost use Rattle.dbl_model_event.specs.ModelHistory.PlainRows.{is_sent};
ghost use Rattle.dbl_envelope.specs.Suits.{Suits, SuitsTable, SuitsUpdate, SuitsDelete};
ghost use Rattle.dbl_envelope.specs.Suits.{SuitsRows, SuitsChunk, SuitsSnapshot};

use crate::changes::changes;
use crate::writer::EventWriter;
use dbl_base::Seq;
use dbl_envelope_json::is_key_of;
use dbl_model_event::{Closed, KeyedRows};
use dbl_model_table::{Cell, Change, Commit, Key, Row, TableInfo};
use dbl_value::Val;

fn is_wide(info: &TableInfo, cells: &Seq<Val>) -> bool
    ensures { Decides result (length cells.now ≡ width info.now) }
{
    cells.items().len() == info.columns.items().len()
}

fn is_old_wide(info: &TableInfo, old: &Option<Row>) -> bool
    ensures { Decides result (IfSome old.now (λ row. length row.cells ≡ width info.now)) }
{
    match old {
        Some(row) => is_wide(info, &row.cells),
        None => true,
    }
}

fn is_sent_wide(info: &TableInfo, cells: &Seq<Cell>) -> bool
    ensures { Decides result (length cells.now ≡ width info.now) }
{
    cells.items().len() == info.columns.items().len()
}

fn is_long(info: &TableInfo, key: &Key) -> bool
    ensures { Decides result (length key.now.cells ≡ length info.now.key) }
{
    key.cells.items().len() == info.key.items().len()
}

fn is_given(cell: &Cell) -> bool
    ensures { result ≡ is_sent cell.now }
{
    match cell {
        Cell::Given(_) => true,
        Cell::Unchanged => false,
    }
}

fn are_given(cells: &Seq<Cell>) -> bool
    ensures { result ≡ list_all is_sent cells.now }
{
    cells.items().iter().all(is_given)
}

fn stays_or_moves(info: &TableInfo, key: &Key, cells: &Seq<Cell>) -> bool
    requires long { length key.now.cells ≡ length info.now.key }
    requires wide { length cells.now ≡ width info.now }
    ensures { Decides result ((key.now ≡ new_key_of info.now cells.now) ⊎
        IsSome (all_given cells.now)) }
{
    if is_key_of(info, key, cells) {
        return true;
    }
    are_given(cells)
}

fn suits_update(info: &TableInfo, key: &Key, old: &Option<Row>, cells: &Seq<Cell>) -> bool
    ensures { Decides result (SuitsUpdate info.now key.now old.now cells.now) }
{
    if !is_old_wide(info, old) {
        return false;
    }
    if !is_long(info, key) {
        return false;
    }
    if !is_sent_wide(info, cells) {
        return false;
    }
    stays_or_moves(info, key, cells)
}

fn suits_delete(info: &TableInfo, key: &Key, old: &Row) -> bool
    ensures { Decides result (SuitsDelete info.now key.now old.now) }
{
    if !is_long(info, key) {
        return false;
    }
    is_wide(info, &old.cells)
}

fn suits_table(info: &TableInfo, change: &Change) -> bool
    ensures { Decides result (SuitsTable info.now change.now) }
{
    match change {
        Change::Insert { table: _, row } => is_wide(info, &row.cells),
        Change::Update {
            table: _,
            key,
            old,
            cells,
        } => suits_update(info, key, old, cells),
        Change::Delete { table: _, key, old } => suits_delete(info, key, old),
        Change::Clear { table: _ } => true,
    }
}

fn suits_change(writer: &EventWriter, change: &Change) -> bool
    ensures { Decides result (Suits writer.now.infos change.now) }
{
    let table = change.table() as usize;
    if table >= writer.count() {
        return false;
    }
    suits_table(writer.info_at(table), change)
}

fn suits_through(info: &TableInfo, through: &Option<Key>) -> bool
    ensures { Decides result (IfSome through.now (λ key. length key.cells ≡ length info.now.key)) }
{
    match through {
        Some(key) => is_long(info, key),
        None => true,
    }
}

fn suits_row(info: &TableInfo, key: &Key, row: &Row) -> bool
    ensures { Decides result ((length key.now.cells ≡ length info.now.key) ×
        (length row.now.cells ≡ width info.now)) }
{
    if !is_long(info, key) {
        return false;
    }
    is_wide(info, &row.cells)
}

fn suits_rows(info: &TableInfo, rows: &KeyedRows) -> bool
    ensures { Decides result (SuitsRows info.now rows.now) }
{
    for (key, row) in rows.rows().iter() {
        if !suits_row(info, key, row) {
            return false;
        }
    }
    true
}

fn suits_chunk(info: &TableInfo, closed: &Closed) -> bool
    ensures { Decides result (SuitsChunk info.now closed.now) }
{
    if !suits_through(info, &closed.through) {
        return false;
    }
    suits_rows(info, &closed.rows)
}

impl EventWriter {
    /// Whether the writer accepts the commit's changes.
    pub fn suits(&self, commit: &Commit) -> bool
        ensures { Decides result (All (Suits self.now.infos) (changes_of commit.now)) }
    {
        for change in changes(commit) {
            if !suits_change(self, change) {
                return false;
            }
        }
        true
    }

    /// Whether the writer accepts the window.
    pub fn suits_snapshot(&self, closed: &Closed) -> bool
        ensures { Decides result (SuitsSnapshot self.now.infos closed.now) }
    {
        let table = closed.table as usize;
        if table >= self.count() {
            return false;
        }
        suits_chunk(self.info_at(table), closed)
    }
}
