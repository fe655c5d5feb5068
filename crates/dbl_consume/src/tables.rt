//! The rows of a consumer's state, and the effects of records on them.
ghost use Rattle.std.specs.Prelude.{◌≡◌, List, ℕ, Some, None, IfOk, IfErr};
ghost use Rattle.std.specs.Prelude.{OnOk, MatchResult, if◌then◌else◌};
ghost use Rattle.std.specs.Str.{bytes_eq};
ghost use Rattle.dbl_record.specs.declared.acts.ConsumeError.TheVariants.{Memory};
ghost use Rattle.dbl_record.specs.declared.acts.Act.TheVariants.{Set, Remove};
ghost use Rattle.dbl_record.specs.Consumers.{held_now, row_of, row_after_act};
ghost use Rattle.dbl_consume.specs.Rows.{row_at, row_in, cells_in};

use dbl_base::{Seq, Text};
use dbl_record::{Act, ConsumeError, GivenCell, HeldCell};
use std::alloc::{AllocError, Global};
use std::collections::BTreeMap;

/// A row's cells by column.
pub type Row = BTreeMap<Text, HeldCell>;

/// A topic's rows by key text.
pub type Table = BTreeMap<Text, Row>;

/// Tables by topic.
pub type Tables = BTreeMap<Text, Table>;

fn copy_of(alloc: Global, cell: &HeldCell) -> Result<HeldCell, AllocError>
    ensures { IfOk result (λ copy. copy ≡ cell.now) }
{
    match cell {
        HeldCell::Known(text) => Ok(HeldCell::Known(text.copy(alloc)?)),
        HeldCell::Unknown => Ok(HeldCell::Unknown),
    }
}

// The cell of a row after a change that didn't send it.
fn kept_cell(alloc: Global, row: Option<&Row>, column: &Text) -> Result<HeldCell, AllocError>
    ensures { IfOk result (λ cell. cell ≡ held_now (cells_in row.entry) column.now None) }
{
    match row {
        Some(row) => match row.get(column) {
            Some(cell) => copy_of(alloc, cell),
            None => Ok(HeldCell::Unknown),
        },
        None => Ok(HeldCell::Unknown),
    }
}

// The row after these cells are set.
fn row_of(alloc: Global, row: Option<&Row>, cells: Seq<GivenCell>) -> Result<Row, ConsumeError>
    ensures { MatchResult result (λ made. made.entries ≡ row_of (cells_in row.entry) cells)
        (λ e. e ≡ Memory) }
{
    let mut made = BTreeMap::new(alloc);
    for given in cells.into_items() {
        let GivenCell { column, text } = given;
        let held = match text {
            Some(text) => HeldCell::Known(text),
            None => kept_cell(alloc, row, &column)?,
        };
        made.insert(column, held)?;
    }
    Ok(made)
}

fn held_row<'t>(table: &'t Table, key: &Text) -> Option<&'t Row>
    ensures { cells_in result ≡ row_in table.now key.now }
{
    table.get(key)
}

fn set_row(
    alloc: Global,
    table: &mut Table,
    key: Text,
    cells: Seq<GivenCell>,
) -> Result<(), ConsumeError>
    ensures ok { OnOk result
        ((k : List ℕ) → row_in table.new k ≡ row_after_act (Set key cells) k (row_in table.old k)) }
    ensures err { IfErr result (λ e. e ≡ Memory) }
{
    let row = row_of(alloc, held_row(table, &key), cells)?;
    table.insert(key, row)?;
    Ok(())
}

fn remove_row(table: &mut Table, key: &Text)
    ensures { (k : List ℕ) →
        row_in table.new k ≡ row_after_act (Remove key.now) k (row_in table.old k) }
{
    table.remove(key);
}

fn set_first_row(
    alloc: Global,
    tables: &mut Tables,
    topic: &Text,
    key: Text,
    cells: Seq<GivenCell>,
) -> Result<(), ConsumeError>
    requires { (k : List ℕ) → row_at tables.old topic.now k ≡ None }
    ensures ok { OnOk result ((t k : List ℕ) →
        row_at tables.new t k ≡ (if bytes_eq topic.now t then row_after_act (Set key cells) k
        (row_at tables.old t k) else row_at tables.old t k)) }
    ensures err { IfErr result (λ e. e ≡ Memory) }
{
    let mut table = BTreeMap::new(alloc);
    set_row(alloc, &mut table, key, cells)?;
    tables.insert(topic.copy(alloc)?, table)?;
    Ok(())
}

fn set(
    alloc: Global,
    tables: &mut Tables,
    topic: &Text,
    key: Text,
    cells: Seq<GivenCell>,
) -> Result<(), ConsumeError>
    ensures ok { OnOk result ((t k : List ℕ) →
        row_at tables.new t k ≡ (if bytes_eq topic.now t then row_after_act (Set key cells) k
        (row_at tables.old t k) else row_at tables.old t k)) }
    ensures err { IfErr result (λ e. e ≡ Memory) }
{
    match tables.get_mut(topic) {
        Some(table) => set_row(alloc, table, key, cells),
        None => set_first_row(alloc, tables, topic, key, cells),
    }
}

fn remove(tables: &mut Tables, topic: &Text, key: &Text)
    ensures { (t k : List ℕ) → row_at tables.new t k ≡ (if bytes_eq topic.now t then row_after_act
        (Remove key.now) k (row_at tables.old t k) else row_at tables.old t k) }
{
    match tables.get_mut(topic) {
        Some(table) => remove_row(table, key),
        None => {}
    }
}

fn wipe(tables: &mut Tables, topic: &Text)
    ensures { (t k : List ℕ) →
        row_at tables.new t k ≡ (if bytes_eq topic.now t then None else row_at tables.old t k) }
{
    tables.remove(topic);
}

/// Performs an effect on the rows of a topic.
pub(crate) fn perform(
    alloc: Global,
    tables: &mut Tables,
    topic: &Text,
    act: Act,
) -> Result<(), ConsumeError>
    ensures ok { OnOk result ((t k : List ℕ) →
        row_at tables.new t k ≡ (if bytes_eq topic.now t then row_after_act act k
        (row_at tables.old t k) else row_at tables.old t k)) }
    ensures err { IfErr result (λ e. e ≡ Memory) }
{
    match act {
        Act::Nothing => Ok(()),
        Act::Set { key, cells } => set(alloc, tables, topic, key, cells),
        Act::Remove { key } => {
            remove(tables, topic, &key);
            Ok(())
        }
        Act::Wipe => {
            wipe(tables, topic);
            Ok(())
        }
    }
}
