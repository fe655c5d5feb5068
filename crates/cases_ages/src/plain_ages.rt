//! Whether a key is known and how stale a cell is, by the definitions.

ghost use Rattle.std.specs.Prelude.{◌≡◌, ◌⊎◌, ℕ, ◌≤◌, ◌<◌, IfOk, IsTrue};
ghost use Rattle.std.specs.Prelude.{IsSome, List, Some, None, length};
ghost use Rattle.std.specs.Bool.{Decides};
ghost use Rattle.std.specs.Option.{option_copied};
ghost use Rattle.dbl_record.specs.declared.acts.HeldCell.TheVariants.{Unknown};
ghost use Rattle.dbl_model_table.specs.Infos.{key_places};
ghost use Rattle.dbl_model_table.specs.Keys.{key_at};
ghost use Rattle.dbl_model_table.specs.Rows.{IsWholeFor, changes_of, all_changes};
ghost use Rattle.dbl_model_history.specs.KeyBounds.{IsUpTo};
ghost use Rattle.dbl_model_history.specs.WholeChanges.{IsTouched};
ghost use Rattle.dbl_consume_laws.specs.Ages.{HadValueWithin, IsAgedCell};
ghost use Rattle.cases_ages.specs.PlainAges.{life_of, IsWholeUpdate, IsWholeHere};

use crate::plain_rows::{are_sent, key_places, left_after};
use dbl_base::{Seq, Text};
use dbl_model_history::{given_or_nulls, is_same, key_at};
use dbl_model_table::{Body, Cell, Change, Commit, Key, TableInfo, compare};
use dbl_record::HeldCell;
use dbl_value::Val;
use std::alloc::{AllocError, Global};

// ---- known keys

/// Whether a progress record covers a key: the snapshot is done, or has reached the key or one
/// beyond it.
pub fn covers(through: &Option<Key>, done: bool, key: &Key) -> bool
    ensures { Decides result (IsTrue done ⊎ IsUpTo through.now key.now) }
{
    if done {
        return true;
    }
    is_up_to(through, key)
}

fn is_up_to(bound: &Option<Key>, key: &Key) -> bool
    ensures { Decides result (IsUpTo bound.now key.now) }
{
    match bound {
        Some(bound) => is_up_to_key(bound, key),
        None => false,
    }
}

fn is_up_to_key(bound: &Key, key: &Key) -> bool
    ensures { Decides result (IsUpTo (Some bound.now) key.now) }
{
    if is_same(key, bound) {
        return true;
    }
    compare(key, bound).is_lt()
}

fn is_at_key(
    alloc: Global,
    infos: &Vec<TableInfo>,
    table: u32,
    cells: &Seq<Val>,
    key: &Key,
) -> Result<bool, AllocError>
    ensures { IfOk result
        (λ same. Decides same (key_at (key_places infos.now.items table) cells.now ≡ key.now)) }
{
    let new_key = key_at(alloc, key_places(infos, table), cells)?;
    Ok(is_same(&new_key, key))
}

fn is_whole_update(
    alloc: Global,
    infos: &Vec<TableInfo>,
    table: u32,
    from: &Key,
    cells: &Seq<Cell>,
    key: &Key,
) -> Result<bool, AllocError>
    ensures { IfOk result
        (λ whole. Decides whole (IsWholeUpdate infos.now.items table from.now cells.now key.now)) }
{
    let row = given_or_nulls(alloc, cells)?;
    let stays = is_at_key(alloc, infos, table, &row, key)?;
    if stays {
        return Ok(are_sent(cells));
    }
    Ok(is_same(from, key))
}

fn is_whole_here(
    alloc: Global,
    infos: &Vec<TableInfo>,
    change: &Change,
    key: &Key,
) -> Result<bool, AllocError>
    ensures { IfOk result
        (λ whole. Decides whole (IsWholeHere infos.now.items change.now key.now)) }
{
    match change {
        Change::Insert { table, row } => is_at_key(alloc, infos, *table, &row.cells, key),
        Change::Update {
            table,
            key: from,
            old: _,
            cells,
        } => is_whole_update(alloc, infos, *table, from, cells, key),
        Change::Delete {
            table: _,
            key: from,
            old: _,
        } => Ok(is_same(from, key)),
        Change::Clear { table: _ } => Ok(true),
    }
}

/// Whether a change sets every cell of the row at a table and key, or ends it.
fn is_whole_for(
    alloc: Global,
    infos: &Vec<TableInfo>,
    change: &Change,
    table: u32,
    key: &Key,
) -> Result<bool, AllocError>
    ensures { IfOk result
        (λ whole. Decides whole (IsWholeFor infos.now.items change.now table key.now)) }
{
    let own = change.table();
    if own == table {
        return is_whole_here(alloc, infos, change, key);
    }
    Ok(false)
}

// Whether a change at this index, from one point in the history on and before another, is whole.
fn is_within(whole: bool, place: u64, from: u64, to: u64) -> bool
    ensures { Decides result ((from ≤ place) × (place < to) × IsTrue whole) }
{
    from <= place && place < to && whole
}

fn is_touched_in(
    alloc: Global,
    infos: &Vec<TableInfo>,
    changes: &Seq<Change>,
    from: u64,
    to: u64,
    table: u32,
    key: &Key,
) -> Result<bool, AllocError>
    ensures { IfOk result
        (λ touched. Decides touched (IsTouched infos.now.items changes.now from to table key.now)) }
{
    for (i, change) in changes.items().iter().enumerate() {
        let whole = is_whole_for(alloc, infos, change, table, key)?;
        if is_within(whole, i as u64, from, to) {
            return Ok(true);
        }
    }
    Ok(false)
}

fn is_touched_by(
    alloc: Global,
    infos: &Vec<TableInfo>,
    commit: &Commit,
    from: u64,
    to: u64,
    table: u32,
    key: &Key,
) -> Result<bool, AllocError>
    ensures { IfOk result (λ touched. Decides touched
        (IsTouched infos.now.items (changes_of commit.now) from to table key.now)) }
{
    match &commit.body {
        Body::Changes(changes) => is_touched_in(alloc, infos, changes, from, to, table, key),
        Body::Mark(_) => Ok(false),
    }
}

/// Whether some change of a history, from one point on and before another, is whole for a key.
/// Looks at each change.
pub fn is_touched(
    alloc: Global,
    infos: &Vec<TableInfo>,
    commits: &Vec<Commit>,
    from: u64,
    to: u64,
    table: u32,
    key: &Key,
) -> Result<bool, AllocError>
    ensures { IfOk result (λ touched. Decides touched
        (IsTouched infos.now.items (all_changes commits.now.items) from to table key.now)) }
{
    let mut left_from = from;
    let mut left_to = to;
    for commit in commits {
        let touched = is_touched_by(alloc, infos, commit, left_from, left_to, table, key)?;
        if touched {
            return Ok(true);
        }
        left_from = left_after(commit, left_from);
        left_to = left_after(commit, left_to);
    }
    Ok(false)
}

// ---- the staleness of a cell

fn is_text(text: &Option<Text>, wanted: Option<&Text>) -> bool
    ensures { Decides result (text.now ≡ option_copied wanted.entry) }
{
    match text {
        Some(text) => match wanted {
            Some(wanted) => text.as_str() == wanted.as_str(),
            None => false,
        },
        None => wanted.is_none(),
    }
}

fn is_so_at(text: &Option<Text>, moment: u64, from: u64, to: u64, wanted: Option<&Text>) -> bool
    ensures { Decides result ((from ≤ moment) × (moment ≤ to) ×
        (text.now ≡ option_copied wanted.entry)) }
{
    from <= moment && moment <= to && is_text(text, wanted)
}

fn is_there_at(text: &Option<Text>, moment: u64, from: u64, to: u64) -> bool
    ensures { Decides result ((from ≤ moment) × (moment ≤ to) × IsSome text.now) }
{
    from <= moment && moment <= to && text.is_some()
}

/// Whether a cell had this value at some point of a span, where its values at the points 0, 1, 2,
/// .. are these.
pub fn occurs(life: &Vec<Option<Text>>, from: u64, to: u64, wanted: Option<&Text>) -> bool
    requires { to < length life.now.items }
    ensures { Decides result
        (HadValueWithin (life_of life.now.items) from to (option_copied wanted.entry)) }
{
    for (i, text) in life.iter().enumerate() {
        if is_so_at(text, i as u64, from, to, wanted) {
            return true;
        }
    }
    false
}

// Whether the cell existed, with some text, at some point of the span.
fn was_there(life: &Vec<Option<Text>>, from: u64, to: u64) -> bool
    requires { to < length life.now.items }
    ensures { Decides result ((text : List ℕ) ×
        HadValueWithin (life_of life.now.items) from to (Some text)) }
{
    for (i, text) in life.iter().enumerate() {
        if is_there_at(text, i as u64, from, to) {
            return true;
        }
    }
    false
}

// Whether the key is unknown or the cell didn't exist at some point of the span.
fn was_lacked(known: bool, life: &Vec<Option<Text>>, from: u64, to: u64) -> bool
    requires { to < length life.now.items }
    ensures { Decides result (IsTrue known → HadValueWithin (life_of life.now.items) from to None) }
{
    if !known {
        return true;
    }
    occurs(life, from, to, None)
}

fn may_be_unknown(known: bool, life: &Vec<Option<Text>>, from: u64, to: u64) -> bool
    requires { to < length life.now.items }
    ensures { Decides result
        (IsAgedCell (IsTrue known) (life_of life.now.items) from to (Some Unknown)) }
{
    if !was_there(life, from, to) {
        return false;
    }
    was_lacked(known, life, from, to)
}

/// Whether a consumer's cell is aged within a span, where the source's cell has these values at the
/// points 0, 1, 2, ..
pub fn is_aged_cell(
    known: bool,
    life: &Vec<Option<Text>>,
    from: u64,
    to: u64,
    held: Option<&HeldCell>,
) -> bool
    requires { to < length life.now.items }
    ensures { Decides result
        (IsAgedCell (IsTrue known) (life_of life.now.items) from to (option_copied held.entry)) }
{
    match held {
        Some(HeldCell::Known(text)) => occurs(life, from, to, Some(text)),
        Some(HeldCell::Unknown) => may_be_unknown(known, life, from, to),
        None => was_lacked(known, life, from, to),
    }
}
