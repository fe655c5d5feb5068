//! A table of the store: its rows, and which session blocks another.

ghost use Rattle.std.specs.Prelude.{◌≡◌, None, [], IfOk, not, find};
ghost use Rattle.std.specs.Prelude.{bytes_eq, option_map, option_copied};
ghost use Rattle.std.specs.BTreeMap.{IsEmpty};
ghost use Rattle.std.specs.BTreeSet.{IsOrdered};
ghost use Rattle.dbl_base.specs.Texts.{text_cmp};
ghost use Rattle.dbl_tables_rows.specs.Views.{base_of, held_in, owner_at, is_owner};
ghost use Rattle.dbl_tables_rows.specs.Views.{seen_under, seen_at};
ghost use Rattle.dbl_tables_rows.specs.Given.{HasColumns};
ghost use Rattle.dbl_tables_rows.specs.Holders.{other_than, lesser_if, IsFirstHolder};
ghost use Rattle.dbl_tables_rows.specs.Changing.{IsEnded, IsUndone, IsTruncated};

use crate::slots::{Slots, committed_row, lock_at};
use crate::{DemoTable, column_places};
use dbl_base::Text;
use dbl_model_table::{Key, RawRow};
use std::alloc::{AllocError, Global};
use std::collections::{BTreeMap, BTreeSet};
use std::mem;

/// A truncate that isn't committed: the session that truncates, and the slots before it.
#[derive(Drop)]
pub struct Cleared {
    pub by: Text,
    pub slots: Slots,
}

/// A table of the store, with each column's index by its name, and the sessions that have changed
/// rows.
#[derive(Drop)]
pub struct Rows {
    pub table: DemoTable,
    pub places: BTreeMap<Text, usize>,
    pub slots: Slots,
    pub cleared: Option<Cleared>,
    pub holders: BTreeSet<Text>,
}

/// A table without rows.
pub fn make_rows(alloc: Global, table: DemoTable) -> Result<Rows, AllocError>
    ensures table { IfOk result (λ rows. rows.table ≡ table) }
    ensures places { IfOk result (λ rows. HasColumns table.info rows.places) }
    ensures slots { IfOk result (λ rows. IsEmpty rows.slots) }
    ensures cleared { IfOk result (λ rows. rows.cleared ≡ None) }
    ensures holders { IfOk result (λ rows. rows.holders.keys ≡ []) }
{
    let places = column_places(alloc, &table.info)?;
    Ok(Rows {
        table,
        places,
        slots: BTreeMap::new(alloc),
        cleared: None,
        holders: BTreeSet::new(alloc),
    })
}

/// The slots with the committed rows: those before a truncate in progress, if there is one.
pub fn base(rows: &Rows) -> &Slots
    ensures { result.now ≡ base_of rows.now.cleared rows.now.slots }
{
    match &rows.cleared {
        Some(cleared) => &cleared.slots,
        None => &rows.slots,
    }
}

/// The session that has locked a key, by itself or with its table.
pub fn owner<'a>(rows: &'a Rows, key: &Key) -> Option<&'a Text>
    ensures { option_copied result ≡ owner_at rows.now key.now }
{
    if let Some(cleared) = &rows.cleared {
        return Some(&cleared.by);
    }
    match lock_at(&rows.slots, key) {
        Some(held) => Some(&held.by),
        None => None,
    }
}

// The row under a session's own lock, or else another row.
fn seen_under<'a>(
    slots: &'a Slots,
    session: &Text,
    key: &Key,
    committed: Option<&'a RawRow>,
) -> Option<&'a RawRow>
    ensures { option_map (λ row. row.cells) (option_copied result) ≡
        seen_under session.now (held_in slots.now key.now)
        (option_map (λ row. row.cells) (option_copied committed.entry)) }
{
    let Some(held) = lock_at(slots, key) else {
        return committed;
    };
    if held.by != *session {
        return committed;
    }
    held.row.as_ref()
}

/// The row that a session sees at a key.
pub fn seen_row<'a>(rows: &'a Rows, session: &Text, key: &Key) -> Option<&'a RawRow>
    ensures { option_map (λ row. row.cells) (option_copied result) ≡
        seen_at rows.now session.now key.now }
{
    match &rows.cleared {
        None => seen_under(&rows.slots, session, key, committed_row(&rows.slots, key)),
        Some(cleared) if cleared.by == *session => seen_under(&rows.slots, session, key, None),
        Some(cleared) => committed_row(&cleared.slots, key),
    }
}

/// The other session that blocks a session's change of a key.
pub fn key_holder<'a>(rows: &'a Rows, session: &Text, key: &Key) -> Option<&'a Text>
    ensures { option_copied result ≡ other_than session.now (owner_at rows.now key.now) }
{
    match owner(rows, key) {
        Some(owner) if *owner != *session => Some(owner),
        _ => None,
    }
}

/// The first of two names in byte order.
pub fn lesser<'a>(a: Option<&'a Text>, b: Option<&'a Text>) -> Option<&'a Text>
    ensures { option_copied result ≡ lesser_if (option_copied a.entry) (option_copied b.entry) }
{
    match (a, b) {
        (Some(a), Some(b)) => { if b.cmp(a).is_lt() { Some(b) } else { Some(a) } }
        (Some(a), None) => Some(a),
        (None, b) => b,
    }
}

fn first_other<'a>(holders: &'a BTreeSet<Text>, session: &Text) -> Option<&'a Text>
    ensures first { option_copied result ≡
        find (λ other. not (bytes_eq other session.now)) holders.now.keys }
    ensures ordered { IsOrdered text_cmp holders.now }
{
    holders.iter().find(|holder| **holder != *session)
}

/// The first in byte order of the other sessions that have a lock in the table.
pub fn table_holder<'a>(rows: &'a Rows, session: &Text) -> Option<&'a Text>
    ensures { IsFirstHolder session.now rows.now.cleared rows.now.holders (option_copied result) }
{
    let Some(cleared) = &rows.cleared else {
        return first_other(&rows.holders, session);
    };
    if cleared.by == *session {
        return None;
    }
    Some(&cleared.by)
}

/// Truncates the table for a session that no other one blocks. Copies no row and takes no memory.
pub fn truncate(alloc: Global, rows: &mut Rows, by: Text)
    ensures { IsTruncated by rows.old rows.new }
{
    let slots = mem::replace(&mut rows.slots, BTreeMap::new(alloc));
    if rows.cleared.is_some() {
        return;
    }
    rows.cleared = Some(Cleared { by, slots });
}

fn is_cleared_by(rows: &Rows, session: &Text) -> bool
    ensures { result ≡
        is_owner session.now (option_map (λ cleared. cleared.by) rows.now.cleared) }
{
    match &rows.cleared {
        Some(cleared) => cleared.by == *session,
        None => false,
    }
}

/// Ends the truncate of a session that commits: the rows before it are gone.
pub fn end(rows: &mut Rows, session: &Text)
    ensures { IsEnded session.now rows.old rows.new }
{
    rows.holders.remove(session);
    if !is_cleared_by(rows, session) {
        return;
    }
    rows.cleared = None;
}

/// Ends the truncate of a session that rolls back, and restores the rows before it.
pub fn undo(rows: &mut Rows, session: &Text)
    ensures { IsUndone session.now rows.old rows.new }
{
    rows.holders.remove(session);
    if !is_cleared_by(rows, session) {
        return;
    }
    let Some(cleared) = rows.cleared.take() else {
        return;
    };
    rows.slots = cleared.slots;
}
