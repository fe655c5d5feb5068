//! The rows of a table: at each key the committed row, and a session's lock with the row it sees.

ghost use Rattle.std.specs.Prelude.{◌≡◌, option_map, option_and_then, option_copied, OnOk};
ghost use Rattle.std.specs.BTreeMap.{get};
ghost use Rattle.dbl_model_table.specs.declared.row.Key.{Key};
ghost use Rattle.dbl_model_table.specs.Keys.{key_cmp};
ghost use Rattle.dbl_tables_rows.specs.Views.{committed_in, held_in, is_owner};
ghost use Rattle.dbl_tables_rows.specs.Changing.{HasSlot, IsInvisible, WritesLock, Settles};
ghost use Rattle.dbl_tables_rows.specs.Changing.{ReleasesKey, settled_slot, released_slot};
ghost use Rattle.dbl_tables_rows.specs.Changing.{is_empty_slot, is_empty_there};

use dbl_base::Text;
use dbl_model_table::{Key, RawRow};
use std::alloc::{AllocError, Global};
use std::collections::BTreeMap;

/// A lock, with the row that its session sees under it.
#[derive(Drop)]
pub struct Held {
    pub by: Text,
    pub row: Option<RawRow>,
}

/// The state of a key. No session sees a slot with neither part.
#[derive(Drop)]
pub struct Slot {
    pub committed: Option<RawRow>,
    pub held: Option<Held>,
}

/// The state of each key of a table.
pub type Slots = BTreeMap<Key, Slot>;

/// The row that is committed at a key.
pub fn committed_row<'a>(slots: &'a Slots, key: &Key) -> Option<&'a RawRow>
    ensures { option_map (λ row. row.cells) (option_copied result) ≡
        committed_in slots.now key.now }
{
    match slots.get(key) {
        Some(slot) => slot.committed.as_ref(),
        None => None,
    }
}

/// The lock on a key.
pub fn lock_at<'a>(slots: &'a Slots, key: &Key) -> Option<&'a Held>
    ensures { option_copied result ≡ held_in slots.now key.now }
{
    match slots.get(key) {
        Some(slot) => slot.held.as_ref(),
        None => None,
    }
}

/// Makes room for a lock on a key, which changes nothing that any session sees.
pub fn make_slot(alloc: Global, slots: &mut Slots, key: &Key) -> Result<(), AllocError>
    ensures same { IsInvisible slots.old slots.new }
    ensures there { OnOk result (HasSlot slots.new key.now) }
    ensures stay { (other : Key) → HasSlot slots.old other → HasSlot slots.new other }
{
    if slots.contains_key(key) {
        return Ok(());
    }
    let empty = Slot {
        committed: None,
        held: None,
    };
    slots.insert(key.copy(alloc)?, empty)?;
    Ok(())
}

fn put(slot: &mut Slot, held: Held)
    ensures { slot.new ≡ record slot.old { held = Some held } }
{
    slot.held = Some(held);
}

/// Locks a key for which there is room. Takes no memory.
pub fn hold(slots: &mut Slots, key: &Key, held: Held)
    requires { HasSlot slots.old key.now }
    ensures written { WritesLock key.now held slots.old slots.new }
    ensures stay { (other : Key) → HasSlot slots.old other → HasSlot slots.new other }
{
    match slots.get_mut(key) {
        Some(slot) => put(slot, held),
        None => {}
    }
}

fn is_held_by(slot: &Slot, session: &Text) -> bool
    ensures { result ≡ is_owner session.now (option_map (λ held. held.by) slot.now.held) }
{
    match &slot.held {
        Some(held) => held.by == *session,
        None => false,
    }
}

fn row_under(held: Option<Held>) -> Option<RawRow>
    ensures { result ≡ option_and_then (λ h. h.row) held }
{
    match held {
        Some(held) => held.row,
        None => None,
    }
}

fn settle_slot(slot: &mut Slot, session: &Text)
    ensures { slot.new ≡ settled_slot session.now slot.old }
{
    if !is_held_by(slot, session) {
        return;
    }
    slot.committed = row_under(slot.held.take());
}

fn release_slot(slot: &mut Slot, session: &Text)
    ensures { slot.new ≡ released_slot session.now slot.old }
{
    if !is_held_by(slot, session) {
        return;
    }
    slot.held = None;
}

fn is_empty(slot: &Slot) -> bool
    ensures { result ≡ is_empty_slot slot.now }
{
    slot.committed.is_none() && slot.held.is_none()
}

fn is_empty_at(slots: &Slots, key: &Key) -> bool
    ensures { result ≡ is_empty_there (get key_cmp slots.now key.now) }
{
    match slots.get(key) {
        Some(slot) => is_empty(slot),
        None => false,
    }
}

fn drop_if_empty(slots: &mut Slots, key: &Key)
    ensures { IsInvisible slots.old slots.new }
{
    if !is_empty_at(slots, key) {
        return;
    }
    slots.remove(key);
}

fn settle_there(slots: &mut Slots, key: &Key, session: &Text)
    ensures { Settles key.now session.now slots.old slots.new }
{
    match slots.get_mut(key) {
        Some(slot) => settle_slot(slot, session),
        None => {}
    }
}

/// Commits the row under the session's lock on a key, and releases the lock. Takes no memory.
pub fn settle(slots: &mut Slots, key: &Key, session: &Text)
    ensures { Settles key.now session.now slots.old slots.new }
{
    settle_there(slots, key, session);
    drop_if_empty(slots, key);
}

fn release_there(slots: &mut Slots, key: &Key, session: &Text)
    ensures { ReleasesKey key.now session.now slots.old slots.new }
{
    match slots.get_mut(key) {
        Some(slot) => release_slot(slot, session),
        None => {}
    }
}

/// Releases the session's lock on a key, and discards the row under it. Takes no memory.
pub fn release(slots: &mut Slots, key: &Key, session: &Text)
    ensures { ReleasesKey key.now session.now slots.old slots.new }
{
    release_there(slots, key, session);
    drop_if_empty(slots, key);
}
