//! How a planned change is applied: each step that can run out of memory comes before any visible
//! one.

ghost use Rattle.std.specs.Prelude.{◌≡◌, OnOk, OnErr};
ghost use Rattle.std.specs.List.{AllByRecursion};
ghost use Rattle.dbl_tables_rows.specs.Changing.{HasSlot};
ghost use Rattle.dbl_tables_changes.specs.Written.{WritesAll};
ghost use Rattle.dbl_tables_changes.specs.Taking.{HasMadeRoom, AreReady, Joins};
ghost use Rattle.dbl_tables_changes.specs.Taking.{IsAdded, IsUnjoined, TakesChange, IsUntaken};

use crate::planned::{Planned, Write};
use crate::sessions::Session;
use dbl_base::Text;
use dbl_pgmsg::Message;
use dbl_tables_rows::{HeldKey, Rows, Slots, hold, list_key, make_slot};
use std::alloc::{AllocError, Global};
use std::collections::BTreeSet;

// Makes room for each write, and lists its key, with no visible effect.
fn make_ready(
    alloc: Global,
    place: usize,
    slots: &mut Slots,
    keys: &mut Vec<HeldKey>,
    writes: &[Write],
) -> Result<(), AllocError>
    ensures same { HasMadeRoom slots.old slots.new keys.old.items keys.new.items }
    ensures ready { OnOk result (AreReady place writes.now slots.new keys.new.items) }
{
    for write in writes {
        list_key(alloc, keys, place, &write.key)?;
        make_slot(alloc, slots, &write.key)?;
    }
    Ok(())
}

fn hold_all(slots: &mut Slots, writes: Vec<Write>)
    requires { AllByRecursion (λ write. HasSlot slots.old write.key) writes.items }
    ensures { WritesAll writes.items slots.old slots.new }
{
    for write in writes {
        let Write { key, held } = write;
        hold(slots, &key, held);
    }
}

// Adds a session to those with a lock in a table.
fn add_holder(alloc: Global, holders: &mut BTreeSet<Text>, name: &Text) -> Result<(), AllocError>
    ensures added { OnOk result (IsAdded name.now holders.old holders.new) }
    ensures kept { OnErr result (holders.new.keys ≡ holders.old.keys) }
{
    let holder = name.copy(alloc)?;
    holders.insert(holder)?;
    Ok(())
}

// Adds a message to a session, and the session to those with a lock in the table: both or neither.
fn join(
    alloc: Global,
    rows: &mut Rows,
    session: &mut Session,
    name: &Text,
    message: Message,
    size: u64,
) -> Result<(), AllocError>
    ensures joined { OnOk result (Joins name.now message size rows.old rows.new session.old
        session.new) }
    ensures kept { OnErr result (IsUnjoined rows.old rows.new session.old session.new) }
{
    let count = session.messages.len();
    session.messages.push(message)?;
    match add_holder(alloc, &mut rows.holders, name) {
        Ok(()) => {
            session.size = size;
            Ok(())
        }
        Err(error) => {
            session.messages.truncate(count);
            Err(error)
        }
    }
}

/// Applies a planned change of a table's rows.
pub fn take(
    alloc: Global,
    place: usize,
    rows: &mut Rows,
    session: &mut Session,
    name: &Text,
    planned: Planned,
) -> Result<(), AllocError>
    ensures taken { OnOk result (TakesChange place name.now planned rows.old rows.new session.old
        session.new) }
    ensures kept { OnErr result (IsUntaken rows.old rows.new session.old session.new) }
{
    let Planned {
        message,
        size,
        writes,
    } = planned;
    make_ready(
        alloc,
        place,
        &mut rows.slots,
        &mut session.keys,
        writes.as_slice(),
    )?;
    join(alloc, rows, session, name, message, size)?;
    hold_all(&mut rows.slots, writes);
    Ok(())
}
