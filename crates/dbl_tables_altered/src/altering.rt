//! A table after an alteration. All its rows are made before the table is.

ghost use Rattle.std.specs.Prelude.{OnOk, length};
ghost use Rattle.dbl_model_table.specs.Infos.{catalogue_of};
ghost use Rattle.dbl_tables_rows.specs.Given.{HasColumns};
ghost use Rattle.dbl_tables_altered.specs.Altered.{HasRoom, AltersRow, EntersRow, EntersSlot};
ghost use Rattle.dbl_tables_altered.specs.Altered.{AltersSlots, AltersRows};

use crate::Alteration;
use crate::cells::{judge_length, row_after};
use crate::columns::info_after;
use dbl_model_table::{Key, RawRow, TableInfo};
use dbl_tables_rows::{DemoTable, Rows, Slot, Slots, StepError, base, column_places};
use std::alloc::{AllocError, Global};
use std::collections::{BTreeMap, BTreeSet};

// The row after the alteration of its table, if its Insert message isn't too long.
fn altered_row(
    alloc: Global,
    oid: u32,
    info: &TableInfo,
    alteration: &Alteration,
    row: &RawRow,
) -> Result<RawRow, StepError>
    ensures { HasRoom alteration.now (length info.now.columns) →
        AltersRow alteration.now oid (catalogue_of info.now).columns row.now.cells result }
{
    let row = row_after(alloc, info, alteration, row)?;
    judge_length(alloc, oid, alteration, &row)?;
    Ok(row)
}

fn enter_row(alloc: Global, slots: &mut Slots, key: &Key, row: RawRow) -> Result<(), AllocError>
    ensures { OnOk result (EntersRow key.now row.cells slots.old slots.new) }
{
    let slot = Slot {
        committed: Some(row),
        held: None,
    };
    slots.insert(key.copy(alloc)?, slot)?;
    Ok(())
}

// Enters the committed row of a slot, if there is one, as the alteration makes it.
fn enter_slot(
    alloc: Global,
    oid: u32,
    info: &TableInfo,
    alteration: &Alteration,
    slots: &mut Slots,
    key: &Key,
    slot: &Slot,
) -> Result<(), StepError>
    ensures { HasRoom alteration.now (length info.now.columns) →
        EntersSlot alteration.now oid (catalogue_of info.now).columns key.now slot.now slots.old
        slots.new result }
{
    let Some(row) = &slot.committed else {
        return Ok(());
    };
    let altered = altered_row(alloc, oid, info, alteration, row)?;
    enter_row(alloc, slots, key, altered)?;
    Ok(())
}

// The committed rows after the alteration, without locks.
fn altered_slots(
    alloc: Global,
    oid: u32,
    info: &TableInfo,
    alteration: &Alteration,
    slots: &Slots,
) -> Result<Slots, StepError>
    ensures { HasRoom alteration.now (length info.now.columns) →
        AltersSlots alteration.now oid (catalogue_of info.now).columns slots.now result }
{
    let mut altered = BTreeMap::new(alloc);
    for (key, slot) in slots.iter() {
        enter_slot(alloc, oid, info, alteration, &mut altered, key, slot)?;
    }
    Ok(altered)
}

/// The table after an alteration, without locks. Makes each row of the table once.
pub fn altered_rows(
    alloc: Global,
    oid: u32,
    rows: &Rows,
    alteration: &Alteration,
) -> Result<Rows, StepError>
    ensures { HasColumns rows.now.table.info rows.now.places →
        AltersRows alteration.now oid rows.now result }
{
    let info = info_after(alloc, rows, alteration)?;
    let slots = altered_slots(alloc, oid, &rows.table.info, alteration, base(rows))?;
    let places = column_places(alloc, &info)?;
    Ok(Rows {
        table: DemoTable {
            info,
            full: rows.table.full,
            toast: rows.table.toast,
        },
        places,
        slots,
        cleared: None,
        holders: BTreeSet::new(alloc),
    })
}
