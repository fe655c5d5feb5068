//! The records of each kind of change.

ghost use Rattle.std.specs.Prelude.{◌≡◌, ◌<◌, ◌≤◌, ◌+◌, ◌^◌, IfSome, IsSome, OnOk, length};
ghost use Rattle.dbl_model_table.specs.declared.change.Change.TheVariants.{Insert, Update};
ghost use Rattle.dbl_model_table.specs.declared.change.Change.TheVariants.{Delete, Clear};
ghost use Rattle.dbl_model_table.specs.Infos.{width};
ghost use Rattle.dbl_model_table.specs.Rows.{all_given};
ghost use Rattle.dbl_envelope.specs.Suits.{SuitsUpdate, SuitsDelete, SuitsTable};
ghost use Rattle.dbl_envelope_json.specs.Frames.{Framed, AppendsEvents, TellsMove};

use dbl_base::Seq;
use dbl_envelope_json::{
    Frame, Side, Stamp, created_record, deleted_record, moved_from, moved_to, tombstone,
    truncated_record, updated_record,
};
use dbl_envelope_moves::is_moved;
use dbl_model_table::{Cell, Change, Key, Row};
use dbl_record::Record;
use std::alloc::{AllocError, Global};

fn tell_insert(
    out: &mut Vec<Record>,
    alloc: Global,
    frame: &Frame<'_>,
    stamp: &Stamp,
    row: &Row,
) -> Result<(), AllocError>
    requires framed { Framed frame.now }
    requires wide { length row.now.cells ≡ width frame.now.info.now }
    ensures { OnOk result
        (AppendsEvents frame.now stamp.now (Insert 0 row.now) out.old.items out.new.items) }
{
    out.push(created_record(alloc, frame, stamp, row)?)?;
    Ok(())
}

/// Appends the delete, the tombstone and the create of a key update.
fn tell_move(
    out: &mut Vec<Record>,
    alloc: Global,
    frame: &Frame<'_>,
    stamp: &Stamp,
    key: &Key,
    old: &Option<Row>,
    cells: &Seq<Cell>,
) -> Result<(), AllocError>
    requires framed { Framed frame.now }
    requires room { stamp.now.ordinal + 2 < 2 ^ 64 }
    requires suits { SuitsUpdate frame.now.info.now key.now old.now cells.now }
    requires given { IsSome (all_given cells.now) }
    ensures { OnOk result
        (TellsMove frame.now stamp.now key.now old.now cells.now out.old.items out.new.items) }
{
    let first = Stamp {
        ordinal: stamp.ordinal,
        last: false,
    };
    let second = Stamp {
        ordinal: stamp.ordinal + 1,
        last: false,
    };
    let third = Stamp {
        ordinal: stamp.ordinal + 2,
        last: stamp.last,
    };
    out.push(moved_from(alloc, frame, &first, key, old, cells)?)?;
    out.push(tombstone(alloc, frame, &second, key)?)?;
    out.push(moved_to(alloc, frame, &third, key, cells)?)?;
    Ok(())
}

fn tell_update(
    out: &mut Vec<Record>,
    alloc: Global,
    frame: &Frame<'_>,
    stamp: &Stamp,
    key: &Key,
    old: &Option<Row>,
    cells: &Seq<Cell>,
) -> Result<(), AllocError>
    requires framed { Framed frame.now }
    requires room { stamp.now.ordinal + 2 < 2 ^ 64 }
    requires suits { SuitsUpdate frame.now.info.now key.now old.now cells.now }
    ensures { OnOk result (AppendsEvents frame.now stamp.now
        (Update 0 key.now old.now cells.now) out.old.items out.new.items) }
{
    if is_moved(frame.info, key, cells) {
        tell_move(out, alloc, frame, stamp, key, old, cells)
    } else {
        out.push(updated_record(alloc, frame, stamp, key, old, cells)?)?;
        Ok(())
    }
}

fn tell_delete(
    out: &mut Vec<Record>,
    alloc: Global,
    frame: &Frame<'_>,
    stamp: &Stamp,
    key: &Key,
    old: &Row,
) -> Result<(), AllocError>
    requires framed { Framed frame.now }
    requires room { stamp.now.ordinal + 2 < 2 ^ 64 }
    requires suits { SuitsDelete frame.now.info.now key.now old.now }
    ensures { OnOk result
        (AppendsEvents frame.now stamp.now (Delete 0 key.now old.now) out.old.items out.new.items) }
{
    let first = Stamp {
        ordinal: stamp.ordinal,
        last: false,
    };
    let subsequent = Stamp {
        ordinal: stamp.ordinal + 1,
        last: stamp.last,
    };
    out.push(deleted_record(alloc, frame, &first, key, &Side::Row(&old.cells))?)?;
    out.push(tombstone(alloc, frame, &subsequent, key)?)?;
    Ok(())
}

fn tell_clear(
    out: &mut Vec<Record>,
    alloc: Global,
    frame: &Frame<'_>,
    stamp: &Stamp,
) -> Result<(), AllocError>
    requires framed { Framed frame.now }
    ensures { OnOk result
        (AppendsEvents frame.now stamp.now (Clear 0) out.old.items out.new.items) }
{
    out.push(truncated_record(alloc, frame, stamp)?)?;
    Ok(())
}

/// Appends the records of a change of the frame's table, numbered from the stamp's ordinal on. The
/// stamp says whether the last of them is the last of its commit.
pub(crate) fn append_change_records(
    out: &mut Vec<Record>,
    alloc: Global,
    frame: &Frame<'_>,
    stamp: &Stamp,
    change: &Change,
) -> Result<(), AllocError>
    requires framed { Framed frame.now }
    requires room { stamp.now.ordinal + 2 < 2 ^ 64 }
    requires suits { SuitsTable frame.now.info.now change.now }
    ensures { OnOk result
        (AppendsEvents frame.now stamp.now change.now out.old.items out.new.items) }
{
    match change {
        Change::Insert { table: _, row } => tell_insert(out, alloc, frame, stamp, row),
        Change::Update {
            table: _,
            key,
            old,
            cells,
        } => tell_update(out, alloc, frame, stamp, key, old, cells),
        Change::Delete { table: _, key, old } => tell_delete(out, alloc, frame, stamp, key, old),
        Change::Clear { table: _ } => tell_clear(out, alloc, frame, stamp),
    }
}
