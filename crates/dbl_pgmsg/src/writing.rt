//! Writers of the fields. Each appends to the buffer.

ghost use Rattle.std.specs.Prelude.{◌≡◌, ◌≤◌, ◌++◌, List, length, flat_map, OnOk, OnErr};
ghost use Rattle.std.specs.List.{AllByRecursion};
ghost use Rattle.dbl_pgmsg.specs.Grammar.{int16, int32, int64, signed32, signed64, string};
ghost use Rattle.dbl_pgmsg.specs.Grammar.{cell, tuple, old_tuple, optional_tuple, column};
ghost use Rattle.dbl_pgmsg.specs.Grammar.{FitsCell, FitsTuple, FitsOld, FitsOptional};
ghost use Rattle.dbl_pgmsg.specs.Room.{Appends, Begins};

use crate::{OldTuple, RelationColumn, Tuple, TupleCell};
use dbl_base::Text;
use std::alloc::AllocError;

/// Appends a big-endian 16-bit number.
#[tactic(auto, using(crate::proofs::Fronts::begins_same, crate::proofs::Fronts::begins_front), unfolding(crate::specs::Grammar::int16))]
pub fn int16(out: &mut Vec<u8>, number: u16) -> Result<(), AllocError>
    ensures written { OnOk result (Appends out.old.items (int16 number) out.new.items) }
    ensures kept { OnErr result (Begins out.old.items out.new.items) }
{
    out.extend_from_slice(&number.to_be_bytes())
}

/// Appends a big-endian 32-bit number.
#[tactic(auto, using(crate::proofs::Fronts::begins_same, crate::proofs::Fronts::begins_front), unfolding(crate::specs::Grammar::int32))]
pub fn int32(out: &mut Vec<u8>, number: u32) -> Result<(), AllocError>
    ensures written { OnOk result (Appends out.old.items (int32 number) out.new.items) }
    ensures kept { OnErr result (Begins out.old.items out.new.items) }
{
    out.extend_from_slice(&number.to_be_bytes())
}

/// Appends a big-endian 64-bit number.
#[tactic(auto, using(crate::proofs::Fronts::begins_same, crate::proofs::Fronts::begins_front), unfolding(crate::specs::Grammar::int64))]
pub fn int64(out: &mut Vec<u8>, number: u64) -> Result<(), AllocError>
    ensures written { OnOk result (Appends out.old.items (int64 number) out.new.items) }
    ensures kept { OnErr result (Begins out.old.items out.new.items) }
{
    out.extend_from_slice(&number.to_be_bytes())
}

/// Appends a signed 32-bit number in two's complement.
#[tactic(auto, using(crate::proofs::Fronts::begins_same, crate::proofs::Fronts::begins_front))]
pub fn signed32(out: &mut Vec<u8>, number: &i32) -> Result<(), AllocError>
    ensures written { OnOk result (Appends out.old.items (signed32 number.now) out.new.items) }
    ensures kept { OnErr result (Begins out.old.items out.new.items) }
{
    int32(out, number.cast_unsigned())
}

/// Appends a signed 64-bit number in two's complement.
#[tactic(auto, using(crate::proofs::Fronts::begins_same, crate::proofs::Fronts::begins_front))]
pub fn signed64(out: &mut Vec<u8>, number: &i64) -> Result<(), AllocError>
    ensures written { OnOk result (Appends out.old.items (signed64 number.now) out.new.items) }
    ensures kept { OnErr result (Begins out.old.items out.new.items) }
{
    int64(out, number.cast_unsigned())
}

/// Appends a zero-terminated text.
#[tactic(auto, using(crate::proofs::Fronts::begins_same, crate::proofs::Fronts::begins_front), unfolding(crate::specs::Grammar::string))]
pub fn string(out: &mut Vec<u8>, text: &Text) -> Result<(), AllocError>
    ensures written { OnOk result (Appends out.old.items (string text.now) out.new.items) }
    ensures kept { OnErr result (Begins out.old.items out.new.items) }
{
    out.extend_from_slice(text.as_str().as_bytes())?;
    out.push(0)?;
    Ok(())
}

#[tactic(auto, using(crate::proofs::Fronts::begins_same, crate::proofs::Fronts::begins_front), unfolding(crate::specs::Grammar::cell))]
fn write_cell(out: &mut Vec<u8>, item: &TupleCell) -> Result<(), AllocError>
    requires { FitsCell item.now }
    ensures written { OnOk result (Appends out.old.items (cell item.now) out.new.items) }
    ensures kept { OnErr result (Begins out.old.items out.new.items) }
{
    match item {
        TupleCell::Null => out.extend_from_slice(b"n"),
        TupleCell::Unchanged => out.extend_from_slice(b"u"),
        TupleCell::Text(text) => {
            let text = text.as_str();
            out.extend_from_slice(b"t")?;
            int32(out, text.len() as u32)?;
            out.extend_from_slice(text.as_bytes())
        }
    }
}

fn write_cells(out: &mut Vec<u8>, cells: &[TupleCell]) -> Result<(), AllocError>
    requires { AllByRecursion FitsCell cells.now }
    ensures written { OnOk result (Appends out.old.items (flat_map cell cells.now) out.new.items) }
    ensures kept { OnErr result (Begins out.old.items out.new.items) }
{
    for item in cells {
        write_cell(out, item)?;
    }
    Ok(())
}

/// Appends the cells of a row, preceded by their number.
#[tactic(auto, using(crate::proofs::Fronts::begins_same, crate::proofs::Fronts::begins_front), unfolding(crate::specs::Grammar::tuple))]
pub fn write_tuple(out: &mut Vec<u8>, row: &Tuple) -> Result<(), AllocError>
    requires { FitsTuple row.now }
    ensures written { OnOk result (Appends out.old.items (tuple row.now) out.new.items) }
    ensures kept { OnErr result (Begins out.old.items out.new.items) }
{
    let cells = row.cells.items();
    int16(out, cells.len() as u16)?;
    write_cells(out, cells)
}

/// Appends the old key or the old row, with its tag.
#[tactic(auto, using(crate::proofs::Fronts::begins_same, crate::proofs::Fronts::begins_front), unfolding(crate::specs::Grammar::old_tuple))]
pub fn write_old(out: &mut Vec<u8>, old: &OldTuple) -> Result<(), AllocError>
    requires { FitsOld old.now }
    ensures written { OnOk result (Appends out.old.items (old_tuple old.now) out.new.items) }
    ensures kept { OnErr result (Begins out.old.items out.new.items) }
{
    match old {
        OldTuple::Key(row) => {
            out.extend_from_slice(b"K")?;
            write_tuple(out, row)
        }
        OldTuple::Whole(row) => {
            out.extend_from_slice(b"O")?;
            write_tuple(out, row)
        }
    }
}

/// Appends the old key or row of an Update, if it has one.
#[tactic(auto, using(crate::proofs::Fronts::begins_same, crate::proofs::Fronts::begins_front))]
pub fn write_before(out: &mut Vec<u8>, before: &Option<OldTuple>) -> Result<(), AllocError>
    requires { FitsOptional before.now }
    ensures written { OnOk result
        (Appends out.old.items (optional_tuple before.now) out.new.items) }
    ensures kept { OnErr result (Begins out.old.items out.new.items) }
{
    match before {
        None => Ok(()),
        Some(old) => write_old(out, old),
    }
}

fn write_column(out: &mut Vec<u8>, item: &RelationColumn) -> Result<(), AllocError>
    ensures written { OnOk result (Appends out.old.items (column item.now) out.new.items) }
    ensures kept { OnErr result (Begins out.old.items out.new.items) }
{
    out.extend_from_slice(&[item.flags])?;
    string(out, &item.name)?;
    int32(out, item.oid)?;
    signed32(out, &item.modifier)
}

/// Appends the columns of a Relation.
pub fn write_columns(out: &mut Vec<u8>, columns: &[RelationColumn]) -> Result<(), AllocError>
    ensures written { OnOk result
        (Appends out.old.items (flat_map column columns.now) out.new.items) }
    ensures kept { OnErr result (Begins out.old.items out.new.items) }
{
    for item in columns {
        write_column(out, item)?;
    }
    Ok(())
}

/// Appends the OIDs of a Truncate.
pub fn write_oids(out: &mut Vec<u8>, oids: &[u32]) -> Result<(), AllocError>
    ensures written { OnOk result (Appends out.old.items (flat_map int32 oids.now) out.new.items) }
    ensures kept { OnErr result (Begins out.old.items out.new.items) }
{
    for oid in oids {
        int32(out, *oid)?;
    }
    Ok(())
}
