//! Readers of rows and columns.

ghost use Rattle.std.specs.Prelude.{◌≡◌, length};
ghost use Rattle.dbl_pgmsg.specs.Reading.{Gives, cell_at, many_at, tuple_at, new_at};
ghost use Rattle.dbl_pgmsg.specs.Reading.{old_at, before_at, column_at, counted_at};

use crate::reading::{count, int8, int32, place, signed32, string, text};
use crate::{MsgError, OldTuple, RelationColumn, Tuple, TupleCell};
use dbl_base::Seq;
use dbl_pgmsg_tags::{CellKind, cell_kind};
use std::alloc::Global;

/// The minimum length of a Relation's column in bytes.
const COLUMN_BYTES: usize = 10;

#[tactic(auto, unfolding(crate::specs::Reading::cell_at))]
fn read_cell(alloc: Global, total: usize, bytes: &[u8]) -> Result<(TupleCell, &[u8]), MsgError>
    ensures { Gives (λ x. (x.0, x.1.now)) result (cell_at total bytes.now) }
{
    let [tag, rest @ ..] = bytes else {
        return Err(MsgError::Truncated { at: total as u64 });
    };
    match cell_kind(*tag) {
        Some(CellKind::Null) => Ok((TupleCell::Null, rest)),
        Some(CellKind::Unchanged) => Ok((TupleCell::Unchanged, rest)),
        Some(CellKind::Text) => {
            let (text, rest) = text(alloc, total, rest)?;
            Ok((TupleCell::Text(text), rest))
        }
        None if *tag == b'b' => Err(MsgError::BinaryColumn {
            at: place(total, bytes),
        }),
        None => Err(MsgError::BadTupleTag {
            at: place(total, bytes),
            byte: *tag,
        }),
    }
}

// Each cell has at least one byte, so a wrong count takes no more memory than the message has
// bytes.
fn read_cells(
    alloc: Global,
    total: usize,
    count: usize,
    bytes: &[u8],
) -> Result<(Vec<TupleCell>, &[u8]), MsgError>
    ensures { Gives (λ x. (x.0.items, x.1.now)) result (many_at (cell_at total) count bytes.now) }
{
    let mut cells = Vec::with_capacity(alloc, count.min(bytes.len()))?;
    let mut rest = bytes;
    for _ in 0..count {
        let (cell, after) = read_cell(alloc, total, rest)?;
        cells.push(cell)?;
        rest = after;
    }
    Ok((cells, rest))
}

#[tactic(auto, unfolding(crate::specs::Reading::tuple_at, crate::specs::Reading::counted_at))]
fn read_tuple(alloc: Global, total: usize, bytes: &[u8]) -> Result<(Tuple, &[u8]), MsgError>
    ensures { Gives (λ x. (x.0, x.1.now)) result (tuple_at total bytes.now) }
{
    let (count, rest) = count(total, bytes)?;
    let (cells, rest) = read_cells(alloc, total, count as usize, rest)?;
    Ok((
        Tuple {
            cells: Seq::make(cells),
        },
        rest,
    ))
}

/// Reads the new row of a change, tagged `N`.
#[tactic(auto, unfolding(crate::specs::Reading::new_at))]
pub fn read_new(alloc: Global, total: usize, bytes: &[u8]) -> Result<(Tuple, &[u8]), MsgError>
    ensures { Gives (λ x. (x.0, x.1.now)) result (new_at total bytes.now) }
{
    match bytes {
        [] => Err(MsgError::Truncated { at: total as u64 }),
        [b'N', rest @ ..] => read_tuple(alloc, total, rest),
        [byte, ..] => Err(MsgError::BadNewTag {
            at: place(total, bytes),
            byte: *byte,
        }),
    }
}

/// Reads the old key, tagged `K`, or the old row, tagged `O`.
#[tactic(auto, unfolding(crate::specs::Reading::old_at))]
pub fn read_old(alloc: Global, total: usize, bytes: &[u8]) -> Result<(OldTuple, &[u8]), MsgError>
    ensures { Gives (λ x. (x.0, x.1.now)) result (old_at total bytes.now) }
{
    match bytes {
        [] => Err(MsgError::Truncated { at: total as u64 }),
        [b'K', rest @ ..] => {
            let (key, rest) = read_tuple(alloc, total, rest)?;
            Ok((OldTuple::Key(key), rest))
        }
        [b'O', rest @ ..] => {
            let (row, rest) = read_tuple(alloc, total, rest)?;
            Ok((OldTuple::Whole(row), rest))
        }
        [byte, ..] => Err(MsgError::BadNewTag {
            at: place(total, bytes),
            byte: *byte,
        }),
    }
}

/// Reads what precedes the `N` of an Update.
#[tactic(auto, unfolding(crate::specs::Reading::before_at))]
pub fn read_before(
    alloc: Global,
    total: usize,
    bytes: &[u8],
) -> Result<(Option<OldTuple>, &[u8]), MsgError>
    ensures { Gives (λ x. (x.0, x.1.now)) result (before_at total bytes.now) }
{
    match bytes {
        [] => Err(MsgError::Truncated { at: total as u64 }),
        [b'N', ..] => Ok((None, bytes)),
        [_, ..] => {
            let (old, rest) = read_old(alloc, total, bytes)?;
            Ok((Some(old), rest))
        }
    }
}

#[tactic(auto, unfolding(crate::specs::Reading::column_at))]
fn read_column(
    alloc: Global,
    total: usize,
    bytes: &[u8],
) -> Result<(RelationColumn, &[u8]), MsgError>
    ensures { Gives (λ x. (x.0, x.1.now)) result (column_at total bytes.now) }
{
    let (flags, rest) = int8(total, bytes)?;
    let (name, rest) = string(alloc, total, rest)?;
    let (oid, rest) = int32(total, rest)?;
    let (modifier, rest) = signed32(total, rest)?;
    Ok((
        RelationColumn {
            flags,
            name,
            oid,
            modifier,
        },
        rest,
    ))
}

fn read_each_column(
    alloc: Global,
    total: usize,
    count: usize,
    bytes: &[u8],
) -> Result<(Vec<RelationColumn>, &[u8]), MsgError>
    ensures { Gives (λ x. (x.0.items, x.1.now)) result (many_at (column_at total) count bytes.now) }
{
    let mut columns = Vec::with_capacity(alloc, count.min(bytes.len() / COLUMN_BYTES))?;
    let mut rest = bytes;
    for _ in 0..count {
        let (column, after) = read_column(alloc, total, rest)?;
        columns.push(column)?;
        rest = after;
    }
    Ok((columns, rest))
}

/// Reads the columns of a Relation, preceded by their number.
#[tactic(auto, unfolding(crate::specs::Reading::counted_at))]
pub fn read_columns(
    alloc: Global,
    total: usize,
    bytes: &[u8],
) -> Result<(Seq<RelationColumn>, &[u8]), MsgError>
    ensures { Gives (λ x. (x.0, x.1.now)) result (counted_at (column_at total) total bytes.now) }
{
    let (count, rest) = count(total, bytes)?;
    let (columns, rest) = read_each_column(alloc, total, count as usize, rest)?;
    Ok((Seq::make(columns), rest))
}
