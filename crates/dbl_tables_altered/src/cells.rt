//! A row's cells after an alteration.

ghost use Rattle.std.specs.Prelude.{◌≡◌, ◌≤◌, ◌++◌, IfOk, OnOk, length, nat_lt};
ghost use Rattle.dbl_pgmsg.specs.Grammar.{spelling, message_limit};
ghost use Rattle.dbl_model_table.specs.Infos.{catalogue_of};
ghost use Rattle.dbl_tables_rows.specs.Sending.{insert_message};
ghost use Rattle.dbl_tables_altered.specs.Alterations.{added_cells, cells_left, row_after};
ghost use Rattle.dbl_tables_altered.specs.Altered.{cell_left, IsNarrow, JudgesLength};

use crate::Alteration;
use crate::columns::removes;
use dbl_base::{Seq, Text};
use dbl_model_table::{RawRow, TableInfo};
use dbl_tables_rows::{StepError, copy_text, empty_size, grown_size, insert_message};
use std::alloc::{AllocError, Global};

fn push_left(
    alloc: Global,
    left: &mut Vec<Option<Text>>,
    alteration: &Alteration,
    name: &Text,
    text: &Option<Text>,
) -> Result<(), AllocError>
    ensures { OnOk result (left.new.items ≡
        left.old.items ++ cell_left alteration.now name.now text.now) }
{
    if removes(alteration, name) {
        return Ok(());
    }
    left.push(copy_text(alloc, text)?)?;
    Ok(())
}

// The cells of columns that the alteration doesn't remove.
fn cells_left(
    alloc: Global,
    info: &TableInfo,
    alteration: &Alteration,
    row: &RawRow,
) -> Result<Vec<Option<Text>>, AllocError>
    ensures { IfOk result (λ left. left.items ≡
        cells_left alteration.now (catalogue_of info.now).columns row.now.cells) }
{
    let mut left = Vec::new(alloc);
    for (i, column) in info.columns.items().iter().enumerate() {
        let Some(text) = row.cells.items().get(i) else {
            break;
        };
        push_left(alloc, &mut left, alteration, &column.name, text)?;
    }
    Ok(left)
}

fn push_added(
    alloc: Global,
    cells: &mut Vec<Option<Text>>,
    alteration: &Alteration,
) -> Result<(), AllocError>
    ensures { OnOk result (cells.new.items ≡ cells.old.items ++ added_cells alteration.now) }
{
    match alteration {
        Alteration::Add { text, .. } => {
            cells.push(copy_text(alloc, text)?)?;
            Ok(())
        }
        Alteration::Remove { .. } => Ok(()),
    }
}

/// The row after the alteration of its table.
pub fn row_after(
    alloc: Global,
    info: &TableInfo,
    alteration: &Alteration,
    row: &RawRow,
) -> Result<RawRow, AllocError>
    ensures { IfOk result (λ after. after.cells ≡
        row_after alteration.now (catalogue_of info.now).columns row.now.cells) }
{
    let mut cells = cells_left(alloc, info, alteration, row)?;
    push_added(alloc, &mut cells, alteration)?;
    Ok(RawRow {
        cells: Seq::make(cells),
    })
}

// Whether the Insert message of a row is too long.
fn is_too_long(alloc: Global, oid: u32, row: &RawRow) -> Result<bool, AllocError>
    ensures { length row.now.cells ≤ 1600 → IfOk result (λ long. long ≡
        nat_lt message_limit (length (spelling (insert_message oid row.now.cells)))) }
{
    let message = insert_message(alloc, oid, row)?;
    let fits = grown_size(empty_size(), &message).is_some();
    drop(message);
    Ok(!fits)
}

/// Refuses an altered row whose Insert message is too long with the cell that was added.
pub fn judge_length(
    alloc: Global,
    oid: u32,
    alteration: &Alteration,
    row: &RawRow,
) -> Result<(), StepError>
    ensures { IsNarrow alteration.now row.now.cells →
        JudgesLength alteration.now oid row.now.cells result }
{
    match alteration {
        Alteration::Add { .. } => {
            if is_too_long(alloc, oid, row)? {
                return Err(StepError::BadAlter);
            }
            Ok(())
        }
        Alteration::Remove { .. } => Ok(()),
    }
}
