//! Flags of the captured tables, by index: whether the open transaction has changed each so far.

ghost use Rattle.std.specs.Prelude.{◌≡◌, ◌||◌, ◌==◌, ◌++◌, ◌-◌, ℕ, List, OnOk, false, replicate};
ghost use Rattle.std.specs.Prelude.{length};
ghost use Rattle.dbl_model_table.specs.declared.change.Change.{Change};
ghost use Rattle.dbl_model_commit.specs.Pieces.{with_piece};
ghost use Rattle.dbl_model_commit.specs.Shapes.{changes_table};
ghost use Rattle.dbl_txn.specs.Stands.{flag_at, AreFlagged};

use dbl_model_commit::Piece;
use dbl_model_table::Change;
use std::alloc::AllocError;

// Appends unset flags up to so many, if there are fewer.
fn extend(flags: &mut Vec<bool>, count: usize) -> Result<(), AllocError>
    ensures { OnOk result (flags.new.items
        ≡ flags.old.items ++ replicate (count - length flags.old.items) false) }
{
    if flags.len() < count {
        flags.resize(count, false)?;
    }
    Ok(())
}

fn set_flag(flags: &mut Vec<bool>, table: u32) -> Result<(), AllocError>
    ensures { OnOk result ((other : ℕ) → flag_at flags.new.items other
        ≡ (flag_at flags.old.items other || table == other)) }
{
    let place = table as usize;
    extend(flags, place + 1)?;
    flags[place] = true;
    Ok(())
}

fn flag_changes(flags: &mut Vec<bool>, changes: &Vec<Change>) -> Result<(), AllocError>
    ensures { OnOk result ((other : ℕ) → flag_at flags.new.items other
        ≡ (flag_at flags.old.items other || changes_table other changes.now.items)) }
{
    for change in changes {
        set_flag(flags, change.table())?;
    }
    Ok(())
}

/// Flags the tables that a piece changes. At the end of a transaction no table is flagged.
pub fn flag_piece(flags: &mut Vec<bool>, piece: &Piece) -> Result<(), AllocError>
    ensures { OnOk result ((so_far : List Change) → AreFlagged so_far flags.old.items →
        AreFlagged (with_piece so_far piece.now) flags.new.items) }
{
    match piece {
        Piece::Nothing => Ok(()),
        Piece::Changed(changes) => flag_changes(flags, changes.items()),
        Piece::Ended(_) => {
            flags.clear();
            Ok(())
        }
    }
}

/// Whether the table at an index is flagged. Takes no memory.
pub fn is_flagged(flags: &Vec<bool>, table: u32) -> bool
    ensures { result ≡ flag_at flags.now.items table }
{
    match flags.get(table as usize) {
        Some(flag) => *flag,
        None => false,
    }
}
