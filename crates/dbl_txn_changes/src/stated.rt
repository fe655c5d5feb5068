//! The changes of captured tables that a message states in the open transaction.

ghost use Rattle.std.specs.Prelude.{◌≡◌, ◌&&◌, IfOk, OnOk, is_some, not, slice_get};
ghost use Rattle.std.specs.Prelude.{if◌then◌else◌};
ghost use Rattle.std.specs.List.{list_any};
ghost use Rattle.dbl_model_commit.specs.Past.{second_text, mark_in};
ghost use Rattle.dbl_model_commit.specs.Tuples.{refuse_if};
ghost use Rattle.dbl_model_commit.specs.Stated.{in_table, row_stated, is_the_watermark};
ghost use Rattle.dbl_model_commit.specs.Stated.{clears, truncate_stated};
ghost use Rattle.dbl_txn_changes.specs.Answers.{ReturnsAssembled};

use crate::changes::change_of;
use crate::known::Known;
use dbl_base::{Seq, Text};
use dbl_model_commit::{Relation, RowChange, Target, TxnError};
use dbl_model_table::{Change, TableInfo};
use dbl_pgmsg::TupleCell;
use std::alloc::{AllocError, Global};

fn mark_of_cells(cells: Seq<TupleCell>) -> Option<Text>
    ensures { result ≡ second_text cells }
{
    let mut cells = cells.into_items();
    let Some(TupleCell::Text(value)) = cells.pop() else {
        return None;
    };
    if cells.len() == 1 { Some(value) } else { None }
}

// The watermark that an Update of the watermark table writes.
fn mark_of_change(change: RowChange) -> Option<Text>
    ensures { result ≡ mark_in change }
{
    match change {
        RowChange::Update(_, tuple) => mark_of_cells(tuple.cells),
        _ => None,
    }
}

fn change_in(
    alloc: Global,
    infos: &Vec<TableInfo>,
    table: u32,
    relation: &Relation,
    change: RowChange,
) -> Result<Seq<Change>, TxnError>
    ensures { ReturnsAssembled result
        (in_table table (slice_get infos.now.items table) relation.now change) }
{
    let Some(info) = infos.get(table as usize) else {
        return Ok(Seq::make(Vec::new(alloc)));
    };
    let stated = change_of(alloc, table, info, relation, change)?;
    let mut changes = Vec::new(alloc);
    changes.push(stated)?;
    Ok(Seq::make(changes))
}

// Records the transaction's one Update of the watermark.
fn take_mark(mark: &mut Option<Text>, changed: bool, change: RowChange) -> Result<(), TxnError>
    ensures gives { ReturnsAssembled result (refuse_if (not
        (is_some (mark_in change) && not (is_some mark.old) && not changed)) TxnError.BadMark) }
    ensures mark { OnOk result (mark.new ≡ mark_in change) }
{
    let Some(value) = mark_of_change(change) else {
        return Err(TxnError::BadMark);
    };
    if mark.is_some() || changed {
        return Err(TxnError::BadMark);
    }
    *mark = Some(value);
    Ok(())
}

/// Reads the changes that a row message states in a transaction, given its watermark so far and
/// whether it changed a captured table; an Update of the watermark table sets the watermark.
#[tactic(auto, unfolding(dbl_model_commit::specs::Stated::row_stated))]
pub fn read_row(
    alloc: Global,
    infos: &Vec<TableInfo>,
    known: &Known,
    mark: &mut Option<Text>,
    changed: bool,
    change: RowChange,
) -> Result<Seq<Change>, TxnError>
    ensures gives { ReturnsAssembled result
        (row_stated infos.now.items mark.old changed known.now.relation change known.now.target) }
    ensures mark { OnOk result
        (mark.new ≡ (if is_the_watermark known.now.target then mark_in change else mark.old)) }
{
    match known.target {
        Target::Passed => {
            drop(change);
            Ok(Seq::make(Vec::new(alloc)))
        }
        Target::Watermark => {
            take_mark(mark, changed, change)?;
            Ok(Seq::make(Vec::new(alloc)))
        }
        Target::Captured(table) => {
            if mark.is_some() {
                drop(change);
                return Err(TxnError::BadMark);
            }
            change_in(alloc, infos, table, &known.relation, change)
        }
    }
}

fn clears_in(alloc: Global, targets: &Vec<Target>) -> Result<Vec<Change>, AllocError>
    ensures { IfOk result (λ changes. changes.items ≡ clears targets.now.items) }
{
    let mut changes = Vec::new(alloc);
    for target in targets {
        if let Target::Captured(table) = target {
            changes.push(Change::Clear { table: *table })?;
        }
    }
    Ok(changes)
}

fn any_watermark(targets: &Vec<Target>) -> bool
    ensures { result ≡ list_any is_the_watermark targets.now.items }
{
    targets.iter().any(|target| *target == Target::Watermark)
}

/// The Clears that a Truncate of these tables states in a transaction, `marked` if it has written
/// the watermark.
#[tactic(auto, unfolding(dbl_model_commit::specs::Stated::truncate_stated))]
pub fn read_truncate(
    alloc: Global,
    marked: bool,
    targets: &Vec<Target>,
) -> Result<Seq<Change>, TxnError>
    ensures { ReturnsAssembled result (truncate_stated marked targets.now.items) }
{
    let changes = clears_in(alloc, targets)?;
    if any_watermark(targets) || marked && !changes.is_empty() {
        return Err(TxnError::BadMark);
    }
    Ok(Seq::make(changes))
}
