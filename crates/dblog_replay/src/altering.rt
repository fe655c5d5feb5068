//! The column to be masked of a captured table whose Relation has other columns.

ghost use Rattle.dbl_model_commit.specs.Past.{table_named};
ghost use Rattle.dbl_model_commit.specs.Stated.{target};
ghost use Rattle.dblog_replay.specs.Altered.{masking_fault, remasking_fault};
ghost use Rattle.dblog_replay.specs.Judged.{JudgesLog};
ghost use Rattle.std.specs.Prelude.{Some, slice_get};

use crate::capture::check_mask;
use crate::log_fault::LogFault;
use dbl_base::Text;
use dbl_hooks_masks::Masking;
use dbl_model_table::TableInfo;
use dbl_pgmsg::RelationColumn;
use dbl_txn_changes::are_same_columns;
use dbl_txn_shapes::{entry_in, is_watermark, place_of, schema_of};
use std::alloc::Global;

fn check_table(
    alloc: Global,
    mask: &Option<Masking>,
    info: &TableInfo,
    columns: &Vec<RelationColumn>,
) -> Result<(), LogFault>
    ensures { JudgesLog (masking_fault mask.now columns.now.items (Some info.now)) result }
{
    if are_same_columns(info.columns.items(), columns) {
        return Ok(());
    }
    let entry = entry_in(alloc, info, columns)?;
    check_mask(alloc, mask, &entry)
}

fn check_place(
    alloc: Global,
    mask: &Option<Masking>,
    infos: &Vec<TableInfo>,
    place: usize,
    columns: &Vec<RelationColumn>,
) -> Result<(), LogFault>
    ensures { JudgesLog (masking_fault mask.now columns.now.items
        (slice_get infos.now.items place)) result }
{
    match infos.get(place) {
        Some(info) => check_table(alloc, mask, info, columns),
        None => Ok(()),
    }
}

/// Checks that the table's column can be masked in a Relation's columns, if the table is captured
/// and they aren't its columns so far.
pub fn check_columns(
    alloc: Global,
    mask: &Option<Masking>,
    infos: &Vec<TableInfo>,
    namespace: &Text,
    name: &Text,
    columns: &Vec<RelationColumn>,
) -> Result<(), LogFault>
    ensures { JudgesLog (remasking_fault mask.now infos.now.items columns.now.items
        (target infos.now.items (table_named namespace.now name.now))) result }
{
    let schema = schema_of(namespace);
    let name = name.as_str();
    if is_watermark(schema, name) {
        return Ok(());
    }
    match place_of(infos, schema, name) {
        Some(place) => check_place(alloc, mask, infos, place, columns),
        None => Ok(()),
    }
}
