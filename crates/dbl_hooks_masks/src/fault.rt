ghost use Rattle.std.specs.Prelude.{◌≡◌, bytes_eq};
ghost use Rattle.std.specs.List.{list_any};
ghost use Rattle.dbl_hooks_masks.specs.Faults.{is_named, is_masked, mask_fault};

use crate::mapper::is_text_type;
use dbl_base::Text;
use dbl_model_table::{RawColumn, RawTable};

/// Why a column of a table can't be masked.
#[derive(Clone, Copy)]
pub enum MaskFault {
    /// The table has no column of this name.
    NoColumn,
    /// The column is in the key.
    KeyColumn,
    /// The type isn't text, varchar or bpchar.
    NotText,
}

fn is_masked(name: &Text, column: &RawColumn) -> bool
    ensures { result ≡ is_masked name.now column.now }
{
    *name == column.name && is_text_type(column.oid)
}

fn has_column(name: &Text, columns: &[RawColumn]) -> bool
    ensures { result ≡ list_any (is_named name.now) columns.now }
{
    columns.iter().any(|column| *name == column.name)
}

fn has_masked_column(name: &Text, columns: &[RawColumn]) -> bool
    ensures { result ≡ list_any (is_masked name.now) columns.now }
{
    columns.iter().any(|column| is_masked(name, column))
}

fn is_key(name: &Text, raw: &RawTable) -> bool
    ensures { result ≡ list_any (bytes_eq name.now) raw.now.key }
{
    raw.key.items().iter().any(|part| *name == *part)
}

/// Why the column of this name can't be masked in a table of the catalogue, if it can't. Takes no
/// memory.
pub fn mask_fault(raw: &RawTable, name: &Text) -> Option<MaskFault>
    ensures { result ≡ mask_fault raw.now name.now }
{
    let columns = raw.columns.items();
    if !has_column(name, columns) {
        Some(MaskFault::NoColumn)
    } else if is_key(name, raw) {
        Some(MaskFault::KeyColumn)
    } else if has_masked_column(name, columns) {
        None
    } else {
        Some(MaskFault::NotText)
    }
}
