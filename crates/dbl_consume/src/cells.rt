//! The members of a JSON object in byte order of their names.
ghost use Rattle.std.specs.Prelude.{◌≡◌, IfOk, option_map};
ghost use Rattle.serde_json.specs.Data.{no_members};
ghost use Rattle.serde_json.specs.Find.{as_object};
ghost use Rattle.dbl_consume.specs.Cells.{names_ascend_after, names_ascend, cells_data};
ghost use Rattle.dbl_consume.specs.JsonValues.{data_at, put_all};

use crate::part::Part;
use std::alloc::{AllocError, Global};
use std::cmp::Ordering;
use std::collections::BTreeMap;

// Whether the names are in strict byte order, and after this one.
fn names_ascend_after<'t, 'a>(first: &'a str, cells: &[(&'a str, Part<'t, 'a>)]) -> bool
    ensures { result ≡ names_ascend_after first.now (cells_data cells.now) }
{
    let mut previous = first;
    for cell in cells {
        match previous.cmp(cell.0) {
            Ordering::Less => previous = cell.0,
            _ => return false,
        }
    }
    true
}

// Whether the names are in strict byte order.
fn names_ascend<'t, 'a>(cells: &[(&'a str, Part<'t, 'a>)]) -> bool
    ensures { result ≡ names_ascend (cells_data cells.now) }
{
    match cells {
        [] => true,
        [first, rest @ ..] => names_ascend_after(first.0, rest),
    }
}

// The cells by name, the last of those with one name.
fn index_cells<'t, 'a>(
    alloc: Global,
    cells: Vec<(&'a str, Part<'t, 'a>)>,
) -> Result<BTreeMap<&'a str, Part<'t, 'a>>, AllocError>
    ensures { IfOk result (λ found. cells_data found.entries
        ≡ put_all (cells_data cells.entry.items) no_members) }
{
    let mut found = BTreeMap::new(alloc);
    for (name, part) in cells {
        found.insert(name, part)?;
    }
    Ok(found)
}

fn list_cells<'t, 'a>(
    alloc: Global,
    cells: BTreeMap<&'a str, Part<'t, 'a>>,
) -> Result<Vec<(&'a str, Part<'t, 'a>)>, AllocError>
    ensures { IfOk result (λ list. list.items ≡ cells.entry.entries) }
{
    cells.into_iter().collect(alloc)
}

// The cells in byte order of their names, the last of those with one name.
fn sort_cells<'t, 'a>(
    alloc: Global,
    cells: Vec<(&'a str, Part<'t, 'a>)>,
) -> Result<Vec<(&'a str, Part<'t, 'a>)>, AllocError>
    ensures { IfOk result (λ found. cells_data found.items
        ≡ put_all (cells_data cells.entry.items) no_members) }
{
    match index_cells(alloc, cells) {
        Ok(found) => list_cells(alloc, found),
        Err(error) => Err(error),
    }
}

// The cells in byte order of their names, the last of those with one name.
fn put_in_order<'t, 'a>(
    alloc: Global,
    cells: Vec<(&'a str, Part<'t, 'a>)>,
) -> Result<Vec<(&'a str, Part<'t, 'a>)>, AllocError>
    ensures { IfOk result (λ found. cells_data found.items
        ≡ put_all (cells_data cells.entry.items) no_members) }
{
    if names_ascend(cells.as_slice()) {
        Ok(cells)
    } else {
        sort_cells(alloc, cells)
    }
}

/// The members of an object in byte order of their names, the last of those with one name. Takes
/// O(n) time for n members that are in that order, else O(n log n).
pub(crate) fn object_cells<'t, 'a>(
    alloc: Global,
    part: &Part<'t, 'a>,
) -> Result<Option<Vec<(&'a str, Part<'t, 'a>)>>, AllocError>
    ensures { IfOk result (λ found. option_map (λ cells. cells_data cells.items) found
        ≡ as_object (data_at part.now)) }
{
    let cells = match part.members(alloc) {
        Ok(Some(cells)) => cells,
        Ok(None) => return Ok(None),
        Err(error) => return Err(error),
    };
    match put_in_order(alloc, cells) {
        Ok(cells) => Ok(Some(cells)),
        Err(error) => Err(error),
    }
}
