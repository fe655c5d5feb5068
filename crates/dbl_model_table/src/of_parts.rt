ghost use Rattle.std.specs.Prelude.{◌≡◌, ◌<◌, IfOk, IfSome, IfNone, IsTrue};
ghost use Rattle.std.specs.Prelude.{false, true, length, nat_eq, nat_lt};
ghost use Rattle.std.specs.List.{list_all};
ghost use Rattle.std.specs.Str.{bytes_eq};
ghost use Rattle.dbl_model_table.specs.Tables.{are_distinct, are_typed, column_names};
ghost use Rattle.dbl_model_table.specs.Tables.{is_key, is_table, is_unfit};

use crate::capturing::first_unfit;
use crate::table::{Column, TableInfo, TableName};
use dbl_base::Seq;
use std::alloc::{AllocError, Global};
use std::collections::BTreeSet;

fn have_distinct_names(alloc: Global, columns: &[Column]) -> Result<bool, AllocError>
    ensures { IfOk result
        (λ distinct. distinct ≡ are_distinct bytes_eq (column_names columns.now)) }
{
    let mut names = BTreeSet::new(alloc);
    for column in columns {
        let name = column.name.as_str();
        if names.contains(name) {
            return Ok(false);
        }
        names.insert(name)?;
    }
    Ok(true)
}

fn are_distinct_places(alloc: Global, key: &[u32]) -> Result<bool, AllocError>
    ensures { IfOk result (λ distinct. distinct ≡ are_distinct nat_eq key.now) }
{
    let mut places = BTreeSet::new(alloc);
    for place in key {
        if places.contains(place) {
            return Ok(false);
        }
        places.insert(*place)?;
    }
    Ok(true)
}

fn are_within(count: usize, key: &[u32]) -> bool
    ensures { result ≡ list_all (λ place. nat_lt place count) key.now }
{
    key.iter().all(|place| (*place as usize) < count)
}

/// Whether these indices are a valid key of the columns.
fn is_key_of(alloc: Global, columns: &[Column], key: &[u32]) -> Result<bool, AllocError>
    ensures { IfOk result (λ held. held ≡ is_key columns.now key.now) }
{
    if key.is_empty() || !are_within(columns.len(), key) || first_unfit(columns, key).is_some() {
        return Ok(false);
    }
    are_distinct_places(alloc, key)
}

impl TableInfo {
    /// The table of this name, these columns and this key, or None if no table with these parts can
    /// be captured. Takes the time of a search among the columns for each column.
    pub fn of_parts(
        alloc: Global,
        name: TableName,
        columns: Seq<Column>,
        key: Seq<u32>,
    ) -> Result<Option<TableInfo>, AllocError>
        requires { IsTrue (are_typed columns) }
        ensures name { IfOk result (λ made. IfSome made (λ info. info.name ≡ name)) }
        ensures columns { IfOk result (λ made. IfSome made (λ info. info.columns ≡ columns)) }
        ensures key { IfOk result (λ made. IfSome made (λ info. info.key ≡ key)) }
        ensures refused { IfOk result (λ made. IfNone made (is_table name columns key ≡ false)) }
    {
        if !name.is_good()
            || !have_distinct_names(alloc, columns.items())?
            || !is_key_of(alloc, columns.items(), key.items())?
        {
            return Ok(None);
        }
        Ok(Some(TableInfo { name, columns, key }))
    }
}
