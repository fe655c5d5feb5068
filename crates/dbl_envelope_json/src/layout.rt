ghost use Rattle.std.specs.Prelude.{◌≡◌, IfOk};
ghost use Rattle.dbl_envelope_json.specs.Layouts.{sorted, column_names_from, column_names_at};
ghost use Rattle.dbl_envelope_json.specs.Layouts.{key_names_from, places_of, layout_of};

use dbl_base::{Seq, Text};
use dbl_model_table::{Column, Identity, TableInfo};
use std::alloc::{AllocError, Global};
use std::collections::BTreeMap;

/// A column's name, and the index of its cell in a row.
#[derive(Drop)]
pub struct Place {
    pub name: Text,
    pub index: usize,
}

/// The layout of one table's records: their topic, and the columns of their rows and keys in byte
/// order of the names. It is made once per table.
#[derive(Drop)]
pub struct Layout {
    pub topic: Text,
    pub columns: Seq<Place>,
    /// The indices of the key columns in a row.
    pub key: Seq<Place>,
    /// The indices of the key columns in a key.
    pub key_cells: Seq<Place>,
}

/// The entries of a map from names to indices, in its order.
fn places(alloc: Global, order: BTreeMap<Text, usize>) -> Result<Seq<Place>, AllocError>
    ensures { IfOk result (λ places. places ≡ places_of order.entries) }
{
    let mut places = Vec::new(alloc);
    for (name, index) in order {
        places.push(Place { name, index })?;
    }
    Ok(Seq::make(places))
}

fn columns_in_order(alloc: Global, columns: &Seq<Column>) -> Result<Seq<Place>, AllocError>
    ensures { IfOk result
        (λ places. places ≡ places_of (sorted (column_names_from 0 columns.now))) }
{
    let columns = columns.items();
    let mut order = BTreeMap::new(alloc);
    for index in (0..columns.len()).rev() {
        order.insert(columns[index].name.copy(alloc)?, index)?;
    }
    places(alloc, order)
}

fn key_in_order(alloc: Global, info: &TableInfo) -> Result<Seq<Place>, AllocError>
    ensures { IfOk result
        (λ places. places ≡ places_of (sorted (column_names_at info.now.columns info.now.key))) }
{
    let columns = info.columns.items();
    let key = info.key.items();
    let mut order = BTreeMap::new(alloc);
    for at in (0..key.len()).rev() {
        let index = key[at] as usize;
        order.insert(columns[index].name.copy(alloc)?, index)?;
    }
    places(alloc, order)
}

/// The key columns in byte order of their names, with their indices in a key.
pub(crate) fn key_cells_in_order(alloc: Global, info: &TableInfo) -> Result<Seq<Place>, AllocError>
    ensures { IfOk result
        (λ places. places ≡ places_of (sorted (key_names_from info.now.columns 0 info.now.key))) }
{
    let columns = info.columns.items();
    let key = info.key.items();
    let mut order = BTreeMap::new(alloc);
    for at in (0..key.len()).rev() {
        let index = key[at] as usize;
        order.insert(columns[index].name.copy(alloc)?, at)?;
    }
    places(alloc, order)
}

impl Layout {
    /// Makes the layout of a table, in O(n log n) time for n columns.
    pub fn make(alloc: Global, identity: &Identity, info: &TableInfo) -> Result<Layout, AllocError>
        ensures { IfOk result (λ layout. layout ≡ layout_of identity.now info.now) }
    {
        let topic = Text::make(format!(in alloc;
            "{}.{}.{}",
            identity.prefix, info.name.schema, info.name.name
        )?);
        let columns = columns_in_order(alloc, &info.columns)?;
        let key = key_in_order(alloc, info)?;
        let key_cells = key_cells_in_order(alloc, info)?;
        Ok(Layout {
            topic,
            columns,
            key,
            key_cells,
        })
    }
}
