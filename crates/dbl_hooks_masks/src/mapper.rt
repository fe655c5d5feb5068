ghost use Rattle.std.specs.Prelude.{◌≡◌, ◌∷◌, [], ℕ, List, IfOk, OnOk, OnErr};
ghost use Rattle.std.specs.List.{position_from};
ghost use Rattle.dbl_pgmsg.specs.declared.messages.Message.{Message};
ghost use Rattle.dbl_model_commit.specs.Past.{table_named};
ghost use Rattle.dbl_hooks_masks.specs.Messages.{masking, describes, is_text_type};
ghost use Rattle.dbl_hooks_masks.specs.Messages.{is_masked_column};
ghost use Rattle.dbl_hooks_masks.specs.Messages.{described_place, masked_cell, masked_cells, masked_tuple};
ghost use Rattle.dbl_hooks_masks.specs.Messages.{masked_old, masked_optional, masked_message};
ghost use Rattle.dbl_hooks_masks.specs.Places.{HaveSamePlaces, Knows};

use crate::masker::Masker;
use crate::places::Places;
use dbl_base::{Seq, Text};
use dbl_model_table::TableName;
use dbl_pgmsg::{Message, OldTuple, RelationColumn, Tuple, TupleCell};
use std::alloc::{AllocError, Global};

/// Masks the texts of a column in the messages of a log.
#[derive(Drop)]
pub struct Mapper<M: Masker> {
    pub table: TableName,
    pub column: Text,
    pub masker: M,
    /// The masked columns of the Relations so far.
    pub places: Places,
}

// Whether a type is text, varchar or bpchar.
pub(crate) fn is_text_type(oid: u32) -> bool
    ensures { result ≡ is_text_type oid }
{
    oid == 25 || oid == 1043 || oid == 1042
}

// Whether a column has this name and a type of texts.
fn is_masked_column(name: &Text, column: &RelationColumn) -> bool
    ensures { result ≡ is_masked_column name.now column.now }
{
    *name == column.name && is_text_type(column.oid)
}

// Whether a Relation describes this table, which isn't that of the watermarks.
fn describes(table: &TableName, namespace: &Text, name: &Text) -> bool
    ensures { result ≡ describes table.now (table_named namespace.now name.now) }
{
    let schema = if namespace.as_str().is_empty() {
        "pg_catalog"
    } else {
        namespace.as_str()
    };
    table.schema.as_str() == schema && table.name == *name && !table.is_watermark()
}

// Masks a cell that has a text.
fn mask_cell<M: Masker>(masker: &M, cell: &mut TupleCell) -> Result<(), AllocError>
    ensures { OnOk result (cell.new ≡ masked_cell (M.mask masker.now) cell.old) }
{
    if let TupleCell::Text(text) = cell {
        *text = masker.apply(text)?;
    }
    Ok(())
}

// Masks the cell at this index, if there is one.
fn mask_at<M: Masker>(
    masker: &M,
    place: usize,
    cells: &mut Vec<TupleCell>,
) -> Result<(), AllocError>
    ensures { OnOk result
        (cells.new.items ≡ masked_cells (M.mask masker.now) place cells.old.items) }
{
    match cells.get_mut(place) {
        Some(cell) => mask_cell(masker, cell),
        None => Ok(()),
    }
}

// Masks the cell at the index of the masked column, if there is one.
fn mask_tuple<M: Masker>(
    masker: &M,
    place: Option<usize>,
    tuple: Tuple,
) -> Result<Tuple, AllocError>
    ensures { IfOk result (λ masked. masked ≡ masked_tuple (M.mask masker.now) place tuple) }
{
    let Some(place) = place else {
        return Ok(tuple);
    };
    let mut cells = tuple.cells.into_items();
    mask_at(masker, place, &mut cells)?;
    Ok(Tuple {
        cells: Seq::make(cells),
    })
}

fn mask_old<M: Masker>(
    masker: &M,
    place: Option<usize>,
    old: OldTuple,
) -> Result<OldTuple, AllocError>
    ensures { IfOk result (λ masked. masked ≡ masked_old (M.mask masker.now) place old) }
{
    match old {
        OldTuple::Key(tuple) => Ok(OldTuple::Key(mask_tuple(masker, place, tuple)?)),
        OldTuple::Whole(tuple) => Ok(OldTuple::Whole(mask_tuple(masker, place, tuple)?)),
    }
}

fn mask_optional<M: Masker>(
    masker: &M,
    place: Option<usize>,
    old: Option<OldTuple>,
) -> Result<Option<OldTuple>, AllocError>
    ensures { IfOk result (λ masked. masked ≡ masked_optional (M.mask masker.now) place old) }
{
    match old {
        Some(old) => Ok(Some(mask_old(masker, place, old)?)),
        None => Ok(None),
    }
}

// The index of the first column of this name and a type of texts.
fn find_column(name: &Text, columns: &[RelationColumn]) -> Option<usize>
    ensures { result ≡ position_from (is_masked_column name.now) 0 columns.now }
{
    columns
        .iter()
        .position(|column| is_masked_column(name, column))
}

// The OID of a Relation, and the index of its masked column; nothing for another message.
fn find_place(table: &TableName, column: &Text, message: &Message) -> Option<(u32, Option<usize>)>
    ensures { result ≡ described_place table.now column.now message.now }
{
    let Message::Relation {
        oid,
        namespace,
        name,
        identity: _,
        columns,
    } = message
    else {
        return None;
    };
    if describes(table, namespace, name) {
        Some((*oid, find_column(column, columns.items())))
    } else {
        Some((*oid, None))
    }
}

// Stores the index of the masked column if the message is a Relation.
fn learn_place(
    places: &mut Places,
    table: &TableName,
    column: &Text,
    message: &Message,
) -> Result<(), AllocError>
    ensures knows { (ms : List Message) → Knows table.now column.now ms places.old →
        OnOk result (Knows table.now column.now (message.now ∷ ms) places.new) }
    ensures same { OnErr result (HaveSamePlaces places.old places.new) }
{
    match find_place(table, column, message) {
        Some((oid, place)) => places.set(oid, place),
        None => Ok(()),
    }
}

impl<M: Masker> Mapper<M> {
    /// Masks the texts of this column; no Relation was seen yet. Takes no memory.
    pub fn make(alloc: Global, table: TableName, column: Text, masker: M) -> Mapper<M>
        ensures table { result.table ≡ table }
        ensures column { result.column ≡ column }
        ensures mask { M.mask result.masker ≡ M.mask masker }
        ensures knows { Knows table column [] result.places }
    {
        Mapper {
            table,
            column,
            masker,
            places: Places::new(alloc),
        }
    }

    // Masks a message; a Relation stays.
    fn mask(&self, message: Message) -> Result<Message, AllocError>
        ensures { (ms : List Message) → Knows self.now.table self.now.column ms self.now.places →
            IfOk result (λ masked. masked ≡ masked_message
            (masking self.now.table self.now.column (M.mask self.now.masker)) ms message) }
    {
        match message {
            Message::Insert { oid, row } => {
                let row = mask_tuple(&self.masker, self.places.get(oid), row)?;
                Ok(Message::Insert { oid, row })
            }
            Message::Update { oid, before, row } => {
                let place = self.places.get(oid);
                let before = mask_optional(&self.masker, place, before)?;
                let row = mask_tuple(&self.masker, place, row)?;
                Ok(Message::Update { oid, before, row })
            }
            Message::Delete { oid, before } => {
                let before = mask_old(&self.masker, self.places.get(oid), before)?;
                Ok(Message::Delete { oid, before })
            }
            message => Ok(message),
        }
    }

    /// Masks the next message of a log. In tuples of a table whose last Relation has the name and
    /// a column of texts with the column's name, the text of that column is replaced by its mask.
    /// All else stays. The watermark table isn't masked.
    pub fn message(&mut self, message: Message) -> Result<Message, AllocError>
        ensures masked { (ms : List Message) →
            Knows self.old.table self.old.column ms self.old.places →
            IfOk result (λ masked. masked ≡ masked_message
            (masking self.old.table self.old.column (M.mask self.old.masker)) ms message) }
        ensures knows { (ms : List Message) →
            Knows self.old.table self.old.column ms self.old.places →
            OnOk result (Knows self.old.table self.old.column (message ∷ ms) self.new.places) }
        ensures table { self.new.table ≡ self.old.table }
        ensures column { self.new.column ≡ self.old.column }
        ensures mask { M.mask self.new.masker ≡ M.mask self.old.masker }
        ensures same { OnErr result (HaveSamePlaces self.old.places self.new.places) }
    {
        let shown = self.mask(message)?;
        learn_place(&mut self.places, &self.table, &self.column, &shown)?;
        Ok(shown)
    }
}
