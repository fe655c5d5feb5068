ghost use Rattle.std.specs.Prelude.{◌≡◌, ◌<◌, ◌++◌, ◌∷◌, [], Some, length, map};
ghost use Rattle.std.specs.Prelude.{option_map, slice_get, slice_set, IfOk, IfErr, OnOk, OnErr};
ghost use Rattle.dbl_model_table.specs.Rows.{table_of};
ghost use Rattle.dbl_envelope.specs.Suits.{Suits, SuitsTable};
ghost use Rattle.dbl_envelope_json.specs.Layouts.{layout_of};

use crate::error::EnvelopeError;
use dbl_envelope_json::Layout;
use dbl_model_table::{Change, Identity, TableInfo};
use std::alloc::{AllocError, Global};
use std::marker::Model;

/// The writer of one connector's records. It is made once, as it sorts the columns of each captured
/// table.
#[derive(Drop)]
pub struct EventWriter {
    identity: Identity,
    infos: Vec<TableInfo>,
    layouts: Vec<Layout>,
}

impl Model for EventWriter {
    ghost use Rattle.std.specs.Prelude.{◌≡◌, map};
    ghost use Rattle.dbl_envelope.specs.Writers.{Captured};

    ghost Value = { Captured };

    ghost use Rattle.dbl_envelope_json.specs.Layouts.{layout_of};

    ghost view = { λ w. record { identity = w.identity; infos = w.infos.items } };

    ghost invariant = { λ w. w.layouts.items ≡ map (layout_of w.identity) w.infos.items };
}

fn layouts(
    alloc: Global,
    identity: &Identity,
    infos: &Vec<TableInfo>,
) -> Result<Vec<Layout>, AllocError>
    ensures { IfOk result
        (λ layouts. layouts.items ≡ map (layout_of identity.now) infos.now.items) }
{
    let mut layouts = Vec::with_capacity(alloc, infos.len())?;
    for info in infos {
        layouts.push(Layout::make(alloc, identity, info)?)?;
    }
    Ok(layouts)
}

impl EventWriter {
    /// Makes a writer, in O(n log n) time for n columns.
    pub fn make(
        alloc: Global,
        identity: Identity,
        infos: Vec<TableInfo>,
    ) -> Result<EventWriter, EnvelopeError>
        ensures identity { IfOk result (λ writer. writer.identity ≡ identity) }
        ensures infos { IfOk result (λ writer. writer.infos ≡ infos.items) }
        ensures err { IfErr result (λ e. e ≡ EnvelopeError.Memory) }
    {
        let layouts = layouts(alloc, &identity, &infos)?;
        Ok(EventWriter {
            identity,
            infos,
            layouts,
        })
    }

    pub(crate) fn identity(&self) -> &Identity
        ensures { result.now ≡ self.now.identity }
    {
        &self.identity
    }

    /// The number of captured tables.
    pub(crate) fn count(&self) -> usize
        ensures { result ≡ length self.now.infos }
    {
        self.infos.len()
    }

    /// The captured table at an index.
    pub fn info_at(&self, table: usize) -> &TableInfo
        requires captured { table < length self.now.infos }
        ensures { slice_get self.now.infos table ≡ Some result.now }
    {
        &self.infos[table]
    }

    /// The table of a change.
    pub(crate) fn info_of(&self, change: &Change) -> &TableInfo
        requires suits { Suits self.now.infos change.now }
        ensures info { slice_get self.now.infos (table_of change.now) ≡ Some result.now }
        ensures suits { SuitsTable result.now change.now }
    {
        self.info_at(change.table() as usize)
    }

    /// The layout of a table's records.
    pub(crate) fn layout_at(&self, table: usize) -> &Layout
        requires captured { table < length self.now.infos }
        ensures { option_map (layout_of self.now.identity)
            (slice_get self.now.infos table) ≡ Some result.now }
    {
        &self.layouts[table]
    }

    /// Adds a captured table, in O(n log n) time for its n columns.
    pub fn learn(&mut self, alloc: Global, info: TableInfo) -> Result<(), EnvelopeError>
        ensures learnt { OnOk result
            (self.new ≡ record self.old { infos = self.old.infos ++ info ∷ [] }) }
        ensures kept { OnErr result (self.new ≡ self.old) }
        ensures err { IfErr result (λ e. e ≡ EnvelopeError.Memory) }
    {
        let layout = Layout::make(alloc, &self.identity, &info)?;
        self.layouts.push(layout)?;
        if self.infos.push(info).is_err() {
            self.layouts.pop();
            return Err(EnvelopeError::Memory);
        }
        Ok(())
    }

    /// Replaces the captured table at an index, if there is one, by one in other columns, in
    /// O(n log n) time for its n columns.
    pub fn reshape(
        &mut self,
        alloc: Global,
        table: u32,
        info: TableInfo,
    ) -> Result<(), EnvelopeError>
        ensures reshaped { OnOk result
            (self.new ≡ record self.old { infos = slice_set self.old.infos table info }) }
        ensures kept { OnErr result (self.new ≡ self.old) }
        ensures err { IfErr result (λ e. e ≡ EnvelopeError.Memory) }
    {
        let layout = Layout::make(alloc, &self.identity, &info)?;
        let place = table as usize;
        if place < self.infos.len() {
            self.layouts[place] = layout;
            self.infos[place] = info;
        }
        Ok(())
    }
}
