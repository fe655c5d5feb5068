ghost use Rattle.std.specs.Prelude.{◌≡◌, ◌||◌, ◌∷◌, ◌++◌, ℕ, List, [], false, Some, OnOk, IfErr};
ghost use Rattle.std.specs.Prelude.{is_some};
ghost use Rattle.dbl_base.specs.declared.lsn.Lsn.{Lsn};
ghost use Rattle.dbl_pgmsg.specs.declared.messages.Message.{Message};
ghost use Rattle.dbl_pgmsg.specs.declared.messages.Message.TheVariants as says;
ghost use Rattle.dbl_model_table.specs.declared.change.Change.{Change};
ghost use Rattle.dbl_model_table.specs.declared.table.TableInfo.{TableInfo};
ghost use Rattle.dbl_model_table.specs.Tables.{is_watermark};
ghost use Rattle.dbl_model_table.specs.Infos.{number_of};
ghost use Rattle.dbl_model_commit.specs.Past.{begin_of, schema_of, table_named, HasNoRelation};
ghost use Rattle.dbl_txn_shapes.specs.Shaping.{read_of, piece_of, StandsInColumns, StandsShaped};
ghost use Rattle.dbl_txn_shapes.specs.Shaping.{StandsShapedInPieces, Readies, TakesShaped};
ghost use Rattle.dbl_txn_shapes.specs.Shaping.{TakesShapedPiece};

use crate::names::{is_watermark, place_of, schema_of};
use crate::oids::{TableOids, see_oid};
use crate::shape::shape_of;
use dbl_base::{Lsn, Text};
use dbl_model_commit::{Piece, TxnError};
use dbl_model_table::{Commit, Head, TableInfo};
use dbl_pgmsg::{Message, RelationColumn};
use dbl_txn::Assembler;
use std::alloc::Global;

/// What a message adds.
#[derive(Drop)]
pub enum Read {
    /// Neither of the others.
    Nothing,
    /// The captured table at an index has other columns from here on: those that `infos` says.
    Shaped { table: u32 },
    /// The commit that the message ends.
    Ended(Commit),
}

/// What a message adds, where transactions are read in pieces.
#[derive(Drop)]
pub enum ShapedPiece {
    /// Its piece of the open transaction.
    Piece(Piece),
    /// The captured table at an index has other columns from here on: those that `infos` says.
    Shaped { table: u32 },
}

/// Assembles messages into commits, whole or in pieces, and reads each captured table in the
/// columns of its last Relation. The messages of one transaction, from its Begin to its Commit,
/// must all go to `take` or all to `piece`.
#[derive(Drop)]
pub struct ShapingAssembler {
    assembler: Assembler,
    // By index: the OIDs of the captured table's Relations.
    oids: Vec<TableOids>,
}

fn refuses_columns(changed: bool, other: bool) -> bool
    ensures { result ≡ (changed || other) }
{
    changed || other
}

fn read_of(shaped: Option<u32>, ended: Option<Commit>) -> Read
    ensures { result ≡ read_of shaped ended }
{
    match ended {
        Some(commit) => Read::Ended(commit),
        None => match shaped {
            Some(table) => Read::Shaped { table },
            None => Read::Nothing,
        },
    }
}

fn piece_of(shaped: Option<u32>, piece: Piece) -> ShapedPiece
    ensures { result ≡ piece_of shaped piece }
{
    match shaped {
        Some(table) => {
            drop(piece);
            ShapedPiece::Shaped { table }
        }
        None => ShapedPiece::Piece(piece),
    }
}

impl ShapingAssembler {
    /// Makes an assembler without captured tables that has received no message, for reading after
    /// the LSN `after`. Takes no memory.
    pub fn make(alloc: Global, after: Lsn) -> ShapingAssembler
        ensures { StandsShaped [] after [] result }
    {
        ShapingAssembler {
            assembler: Assembler::make(alloc, Vec::new(alloc), after),
            oids: Vec::new(alloc),
        }
    }

    /// The captured tables, each in the columns of its last Relation.
    pub fn infos(&self) -> &Vec<TableInfo>
        ensures { (infos : List TableInfo) (after : Lsn) (ms : List Message) (held : List Change) →
            StandsInColumns infos after ms held self.now → result.now.items ≡ infos }
    {
        self.assembler.infos()
    }

    /// Whether a transaction is open. Takes no memory.
    pub fn inside(&self) -> bool
        ensures { (infos : List TableInfo) (after : Lsn) (ms : List Message) (held : List Change) →
            StandsInColumns infos after ms held self.now → result ≡ is_some (begin_of ms) }
    {
        self.assembler.inside()
    }

    /// The Begin of the open transaction. None if and only if no transaction is open. Takes no
    /// memory.
    pub fn head(&self) -> Option<Head>
        ensures { (infos : List TableInfo) (after : Lsn) (ms : List Message) (held : List Change) →
            StandsInColumns infos after ms held self.now → result ≡ begin_of ms }
    {
        self.assembler.head()
    }

    /// Adds a captured table of which no Relation was received so far. The assembler must not be
    /// used after an error.
    pub fn learn(&mut self, info: TableInfo) -> Result<(), TxnError>
        ensures learnt { (infos : List TableInfo) (after : Lsn) (ms : List Message) →
            StandsShaped infos after ms self.old → HasNoRelation info.name ms →
            OnOk result (StandsShaped (infos ++ info ∷ []) after ms self.new) }
        ensures pieces { (infos : List TableInfo) (after : Lsn) (ms : List Message) →
            StandsShapedInPieces infos after ms self.old → HasNoRelation info.name ms →
            OnOk result (StandsShapedInPieces (infos ++ info ∷ []) after ms self.new) }
        ensures err { IfErr result (λ e. e ≡ TxnError.Memory) }
    {
        self.assembler.learn(info)?;
        self.oids.push(TableOids::Unseen)?;
        Ok(())
    }

    // Reads the captured table at an index in the columns of its Relation from here on.
    fn shape_table(
        &mut self,
        alloc: Global,
        oid: u32,
        place: usize,
        columns: &Vec<RelationColumn>,
    ) -> Result<Option<u32>, TxnError>
        ensures { (infos : List TableInfo) (after : Lsn) (ms : List Message) (held : List Change)
            (namespace name : List ℕ) (identity : ℕ) →
            StandsInColumns infos after ms held self.old →
            is_watermark (table_named namespace name) ≡ false →
            number_of infos (table_named namespace name) ≡ Some place → Readies infos after
            (says.Relation oid namespace name identity columns.now.items) ms held self.new result }
    {
        let table = match u32::try_from(place) {
            Ok(table) => table,
            Err(_) => return Err(TxnError::Memory),
        };
        let other = see_oid(&mut self.oids, place, oid);
        let refused = refuses_columns(self.assembler.has_changed(table), other);
        let Some(info) = self.assembler.infos().get(place) else {
            return Ok(None);
        };
        match shape_of(alloc, refused, info, columns)? {
            Some(shape) => {
                self.assembler.reshape(table, shape);
                Ok(Some(table))
            }
            None => Ok(None),
        }
    }

    fn shape(
        &mut self,
        alloc: Global,
        oid: u32,
        namespace: &Text,
        name: &Text,
        columns: &Vec<RelationColumn>,
    ) -> Result<Option<u32>, TxnError>
        ensures { (infos : List TableInfo) (after : Lsn) (ms : List Message) (held : List Change)
            (identity : ℕ) → StandsInColumns infos after ms held self.old → Readies infos after
            (says.Relation oid namespace.now name.now identity columns.now.items) ms held
            self.new result }
    {
        let schema = schema_of(namespace);
        let name = name.as_str();
        if is_watermark(schema, name) {
            return Ok(None);
        }
        match place_of(self.assembler.infos(), schema, name) {
            Some(place) => self.shape_table(alloc, oid, place, columns),
            None => Ok(None),
        }
    }

    // The captured table, by its index, that the next message gives other columns.
    fn prepare(&mut self, alloc: Global, message: &Message) -> Result<Option<u32>, TxnError>
        ensures { (infos : List TableInfo) (after : Lsn) (ms : List Message) (held : List Change) →
            StandsInColumns infos after ms held self.old →
            Readies infos after message.now ms held self.new result }
    {
        match message {
            Message::Relation {
                oid,
                namespace,
                name,
                identity: _,
                columns,
            } => self.shape(alloc, *oid, namespace, name, columns.items()),
            _ => Ok(None),
        }
    }

    /// Processes the next message, and returns the commit that it ends, or the captured table to
    /// which it gives other columns. The assembler must not be used after an error.
    pub fn take(&mut self, alloc: Global, message: Message) -> Result<Read, TxnError>
        ensures { (infos : List TableInfo) (after : Lsn) (ms : List Message) →
            StandsShaped infos after ms self.old →
            TakesShaped infos after message ms self.new result }
    {
        match self.prepare(alloc, &message) {
            Ok(shaped) => {
                let ended = self.assembler.take(alloc, message)?;
                Ok(read_of(shaped, ended))
            }
            Err(error) => {
                drop(message);
                Err(error)
            }
        }
    }
    /// Processes the next message, and returns its piece of the open transaction, of which nothing
    /// is buffered, or the captured table to which it gives other columns. The assembler must not be
    /// used after an error.
    pub fn piece(&mut self, alloc: Global, message: Message) -> Result<ShapedPiece, TxnError>
        ensures { (infos : List TableInfo) (after : Lsn) (ms : List Message) →
            StandsShapedInPieces infos after ms self.old →
            TakesShapedPiece infos after message ms self.new result }
    {
        match self.prepare(alloc, &message) {
            Ok(shaped) => {
                let piece = self.assembler.piece(alloc, message)?;
                Ok(piece_of(shaped, piece))
            }
            Err(error) => {
                drop(message);
                Err(error)
            }
        }
    }
}
