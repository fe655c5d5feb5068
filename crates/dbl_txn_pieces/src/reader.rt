ghost use Rattle.std.specs.Prelude.{◌≡◌, ◌||◌, ℕ, ℤ, List, [], ◌∷◌, ◌++◌, OnOk, OnErr, IfOk, IfErr};
ghost use Rattle.std.specs.Prelude.{if◌then◌else◌, is_some, nat_eq, Some, false};
ghost use Rattle.std.specs.Prelude.{slice_get, slice_set};
ghost use Rattle.std.specs.HashMap.{get};
ghost use Rattle.dbl_base.specs.declared.lsn.Lsn.{Lsn};
ghost use Rattle.dbl_pgmsg.specs.declared.messages.Message.{Message};
ghost use Rattle.dbl_pgmsg.specs.declared.messages.Message.TheVariants as says;
ghost use Rattle.dbl_model_table.specs.declared.table.TableInfo.{TableInfo};
ghost use Rattle.dbl_model_commit.specs.Past.{begin_of, mark_in, HasNoRelation};
ghost use Rattle.dbl_model_commit.specs.Stated.{has_some, row_stated, targets_at};
ghost use Rattle.dbl_model_commit.specs.Stated.{is_the_watermark, truncated_tables};
ghost use Rattle.dbl_model_commit.specs.Pieces.{piece_of, changes_so_far};
ghost use Rattle.dbl_model_commit.specs.Shapes.{changes_table, IsOpenStated};
ghost use Rattle.dbl_txn_changes.specs.Answers.{ReturnsAssembled};
ghost use Rattle.dbl_txn_pieces.specs.Reading.{message_of, Recalls, HasReadMessages};
ghost use Rattle.dbl_txn_pieces.specs.Reading.{ReadsPiece, StatesChanges};

use dbl_base::{Lsn, Seq, Text};
use dbl_model_commit::{Piece, RowChange, Target, TxnError};
use dbl_model_table::{Change, Ended, Head, TableInfo};
use dbl_pgmsg::{Message, RelationColumn};
use dbl_txn_changes::{Known, read_relation, read_row, read_truncate};
use std::alloc::Global;
use std::collections::HashMap;

// The open transaction.
#[derive(Drop)]
struct Block {
    head: Head,
    mark: Option<Text>,
    // Whether a captured table was changed.
    changed: bool,
}

/// Reads the messages of a log one by one, each as its piece of the open transaction. It keeps the
/// last Relation of each table, and of the open transaction its Begin, its watermark, and whether
/// a captured table was changed, but no change.
#[derive(Drop)]
pub struct PieceReader {
    infos: Vec<TableInfo>,
    last: Lsn,
    relations: HashMap<u32, Known>,
    block: Option<Block>,
}

// The tables of a Truncate.
fn targets_in(
    alloc: Global,
    relations: &HashMap<u32, Known>,
    oids: &Vec<u32>,
) -> Result<Seq<Target>, TxnError>
    ensures { (infos : List TableInfo) (ms : List Message) →
        Recalls infos ms (get nat_eq relations.now) →
        ReturnsAssembled result (targets_at infos oids.now.items ms) }
{
    let mut targets = Vec::with_capacity(alloc, oids.len())?;
    for oid in oids {
        let Some(known) = relations.get(oid) else {
            return Err(TxnError::UnknownRelation { oid: *oid });
        };
        targets.push(known.target)?;
    }
    Ok(Seq::make(targets))
}

fn truncated_tables(
    alloc: Global,
    relations: &HashMap<u32, Known>,
    marked: bool,
    oids: &Vec<u32>,
) -> Result<Seq<Change>, TxnError>
    ensures { (infos : List TableInfo) (ms : List Message) →
        Recalls infos ms (get nat_eq relations.now) →
        ReturnsAssembled result (truncated_tables infos oids.now.items ms marked) }
{
    let targets = targets_in(alloc, relations, oids)?;
    read_truncate(alloc, marked, targets.items())
}

fn set_changed(block: &mut Block, stated: &Seq<Change>)
    ensures { block.new ≡ record block.old { changed = block.old.changed || has_some stated.now } }
{
    if !stated.items().is_empty() {
        block.changed = true;
    }
}

fn row_at(
    alloc: Global,
    infos: &Vec<TableInfo>,
    known: &Known,
    block: &mut Block,
    change: RowChange,
) -> Result<Seq<Change>, TxnError>
    ensures gives { ReturnsAssembled result
        (row_stated infos.now.items block.old.mark block.old.changed
        known.now.relation change known.now.target) }
    ensures block { IfOk result (λ cs. block.new ≡
        record block.old {
          mark = if is_the_watermark known.now.target then mark_in change else
              block.old.mark;
          changed = block.old.changed || has_some cs;
        }) }
{
    let changed = block.changed;
    let stated = read_row(alloc, infos, known, &mut block.mark, changed, change)?;
    set_changed(block, &stated);
    Ok(stated)
}

fn truncate_at(
    alloc: Global,
    relations: &HashMap<u32, Known>,
    block: &mut Block,
    oids: &Vec<u32>,
) -> Result<Seq<Change>, TxnError>
    ensures gives { (infos : List TableInfo) (ms : List Message) →
        Recalls infos ms (get nat_eq relations.now) →
        ReturnsAssembled result
        (truncated_tables infos oids.now.items ms (is_some block.old.mark)) }
    ensures block { IfOk result
        (λ cs. block.new ≡ record block.old { changed = block.old.changed || has_some cs }) }
{
    let stated = truncated_tables(alloc, relations, block.mark.is_some(), oids)?;
    set_changed(block, &stated);
    Ok(stated)
}

fn piece_of(stated: Seq<Change>) -> Piece
    ensures { result ≡ piece_of stated }
{
    if stated.items().is_empty() {
        Piece::Nothing
    } else {
        Piece::Changed(stated)
    }
}

impl PieceReader {
    /// Makes a reader of these captured tables that has read no message, for reading after the LSN
    /// `after`. Takes no memory.
    pub fn make(alloc: Global, infos: Vec<TableInfo>, after: Lsn) -> PieceReader
        ensures { HasReadMessages infos.items after [] result }
    {
        PieceReader {
            infos,
            last: after,
            relations: HashMap::new(alloc),
            block: None,
        }
    }

    /// The captured tables.
    pub fn infos(&self) -> &Vec<TableInfo>
        ensures { (infos : List TableInfo) (after : Lsn) (ms : List Message) →
            HasReadMessages infos after ms self.now → result.now.items ≡ infos }
    {
        &self.infos
    }

    /// The Begin of the open transaction. None if and only if no transaction is open. Takes no
    /// memory.
    pub fn head(&self) -> Option<Head>
        ensures { (infos : List TableInfo) (after : Lsn) (ms : List Message) →
            HasReadMessages infos after ms self.now → result ≡ begin_of ms }
    {
        match &self.block {
            Some(block) => Some(block.head),
            None => None,
        }
    }

    /// Adds a captured table of which no Relation was read so far. If memory runs out the reader is
    /// unchanged.
    pub fn learn(&mut self, info: TableInfo) -> Result<(), TxnError>
        ensures learnt { (infos : List TableInfo) (after : Lsn) (ms : List Message) →
            HasReadMessages infos after ms self.old → HasNoRelation info.name ms →
            OnOk result (HasReadMessages (infos ++ info ∷ []) after ms self.new) }
        ensures kept { (infos : List TableInfo) (after : Lsn) (ms : List Message) →
            HasReadMessages infos after ms self.old →
            OnErr result (HasReadMessages infos after ms self.new) }
        ensures err { IfErr result (λ e. e ≡ TxnError.Memory) }
    {
        self.infos.push(info)?;
        Ok(())
    }

    /// Replaces a captured table by the same one in other columns. The open transaction must have no
    /// change of it so far.
    pub fn reshape(&mut self, table: u32, info: TableInfo)
        ensures { (infos : List TableInfo) (after : Lsn) (ms : List Message) (old : TableInfo) →
            HasReadMessages infos after ms self.old → slice_get infos table ≡ Some old →
            info.name ≡ old.name → IsOpenStated infos ms →
            changes_table table (changes_so_far infos ms) ≡ false →
            HasReadMessages (slice_set infos table info) after ms self.new }
    {
        let place = table as usize;
        if place < self.infos.len() {
            self.infos[place] = info;
        }
    }

    fn begin(&mut self, lsn: Lsn, time: &i64, xid: u32) -> Result<Piece, TxnError>
        ensures { (infos : List TableInfo) (after : Lsn) (ms : List Message) →
            HasReadMessages infos after ms self.old →
            ReadsPiece infos after (says.Begin lsn time.now xid) ms self.new result }
    {
        if self.block.is_some() {
            return Err(TxnError::NestedBegin);
        }
        if lsn.0 <= self.last.0 {
            return Err(TxnError::LsnOrder {
                last: self.last,
                got: lsn,
            });
        }
        self.block = Some(Block {
            head: Head {
                lsn,
                time: *time,
                xid,
            },
            mark: None,
            changed: false,
        });
        Ok(Piece::Nothing)
    }

    fn commit(&mut self, lsn: Lsn, end_lsn: Lsn) -> Result<Piece, TxnError>
        ensures { (infos : List TableInfo) (after : Lsn) (ms : List Message) (flags : ℕ) (time : ℤ)
            → HasReadMessages infos after ms self.old →
            ReadsPiece infos after (says.Commit flags lsn end_lsn time) ms self.new result }
    {
        let Some(block) = self.block.take() else {
            return Err(TxnError::OutsideTransaction);
        };
        if block.head.lsn.0 != lsn.0 {
            return Err(TxnError::CommitMismatch {
                begin: block.head.lsn,
                commit: lsn,
            });
        }
        self.last = lsn;
        Ok(Piece::Ended(Ended {
            head: block.head,
            end_lsn,
            mark: block.mark,
        }))
    }

    fn origin(&self) -> Result<Piece, TxnError>
        ensures { (infos : List TableInfo) (after : Lsn) (ms : List Message) (lsn : Lsn)
            (name : List ℕ) → HasReadMessages infos after ms self.now →
            ReadsPiece infos after (says.Origin lsn name) ms self.now result }
    {
        if self.block.is_some() {
            Ok(Piece::Nothing)
        } else {
            Err(TxnError::OutsideTransaction)
        }
    }

    fn relation(
        &mut self,
        alloc: Global,
        oid: u32,
        namespace: Text,
        name: Text,
        identity: u8,
        columns: Seq<RelationColumn>,
    ) -> Result<Piece, TxnError>
        ensures { (infos : List TableInfo) (after : Lsn) (ms : List Message) →
            HasReadMessages infos after ms self.old → ReadsPiece infos after
            (says.Relation oid namespace name identity columns) ms self.new result }
    {
        let known = read_relation(alloc, &self.infos, namespace, name, identity, columns)?;
        self.relations.insert(oid, known)?;
        Ok(Piece::Nothing)
    }

    // The changes that a row message states.
    fn row(&mut self, alloc: Global, oid: u32, change: RowChange) -> Result<Seq<Change>, TxnError>
        ensures { (infos : List TableInfo) (after : Lsn) (ms : List Message) →
            HasReadMessages infos after ms self.old →
            StatesChanges infos after (message_of oid change) ms self.new result }
    {
        let Some(block) = &mut self.block else {
            drop(change);
            return Err(TxnError::OutsideTransaction);
        };
        let Some(known) = self.relations.get(&oid) else {
            drop(change);
            return Err(TxnError::UnknownRelation { oid });
        };
        let stated = row_at(alloc, &self.infos, known, block, change)?;
        Ok(stated)
    }

    // The changes that a Truncate states.
    fn truncate(&mut self, alloc: Global, oids: &Vec<u32>) -> Result<Seq<Change>, TxnError>
        ensures { (infos : List TableInfo) (after : Lsn) (ms : List Message) (options : ℕ) →
            HasReadMessages infos after ms self.old →
            StatesChanges infos after (says.Truncate options oids.now.items) ms self.new result }
    {
        let Some(block) = &mut self.block else {
            return Err(TxnError::OutsideTransaction);
        };
        let stated = truncate_at(alloc, &self.relations, block, oids)?;
        Ok(stated)
    }

    fn read_row(&mut self, alloc: Global, oid: u32, change: RowChange) -> Result<Piece, TxnError>
        ensures { (infos : List TableInfo) (after : Lsn) (ms : List Message) →
            HasReadMessages infos after ms self.old →
            ReadsPiece infos after (message_of oid change) ms self.new result }
    {
        let stated = self.row(alloc, oid, change)?;
        Ok(piece_of(stated))
    }

    fn read_truncate(&mut self, alloc: Global, oids: &Vec<u32>) -> Result<Piece, TxnError>
        ensures { (infos : List TableInfo) (after : Lsn) (ms : List Message) (options : ℕ) →
            HasReadMessages infos after ms self.old →
            ReadsPiece infos after (says.Truncate options oids.now.items) ms self.new result }
    {
        let stated = self.truncate(alloc, oids)?;
        Ok(piece_of(stated))
    }

    /// Reads the next message, and returns its piece of the open transaction. The reader must not
    /// be used after an error.
    pub fn read(&mut self, alloc: Global, message: Message) -> Result<Piece, TxnError>
        ensures { (infos : List TableInfo) (after : Lsn) (ms : List Message) →
            HasReadMessages infos after ms self.old →
            ReadsPiece infos after message ms self.new result }
    {
        match message {
            Message::Begin { lsn, time, xid } => self.begin(lsn, &time, xid),
            Message::Commit {
                flags: _,
                lsn,
                end_lsn,
                time: _,
            } => self.commit(lsn, end_lsn),
            Message::Origin { lsn: _, name: _ } => self.origin(),
            Message::TypeName { .. } => Ok(Piece::Nothing),
            Message::Logical { .. } => Ok(Piece::Nothing),
            Message::Relation {
                oid,
                namespace,
                name,
                identity,
                columns,
            } => self.relation(alloc, oid, namespace, name, identity, columns),
            Message::Insert { oid, row } => self.read_row(alloc, oid, RowChange::Insert(row)),
            Message::Update { oid, before, row } => {
                self.read_row(alloc, oid, RowChange::Update(before, row))
            }
            Message::Delete { oid, before } => self.read_row(alloc, oid, RowChange::Delete(before)),
            Message::Truncate { options: _, oids } => self.read_truncate(alloc, oids.items()),
        }
    }
}
