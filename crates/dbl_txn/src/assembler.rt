ghost use Rattle.std.specs.Prelude.{◌≡◌, List, [], ◌∷◌, ◌++◌, OnOk, OnErr, IfOk, IfErr, is_some, not};
ghost use Rattle.std.specs.Prelude.{Some, false, slice_get, slice_set};
ghost use Rattle.dbl_base.specs.declared.lsn.Lsn.{Lsn};
ghost use Rattle.dbl_pgmsg.specs.declared.messages.Message.{Message};
ghost use Rattle.dbl_model_table.specs.declared.change.Change.{Change};
ghost use Rattle.dbl_model_table.specs.declared.change.Commit.{Commit};
ghost use Rattle.dbl_model_table.specs.declared.table.TableInfo.{TableInfo};
ghost use Rattle.dbl_model_table.specs.Heads.{commit_by};
ghost use Rattle.dbl_model_commit.specs.Past.{begin_of, HasNoRelation};
ghost use Rattle.dbl_model_commit.specs.Stated.{is_empty};
ghost use Rattle.dbl_model_commit.specs.Blocks.{onto, States};
ghost use Rattle.dbl_model_commit.specs.Pieces.{changes_so_far, with_piece};
ghost use Rattle.dbl_model_commit.specs.Shapes.{changes_table, IsOpenStated};
ghost use Rattle.dbl_txn_pieces.specs.Reading.{HasReadMessages, ReadsPiece};
ghost use Rattle.dbl_txn.specs.Stands.{AreFlagged, Stands, StandsWhole, StandsInPieces};
ghost use Rattle.dbl_txn.specs.Stands.{Takes, TakesPiece};

use crate::flags::{flag_piece, is_flagged};
use dbl_base::{Lsn, Seq};
use dbl_model_commit::{Piece, TxnError};
use dbl_model_table::{Body, Change, Commit, Ended, Head, TableInfo};
use dbl_pgmsg::Message;
use dbl_txn_pieces::PieceReader;
use std::alloc::{AllocError, Global};
use std::mem;

/// Assembles messages into commits, whole or in pieces. The messages of one transaction, from its
/// Begin to its Commit, must all go to `take`, which buffers the transaction, or all to `piece`,
/// which buffers nothing.
#[derive(Drop)]
pub struct Assembler {
    reader: PieceReader,
    // The changes of the open transaction, if it is assembled whole.
    buffered: Vec<Change>,
    // By index: whether the open transaction has changed the captured table.
    changed: Vec<bool>,
}

fn buffer(buffered: &mut Vec<Change>, changes: Seq<Change>) -> Result<(), AllocError>
    ensures { OnOk result (buffered.new.items ≡ buffered.old.items ++ changes) }
{
    let mut changes = changes.into_items();
    buffered.append(&mut changes)
}

fn commit_by(ended: Ended, changes: Vec<Change>) -> Commit
    ensures { result ≡ commit_by ended changes.items }
{
    let Ended {
        head,
        end_lsn,
        mark,
    } = ended;
    let body = match mark {
        Some(value) => Body::Mark(value),
        None => Body::Changes(Seq::make(changes)),
    };
    Commit {
        lsn: head.lsn,
        end_lsn,
        time: head.time,
        xid: head.xid,
        body,
    }
}

impl Assembler {
    /// Makes an assembler of these captured tables that has received no message, for reading after
    /// the LSN `after`. Takes no memory.
    pub fn make(alloc: Global, infos: Vec<TableInfo>, after: Lsn) -> Assembler
        ensures { (held : List Change) → Stands infos.items after [] held result }
    {
        Assembler {
            reader: PieceReader::make(alloc, infos, after),
            buffered: Vec::new(alloc),
            changed: Vec::new(alloc),
        }
    }

    /// The captured tables.
    pub fn infos(&self) -> &Vec<TableInfo>
        ensures { (infos : List TableInfo) (after : Lsn) (ms : List Message) (held : List Change) →
            Stands infos after ms held self.now → result.now.items ≡ infos }
    {
        self.reader.infos()
    }

    /// The Begin of the open transaction. None if and only if no transaction is open. Takes no
    /// memory.
    pub fn head(&self) -> Option<Head>
        ensures { (infos : List TableInfo) (after : Lsn) (ms : List Message) (held : List Change) →
            Stands infos after ms held self.now → result ≡ begin_of ms }
    {
        self.reader.head()
    }

    /// Whether a transaction is open. Takes no memory.
    pub fn inside(&self) -> bool
        ensures begun { (infos : List TableInfo) (after : Lsn) (ms : List Message)
            (held : List Change) → Stands infos after ms held self.now →
            result ≡ is_some (begin_of ms) }
        ensures rest { (infos : List TableInfo) (after : Lsn) (ms : List Message)
            (held : List Change) (commits : List Commit) (rest : List Message) →
            Stands infos after (onto [] ms) held self.now → States infos ms commits rest →
            result ≡ not (is_empty rest) }
    {
        self.reader.head().is_some()
    }

    /// Adds a captured table of which no Relation was received so far. If memory runs out the
    /// assembler is unchanged.
    pub fn learn(&mut self, info: TableInfo) -> Result<(), TxnError>
        ensures learnt { (infos : List TableInfo) (after : Lsn) (ms : List Message)
            (held : List Change) → Stands infos after ms held self.old →
            HasNoRelation info.name ms →
            OnOk result (Stands (infos ++ info ∷ []) after ms held self.new) }
        ensures whole { (infos : List TableInfo) (after : Lsn) (ms : List Message) →
            StandsWhole infos after ms self.old → HasNoRelation info.name ms →
            OnOk result (StandsWhole (infos ++ info ∷ []) after ms self.new) }
        ensures kept { (infos : List TableInfo) (after : Lsn) (ms : List Message)
            (held : List Change) → Stands infos after ms held self.old →
            OnErr result (Stands infos after ms held self.new) }
        ensures err { IfErr result (λ e. e ≡ TxnError.Memory) }
    {
        self.reader.learn(info)
    }

    /// Whether the open transaction has changed the captured table at an index so far. Takes no
    /// memory.
    pub fn has_changed(&self, table: u32) -> bool
        ensures { (infos : List TableInfo) (after : Lsn) (ms : List Message) (held : List Change) →
            Stands infos after ms held self.now →
            result ≡ changes_table table (changes_so_far infos ms) }
    {
        is_flagged(&self.changed, table)
    }

    /// Replaces a captured table by the same one in other columns, in which its later changes are
    /// read. The open transaction must have no change of it so far.
    pub fn reshape(&mut self, table: u32, info: TableInfo)
        ensures { (infos : List TableInfo) (after : Lsn) (ms : List Message) (held : List Change)
            (old : TableInfo) → Stands infos after ms held self.old →
            slice_get infos table ≡ Some old → info.name ≡ old.name → IsOpenStated infos ms →
            changes_table table (changes_so_far infos ms) ≡ false →
            Stands (slice_set infos table info) after ms held self.new }
    {
        self.reader.reshape(table, info);
    }

    // Reads the next message, and flags the tables that it changes.
    fn read(&mut self, alloc: Global, message: Message) -> Result<Piece, TxnError>
        ensures reads { (infos : List TableInfo) (after : Lsn) (ms : List Message) →
            HasReadMessages infos after ms self.old.reader →
            ReadsPiece infos after message ms self.new.reader result }
        ensures flags { (so_far : List Change) → AreFlagged so_far self.old.changed.items →
            IfOk result (λ piece. AreFlagged (with_piece so_far piece) self.new.changed.items) }
        ensures buffered { self.new.buffered ≡ self.old.buffered }
    {
        let piece = self.reader.read(alloc, message)?;
        flag_piece(&mut self.changed, &piece)?;
        Ok(piece)
    }

    /// Processes the next message, and returns its piece of the open transaction, of which nothing
    /// is buffered. The assembler must not be used after an error.
    pub fn piece(&mut self, alloc: Global, message: Message) -> Result<Piece, TxnError>
        ensures { (infos : List TableInfo) (after : Lsn) (ms : List Message) →
            StandsInPieces infos after ms self.old →
            TakesPiece infos after message ms self.new result }
    {
        self.read(alloc, message)
    }

    // The commit that ends here.
    fn end(&mut self, alloc: Global, ended: Ended) -> Commit
        ensures commit { result ≡ commit_by ended self.old.buffered.items }
        ensures none { self.new.buffered.items ≡ [] }
        ensures reader { self.new.reader ≡ self.old.reader }
        ensures changed { self.new.changed ≡ self.old.changed }
    {
        let changes = mem::replace(&mut self.buffered, Vec::new(alloc));
        commit_by(ended, changes)
    }

    /// Processes the next message, and returns the commit that it ends, until which the transaction
    /// is buffered. The assembler must not be used after an error.
    pub fn take(&mut self, alloc: Global, message: Message) -> Result<Option<Commit>, TxnError>
        ensures { (infos : List TableInfo) (after : Lsn) (ms : List Message) →
            StandsWhole infos after ms self.old → Takes infos after message ms self.new result }
    {
        let piece = self.read(alloc, message)?;
        match piece {
            Piece::Nothing => Ok(None),
            Piece::Changed(changes) => {
                buffer(&mut self.buffered, changes)?;
                Ok(None)
            }
            Piece::Ended(ended) => Ok(Some(self.end(alloc, ended))),
        }
    }
}
