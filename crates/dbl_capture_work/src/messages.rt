//! Reads messages, and follows commits.

ghost use Rattle.std.specs.Prelude.{◌≡◌, ◌⊎◌, ◌^◌, ◌<◌, ◌∷◌, ◌++◌, Some, List, IfErr, IfOk, IsTrue};
ghost use Rattle.dbl_base.specs.declared.lsn.Lsn.{Lsn as SpecLsn};
ghost use Rattle.dbl_pgmsg.specs.declared.messages.Message.{Message as SpecMessage};
ghost use Rattle.dbl_pgmsg.specs.Grammar.{Spells};
ghost use Rattle.dbl_record.specs.declared.record.Record.{Record as SpecRecord};
ghost use Rattle.dbl_model_table.specs.Heads.{commit_by};
ghost use Rattle.dbl_model_commit.specs.declared.txn_error.TxnError.{TxnError as SpecTxnError};
ghost use Rattle.dbl_model_commit.specs.Past.{begin_of};
ghost use Rattle.dbl_model_commit.specs.Pieces.{changes_so_far};
ghost use Rattle.dbl_model_commit.specs.Stated.{transaction_fault};
ghost use Rattle.dbl_txn.specs.Stands.{StandsInPieces, TakenPiece};
ghost use Rattle.dbl_envelope.specs.ModelEvent.Clashes.{clash_of};
ghost use Rattle.dbl_follow.specs.Followed.{Following};
ghost use Rattle.dbl_topic.specs.Keeps.{KeepsSink};
ghost use Rattle.dbl_capture_work.specs.Takes.{CountsOnlyRecords, DeliversCommit, DeliversOpen};
ghost use Rattle.dbl_capture_work.specs.Takes.{EndsOpen, HasTakenPiece, IsClashIn, IsMessageHalt};
ghost use Rattle.dbl_capture_work.specs.Takes.{IsStated, IsTxnHalt, StatesChanges};
ghost use Rattle.dbl_capture_work.specs.Works.{FollowsOpen, HasOpen, HasReadyWork, IsAmidWork};
ghost use Rattle.dbl_capture_work.specs.Works.{IsWork, open_commit, rest_in, resting};

use crate::groups::{append_records, put_all};
use crate::work::SessionState;
use crate::{Halt, Report};
use dbl_base::{Bytes, Seq};
use dbl_model_commit::{Piece, TxnError};
use dbl_model_table::{Change, Ended};
use dbl_pgmsg::{Message, MsgError, decode};
use dbl_record::Record;
use dbl_topic::Sink;
use std::alloc::Global;

// Decodes a message.
fn decode_message(alloc: Global, number: u64, bytes: &Bytes) -> Result<Message, Halt>
    ensures read { IfOk result (Spells bytes.now) }
    ensures halt { IfErr result (λ h. (h ≡ Halt.Memory) ⊎ IsMessageHalt number bytes.now h) }
{
    match decode(alloc, bytes.items().as_slice()) {
        Ok(message) => Ok(message),
        Err(MsgError::Memory) => Err(Halt::Memory),
        Err(error) => Err(Halt::Message { number, error }),
    }
}

// Returns a message's piece of the open transaction.
fn take_piece(work: &mut SessionState, number: u64, message: Message) -> Result<Piece, Halt>
    ensures taken { (after : SpecLsn) (ms : List SpecMessage) →
        StandsInPieces work.old.offset.infos after ms work.old.assembler →
        IfOk result (TakenPiece work.old.offset.infos after message ms work.new.assembler) }
    ensures halt { (after : SpecLsn) (ms : List SpecMessage) →
        StandsInPieces work.old.offset.infos after ms work.old.assembler →
        IfErr result (λ h. (h ≡ Halt.Memory) ⊎ ((error : SpecTxnError)
        × (transaction_fault work.old.offset.infos after message ms ≡ Some error)
        × (h ≡ Halt.Txn number error))) }
    ensures same { work.new ≡ record work.old { assembler = work.new.assembler } }
{
    let alloc = work.alloc;
    match work.assembler.piece(alloc, message) {
        Ok(piece) => Ok(piece),
        Err(TxnError::Memory) => Err(Halt::Memory),
        Err(error) => Err(Halt::Txn { number, error }),
    }
}

/// Takes the next message by its bytes, and returns its piece of the open transaction.
pub fn take_message(work: &mut SessionState, number: u64, bytes: &Bytes) -> Result<Piece, Halt>
    requires { HasReadyWork work.old }
    ensures taken { (after : SpecLsn) (ms : List SpecMessage) (ahead : HasOpen ms work.old) →
        IsWork after ms (rest_in ahead) →
        IfOk result (HasTakenPiece after ms bytes.now work.old work.new) }
    ensures halt { (after : SpecLsn) (ms : List SpecMessage) (ahead : HasOpen ms work.old) →
        IsWork after ms (rest_in ahead) → IfErr result
        (λ h. (h ≡ Halt.Memory) ⊎ (IsMessageHalt number bytes.now h
        ⊎ IsTxnHalt number after ms bytes.now work.old h)) }
    ensures same { work.new ≡ record work.old { assembler = work.new.assembler } }
{
    let message = decode_message(work.alloc, number, bytes)?;
    take_piece(work, number, message)
}

// Follows changes of the open transaction, and returns the records that they release.
fn follow_changes(work: &mut SessionState, changes: &Seq<Change>) -> Result<Vec<Record>, Halt>
    requires { StatesChanges work.old changes.now }
    ensures follows { (after : SpecLsn) (m : SpecMessage) (ms : List SpecMessage)
        (start : Following) (released : List SpecRecord) →
        IsStated after m ms changes.now work.old → FollowsOpen ms start released work.old →
        IfOk result (λ records. FollowsOpen (m ∷ ms) start (released ++ records.items) work.new) }
    ensures halt { (after : SpecLsn) (m : SpecMessage) (ms : List SpecMessage)
        (start : Following) (released : List SpecRecord) →
        IsStated after m ms changes.now work.old → FollowsOpen ms start released work.old →
        IfErr result (λ h. (h ≡ Halt.Memory) ⊎ IsClashIn (clash_of start.identity start.infos
        (open_commit work.old.offset.infos (m ∷ ms))) h) }
    ensures same { work.new ≡ record work.old { follower = work.new.follower } }
{
    let Some(head) = work.assembler.head() else {
        unreachable!()
    };
    let list = changes.items();
    let mut records = Vec::new(work.alloc);
    for change in list {
        let mut more = work.follower.change(&head, change, work.now_ms)?;
        records.append(&mut more)?;
    }
    Ok(records)
}

/// Follows the changes that the newest message states. The records that are known not to be the
/// last of the open transaction are appended in batches, the last of which stays gathered.
pub fn deliver_changes<K: Sink>(
    work: &mut SessionState,
    changes: &Seq<Change>,
    sink: &mut K,
    report: &mut Report,
) -> Result<(), Halt>
    requires live { IsTrue (K.is_live sink.old) }
    requires states { StatesChanges work.old changes.now }
    requires since { work.old.since < work.old.every }
    ensures delivers { (after : SpecLsn) (m : SpecMessage) (ms : List SpecMessage)
        (start : Following) (put : List SpecRecord) → IsStated after m ms changes.now work.old →
        IsAmidWork ms start put work.old → DeliversOpen K.Sink
        (open_commit work.old.offset.infos (m ∷ ms)) (m ∷ ms) start put (resting start work.old)
        work.new sink.old sink.new report.old report.new result }
    ensures same { work.new ≡ record work.old {
      follower = work.new.follower;
      batch = work.new.batch;
    } }
    ensures counts { CountsOnlyRecords report.old report.new }
    ensures device { KeepsSink K.Sink sink.old sink.new result Halt.Sink }
{
    // Each number has 64 bits.
    let (_records, _chunks, _rows) = (report.records, report.chunks, report.snapshot_rows);
    let _now = work.now_ms;
    let records = follow_changes(work, changes)?;
    append_records(work.alloc, sink, &mut work.batch, records, false, report)
}

/// Ends the open transaction: appends the rest of its records, or those of the window that its
/// watermark closes. Returns whether it closed a window.
pub fn deliver_commit<K: Sink>(
    work: &mut SessionState,
    ended: &Ended,
    sink: &mut K,
    report: &mut Report,
) -> Result<bool, Halt>
    requires live { IsTrue (K.is_live sink.old) }
    requires ends { EndsOpen work.old ended.now }
    requires since { work.old.since < work.old.every }
    requires commits { report.old.commits < 2 ^ 63 }
    ensures delivers { (ms : List SpecMessage) (start : Following) (put : List SpecRecord) →
        IsAmidWork ms start put work.old → begin_of ms ≡ Some ended.now.head →
        DeliversCommit K.Sink (commit_by ended.now (changes_so_far work.old.offset.infos ms)) put
        (resting start work.old) work.new sink.old sink.new report.old report.new result }
    ensures device { KeepsSink K.Sink sink.old sink.new result Halt.Sink }
{
    // Each count has 64 bits.
    let (_records, _chunks, _rows) = (report.records, report.chunks, report.snapshot_rows);
    let snapshot = ended.mark.is_some();
    let records = work.follower.end(ended, work.now_ms)?;
    let closed = snapshot && !records.is_empty();
    put_all(work.alloc, sink, &mut work.batch, records, snapshot, report)?;
    work.offset.lsn = ended.head.lsn;
    work.offset.end_lsn = ended.end_lsn;
    work.since += 1;
    report.commits += 1;
    Ok(closed)
}
