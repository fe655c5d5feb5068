//! The next message of a session.

ghost use Rattle.std.specs.Prelude.{◌≡◌, ◌⊎◌, ◌<◌, ◌≤◌, Option, None, Ok, Some, false, true};
ghost use Rattle.dbl_capture.specs.ReadSteps.{IsReadyToRead, KeepsRead, PutsRead};
ghost use Rattle.dbl_capture.specs.ReadSteps.{ReadsMessage, ReportsRead, StopsAtRead};
ghost use Rattle.dbl_source.specs.Keeps.{KeepsSource};
ghost use Rattle.dbl_topic.specs.Keeps.{KeepsSink};

use dbl_capture_work::{Halt, Report, SessionState, deliver_changes, deliver_commit, take_message};
use dbl_disk::Disk;
use dbl_model_commit::Piece;
use dbl_offset::OffsetStore;
use dbl_source::Source;
use dbl_topic::Sink;

// Whether the offset is to be stored now: a window was closed, or enough commits were followed.
fn is_due(work: &SessionState, closed: bool) -> bool
    requires { work.now.since ≤ work.now.every }
    ensures due { result ≡ true → (closed ≡ true) ⊎ (work.now.every ≤ work.now.since) }
    ensures open { result ≡ false → (closed ≡ false) × (work.now.since < work.now.every) }
{
    closed || work.since >= work.every
}

/// Reads the next message, and follows the changes that it states, or the commit that it ends.
/// Returns None if nothing is left, and else whether the offset is due to be stored.
pub(crate) fn read_and_deliver<S: Source, K: Sink, D: Disk>(
    work: &mut SessionState,
    src: &mut S,
    sink: &mut K,
    store: &OffsetStore<D>,
    report: &mut Report,
) -> Result<Option<bool>, Halt>
    requires { IsReadyToRead S.Source K.Sink work.old src.old sink.old report.old }
    ensures session { KeepsRead S.Source K.Sink D.Disk work.old work.new src.old src.new sink.old
        sink.new store.now report.old report.new result }
    ensures puts { PutsRead S.Source K.Sink work.old work.new src.old src.new sink.old sink.new
        store.now report.old report.new result }
    ensures state { ReadsMessage S.Source work.old work.new src.old src.new report.old report.new
        result }
    ensures report { ReportsRead S.Source work.old work.new src.old src.new store.now report.old
        report.new result }
    ensures stops { StopsAtRead result }
    ensures source { KeepsSource S.Source src.old src.new result Halt.Source }
    ensures sink { KeepsSink K.Sink sink.old sink.new result Halt.Sink }
{
    match src.read()? {
        Some(bytes) => {
            report.messages += 1;
            match take_message(work, report.messages, &bytes)? {
                Piece::Nothing => Ok(Some(false)),
                Piece::Changed(changes) => {
                    deliver_changes(work, &changes, sink, report)?;
                    Ok(Some(false))
                }
                Piece::Ended(ended) => {
                    let closed = deliver_commit(work, &ended, sink, report)?;
                    Ok(Some(is_due(work, closed)))
                }
            }
        }
        None => Ok(None),
    }
}
