ghost use Rattle.std.specs.Prelude.{◌≡◌, ◌↔◌, ◌++◌, [], length, map, IsTrue, IfOk, OnOk, OnErr};
ghost use Rattle.dbl_source_log.specs.declared.logged.Logged.TheVariants.{Changes};
ghost use Rattle.dbl_source_scripted.specs.Moves.{HasRoom};
ghost use Rattle.dbl_source_scripted.specs.AlteredRows.{bare_alteration};
ghost use Rattle.dbl_source_scripted.specs.Played.{altered_at, bare_commits};
ghost use Rattle.dbl_source_scripted.specs.Steps.{HasPlayed};

use dbl_base::Seq;
use dbl_model_table::RawTable;
use dbl_pgmsg::Message;
use dbl_source_log::Logged;
use std::alloc::{AllocError, Global};

/// The limit of a history's number of commits: 2^40.
pub const COMMIT_LIMIT: usize = 1 << 40;

/// The commits of other clients at one call: each inner list has the change messages of one commit,
/// in order.
#[derive(Drop)]
pub struct Move {
    /// Commits before the call reads the log.
    pub before: Seq<Seq<Message>>,
    /// Commits after a `select` takes its rows, and before it returns; ignored at other calls.
    pub inside: Seq<Seq<Message>>,
}

/// An alteration at the call with this number, from 1: the table of this name gets these columns.
#[derive(Drop)]
pub(crate) struct PlannedAlteration {
    pub call: u64,
    pub raw: RawTable,
}

/// Whether the history has room for further commits, some from before a call and some of its own.
/// Takes no memory.
pub fn has_room(count: usize, before: usize, own: usize) -> bool
    ensures { IsTrue result ↔ HasRoom count before own }
{
    count < COMMIT_LIMIT && before < COMMIT_LIMIT - count && own < COMMIT_LIMIT - count - before
}

/// The commits of other clients after the last move: none.
pub(crate) fn no_move(alloc: Global) -> Move
    ensures before { result.before ≡ [] }
    ensures inside { result.inside ≡ [] }
{
    Move {
        before: Seq::make(Vec::new(alloc)),
        inside: Seq::make(Vec::new(alloc)),
    }
}

/// The number of alterations at this call. Takes no memory.
pub(crate) fn count_altered(alters: &[PlannedAlteration], call: u64) -> usize
    ensures { result ≡ length (altered_at call alters.now) }
{
    let mut count = 0;
    for alter in alters {
        if alter.call == call {
            count += 1;
        }
    }
    count
}

// The alteration of this table to these columns, without its rows.
fn bare_alteration(alloc: Global, raw: &RawTable) -> Result<Logged, AllocError>
    ensures { IfOk result (λ entry. entry ≡ bare_alteration raw.now) }
{
    Ok(Logged::Alter {
        name: raw.name.copy(alloc)?,
        columns: raw.columns.copy(alloc)?,
        rows: Seq::make(Vec::new(alloc)),
    })
}

/// Appends the alterations at this call, in order, each as one commit of the log without its rows;
/// only some first ones if memory runs out.
pub(crate) fn append_altered(
    alloc: Global,
    log: &mut Vec<Logged>,
    alters: &[PlannedAlteration],
    call: u64,
) -> Result<(), AllocError>
    ensures ok { OnOk result (log.new.items
        ≡ log.old.items ++ map bare_alteration (altered_at call alters.now)) }
    ensures err { OnErr result (HasPlayed (map bare_alteration (altered_at call alters.now))
        log.old.items log.new.items) }
    ensures none { altered_at call alters.now ≡ [] → OnErr result ⊥ }
{
    for alter in alters {
        if alter.call == call {
            log.push(bare_alteration(alloc, &alter.raw)?)?;
        }
    }
    Ok(())
}

/// Appends each list as one commit of the log, in order; only some first ones if memory runs out.
pub(crate) fn append(log: &mut Vec<Logged>, commits: Vec<Seq<Message>>) -> Result<(), AllocError>
    ensures ok { OnOk result (log.new.items ≡ log.old.items ++ map Changes commits.items) }
    ensures err { OnErr result
        (HasPlayed (map Changes commits.items) log.old.items log.new.items) }
    ensures none { commits.items ≡ [] → OnErr result ⊥ }
{
    for messages in commits {
        log.push(Logged::Changes(messages))?;
    }
    Ok(())
}

/// Appends the alterations at this call, and then each list, as commits of the log; only some first
/// ones if memory runs out.
pub(crate) fn append_before(
    alloc: Global,
    log: &mut Vec<Logged>,
    alters: &[PlannedAlteration],
    call: u64,
    before: Vec<Seq<Message>>,
) -> Result<(), AllocError>
    ensures ok { OnOk result (log.new.items
        ≡ log.old.items ++ bare_commits (altered_at call alters.now) before.items) }
    ensures err { OnErr result (HasPlayed (bare_commits (altered_at call alters.now) before.items)
        log.old.items log.new.items) }
    ensures none { bare_commits (altered_at call alters.now) before.items ≡ []
        → OnErr result ⊥ }
{
    append_altered(alloc, log, alters, call)?;
    append(log, before)
}
