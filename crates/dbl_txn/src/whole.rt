ghost use Rattle.std.specs.Prelude.{◌≡◌, ◌⊎◌, List, [], ◌++◌, None, Some, OnOk, IfOk, IfErr};
ghost use Rattle.dbl_base.specs.declared.lsn.Lsn.{Lsn};
ghost use Rattle.dbl_pgmsg.specs.declared.messages.Message.{Message};
ghost use Rattle.dbl_model_table.specs.declared.table.TableInfo.{TableInfo};
ghost use Rattle.dbl_model_commit.specs.Stated.{commits_of, list_of};
ghost use Rattle.dbl_model_commit.specs.Blocks.{onto, States, first_transaction_fault};
ghost use Rattle.dbl_txn.specs.Stands.{StandsWhole};

use crate::Assembler;
use dbl_model_commit::TxnError;
use dbl_model_table::Commit;
use dbl_pgmsg::Message;
use std::alloc::{AllocError, Global};

fn keep(commits: &mut Vec<Commit>, ended: Option<Commit>) -> Result<(), AllocError>
    ensures { OnOk result (commits.new.items ≡ commits.old.items ++ list_of ended) }
{
    match ended {
        Some(commit) => Ok(commits.push(commit)?),
        None => Ok(()),
    }
}

/// Processes messages in order, and returns their commits, or the first error, after which the
/// assembler must not be used.
pub fn take_all(
    alloc: Global,
    assembler: &mut Assembler,
    messages: Vec<Message>,
) -> Result<Vec<Commit>, TxnError>
    ensures stands { (infos : List TableInfo) (after : Lsn) (ms : List Message) →
        StandsWhole infos after ms assembler.old →
        IfOk result (λ _. StandsWhole infos after (onto ms messages.items) assembler.new) }
    ensures commits { (infos : List TableInfo) (after : Lsn) (ms : List Message) →
        StandsWhole infos after ms assembler.old →
        IfOk result (λ commits. commits_of infos
        (onto ms messages.items) ≡ commits_of infos ms ++ commits.items) }
    ensures clean { (infos : List TableInfo) (after : Lsn) (ms : List Message) →
        StandsWhole infos after ms assembler.old →
        IfOk result (λ _. first_transaction_fault infos after ms messages.items ≡ None) }
    ensures blocks { (infos : List TableInfo) (after : Lsn) →
        StandsWhole infos after [] assembler.old →
        IfOk result
        (λ commits. (rest : List Message) × States infos messages.items commits.items rest) }
    ensures refused { (infos : List TableInfo) (after : Lsn) (ms : List Message) →
        StandsWhole infos after ms assembler.old →
        IfErr result
        (λ e. (e ≡ TxnError.Memory)
        ⊎ (first_transaction_fault infos after ms messages.items ≡ Some e)) }
{
    let mut commits = Vec::new(alloc);
    for message in messages {
        let ended = assembler.take(alloc, message)?;
        keep(&mut commits, ended)?;
    }
    Ok(commits)
}
