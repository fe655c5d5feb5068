//! The messages of a log, each masked before it is processed.

ghost use Rattle.std.specs.Prelude.{◌≡◌, ◌∷◌, [], List, Option, IfOk, OnOk, is_some};
ghost use Rattle.dbl_pgmsg.specs.declared.messages.Message.{Message};
ghost use Rattle.dbl_pgmsg.specs.Grammar.{FitsFields};
ghost use Rattle.dbl_model_commit.specs.Past.{begin_of};
ghost use Rattle.dbl_hooks_masks.specs.declared.masking.Masking.{Masking};
ghost use Rattle.dblog_replay.specs.declared.options.LogOptions.{LogOptions};
ghost use Rattle.dblog_replay.specs.Following.{FollowsMasked, IsReplaying, TakesMasked};
ghost use Rattle.dblog_replay.specs.Masked.{masked_with, all_masked, AreMapped};

use crate::log_fault::LogFault;
use crate::options::LogOptions;
use crate::replay::Replayer;
use dbl_hooks_masks::{BuiltinMasker, Mapper, Masking};
use dbl_model_table::Commit;
use dbl_pgmsg::Message;
use std::alloc::{AllocError, Global};

/// A replayer whose messages are masked, if a mask is requested.
#[derive(Drop)]
pub struct MaskingReplayer {
    mapper: Option<Mapper<BuiltinMasker>>,
    pub replayer: Replayer,
}

// What masks the messages of a new log.
fn mapper_of(
    alloc: Global,
    mask: &Option<Masking>,
) -> Result<Option<Mapper<BuiltinMasker>>, AllocError>
    ensures { IfOk result (AreMapped mask.now []) }
{
    let Some(masking) = mask else {
        return Ok(None);
    };
    let table = masking.table.copy(alloc)?;
    let column = masking.column.copy(alloc)?;
    let masker = BuiltinMasker {
        alloc,
        mask: masking.mask,
    };
    Ok(Some(Mapper::make(alloc, table, column, masker)))
}

// Masks the next message, if a mask is requested.
fn mask_message(
    mapper: &mut Option<Mapper<BuiltinMasker>>,
    message: Message,
) -> Result<Message, AllocError>
    ensures masked { (mask : Option Masking) (past : List Message) →
        AreMapped mask past mapper.old →
        IfOk result (λ masked. masked ≡ masked_with mask past message) }
    ensures knows { (mask : Option Masking) (past : List Message) →
        AreMapped mask past mapper.old →
        OnOk result (AreMapped mask (message ∷ past) mapper.new) }
{
    match mapper {
        Some(mapper) => mapper.message(message),
        None => Ok(message),
    }
}

impl MaskingReplayer {
    /// The state before any message.
    pub fn make(alloc: Global, options: LogOptions) -> Result<MaskingReplayer, AllocError>
        ensures { IfOk result (FollowsMasked options []) }
    {
        let mapper = mapper_of(alloc, &options.mask)?;
        let replayer = Replayer::make(alloc, options)?;
        Ok(MaskingReplayer { mapper, replayer })
    }

    /// Whether a transaction is open. Takes no memory.
    pub fn inside(&self) -> bool
        ensures { (options : LogOptions) (ms : List Message) → FollowsMasked options ms self.now →
            result ≡ is_some (begin_of (all_masked options.mask ms)) }
    {
        self.replayer.inside()
    }

    /// Masks and processes the next message, which has this number, and returns the commit that it
    /// ends.
    pub fn take(
        &mut self,
        alloc: Global,
        number: u64,
        message: Message,
    ) -> Result<Option<Commit>, LogFault>
        requires replaying { IsReplaying self.old }
        requires fits { FitsFields message }
        ensures { (options : LogOptions) (ms : List Message) → FollowsMasked options ms self.old →
            TakesMasked options ms number message self.new result }
    {
        let masked = mask_message(&mut self.mapper, message)?;
        self.replayer.take(alloc, number, masked)
    }
}
