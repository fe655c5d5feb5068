//! Theorems about masked messages; the functions have empty bodies.

ghost use Rattle.std.specs.Prelude.{List};
ghost use Rattle.dbl_pgmsg.specs.declared.messages.Message.{Message};
ghost use Rattle.dbl_pgmsg.specs.Grammar.{Fits, FitsFields};
ghost use Rattle.dbl_hooks_masks.specs.declared.masking.Masking.{Masking};
ghost use Rattle.dbl_hooks_masks.specs.Messages.{masked_message};

/// A masked message can be encoded if the message can: no mask is longer than its text.
pub fn masked_messages_fit()
    ensures fields { (plan : Masking) (ms : List Message) (message : Message) →
        FitsFields message → FitsFields (masked_message plan ms message) }
    ensures whole { (plan : Masking) (ms : List Message) (message : Message) →
        Fits message → Fits (masked_message plan ms message) }
{}
