ghost use Rattle.std.specs.Prelude.{◌≡◌, IfOk};
ghost use Rattle.dbl_hooks_masks.specs.declared.mask.Mask.{Mask};
ghost use Rattle.dbl_hooks_masks.specs.Masks.{masked};

use crate::mask::Mask;
use crate::texts::mask_text;
use dbl_base::Text;
use std::alloc::{AllocError, Global};

/// What masks texts: a stored function of the caller, or one of this crate.
pub trait Masker: Drop {
    ghost mask: { Self → Mask };

    /// The mask of a text.
    fn apply(&self, text: &Text) -> Result<Text, AllocError>
        ensures { IfOk result (λ shown. shown ≡ masked (mask self.now) text.now) };
}

/// Masks texts by `mask_text`.
#[derive(Drop)]
pub struct BuiltinMasker {
    pub alloc: Global,
    pub mask: Mask,
}

impl Masker for BuiltinMasker {
    ghost mask = { λ m. m.mask };

    fn apply(&self, text: &Text) -> Result<Text, AllocError> {
        mask_text(self.alloc, self.mask, text)
    }
}
