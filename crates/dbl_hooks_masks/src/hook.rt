ghost use Rattle.std.specs.Prelude.{◌≡◌, IfOk};
ghost use Rattle.std.proofs.Props.{props};
ghost use Rattle.dbl_hooks_masks.specs.Masks.{masked};

use crate::mask::Mask;
use crate::masker::Masker;
use dbl_base::Text;
use std::alloc::AllocError;

/// A function that masks texts.
pub type TextFn = Box<dyn Fn(&Text) -> Result<Text, AllocError>>;

/// A stored function, with the fact that it returns the mask of every text.
#[derive(Drop)]
pub struct Hook {
    pub mask: Mask,
    pub function: TextFn,
    ghost callable: { TextFn.IsAlwaysCallable function },
    ghost masks: { (text : _) (r : _) → TextFn.post function text r →
        IfOk r (λ shown. shown ≡ masked mask text.now) } by { Prim.hlevel props },
}

impl Hook {
    /// Stores a function that returns the mask of every text, unless memory runs out.
    pub fn keep(mask: Mask, function: TextFn) -> Hook
        requires callable { TextFn.IsAlwaysCallable function }
        requires masks { (text : _) (r : _) → TextFn.post function text r →
            IfOk r (λ shown. shown ≡ masked mask text.now) }
        ensures mask { result.mask ≡ mask }
        ensures function { result.function ≡ function }
    {
        Hook { mask, function }
    }
}

impl Masker for Hook {
    ghost mask = { λ h. h.mask };

    fn apply(&self, text: &Text) -> Result<Text, AllocError> {
        (self.function)(text)
    }
}
