ghost use Rattle.std.specs.Prelude.{◌≡◌, take, chars, encode_utf8_all, IfOk};
ghost use Rattle.std.specs.String.{string_bytes};
ghost use Rattle.dbl_hooks_masks.specs.Masks.{masked, stars};

use crate::mask::Mask;
use dbl_base::Text;
use std::alloc::{AllocError, Global};

fn show_stars(alloc: Global, text: &str, most: usize) -> Result<String, AllocError>
    ensures { IfOk result (λ shown. string_bytes shown ≡ stars most text.now) }
{
    text.chars().take(most).map(|_| '*').collect(alloc)
}

fn show_first(alloc: Global, text: &str, most: usize) -> Result<String, AllocError>
    ensures { IfOk result
        (λ shown. string_bytes shown ≡ encode_utf8_all (take most (chars text.now))) }
{
    text.chars().take(most).collect(alloc)
}

/// The mask of a text.
pub fn mask_text(alloc: Global, mask: Mask, text: &Text) -> Result<Text, AllocError>
    ensures { IfOk result (λ shown. shown ≡ masked mask text.now) }
{
    let shown = match mask {
        Mask::Stars(most) => show_stars(alloc, text.as_str(), most as usize)?,
        Mask::First(most) => show_first(alloc, text.as_str(), most as usize)?,
    };
    Ok(Text::make(shown))
}
