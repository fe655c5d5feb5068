//! The texts of a window's watermarks.

ghost use Rattle.std.specs.Prelude.{◌≡◌, ◌↔◌, IsTrue, IfOk};
ghost use Rattle.dbl_model_history.specs.MarkTexts.{mark_text};
ghost use Rattle.dbl_model_history.specs.MarkTexts.Side.{Low, High};

use dbl_base::Text;
use std::alloc::{AllocError, Global};

/// The text `<incarnation>-<number>-L`.
pub(crate) fn low_text(alloc: Global, incarnation: u64, number: u64) -> Result<Text, AllocError>
    ensures { IfOk result (λ text. text ≡ mark_text incarnation number Low) }
{
    Ok(Text::make(format!(in alloc; "{incarnation}-{number}-L")?))
}

/// The text `<incarnation>-<number>-H`.
pub(crate) fn high_text(alloc: Global, incarnation: u64, number: u64) -> Result<Text, AllocError>
    ensures { IfOk result (λ text. text ≡ mark_text incarnation number High) }
{
    Ok(Text::make(format!(in alloc; "{incarnation}-{number}-H")?))
}

/// Whether two texts are equal.
pub(crate) fn is_same(a: &Text, b: &Text) -> bool
    ensures { IsTrue result ↔ (a.now ≡ b.now) }
{
    a.as_str() == b.as_str()
}
