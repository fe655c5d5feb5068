ghost use Rattle.std.specs.Prelude.{◌≡◌, IfOk};

use crate::text::Text;
use std::alloc::{AllocError, Global};

/// A value of which an equal one can be made, with memory of its own.
pub trait DeepCopy: Drop {
    /// Makes an equal value.
    fn deep_copy(&self, alloc: Global) -> Result<Self, AllocError>
        ensures { IfOk result (λ copy. copy ≡ self.now) };
}

impl DeepCopy for Text {
    fn deep_copy(&self, alloc: Global) -> Result<Text, AllocError> {
        self.copy(alloc)
    }
}

impl<T: DeepCopy> DeepCopy for Option<T> {
    fn deep_copy(&self, alloc: Global) -> Result<Option<T>, AllocError> {
        match self {
            Some(value) => Ok(Some(value.deep_copy(alloc)?)),
            None => Ok(None),
        }
    }
}

/// Makes a vector of equal items.
pub fn copy_items<T: DeepCopy>(alloc: Global, items: &[T]) -> Result<Vec<T>, AllocError>
    ensures { IfOk result (λ copies. copies.items ≡ items.now) }
{
    let mut copies = Vec::new(alloc);
    for item in items {
        copies.push(item.deep_copy(alloc)?)?;
    }
    Ok(copies)
}
