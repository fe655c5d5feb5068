ghost use Rattle.std.specs.Prelude.{◌≡◌, IfOk};

use crate::copies::{DeepCopy, copy_items};
use std::alloc::{AllocError, Global};
use std::cmp::Ordering;
use std::marker::Model;

/// A `Vec` in a field of a public type, which contracts see as the list of its items.
#[derive(Debug, Drop)]
pub struct Seq<T> {
    vec: Vec<T>,
}

/// A byte string.
pub type Bytes = Seq<u8>;

impl<T> Model for Seq<T> {
    ghost use Rattle.std.specs.Prelude.{List};

    ghost Value = { List T };

    ghost view = { λ s. s.vec.items };
}

impl<T> Seq<T> {
    /// Wraps the vector.
    pub fn make(items: Vec<T>) -> Seq<T>
        ensures { result ≡ items.items }
    {
        Seq { vec: items }
    }

    /// Borrows the items.
    pub fn items(&self) -> &Vec<T>
        ensures { result.now.items ≡ self.now }
    {
        &self.vec
    }

    /// Unwraps the vector.
    pub fn into_items(self) -> Vec<T>
        ensures { result.items ≡ self }
    {
        self.vec
    }
}

impl<T: DeepCopy> Seq<T> {
    /// Makes an equal list, with memory of its own.
    pub fn copy(&self, alloc: Global) -> Result<Seq<T>, AllocError>
        ensures { IfOk result (λ copy. copy ≡ self.now) }
    {
        Ok(Seq {
            vec: copy_items(alloc, self.vec.as_slice())?,
        })
    }
}

impl<T: PartialEq> PartialEq for Seq<T> {
    ghost use Rattle.std.specs.Cmp.Lexicographic.{pointwise, lists_per};

    ghost eq = { pointwise T.eq };

    ghost laws = { lists_per T.laws };

    fn eq(&self, other: &Seq<T>) -> bool {
        self.vec == other.vec
    }
}

impl<T: Eq> Eq for Seq<T> {
    ghost use Rattle.std.specs.Cmp.Lexicographic.{lists_equiv};

    ghost laws = { lists_equiv T.Eq.laws };
}

impl<T: Ord> Ord for Seq<T> {
    ghost use Rattle.std.specs.Cmp.Lexicographic.{slice_cmp, lists_total, lists_agrees, lists_ties};

    ghost cmp = { slice_cmp T.cmp };

    ghost total = { lists_total T.total };

    ghost matches_partial_cmp = { λ x y. lists_agrees T.matches_partial_cmp x y };

    ghost matches_eq = { λ x y. lists_ties T.cmp T.matches_eq x y };

    fn cmp(&self, other: &Seq<T>) -> Ordering {
        self.vec.cmp(&other.vec)
    }
}

impl<T: PartialOrd> PartialOrd for Seq<T> {
    ghost use Rattle.std.specs.Cmp.Lexicographic.{slice_partial_cmp, lists_po};

    ghost partial_cmp = { slice_partial_cmp T.partial_cmp };

    ghost laws = { lists_po T.PartialOrd.laws };

    fn partial_cmp(&self, other: &Seq<T>) -> Option<Ordering> {
        self.vec.partial_cmp(&other.vec)
    }
}
