//! Theorems about the contents that a crash may leave; the functions have empty bodies.

ghost use Rattle.std.specs.Prelude.{◌≡◌, ◌↔◌, ℕ, List, [], ◌∷◌, ◌++◌};
ghost use Rattle.dbl_disk.specs.declared.extent.Extent.{Extent};
ghost use Rattle.dbl_disk.specs.Disks.{MayLeave};

/// A crash leaves the stable contents with each of the ranges written since the sync torn, one
/// after another.
pub fn torn_writes_add_up()
    ensures none { (stable crashed : List ℕ) → MayLeave stable [] crashed ↔ (crashed ≡ stable) }
    ensures more { (stable crashed : List ℕ) (extents : List Extent) (extent : Extent) →
        MayLeave stable (extents ++ extent ∷ []) crashed ↔
        ((before : List ℕ) × MayLeave stable extents before ×
        MayLeave before (extent ∷ []) crashed) }
{}
