//! Theorems about the tags; the functions have empty bodies.

ghost use Rattle.std.specs.Prelude.{◌≡◌, ℕ, Option};
ghost use Rattle.dbl_pgmsg_tags.specs.declared.tags.CellKind.{CellKind};
ghost use Rattle.dbl_pgmsg_tags.specs.Tags.{IsKindOf};

/// The cells that begin with a byte are of one kind at most.
pub fn one_kind()
    ensures { (tag : ℕ) (first second : Option CellKind) → IsKindOf tag first →
        IsKindOf tag second → first ≡ second }
{}
