//! A theorem about steps: the function does nothing, its contract is the theorem.

ghost use Rattle.dbl_tables_changes.specs.Laws.{HoldersAreFirst};

/// The session that blocks another is the first in byte order of the others with a lock concerned.
pub fn holders_are_first()
    ensures { HoldersAreFirst }
{}
