//! Theorem about workloads; the function has an empty body.

ghost use Rattle.dbl_script.specs.Ranges.{ScriptsAreInRange};

/// In each parsed script names are texts, column names have no zero byte, tables have at most 1,600
/// columns, OIDs have 32 bits, and sessions have nonempty names.
pub fn scripts_are_in_range()
    ensures { ScriptsAreInRange }
{}
