//! Theorem, as the contract of an empty function.

ghost use Rattle.dbl_script_laws.specs.Language.{LinesSay};

/// A line of a workload says what the language says, and nothing else.
pub fn lines_say()
    ensures { LinesSay }
{}
