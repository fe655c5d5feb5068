//! Theorems about rules; the functions have empty bodies.

ghost use Rattle.std.specs.Prelude.{◌↔◌, ◌≤◌, ℕ, IfSome, IsTrue, length};
ghost use Rattle.dbl_record.specs.declared.record.Record.{Record};
ghost use Rattle.dbl_hooks_gate.specs.declared.rule.Rule.TheVariants.{MaxValue};
ghost use Rattle.dbl_hooks_gate.specs.Rules.{is_allowed};

/// A rule of a maximum length allows a record if and only if it has no value, or one of at most so
/// many bytes.
pub fn allowed_values_are_short()
    ensures { (most : ℕ) (item : Record) → IsTrue (is_allowed (MaxValue most) item) ↔
        IfSome item.value (λ value. length value ≤ most) }
{}
