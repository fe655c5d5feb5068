//! Theorems about the grammar; the functions have empty bodies.

ghost use Rattle.std.specs.Prelude.{◌≡◌, ◌⊎◌, ℕ, List};
ghost use Rattle.dbl_cli_commands.specs.declared.commands.Command.{Command};
ghost use Rattle.dbl_cli.specs.Commands.{Spells};

/// Arguments parse as at most one command.
pub fn words_spell_one_command()
    ensures { (words : List (List ℕ)) (one other : Command) → Spells words one →
        Spells words other → one ≡ other }
{}

/// Whether arguments parse as a command is decidable.
pub fn words_spell_or_not()
    ensures { (words : List (List ℕ)) → ((command : Command) × Spells words command) ⊎
        ((command : Command) → Spells words command → ⊥) }
{}
