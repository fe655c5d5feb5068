//! The clap parser of a command.

ghost use Rattle.std.specs.Prelude.{◌≡◌, false, IfOk, map};
ghost use Rattle.clap.specs.Words.{app_of, rule_of};
ghost use Rattle.dbl_cli.specs.Names.{all_named};
ghost use Rattle.dbl_cli.specs.Parsers.{given_rule, given_rules, given_place};
ghost use Rattle.dbl_cli.specs.Parsers.{with_rules, bare_app, app};

use crate::names::Name;
use clap::{Arg, ArgAction};
use std::alloc::{AllocError, Global};

/// The name of the positional arguments in clap.
pub const PLACE: &str = "WORD";

fn argument<'a>(alloc: Global, name: Name) -> Arg<'a>
    ensures rule { rule_of result ≡ given_rule name.has_value name.text.now }
    ensures own { result.global ≡ false }
{
    let argument = Arg::new(alloc, name.text).long(name.text);
    if name.has_value {
        argument.action(ArgAction::Set)
    } else {
        argument.action(ArgAction::SetTrue)
    }
}

fn place<'a>(alloc: Global) -> Arg<'a>
    ensures rule { rule_of result ≡ given_place }
    ensures own { result.global ≡ false }
{
    Arg::new(alloc, PLACE).action(ArgAction::Append)
}

fn bare<'a>(alloc: Global) -> clap::Command<'a>
    ensures { app_of result ≡ bare_app }
{
    clap::Command::new(alloc, "dblog")
        .no_binary_name(true)
        .disable_help_flag(true)
}

fn with_names<'a>(alloc: Global, names: &[Name]) -> Result<clap::Command<'a>, AllocError>
    ensures { IfOk result
        (λ c. app_of c ≡ with_rules bare_app (given_rules (all_named names.now))) }
{
    let mut parser = bare(alloc);
    for name in names {
        parser = parser.arg(argument(alloc, *name))?;
    }
    Ok(parser)
}

/// The clap parser for these flags and options, and for positional arguments.
pub fn parser_of<'a>(
    alloc: Global,
    names: &[Name],
    has_places: bool,
) -> Result<clap::Command<'a>, AllocError>
    ensures { IfOk result (λ c. app_of c ≡ app (all_named names.now) has_places) }
{
    let parser = with_names(alloc, names)?;
    if has_places {
        return Ok(parser.arg(place(alloc))?);
    }
    Ok(parser)
}
